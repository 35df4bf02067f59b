// What a chart is, which charts are refused, and the two counters of an object.
#![tactic(auto)]

pub mod chart;
pub mod good;
pub mod object;
pub mod refusal;
pub mod room;
pub mod settings;
