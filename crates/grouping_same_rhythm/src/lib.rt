// Rhythm groups and pattern groups: own intervals, intervals and ratios.
#![tactic(auto)]

pub mod groups;
pub mod own;
pub mod owns;
pub mod patterns;
