// What a lent slice holds, and the loops that fill one from its front.
#![tactic(auto)]

pub mod fill;
pub mod narrow;
