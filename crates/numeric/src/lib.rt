// Helpers on f64 that every layer above uses, each with a promise that is an equation with a definition of specs/.
#![tactic(auto)]

pub mod canonical;
pub mod logistic;
pub mod near;
pub mod order;
pub mod range;
pub mod round;
pub mod tenths;
