// Stored cases of the original: reading them out of bytes, and holding lent slices to them.
#![tactic(auto)]

pub mod call;
pub mod case;
pub mod column;
pub mod form;
pub mod held;
pub mod room;
pub mod sentinel;
pub mod table;
