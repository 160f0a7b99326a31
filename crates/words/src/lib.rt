// Total access to what is lent: each call tests its index, so that nothing is required of a caller.
#![tactic(auto)]

pub mod bytes;
pub mod marks;
pub mod states;
pub mod tables;
