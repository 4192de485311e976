//! Keys of one or two characters, by the numbers that they make, and steps by remainder.
#![tactic(auto)]

mod range;

pub use range::{KeyLength, KeyRange, step};
