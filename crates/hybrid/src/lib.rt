//! The three hybrid systems of ISO 7064: one engine over M.
//!
//! A hybrid system MOD M + 1, M adds the count of the next character to its running value and takes the remainder by M, with
//! M for 0; then it doubles that and takes the remainder by M + 1. A number is good where 2 is left, as 07945 under
//! MOD 11,10.
#![tactic(auto)]

mod exchanges;
mod system;

pub use system::Hybrid;
