//! The five pure systems of ISO 7064: one engine over modulus, radix, alphabets and key range.
//!
//! A pure system MOD m-r multiplies its running value by the radix r, adds the count of the next character and takes
//! the remainder by the modulus m; a number is good where 1 is left. ISNI ends in a MOD 11-2 character, as
//! 000000012146438X; MOD 97-10 guards references and accounts, as 79444.
#![tactic(auto)]

mod systems;

pub use keys::{KeyLength, KeyRange};
pub use systems::{Parameters, Pure};
