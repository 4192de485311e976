//! Characters, texts and readings, and the refusals that every call answers by.
#![tactic(auto)]

mod characters;
mod counts;
mod fault;
mod held;
mod reading;
mod turn;

pub use characters::{base_value, is_character};
pub use counts::Alphabet;
pub use fault::{Fault, Refusal};
pub use held::Held;
pub use reading::{Reading, WIDEST};
pub use turn::Turn;
