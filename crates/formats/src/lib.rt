//! The formats: a word for each, and the check of a text by the format's scheme and turn.
#![tactic(auto)]

mod format;

pub use format::Format;
