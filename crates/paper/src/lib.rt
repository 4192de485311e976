//! Paper forms: numbers as people write them, in groups with gaps between them.
#![tactic(auto)]

mod forms;

pub use forms::strip;
