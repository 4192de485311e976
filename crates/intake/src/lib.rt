//! From the bytes of a file to verdicts: lines and totals.
#![tactic(auto)]

mod input;
mod judging;
mod totals;

pub use input::{Intake, Line};
pub use judging::{LONGEST, judge};
pub use totals::{MOST_LINES, Totals};
