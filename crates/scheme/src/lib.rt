//! What a scheme is, the check of a text by any scheme, when a slip passes it, and the engines, which are the schemes that
//! end in a key and count with numbers.
#![tactic(auto)]

mod checking;
mod engines;
mod schemes;
mod shared;
mod single;
mod slipping;

pub use checking::{check, last_value};
pub use engines::Engine;
pub use schemes::Scheme;
pub use shared::{accepts, ends_in_key, fill, fits};
pub use slipping::{slip_passes, value_after};
