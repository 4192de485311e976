//! The keys of national account numbers: the Belgian and the French one, and the slips that each lets pass.
#![tactic(auto)]

mod belgian;
mod french;
mod ranges;

pub use belgian::BelgianKey;
pub use french::FrenchKey;
