//! The letter form of MOD 97-10, as LEI, IBAN and RF references use it, and the slips that it lets pass.
#![tactic(auto)]

mod form;
mod slips;

pub use form::LetterForm;
