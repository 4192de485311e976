use alphabet::Alphabet;
use keys::{KeyLength, KeyRange};

pub(crate) const MODULUS: u16 = 97;

// The keys of both: two digits, 01 to 97.
pub(crate) const KEYS: KeyRange = KeyRange {
    alphabet: Alphabet::Digits,
    length: KeyLength::Two,
    least: 1,
    many: MODULUS,
};
