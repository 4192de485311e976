ghost use Rattle.std.specs.Prelude.{◌≡◌};
ghost use Rattle.alphabet.specs.Characters.{is_character, base_value};

use crate::counts::Alphabet;

/// Whether a byte is a character: a digit, a capital letter or the asterisk.
pub fn is_character(byte: u8) -> bool
    ensures { result ≡ is_character byte }
{
    matches!(byte, b'0'..=b'9' | b'A'..=b'Z' | b'*')
}

/// The base value of a character: 0 to 9 for digits, 10 to 35 for letters, 36 for the asterisk.
pub fn base_value(byte: u8) -> Option<u8>
    ensures { result ≡ base_value byte }
{
    Alphabet::Full.count(byte)
}
