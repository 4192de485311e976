ghost use Rattle.std.specs.Prelude.{ℕ, Decides};
ghost use Rattle.letter.specs.Slips.{Stand, Pair, Replacements, Exchanges, LetterSlips};

use crate::form::{LetterForm, MODULUS};
use alphabet::base_value;

// Whether a digit and a letter stand for each other after a running value.
fn stand(value: u16, digit: u8, letter: u8) -> bool
    ensures { Decides result (Stand value digit letter) }
{
    match (base_value(digit), base_value(letter)) {
        (Some(digit @ 0..=9), Some(letter @ 10..=35)) => {
            (90 * u32::from(value) + u32::from(letter)) % u32::from(MODULUS) == u32::from(digit)
        }
        _ => false,
    }
}

// Whether a letter and a digit are one of the pairs that may change places.
fn pair(letter: u8, digit: u8) -> bool
    ensures { Decides result (Pair letter digit) }
{
    matches!((letter, digit), (b'B', b'1') | (b'M', b'2') | (b'X', b'3'))
}

impl LetterForm {
    /// Whether a slip passes that puts `new` for `old` after the running value `value`, where it leaves a fit reading.
    #[tactic(auto, using(crate::proofs::Changes::letter_slips))]
    pub fn replacement_passes(self, value: u16, old: u8, new: u8) -> bool
        ensures rule { Decides result (Replacements value old new) }
        ensures list { LetterSlips }
    {
        stand(value, old, new) || stand(value, new, old)
    }

    /// Whether a slip passes that exchanges two neighbours, where it leaves a fit reading. The running value before them
    /// does not matter.
    #[tactic(auto, using(crate::proofs::Changes::letter_slips))]
    pub fn exchange_passes(self, first: u8, second: u8) -> bool
        ensures rule { (p : ℕ) → Decides result (Exchanges p first second) }
        ensures list { LetterSlips }
    {
        pair(first, second) || pair(second, first)
    }
}
