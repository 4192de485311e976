ghost use Rattle.letter.specs.Form.{letter_rules};
ghost use Rattle.letter.specs.Laws;

use alphabet::Alphabet;
use keys::{KeyLength, KeyRange, step};
use scheme::Engine;

/// The letter form of MOD 97-10: digits and letters that end in two key digits, 02 to 98.
///
/// The characters make one decimal number, in which a letter is written as its base value: A is 10, Z is 35. A number is
/// good where it leaves 1 by 97. The LEI 5493001KJTIIGC8Y1R12 is such a number as it stands; the IBAN BE68539007547034 is
/// one once its first four characters have moved to the end, as 539007547034BE68.
#[derive(Clone, Copy, PartialEq, Eq, Debug)]
pub struct LetterForm;

pub(crate) const MODULUS: u16 = 97;

// The keys: two digits, 02 to 98.
const KEYS: KeyRange = KeyRange {
    alphabet: Alphabet::Digits,
    length: KeyLength::Two,
    least: 2,
    many: MODULUS,
};

/// The rules of the letter form, answered by its methods.
// (why each engine passes the questions about its key on by itself: see `KeyRange`)
impl Engine for LetterForm {
    ghost rules = { λ _. letter_rules };

    ghost keeps = { λ s. Laws.keeps };

    fn takes(&self, width: usize) -> bool {
        KEYS.takes_any(width)
    }

    fn keys(&self) -> usize {
        KEYS.keys()
    }

    fn count(&self, width: usize, place: usize, character: u8) -> Option<u8> {
        KEYS.alphabet_at(Alphabet::Alphanumeric, width, place)
            .count(character)
    }

    fn in_range(&self, key: &[u8]) -> bool {
        KEYS.holds(key)
    }

    fn initial(&self) -> u16 {
        0
    }

    fn target(&self) -> u16 {
        1
    }

    fn step(&self, _width: usize, _place: usize, value: u16, count: u8) -> u16 {
        // one decimal place for a digit, two for a letter
        let shift = if count < 10 { 10 } else { 100 };
        step(MODULUS, shift, value, count)
    }

    fn write_key(&self, _width: usize, value: u16, key: &mut [u8]) {
        KEYS.write_after(MODULUS, 10, self.target(), value, key)
    }
}

#[cfg(test)]
mod tests {
    use super::*;
    use alphabet::{Fault, Refusal, Turn};
    use scheme::check;
    use std::process::Abort;

    fn accepted(rt: &impl Abort, text: &[u8]) {
        assert_eq!(rt; check(&LetterForm, Turn::Straight, text), Ok(()));
    }

    fn refused(rt: &impl Abort, text: &[u8], refusal: Refusal, place: usize) {
        assert_eq!(rt;
            check(&LetterForm, Turn::Straight, text),
            Err(Fault::new(refusal, 1, place))
        );
    }

    #[test]
    fn accepts_the_examples(rt: HostRuntime) {
        accepted(&rt, b"539007547034BE68");
        accepted(&rt, b"5493001KJTIIGC8Y1R12");
        // B and 1 may change places
        accepted(&rt, b"0000000000000000B156");
        accepted(&rt, b"00000000000000001B56");
    }

    #[test]
    fn refuses_wrong_keys(rt: HostRuntime) {
        refused(&rt, b"00000000000000001B57", Refusal::Remainder, 0);
        refused(&rt, b"539007547034BEA8", Refusal::Kind, 15);
        refused(&rt, b"539007547034BE6X", Refusal::Kind, 16);
        refused(&rt, b"539007547034BE00", Refusal::Key, 15);
        refused(&rt, b"539007547034BE01", Refusal::Key, 15);
        refused(&rt, b"539007547034BE99", Refusal::Key, 15);
    }
}
