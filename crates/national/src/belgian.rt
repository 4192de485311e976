ghost use Rattle.std.specs.Prelude.{◌≡◌, false};
ghost use Rattle.national.specs.Belgian.{belgian_key, belgian_rules, BelgianSlips};
ghost use Rattle.national.specs.BelgianLaws;

use crate::ranges::{KEYS, MODULUS};
use alphabet::Alphabet;
use scheme::Engine;

/// The key of a Belgian account number: twelve digits, of which the last two are the remainder of the first ten by 97, and 97
/// where nothing remains. 539007547034 is such a number, and so is 000000009797.
#[derive(Clone, Copy, PartialEq, Eq, Debug)]
pub struct BelgianKey;

// The one width.
const WIDTH: usize = 12;

// The key of ten digits that leave a running value. It is never 00. (So `full` of the hybrid systems. A call that other crates share may
// ask nothing, so it would have to answer for a modulus 0: no plainer.)
fn key_after(value: u16) -> u64
    ensures { result ≡ belgian_key value }
{
    match value % MODULUS {
        0 => u64::from(MODULUS),
        rest => u64::from(rest),
    }
}

impl BelgianKey {
    /// Whether a slip of an accepted number can pass: never, whichever it is.
    ///
    /// A replacement moves the running value by the difference of two digits times 1 or 10, and an exchange by 9 or 11 times it.
    /// None of these is a multiple of 97, and what follows keeps different running values apart.
    #[tactic(auto, using(crate::specs::BelgianLaws::no_slips))]
    pub fn lets_slips_pass(self) -> bool
        ensures never { result ≡ false }
        ensures list { BelgianSlips }
    {
        false
    }
}

/// The rules of the Belgian key, answered by its methods.
// (why each engine passes the questions about its key on by itself: see `KeyRange`)
impl Engine for BelgianKey {
    ghost rules = { λ _. belgian_rules };

    ghost keeps = { λ e. BelgianLaws.keeps };

    fn takes(&self, width: usize) -> bool {
        width == WIDTH
    }

    fn keys(&self) -> usize {
        KEYS.keys()
    }

    fn count(&self, _width: usize, _place: usize, character: u8) -> Option<u8> {
        Alphabet::Digits.count(character)
    }

    fn in_range(&self, key: &[u8]) -> bool {
        KEYS.holds(key)
    }

    fn initial(&self) -> u16 {
        0
    }

    fn target(&self) -> u16 {
        0
    }

    // Ten digits build the remainder, and the key's two are taken off it again.
    fn step(&self, _width: usize, place: usize, value: u16, count: u8) -> u16 {
        // of 64 bits: measured, a check took longer with remainders of 32
        let digit = u64::from(count);
        let modulus = u64::from(MODULUS);
        let sum = match place {
            11 => u64::from(value) + (modulus - 10 * digit % modulus),
            12 => u64::from(value) + (modulus - digit % modulus),
            _ => 10 * u64::from(value) + digit,
        };
        (sum % modulus) as u16
    }

    fn write_key(&self, _width: usize, value: u16, key: &mut [u8]) {
        KEYS.write(key_after(value), key)
    }
}
