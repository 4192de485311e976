ghost use Rattle.std.specs.Prelude.{◌≡◌, Decides};
ghost use Rattle.national.specs.French.{french_count, french_count_at, french_rules, EqualCount, FrenchSlips};
ghost use Rattle.national.specs.FrenchLaws;

use crate::ranges::{KEYS, MODULUS};
use alphabet::Alphabet;
use keys::step;
use scheme::Engine;

/// The key of a French account number (RIB): ten digits for bank and branch, eleven digits or letters for the account, and two
/// key digits. 20041010050500013M02606 is such a number.
#[derive(Clone, Copy, PartialEq, Eq, Debug)]
pub struct FrenchKey;

// The one width.
const WIDTH: usize = 23;

// What a character counts in the account.
fn count(character: u8) -> Option<u8>
    ensures { result ≡ french_count character }
{
    match character as char {
        '0'..='9' => Some(character - b'0'),
        'A'..='I' => Some(character - b'A' + 1),
        'J'..='R' => Some(character - b'J' + 1),
        'S'..='Z' => Some(character - b'S' + 2),
        _ => None,
    }
}

// What a character counts at a place: letters in the account alone, which is at places 11 to 21.
fn count_at(place: usize, character: u8) -> Option<u8>
    ensures { result ≡ french_count_at place character }
{
    match place {
        11..=21 => count(character),
        _ => Alphabet::Digits.count(character),
    }
}

// Whether two characters have a count, and it is the same.
fn equal_counts(one: u8, other: u8) -> bool
    ensures { Decides result (EqualCount one other) }
{
    match (count(one), count(other)) {
        (Some(first), Some(second)) => first == second,
        _ => false,
    }
}

impl FrenchKey {
    /// Whether a slip passes that replaces one character by the other, or exchanges the two, where it leaves a fit reading: where they
    /// have a count, and it is the same.
    ///
    /// A step tells counts apart and two steps tell their sequence, so that nothing else passes. B and K count the same: either may
    /// stand for the other in an account.
    #[tactic(auto, using(crate::specs::FrenchLaws::slips))]
    pub fn lets_pass(self, one: u8, other: u8) -> bool
        ensures rule { Decides result (EqualCount one other) }
        ensures list { FrenchSlips }
    {
        equal_counts(one, other)
    }
}

/// The rules of the French key, answered by its methods.
// (why each engine passes the questions about its key on by itself: see `KeyRange`)
impl Engine for FrenchKey {
    ghost rules = { λ _. french_rules };

    ghost keeps = { λ e. FrenchLaws.keeps };

    fn takes(&self, width: usize) -> bool {
        width == WIDTH
    }

    fn keys(&self) -> usize {
        KEYS.keys()
    }

    fn count(&self, _width: usize, place: usize, character: u8) -> Option<u8> {
        count_at(place, character)
    }

    fn in_range(&self, key: &[u8]) -> bool {
        KEYS.holds(key)
    }

    fn initial(&self) -> u16 {
        0
    }

    fn target(&self) -> u16 {
        0
    }

    fn step(&self, _width: usize, _place: usize, value: u16, count: u8) -> u16 {
        step(MODULUS, 10, value, count)
    }

    fn write_key(&self, _width: usize, value: u16, key: &mut [u8]) {
        KEYS.write_after(MODULUS, 10, self.target(), value, key)
    }
}
