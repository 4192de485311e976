ghost use Rattle.std.specs.Prelude.{◌≡◌, ◌+◌, ◌<◌, ◌≤◌};
ghost use Rattle.hybrid.specs.Systems.{modulus_of, alphabet_of, range_of, full as full_of, rules_of};
ghost use Rattle.hybrid.specs.Laws;

use alphabet::Alphabet;
use keys::{KeyLength, KeyRange};
use scheme::Engine;

/// A hybrid system, by its two moduli, M + 1 and M.
#[derive(Clone, Copy, PartialEq, Eq, Debug)]
pub enum Hybrid {
    /// MOD 11,10: digits.
    Mod11M10,
    /// MOD 27,26: letters, of which A counts 0.
    Mod27M26,
    /// MOD 37,36: digits and letters.
    Mod37M36,
}

// The remainder by the modulus, with the modulus for 0 (as the Belgian key has it; why that is written apart is said there).
fn full(modulus: u32, sum: u32) -> u32
    requires { 0 < modulus }
    ensures value { result ≡ full_of modulus sum }
    ensures bound { result ≤ modulus }
{
    match sum % modulus {
        0 => modulus,
        remainder => remainder,
    }
}

impl Hybrid {
    /// M, the modulus of the sum. That of the double is one more.
    pub fn modulus(self) -> u16
        ensures value { result ≡ modulus_of self }
        ensures positive { 0 < result }
    {
        match self {
            Hybrid::Mod11M10 => 10,
            Hybrid::Mod27M26 => 26,
            Hybrid::Mod37M36 => 36,
        }
    }

    /// The characters of the system, also of its key.
    pub fn alphabet(self) -> Alphabet
        ensures { result ≡ alphabet_of self }
    {
        match self {
            Hybrid::Mod11M10 => Alphabet::Digits,
            Hybrid::Mod27M26 => Alphabet::Letters,
            Hybrid::Mod37M36 => Alphabet::Alphanumeric,
        }
    }

    // The keys of the system: one character, of any count.
    pub(crate) fn range(self) -> KeyRange
        ensures { result ≡ range_of self }
    {
        KeyRange {
            alphabet: self.alphabet(),
            length: KeyLength::One,
            least: 0,
            many: self.modulus(),
        }
    }

    // The first half of a step: the running value and the count together, from 1 to M.
    pub(crate) fn joined(self, value: u16, count: u8) -> u32
        ensures value { result ≡ full_of (modulus_of self) (value + count) }
        ensures bound { result ≤ modulus_of self }
    {
        full(
            u32::from(self.modulus()),
            u32::from(value) + u32::from(count),
        )
    }
}

/// The rules of the hybrid systems, answered from M.
// (why each engine passes the questions about its key on by itself: see `KeyRange`)
impl Engine for Hybrid {
    ghost rules = { λ h. rules_of h };

    ghost keeps = { λ h. Laws.keeps h };

    fn takes(&self, width: usize) -> bool {
        self.range().takes_any(width)
    }

    fn keys(&self) -> usize {
        self.range().keys()
    }

    fn count(&self, _width: usize, _place: usize, character: u8) -> Option<u8> {
        self.alphabet().count(character)
    }

    fn in_range(&self, key: &[u8]) -> bool {
        self.range().holds(key)
    }

    fn initial(&self) -> u16 {
        self.modulus()
    }

    fn target(&self) -> u16 {
        2
    }

    fn step(&self, _width: usize, _place: usize, value: u16, count: u8) -> u16 {
        let modulus = u32::from(self.modulus());
        (2 * self.joined(value, count) % (modulus + 1)) as u16
    }

    fn write_key(&self, _width: usize, value: u16, key: &mut [u8]) {
        let modulus = u64::from(self.modulus());
        let number = (modulus + 1).saturating_sub(u64::from(value)) % modulus;
        self.range().write(number, key)
    }
}
