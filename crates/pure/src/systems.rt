ghost use Rattle.std.specs.Prelude.{◌≡◌, ◌<◌};
ghost use Rattle.pure.specs.Systems.{system, parameters_of, rules_of};
ghost use Rattle.pure.specs.Laws;

use alphabet::Alphabet::{self, Alphanumeric, Digits, DigitsX, Full, Letters};
use keys::KeyLength::{self, One, Two};
use keys::{KeyRange, step};
use scheme::Engine;

/// A pure system, by its modulus and radix.
#[derive(Clone, Copy, PartialEq, Eq, Debug)]
pub enum Pure {
    /// MOD 11-2: digits; one key character, a digit or X.
    Mod11R2,
    /// MOD 37-2: digits and letters; one key character, also the asterisk.
    Mod37R2,
    /// MOD 97-10: digits; two key digits.
    Mod97R10,
    /// MOD 661-26: letters; two key letters.
    Mod661R26,
    /// MOD 1271-36: digits and letters; two key characters.
    Mod1271R36,
}

/// What sets one pure system apart from another.
#[derive(Clone, Copy, PartialEq, Eq, Debug)]
pub struct Parameters {
    /// What remainders are taken by.
    pub modulus: u16,
    /// What a running value is multiplied by.
    pub radix: u16,
    /// The characters before the key.
    pub body: Alphabet,
    /// The keys, as many as the modulus has remainders (`Pure::parameters` gives no other). A key of two characters counts
    /// radix × first + second, since the radix is the size of its alphabet.
    pub key: KeyRange,
}

impl Pure {
    /// The parameters of the system.
    pub fn parameters(self) -> Parameters
        ensures value { result ≡ parameters_of self }
        ensures positive { (0 < result.modulus) × (0 < result.radix) }
    {
        match self {
            Pure::Mod11R2 => system(11, 2, Digits, DigitsX, One),
            Pure::Mod37R2 => system(37, 2, Alphanumeric, Full, One),
            Pure::Mod97R10 => system(97, 10, Digits, Digits, Two),
            Pure::Mod661R26 => system(661, 26, Letters, Letters, Two),
            Pure::Mod1271R36 => system(1271, 36, Alphanumeric, Alphanumeric, Two),
        }
    }
}

// A system with a key of that many characters of `alphabet`. One character may be any of them; two count from 2 on.
fn system(
    modulus: u16,
    radix: u16,
    body: Alphabet,
    alphabet: Alphabet,
    length: KeyLength,
) -> Parameters
    ensures { result ≡ system modulus radix body alphabet length }
{
    let least = match length {
        One => 0,
        Two => 2,
    };
    Parameters {
        modulus,
        radix,
        body,
        key: KeyRange {
            alphabet,
            length,
            least,
            many: modulus,
        },
    }
}

/// The rules of the pure systems, answered from their parameters.
// (why each engine passes the questions about its key on by itself: see `KeyRange`)
impl Engine for Pure {
    ghost rules = { λ s. rules_of s };

    ghost keeps = { λ s. Laws.keeps s };

    fn takes(&self, width: usize) -> bool {
        self.parameters().key.takes_any(width)
    }

    fn keys(&self) -> usize {
        self.parameters().key.keys()
    }

    fn count(&self, width: usize, place: usize, character: u8) -> Option<u8> {
        let parameters = self.parameters();
        parameters
            .key
            .alphabet_at(parameters.body, width, place)
            .count(character)
    }

    fn in_range(&self, key: &[u8]) -> bool {
        self.parameters().key.holds(key)
    }

    fn initial(&self) -> u16 {
        0
    }

    fn target(&self) -> u16 {
        1
    }

    fn step(&self, _width: usize, _place: usize, value: u16, count: u8) -> u16 {
        let parameters = self.parameters();
        step(parameters.modulus, parameters.radix, value, count)
    }

    fn write_key(&self, _width: usize, value: u16, key: &mut [u8]) {
        let parameters = self.parameters();
        parameters.key.write_after(
            parameters.modulus,
            parameters.radix,
            self.target(),
            value,
            key,
        )
    }
}
