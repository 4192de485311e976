ghost use Rattle.std.specs.Prelude.{◌≡◌};
ghost use Rattle.scheme.specs.Rules.{key_in};
ghost use Rattle.keys.specs.KeyRanges.{keys_of, takes_any, in_key, alphabet_at, count_in, holds_key, symbol_in, symbols_of};
ghost use Rattle.keys.specs.Remainders.{step_by, number_after};

use alphabet::{Alphabet, WIDEST};

/// How many characters a key has.
#[derive(Clone, Copy, PartialEq, Eq, Debug)]
pub enum KeyLength {
    /// One character.
    One,
    /// Two characters.
    Two,
}

/// The keys of an engine, by the numbers that they make.
///
/// A key of one character makes its count; one of two makes size × first count + second count, where size is that of the
/// alphabet.
// Each engine passes what it is asked about its key on to its range, a line each. A trait for engines with a range, over `Engine`, would
// need a law of its own and have to stand beside `Scheme`: no plainer.
#[derive(Clone, Copy, PartialEq, Eq, Debug)]
pub struct KeyRange {
    /// The characters that a key is written in.
    pub alphabet: Alphabet,
    /// How many characters it has.
    pub length: KeyLength,
    /// The least number.
    pub least: u16,
    /// How many numbers there are, from the least on.
    pub many: u16,
}

/// The running value after a character that counts `count`, where each multiplies the value by `radix` and adds its count, by
/// remainder `modulus`. By no modulus it is 0, since nothing here may panic.
pub fn step(modulus: u16, radix: u16, value: u16, count: u8) -> u16
    ensures { result ≡ step_by modulus radix value count }
{
    // 32 bits hold the product of two numbers of 16
    let sum = u32::from(radix) * u32::from(value) + u32::from(count);
    sum.checked_rem(u32::from(modulus)).unwrap_or(0) as u16
}

impl KeyRange {
    /// How many characters a key has.
    pub fn keys(&self) -> usize
        ensures { result ≡ keys_of self.now.length }
    {
        match self.length {
            KeyLength::One => 1,
            KeyLength::Two => 2,
        }
    }

    /// Whether a width is one from one more than the key to 34, as most engines take them.
    pub fn takes_any(&self, width: usize) -> bool
        ensures { result ≡ takes_any self.now width }
    {
        self.keys() < width && width <= WIDEST
    }

    /// Whether a place is one of the key's, at such a width.
    // at any two numbers, as a scheme's step: so the two stay apart
    pub fn in_key(&self, width: usize, place: usize) -> bool
        ensures { result ≡ in_key self.now width place }
    {
        self.takes_any(width) && width - self.keys() < place && place <= width
    }

    /// The characters that may stand at a place: the key's in the key, those of `body` before it.
    pub fn alphabet_at(&self, body: Alphabet, width: usize, place: usize) -> Alphabet
        ensures { result ≡ alphabet_at self.now body width place }
    {
        if self.in_key(width, place) {
            self.alphabet
        } else {
            body
        }
    }

    /// What a character counts in a key: 0 where it is not allowed there, as in a step.
    pub fn count(&self, character: u8) -> u8
        ensures { result ≡ count_in self.now character }
    {
        self.alphabet.count(character).unwrap_or(0)
    }

    /// Whether a key has its length and makes a number of the range.
    pub fn holds(&self, key: &[u8]) -> bool
        ensures { result ≡ holds_key self.now key.now }
    {
        let number = match (self.length, key) {
            (KeyLength::One, [only]) => u64::from(self.count(*only)),
            (KeyLength::Two, [first, second]) => {
                let size = u64::from(self.alphabet.size());
                size * u64::from(self.count(*first)) + u64::from(self.count(*second))
            }
            _ => return false,
        };
        let least = u64::from(self.least);
        (least..least + u64::from(self.many)).contains(&number)
    }

    /// The number of the key that takes a running value to the remainder `target`, where each character of the key multiplies the
    /// value by `radix` and adds its count, by remainder `modulus`. By no modulus it is the least number, since nothing
    /// here may panic.
    // The four are each engine's own: a struct of them would be made at a call and taken apart in it.
    pub fn number_after(&self, modulus: u16, radix: u16, target: u16, value: u16) -> u64
        ensures { result ≡ number_after self.now modulus radix target value }
    {
        let least = u64::from(self.least);
        let modulus = u64::from(modulus);
        if modulus == 0 {
            return least;
        }
        let radix = u64::from(radix);
        let shifted = match self.length {
            KeyLength::One => radix * u64::from(value),
            KeyLength::Two => radix * (radix * u64::from(value)),
        };
        least + (u64::from(target) + (modulus - (shifted + least) % modulus)) % modulus
    }

    // The character of a count. A count that the alphabet lacks is never asked for; it has to be given some answer, since
    // nothing here may panic.
    fn symbol(&self, count: u64) -> u8
        ensures { result ≡ symbol_in self.now count }
    {
        u8::try_from(count)
            .ok()
            .and_then(|count| self.alphabet.symbol(count))
            .unwrap_or(b'0')
    }

    /// Writes the key that makes a number, into a slice of the key's length; a slice of another length stays as it is.
    #[inline]
    pub fn write(&self, number: u64, key: &mut [u8])
        ensures { key.new ≡ key_in (keys_of self.now.length) (symbols_of self.now number) key.old }
    {
        if key.len() != self.keys() {
            return;
        }
        match self.length {
            KeyLength::One => key[0] = self.symbol(number),
            KeyLength::Two => {
                let size = u64::from(self.alphabet.size());
                key[0] = self.symbol(number / size);
                key[1] = self.symbol(number % size);
            }
        }
    }

    /// Writes the key that takes a running value to the remainder `target`, the one of the number that `number_after` answers, into a
    /// slice of the key's length; a slice of another length stays as it is.
    pub fn write_after(&self, modulus: u16, radix: u16, target: u16, value: u16, key: &mut [u8])
        ensures { key.new ≡ key_in (keys_of self.now.length) (symbols_of self.now (number_after self.now modulus radix target value)) key.old }
    {
        self.write(self.number_after(modulus, radix, target, value), key)
    }
}
