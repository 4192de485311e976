ghost use Rattle.std.specs.Prelude.{◌≡◌, if◌then◌else◌, Some, None, nat_lt};
ghost use Rattle.alphabet.specs.Counts.{count_of, symbol_of, size};

/// The characters of a check system. Their counts are the numbers from 0 up, in the order given.
#[derive(Clone, Copy, PartialEq, Eq, Debug)]
pub enum Alphabet {
    /// 0 to 9.
    Digits,
    /// 0 to 9, then X.
    DigitsX,
    /// A to Z.
    Letters,
    /// 0 to 9, then A to Z.
    Alphanumeric,
    /// 0 to 9, A to Z, then the asterisk.
    Full,
}

impl Alphabet {
    /// What a byte counts, where it is a character of the alphabet.
    pub fn count(self, byte: u8) -> Option<u8>
        ensures { result ≡ count_of self byte }
    {
        match (self, byte) {
            (Alphabet::Letters, b'A'..=b'Z') => Some(byte - b'A'),
            (Alphabet::Letters, _) => None,
            (_, b'0'..=b'9') => Some(byte - b'0'),
            (Alphabet::DigitsX, b'X') => Some(10),
            (Alphabet::Alphanumeric | Alphabet::Full, b'A'..=b'Z') => Some(byte - b'A' + 10),
            (Alphabet::Full, b'*') => Some(36),
            _ => None,
        }
    }

    /// How many characters the alphabet has.
    pub fn size(self) -> u8
        ensures { result ≡ size self }
    {
        match self {
            Alphabet::Digits => 10,
            Alphabet::DigitsX => 11,
            Alphabet::Letters => 26,
            Alphabet::Alphanumeric => 36,
            Alphabet::Full => 37,
        }
    }

    /// The character that has a count, where the alphabet has one.
    pub fn symbol(self, count: u8) -> Option<u8>
        ensures { result ≡ (if nat_lt count (size self) then Some (symbol_of self count) else None) }
    {
        match (self, count) {
            (Alphabet::Letters, 0..=25) => Some(b'A' + count),
            (Alphabet::Letters, _) => None,
            (_, 0..=9) => Some(b'0' + count),
            (Alphabet::DigitsX, 10) => Some(b'X'),
            (Alphabet::Alphanumeric | Alphabet::Full, 10..=35) => Some(b'A' + (count - 10)),
            (Alphabet::Full, 36) => Some(b'*'),
            _ => None,
        }
    }
}
