ghost use Rattle.std.specs.Prelude.{◌≡◌, Some};
ghost use Rattle.alphabet.specs.Faults.{number_of, of_no_layer, fault_at, printed};

use std::error::Error;
use std::fmt;

/// Why a call refuses, by the number that is printed.
#[derive(Clone, Copy, PartialEq, Eq, Debug)]
pub enum Refusal {
    /// Empty, above 34 characters, or a width that the layer or the format lacks.
    Width = 1,
    /// A byte that is no character, or a misplaced gap.
    Stray = 2,
    /// A character that is not allowed at its place.
    Kind = 3,
    /// A country that is not in the table, or a prefix that is missing.
    Prefix = 4,
    /// A key outside its range.
    Key = 5,
    /// Fit, but the last running value is not the good one.
    Remainder = 6,
    /// The number is in the register already.
    Standing = 7,
    /// A number in the register is one slip away.
    Twin = 8,
    /// The register has no blank row.
    Full = 9,
    /// The number is not in the register.
    Unknown = 10,
    /// A list or a buffer cannot hold the result.
    Short = 11,
    /// No such format word, or no space after it.
    Format = 12,
    /// A pile that is no scheme.
    Unfit = 13,
}

/// A refusal with the layer and the place that it concerns; 0 where it is of no layer or no place.
// 0 is how none is written, and a place of none stays none when it is moved: an option would say no more.
#[derive(Clone, Copy, PartialEq, Eq, Debug)]
pub struct Fault {
    /// Why.
    pub refusal: Refusal,
    /// The layer, from the outermost, which is 1.
    pub layer: usize,
    /// The place, from 1.
    pub place: usize,
}

impl Refusal {
    /// The number of the refusal, 1 to 13.
    pub fn number(self) -> u8
        ensures { result ≡ number_of self }
    {
        self as u8
    }
}

impl Fault {
    /// A fault by its three parts.
    pub fn new(refusal: Refusal, layer: usize, place: usize) -> Fault
        ensures { result ≡ fault_at refusal layer place }
    {
        Fault {
            refusal,
            layer,
            place,
        }
    }
}

/// A refusal of the whole text, which concerns no layer and no place.
impl From<Refusal> for Fault {
    ghost from_gives = { λ refusal fault. fault ≡ of_no_layer refusal };

    fn from(refusal: Refusal) -> Fault {
        Fault::new(refusal, 0, 0)
    }
}

/// Number, layer and place, with a space between them.
impl fmt::Display for Fault {
    ghost output = { λ fault. Some (printed fault) };

    fn fmt<W: fmt::Write>(&self, f: &mut fmt::Formatter<W>) -> fmt::Result {
        let number = self.refusal.number();
        let layer = self.layer;
        let place = self.place;
        write!(f, "{number} {layer} {place}")
    }
}

impl Error for Fault {}
