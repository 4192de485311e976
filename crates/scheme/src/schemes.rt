ghost use Rattle.std.specs.Prelude.{◌≡◌, ◌-◌, ◌^◌, min, false, Decides};
ghost use Rattle.alphabet.specs.Faults.{answer};
ghost use Rattle.alphabet.specs.Readings.{Text};
ghost use Rattle.scheme.specs.Meaning.{Meaning, Lawful, run};

use alphabet::Fault;

/// A check scheme: one of ours, or one of your own.
///
/// Its author says by `meaning` what it is, shows once that the meaning keeps the laws, and shows of each method
/// that it answers as the meaning does. Code that works with any scheme rests on nothing else.
pub trait Scheme {
    /// The running values.
    // `Copy` alone: a bound `Eq` would ask more of an author's type than `same`, which decides what it would decide
    type Value: Copy;

    // What the scheme is, in one value.
    ghost meaning: { Self → Meaning Self.Value };

    /// Whether this is no scheme at all, as schemes set one over another may be.
    fn unfit(&self) -> bool
        ensures { result ≡ (meaning self.now).unfit };

    /// The number of layers, or the largest `usize` where there are more.
    fn layers(&self) -> usize
        ensures { result ≡ min (meaning self.now).layers (2 ^ 64 - 1) };

    /// How many last places hold every key place, or the largest `usize` where there are more.
    fn reach(&self) -> usize
        ensures { result ≡ min (meaning self.now).reach (2 ^ 64 - 1) };

    /// The running value before the first character.
    fn start(&self) -> Self::Value
        ensures { result ≡ (meaning self.now).start };

    /// The running value after `character`, which stands at `place` of a reading of `width` characters.
    // a step is defined at any width and place, so a type for the two would promise nothing, and each call would have to make one
    fn next(&self, width: usize, place: usize, value: Self::Value, character: u8) -> Self::Value
        ensures { result ≡ (meaning self.now).next width place value character };

    /// The one last running value that is good.
    fn good(&self) -> Self::Value
        ensures { result ≡ (meaning self.now).good };

    /// Whether two running values are the same.
    fn same(&self, one: Self::Value, other: Self::Value) -> bool
        ensures { Decides result (one ≡ other) };

    /// Whether a reading is fit.
    fn fit(&self, reading: &[u8]) -> bool
        ensures { result ≡ (meaning self.now).fit reading.now };

    /// Accepts a reading whose last running value is `last`, or answers its first fault.
    fn accept(&self, reading: &[u8], last: Self::Value) -> Result<(), Fault>
        ensures { (meaning self.now).unfit ≡ false → Text reading.now → last ≡ run (meaning self.now) reading.now → result ≡ answer tt ((meaning self.now).fault reading.now) };

    /// Fills the key places of a reading with the key that makes it accepted, where there is one.
    fn key(&self, reading: &mut [u8])
        ensures { reading.new ≡ (meaning self.now).keyed reading.old };

    // What its author shows of that.
    ghost lawful: { (s : Self) → (meaning s).unfit ≡ false → Lawful (meaning s) };
}
