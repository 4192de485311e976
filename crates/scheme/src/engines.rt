ghost use Rattle.std.specs.Prelude.{◌≡◌};
ghost use Rattle.scheme.specs.Rules.{Rules, key_in, Keeps};

/// A single scheme that ends in a key and counts with numbers, by its rules.
///
/// The author shows that the rules keep what an engine keeps; the laws of a scheme follow from that, and every engine is a
/// `Scheme`. The methods have other names than those of `Scheme`, so that a call says which it means.
pub trait Engine {
    // What the engine is.
    ghost rules: { Self → Rules };

    /// Whether the engine has a width.
    fn takes(&self, width: usize) -> bool
        ensures { result ≡ (rules self.now).takes width };

    /// How many characters the key has.
    fn keys(&self) -> usize
        ensures { result ≡ (rules self.now).keys };

    /// What a character counts at a place, where it is allowed there.
    fn count(&self, width: usize, place: usize, character: u8) -> Option<u8>
        ensures { result ≡ (rules self.now).count width place character };

    /// Whether a key is in its range, by its characters.
    fn in_range(&self, key: &[u8]) -> bool
        ensures { result ≡ (rules self.now).in_range key.now };

    /// The running value before the first character.
    fn initial(&self) -> u16
        ensures { result ≡ (rules self.now).start };

    /// The one last running value that is good.
    fn target(&self) -> u16
        ensures { result ≡ (rules self.now).good };

    /// The running value after one more character that counts `count`. One that is not allowed steps with count 0.
    fn step(&self, width: usize, place: usize, value: u16, count: u8) -> u16
        ensures { result ≡ (rules self.now).step width place value count };

    /// Writes the key that belongs to the running value before it, into a slice of the key's length; a slice of another
    /// length stays as it is.
    fn write_key(&self, width: usize, value: u16, key: &mut [u8])
        ensures { key.new ≡ key_in (rules self.now).keys ((rules self.now).key width value) key.old };

    // What its author shows of that.
    ghost keeps: { (e : Self) → Keeps (rules e) };
}
