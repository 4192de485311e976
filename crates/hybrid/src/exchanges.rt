ghost use Rattle.std.specs.Prelude.{◌≡◌, ◌+◌, Decides};
ghost use Rattle.keys.specs.KeyRanges.{count_in};
ghost use Rattle.hybrid.specs.Slips.{Halves, Exchanges, HybridSlips};
ghost use Rattle.hybrid.specs.Systems.{modulus_of, range_of, full};

use crate::system::Hybrid;

// Whether two numbers are the halves of the modulus, M / 2 and M / 2 + 1, in some order.
fn are_halves(modulus: u32, one: u32, other: u32) -> bool
    ensures { Decides result (Halves modulus one other) }
{
    let half = modulus / 2;
    (one == half && other == half + 1) || (one == half + 1 && other == half)
}

impl Hybrid {
    // The running value and the count of a character together, from 1 to M.
    fn joined_by(self, value: u16, character: u8) -> u32
        ensures { result ≡ full (modulus_of self) (value + count_in (range_of self) character) }
    {
        self.joined(value, self.range().count(character))
    }

    /// Whether the exchange of two neighbours passes, by the running value before them: where value + count, by remainder M
    /// with M for 0, is M / 2 for the one and M / 2 + 1 for the other.
    ///
    /// The two have to be allowed, or the outcome is not fit. Of an accepted number no other slip is accepted: no other exchange,
    /// and no replacement.
    #[tactic(auto, using(crate::specs::Laws::slips))]
    pub fn exchange_passes(self, value: u16, first: u8, second: u8) -> bool
        ensures rule { Decides result (Exchanges self value first second) }
        ensures list { HybridSlips self }
    {
        let one = self.joined_by(value, first);
        let other = self.joined_by(value, second);
        are_halves(u32::from(self.modulus()), one, other)
    }
}
