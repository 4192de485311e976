ghost use Rattle.std.specs.Prelude.{◌+◌, ◌≤◌};

use alphabet::Fault;
use std::fmt;

/// The most lines that are read of an input.
pub const MOST_LINES: u32 = 1_000_000;

/// How many lines were ok, and how many were refused; at most a million together.
#[derive(Clone, Copy, PartialEq, Eq, Debug)]
pub struct Totals {
    ok: u32,
    refused: u32,
    ghost few: { ok + refused ≤ 1000000 },
}

impl Totals {
    ghost use Rattle.std.specs.Prelude.{◌≡◌, ℕ, min, List, [], length};
    ghost use Rattle.intake.specs.Inputs.{most_lines, Counts, Noted};

    // Nothing counted.
    pub(crate) fn new() -> Totals
        ensures { Counts result [] }
    {
        Totals { ok: 0, refused: 0 }
    }

    /// How many lines were ok.
    pub fn ok(&self) -> u32
        ensures { result ≡ self.now.ok }
    {
        self.ok
    }

    /// How many lines were refused.
    pub fn refused(&self) -> u32
        ensures { result ≡ self.now.refused }
    {
        self.refused
    }

    /// How many lines were read: those that were ok and those that were refused.
    pub fn lines(&self) -> u32
        ensures sum { result ≡ self.now.ok + self.now.refused }
        ensures lines { (ls : List (List ℕ)) → Counts self.now ls → result ≡ min most_lines (length ls) }
    {
        self.ok + self.refused
    }

    // Counts one more verdict, of the line after those that are counted.
    pub(crate) fn note(&mut self, verdict: &Result<(), Fault>)
        ensures { Noted self.old verdict.now self.new }
    {
        if self.lines() < MOST_LINES {
            match verdict {
                Ok(()) => self.ok += 1,
                Err(_) => self.refused += 1,
            }
        }
    }
}

/// `lines`, `ok` and `refused`, each with its count behind it.
impl fmt::Display for Totals {
    ghost use Rattle.std.specs.Prelude.{Some};
    ghost use Rattle.intake.specs.Inputs.{summary};

    ghost output = { λ totals. Some (summary totals) };

    fn fmt<W: fmt::Write>(&self, f: &mut fmt::Formatter<W>) -> fmt::Result {
        let lines = self.lines();
        let ok = self.ok;
        let refused = self.refused;
        write!(f, "lines {lines} ok {ok} refused {refused}")
    }
}
