ghost use Rattle.std.specs.Prelude.{◌≡◌, ℕ, List, [], ◌∷◌, ◌++◌, length, nat_le};
ghost use Rattle.intake.specs.Inputs.{most_lines, fed, input_lines, ended_input, Split, Counts, Closed, Reads, ReadsMore, told, told_last};

use crate::judging::judge;
use crate::totals::{MOST_LINES, Totals};
use alphabet::{Fault, Held};

// One byte more than a line may have, so that a line that is too long stays too long.
const KEPT: usize = 129;

/// The bytes of a line that are kept while it is read.
pub type Line = Held<KEPT>;

/// The lines of an input, read a byte at a time, in memory that does not grow with the input.
// It does not keep what it has read, and a ghost field is a fact over the fields: so the clauses name the bytes that were read, and
// `Reads` ties them to what is held.
#[derive(Clone, Copy)]
pub struct Intake {
    line: Line,
    totals: Totals,
}

impl Intake {
    /// An intake that has read nothing.
    pub fn new() -> Intake
        ensures reads { Reads result [] }
        ensures lines { (bytes : List ℕ) → Split bytes (fed bytes).0 (fed bytes).1 }
    {
        Intake {
            line: Line::new(),
            totals: Totals::new(),
        }
    }

    /// Whether a million lines have ended, so that nothing that follows is read.
    pub fn full(&self) -> bool
        ensures { (bytes : List ℕ) → Reads self.now bytes → result ≡ nat_le most_lines (length (fed bytes).0) }
    {
        self.totals.lines() >= MOST_LINES
    }

    // Ends the open line and counts its verdict; the next line is empty.
    fn close_line(&mut self) -> Result<(), Fault>
        ensures { Closed self.old result self.new }
    {
        let verdict = judge(self.line.as_slice());
        self.line.clear();
        self.totals.note(&verdict);
        verdict
    }

    /// Reads one more byte. Answers the verdict of the line that it ends, if it ends one of the first million.
    pub fn byte(&mut self, byte: u8) -> Option<Result<(), Fault>>
        ensures reads { ReadsMore self.old (byte ∷ []) self.new }
        ensures answers { (bytes : List ℕ) → Reads self.old bytes → result ≡ told bytes byte }
    {
        // nearly every byte comes this way, so it asks for no count: after a million lines what is held means nothing
        if byte != b'\n' {
            self.line.push(byte);
            return None;
        }
        if self.full() {
            return None;
        }
        Some(self.close_line())
    }

    /// Reads the end of the input. Answers the verdict of a last line that lacks its end; the totals are then those of
    /// the whole input.
    pub fn finish(&mut self) -> Option<Result<(), Fault>>
        ensures reads { (bytes : List ℕ) → Reads self.old bytes → Reads self.new (ended_input bytes) }
        ensures counts { (bytes : List ℕ) → Reads self.old bytes → Counts self.new.totals (input_lines bytes) }
        ensures answers { (bytes : List ℕ) → Reads self.old bytes → result ≡ told_last bytes }
    {
        if self.full() || self.line.as_slice().is_empty() {
            return None;
        }
        Some(self.close_line())
    }

    /// The totals of the lines so far.
    pub fn totals(&self) -> Totals
        ensures { result ≡ self.now.totals }
    {
        self.totals
    }
}

#[cfg(test)]
mod tests {
    use super::*;

    fn fed(input: &[u8]) -> Intake {
        let mut intake = Intake::new();
        for byte in input {
            intake.byte(*byte);
        }
        intake
    }

    // Lines, ok and refused of a whole input.
    fn totals(input: &[u8]) -> (u32, u32, u32) {
        let mut intake = fed(input);
        intake.finish();
        let totals = intake.totals();
        (totals.lines(), totals.ok(), totals.refused())
    }

    // The number of the refusal of the last line, which lacks its end.
    fn last_refusal(input: &[u8]) -> Option<u8> {
        let fault = fed(input).finish()?.err()?;
        Some(fault.refusal.number())
    }

    #[test]
    fn counts_the_lines(rt: HostRuntime) {
        assert_eq!(rt;
            totals(b"MOD11-2 07940\nMOD11-2 07941\n\nMOD97-10 79444"),
            (4, 2, 2)
        );
        assert_eq!(rt; totals(b"MOD11-2 07940\n"), (1, 1, 0));
        assert_eq!(rt; totals(b""), (0, 0, 0));
    }

    #[test]
    fn holds_to_the_longest_line(rt: HostRuntime) {
        assert_eq!(rt; last_refusal(&[b'A'; 128]), Some(12));
        assert_eq!(rt; last_refusal(&[b'A'; 129]), Some(1));
        assert_eq!(rt; last_refusal(&[b'A'; 300]), Some(1));
    }

    #[test]
    fn reads_a_million_lines(rt: HostRuntime) {
        let mut intake = Intake::new();
        for _ in 0..MOST_LINES {
            assert!(rt; !intake.full());
            assert!(rt; intake.byte(b'\n').is_some());
        }
        assert!(rt; intake.full());
        assert!(rt; intake.byte(b'\n').is_none());
        assert_eq!(rt; intake.totals().lines(), MOST_LINES);
    }
}
