ghost use Rattle.std.specs.Prelude.{◌≡◌, ℕ, ◌+◌, ◌-◌, ◌<◌, ◌≤◌, false, List, length, slice_index};
ghost use Rattle.alphabet.specs.Readings.{moved_by, place_in_text, in_text, reading, narrow};

use crate::fault::Fault;

/// Where a format's reading begins.
#[derive(Clone, Copy, PartialEq, Eq, Debug)]
pub enum Turn {
    /// The reading is the text itself.
    Straight,
    /// The reading is the text with its first four characters moved to the end.
    Turned,
}

impl Turn {
    // How many characters of the text the turn moves to the end.
    pub(crate) fn moved_by(self) -> usize
        ensures { result ≡ moved_by self }
    {
        match self {
            Turn::Straight => 0,
            Turn::Turned => 4,
        }
    }

    /// The place in a text of `width` characters of a place in its reading; 0, which a fault has for none, stays 0.
    pub fn place_in_text(self, width: usize, place: usize) -> usize
        ensures place { result ≡ place_in_text self width place }
        ensures same { (t : List ℕ) → length t ≡ width → narrow self width ≡ false → 1 ≤ place → place ≤ width → slice_index t (result - 1) ≡ slice_index (reading self t) (place - 1) }
    {
        match self {
            Turn::Straight => place,
            Turn::Turned => {
                let last = width.saturating_sub(4);
                if place == 0 {
                    0
                } else if place <= last {
                    place + 4
                } else {
                    place - last
                }
            }
        }
    }
}

impl Fault {
    /// A fault of a reading, with its place in the written text of that width.
    pub fn in_text(self, turn: Turn, width: usize) -> Fault
        ensures { result ≡ in_text turn width self }
    {
        Fault {
            place: turn.place_in_text(width, self.place),
            ..self
        }
    }
}
