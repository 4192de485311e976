ghost use Rattle.std.specs.Prelude.{◌≡◌, not, position, None, Some, MatchResult};
ghost use Rattle.alphabet.specs.Characters.{is_character};
ghost use Rattle.alphabet.specs.Readings.{opening, reading, characters_of};

use crate::characters::is_character;
use crate::fault::{Fault, Refusal};
use crate::held::Held;
use crate::turn::Turn;

/// The widest text.
pub const WIDEST: usize = 34;

/// What a scheme reads of a text: its characters, in the order of the format's turn.
#[derive(Clone, Copy)]
pub struct Reading {
    text: Held<WIDEST>,
}

// Where the first byte stands that is no character, counted from 0.
fn stray(text: &[u8]) -> Option<usize>
    ensures { result ≡ position (λ b. not (is_character b)) text.now }
{
    text.iter().position(|byte| !is_character(*byte))
}

impl Reading {
    /// The reading of a text of 1 to 34 characters. Refuses any other width, then a stray byte by its place, then
    /// a turned text of fewer than five characters.
    pub fn of(turn: Turn, text: &[u8]) -> Result<Reading, Fault>
        ensures { MatchResult result (λ x. (opening turn text.now ≡ None) × (characters_of x ≡ reading turn text.now)) (λ f. opening turn text.now ≡ Some f) }
    {
        let width = text.len();
        if width == 0 || width > WIDEST {
            return Err(Refusal::Width.into());
        }
        if let Some(i) = stray(text) {
            return Err(Fault::new(Refusal::Stray, 0, i + 1));
        }
        if turn == Turn::Turned && width < 5 {
            return Err(Fault::new(Refusal::Width, 1, 0));
        }
        let (front, rest) = text.split_at(turn.moved_by());
        let mut moved = Held::new();
        moved.extend_from_slice(rest);
        moved.extend_from_slice(front);
        Ok(Reading { text: moved })
    }

    /// The characters in reading order.
    pub fn characters(&self) -> &[u8]
        ensures { result.now ≡ characters_of self.now }
    {
        self.text.as_slice()
    }
}
