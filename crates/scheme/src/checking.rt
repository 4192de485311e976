ghost use Rattle.std.specs.Prelude.{◌≡◌, ◌+◌, ◌<◌, MatchResult};
ghost use Rattle.scheme.specs.Meaning.{run, run_from};
ghost use Rattle.scheme.specs.Verdicts.{Valid, verdict};

use crate::schemes::Scheme;
use alphabet::{Fault, Reading, Refusal, Turn};

// The running value after some characters, which are the first ones of a reading of that width.
pub(crate) fn value_over<S: Scheme>(scheme: &S, width: usize, characters: &[u8]) -> S::Value
    ensures { result ≡ run_from (S.meaning scheme.now) width 1 (S.meaning scheme.now).start characters.now }
{
    characters
        .iter()
        .enumerate()
        .fold(scheme.start(), |value, (i, character)| {
            scheme.next(width, i + 1, value, *character)
        })
}

/// The running value after the last character of a reading.
pub fn last_value<S: Scheme>(scheme: &S, reading: &[u8]) -> S::Value
    ensures { result ≡ run (S.meaning scheme.now) reading.now }
{
    value_over(scheme, reading.len(), reading)
}

/// Checks a text by a scheme: `Ok` exactly where the text is valid, else the first refusal in order.
///
/// The order is: a pile that is no scheme; a width outside 1 to 34; a byte that is no character; a turned text of fewer
/// than five; then the scheme's first fault, with its place in the written text.
pub fn check<S: Scheme>(scheme: &S, turn: Turn, text: &[u8]) -> Result<(), Fault>
    ensures answers { result ≡ verdict (S.meaning scheme.now) turn text.now }
    ensures exact { MatchResult result (λ _. Valid (S.meaning scheme.now) turn text.now) (λ _. Valid (S.meaning scheme.now) turn text.now → ⊥) }
{
    if scheme.unfit() {
        return Err(Refusal::Unfit.into());
    }
    let reading = Reading::of(turn, text)?;
    let characters = reading.characters();
    let last = last_value(scheme, characters);
    scheme
        .accept(characters, last)
        .map_err(|fault| fault.in_text(turn, text.len()))
}
