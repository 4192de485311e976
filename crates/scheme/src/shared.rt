ghost use Rattle.std.specs.Prelude.{◌≡◌, ◌+◌, ◌-◌, ◌<◌, true, length, Decides};
ghost use Rattle.alphabet.specs.Faults.{answer};
ghost use Rattle.scheme.specs.Meaning.{run_by};
ghost use Rattle.scheme.specs.Rules.{next_by, misfit, uncounted, key_part, EndsInKey, filled, single, last as last_of, Sealed};

use crate::engines::Engine;
use alphabet::{Fault, Refusal};

// The first place of a character that is not allowed there.
fn first_uncounted<E: Engine>(engine: &E, reading: &[u8]) -> Option<usize>
    ensures { result ≡ uncounted (E.rules engine.now) (length reading.now) 1 reading.now }
{
    let width = reading.len();
    reading
        .iter()
        .enumerate()
        .position(|(i, character)| engine.count(width, i + 1, *character).is_none())
        .map(|i| i + 1)
}

// The characters of the key, at a width that the engine has.
fn key_part<'r, E: Engine>(engine: &E, reading: &'r [u8]) -> &'r [u8]
    requires { (E.rules engine.now).takes (length reading.now) ≡ true }
    ensures { result.now ≡ key_part (E.rules engine.now) reading.now }
{
    &reading[reading.len() - engine.keys()..]
}

/// Whether a reading has a width of the engine and ends in a key that is in its range, whatever stands before it.
pub fn ends_in_key<E: Engine>(engine: &E, reading: &[u8]) -> bool
    ensures { Decides result (EndsInKey (E.rules engine.now) reading.now) }
{
    engine.takes(reading.len()) && engine.in_range(key_part(engine, reading))
}

// Answers well where a reading is fit for an engine, else its first fault: a width that the engine lacks, a character
// that is not allowed at its place, a key out of range.
fn fitness<E: Engine>(engine: &E, reading: &[u8]) -> Result<(), Fault>
    ensures { result ≡ answer tt (misfit (E.rules engine.now) reading.now) }
{
    let width = reading.len();
    if !engine.takes(width) {
        return Err(Fault::new(Refusal::Width, 1, 0));
    }
    if let Some(place) = first_uncounted(engine, reading) {
        return Err(Fault::new(Refusal::Kind, 1, place));
    }
    if !engine.in_range(key_part(engine, reading)) {
        return Err(Fault::new(Refusal::Key, 1, width - engine.keys() + 1));
    }
    Ok(())
}

/// Whether a reading is fit for an engine.
pub fn fits<E: Engine>(engine: &E, reading: &[u8]) -> bool
    ensures { result ≡ (single (E.rules engine.now)).fit reading.now }
{
    fitness(engine, reading).is_ok()
}

/// Accepts a reading whose last running value is `last`, or answers its first fault; where it is fit, that is the
/// remainder.
pub fn accepts<E: Engine>(engine: &E, reading: &[u8], last: u16) -> Result<(), Fault>
    ensures { last ≡ last_of (E.rules engine.now) reading.now → result ≡ answer tt ((single (E.rules engine.now)).fault reading.now) }
{
    fitness(engine, reading)?;
    if last != engine.target() {
        return Err(Fault::new(Refusal::Remainder, 1, 0));
    }
    Ok(())
}

// The running value after one more character: one that is not allowed where it stands counts 0.
pub(crate) fn next_value<E: Engine>(
    engine: &E,
    width: usize,
    place: usize,
    value: u16,
    character: u8,
) -> u16
    ensures { result ≡ next_by (E.rules engine.now) width place value character }
{
    let count = engine.count(width, place, character).unwrap_or(0);
    engine.step(width, place, value, count)
}

// The running value before the key of a reading of `width`, after the characters before it. `value_over` would serve, an engine being a
// scheme; but that puts `fill`, which is the scheme's `key`, in a circle of calls, whose proof is by hand: no plainer.
fn value_before<E: Engine>(engine: &E, width: usize, characters: &[u8]) -> u16
    ensures { result ≡ run_by (next_by (E.rules engine.now)) width 1 (E.rules engine.now).start characters.now }
{
    characters
        .iter()
        .enumerate()
        .fold(engine.initial(), |value, (i, character)| {
            next_value(engine, width, i + 1, value, *character)
        })
}

/// Writes the one key of a reading into its last places, at a width that the engine has; at any other, nothing.
pub fn fill<E: Engine>(engine: &E, reading: &mut [u8])
    ensures after { reading.new ≡ filled (E.rules engine.now) reading.old }
    ensures good { Sealed (E.rules engine.now) reading.old reading.new }
{
    let width = reading.len();
    if engine.takes(width) {
        let end = width - engine.keys();
        let value = value_before(engine, width, &reading[..end]);
        engine.write_key(width, value, &mut reading[end..]);
    }
}
