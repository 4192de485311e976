ghost use Rattle.std.specs.Prelude.{◌≡◌, false, Decides};
ghost use Rattle.alphabet.specs.Readings.{Text};
ghost use Rattle.alphabet.specs.Slips.{Slip};
ghost use Rattle.scheme.specs.Meaning.{Accepted};
ghost use Rattle.scheme.specs.Slips.{value_after, Passing, LawOfSlips, last_difference};

use crate::checking::value_over;
use crate::schemes::Scheme;

/// The running value after the first `places` characters of a reading, or after all where it has fewer.
pub fn value_after<S: Scheme>(scheme: &S, reading: &[u8], places: usize) -> S::Value
    ensures { result ≡ value_after (S.meaning scheme.now) reading.now places }
{
    let width = reading.len();
    value_over(scheme, width, &reading[..places.min(width)])
}

// How many first characters hold every difference of two readings of one width. (By `zip` and `rposition` the proof did not close.)
fn last_difference(one: &[u8], other: &[u8]) -> usize
    ensures { result ≡ last_difference one.now other.now }
{
    (0..one.len().min(other.len()))
        .rev()
        .find(|i| one[*i] != other[*i])
        .map_or(0, |i| i + 1)
}

/// Whether a slip of an accepted reading passes, that is, is accepted too: whether it is fit, and after the last place at which
/// the two differ their running values are the same.
///
/// What stands behind that place never brings two running values together again. Where the two are no accepted reading and a slip of
/// it, the answer is still whether the second is fit and these values are the same.
pub fn slip_passes<S: Scheme>(scheme: &S, reading: &[u8], slip: &[u8]) -> bool
    ensures answers { Decides result (Passing (S.meaning scheme.now) reading.now slip.now (last_difference reading.now slip.now)) }
    ensures exact { (S.meaning scheme.now).unfit ≡ false → Slip reading.now slip.now → Text reading.now → Accepted (S.meaning scheme.now) reading.now → Decides result (Accepted (S.meaning scheme.now) slip.now) }
    ensures law { (S.meaning scheme.now).unfit ≡ false → LawOfSlips (S.meaning scheme.now) }
{
    let place = last_difference(reading, slip);
    let before = value_after(scheme, reading, place);
    scheme.fit(slip) && scheme.same(before, value_after(scheme, slip, place))
}
