ghost use Rattle.std.specs.Prelude.{◌≡◌, ◌==◌, [], Some, None, MatchOption, MatchResult, position};
ghost use Rattle.intake.specs.Lines.{cut_after, line_verdict, GoodLine};

use alphabet::{Fault, Refusal, WIDEST};
use formats::Format;
use paper::strip;

/// The most bytes that a line may have, its end not counted.
pub const LONGEST: usize = 128;

// Where the first space of a line stands.
fn space(line: &[u8]) -> Option<usize>
    ensures { result ≡ position (λ b. b == 32) line.now }
{
    line.iter().position(|byte| *byte == b' ')
}

// What stands before the first space of a line, and what behind it.
fn cut(line: &[u8]) -> Option<(&[u8], &[u8])>
    ensures { MatchOption result (cut_after [] line.now ≡ None) (λ p. cut_after [] line.now ≡ Some (p.0.now, p.1.now)) }
{
    let at = space(line)?;
    Some((&line[..at], &line[at + 1..]))
}

/// Judges one line, a format word, a space and a paper form: `Ok` exactly where the form is a valid number of the format.
///
/// Refuses a line of more than 128 bytes, then a word that no format has or that no space follows, then as `strip` does,
/// then as the format's check.
pub fn judge(line: &[u8]) -> Result<(), Fault>
    ensures answers { result ≡ line_verdict line.now }
    ensures exact { MatchResult result (λ _. GoodLine line.now) (λ _. GoodLine line.now → ⊥) }
{
    if line.len() > LONGEST {
        return Err(Refusal::Width.into());
    }
    let (word, form) = cut(line).ok_or(Refusal::Format)?;
    let format = Format::try_from(word)?;
    // by its rule `strip` fills the front of its caller's buffer, answers the width, and refuses a buffer that is too short
    let mut buffer = [0; WIDEST];
    let width = strip(form, &mut buffer)?;
    format.check(&buffer[..width])
}
