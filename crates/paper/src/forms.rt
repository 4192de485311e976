ghost use Rattle.std.specs.Prelude.{◌≡◌, ◌≤◌, min, length, IfOk, if◌then◌else◌, Some, None, MatchResult};
ghost use Rattle.std.specs.Option.{option_map};
ghost use Rattle.alphabet.specs.Characters.{is_character};
ghost use Rattle.alphabet.specs.Holding.{held};
ghost use Rattle.alphabet.specs.Faults.{answer, fault_at};
ghost use Rattle.alphabet.specs.declared.fault.Refusal.TheVariants.{Stray};
ghost use Rattle.paper.specs.Paper.{is_gap, wrong_at, stripped, stripping, afterwards};

use alphabet::{Fault, Held, Refusal, WIDEST, is_character};

// One character more than a text may have, so that a form that is too wide stays too wide.
const KEPT: usize = WIDEST + 1;

// Where strip stands in a form.
#[derive(Clone, Copy, PartialEq, Eq, Debug)]
enum State {
    Start,
    InGroup,
    AfterGap,
}

// What a byte is to strip.
#[derive(Clone, Copy, PartialEq, Eq, Debug)]
enum Class {
    Character,
    Gap,
    Other,
}

impl From<u8> for Class {
    ghost use Rattle.paper.specs.declared.forms.Class.TheVariants.{Character, Gap, Other};

    ghost from_gives = { λ byte class. class ≡ (if is_character byte then Character else (if is_gap byte then Gap else Other)) };

    fn from(byte: u8) -> Class {
        match byte {
            // first what most bytes are
            _ if is_character(byte) => Class::Character,
            b' ' | b'-' => Class::Gap,
            _ => Class::Other,
        }
    }
}

// Runs the machine over the form, and holds its characters. After a gap, any byte but a character makes the gap the wrong one.
fn gather(form: &[u8]) -> Result<Held<KEPT>, Fault>
    ensures wrong { MatchResult result (λ _. wrong_at form.now ≡ None) (λ f. option_map (fault_at Stray 0) (wrong_at form.now) ≡ Some f) }
    ensures counted { IfOk result (λ h. length (held h) ≡ min KEPT (length (stripped form.now))) }
    ensures whole { IfOk result (λ h. length (held h) ≤ WIDEST → held h ≡ stripped form.now) }
    ensures short { IfOk result (λ h. length (held h) ≤ length form.now) }
{
    let mut state = State::Start;
    let mut text = Held::new();
    for (i, byte) in form.iter().enumerate() {
        state = match (state, Class::from(*byte)) {
            (_, Class::Character) => {
                text.push(*byte);
                State::InGroup
            }
            (State::InGroup, Class::Gap) => State::AfterGap,
            (State::AfterGap, _) => return Err(Fault::new(Refusal::Stray, 0, i)),
            _ => return Err(Fault::new(Refusal::Stray, 0, i + 1)),
        };
    }
    match state {
        State::AfterGap => Err(Fault::new(Refusal::Stray, 0, form.len())),
        State::Start | State::InGroup => Ok(text),
    }
}

/// Copies a paper form without its gaps to the front of `buffer`, and answers the width.
///
/// A gap is one space or hyphen between two characters. Refuses a stray byte or a misplaced gap by its place in the
/// form, then a width outside 1 to 34, then a buffer that is too short; a refusal leaves the buffer as it was.
pub fn strip(form: &[u8], buffer: &mut [u8]) -> Result<usize, Fault>
    ensures answers { result ≡ answer (length (stripped form.now)) (stripping form.now (length buffer.old)) }
    ensures after { buffer.new ≡ afterwards (stripping form.now (length buffer.old)) form.now buffer.old }
{
    let gathered = gather(form)?;
    let text = gathered.as_slice();
    let width = text.len();
    if width == 0 || width > WIDEST {
        return Err(Refusal::Width.into());
    }
    if buffer.len() < width {
        return Err(Refusal::Short.into());
    }
    buffer[..width].copy_from_slice(text);
    Ok(width)
}

#[cfg(test)]
mod tests {
    use super::*;
    use std::process::Abort;

    fn refused(rt: &impl Abort, form: &[u8], fault: Fault) {
        let mut buffer = [7; 40];
        assert_eq!(rt; strip(form, &mut buffer), Err(fault));
        assert_eq!(rt; buffer, [7; 40]);
    }

    #[test]
    fn keeps_the_characters(rt: HostRuntime) {
        let mut buffer = [7; 14];
        assert_eq!(rt; strip(b"BE68 5390-0754", &mut buffer), Ok(12));
        assert_eq!(rt; buffer, *b"BE6853900754\x07\x07");
        assert_eq!(rt; strip(b"*", &mut buffer), Ok(1));
        assert_eq!(rt; buffer, *b"*E6853900754\x07\x07");
    }

    #[test]
    fn names_the_wrong_byte(rt: HostRuntime) {
        refused(&rt, b"A--B", Fault::new(Refusal::Stray, 0, 2));
        refused(&rt, b"A-", Fault::new(Refusal::Stray, 0, 2));
        refused(&rt, b"-A", Fault::new(Refusal::Stray, 0, 1));
        refused(&rt, b"A B ", Fault::new(Refusal::Stray, 0, 4));
        refused(&rt, b"A?", Fault::new(Refusal::Stray, 0, 2));
        refused(&rt, b"a", Fault::new(Refusal::Stray, 0, 1));
    }

    #[test]
    fn holds_to_the_width_and_the_room(rt: HostRuntime) {
        refused(&rt, b"", Refusal::Width.into());
        refused(&rt, &[b'9'; 35], Refusal::Width.into());
        let mut room = [7; 34];
        assert_eq!(rt; strip(&[b'9'; 34], &mut room), Ok(34));
        assert_eq!(rt; strip(b"12-3", &mut room[..2]), Err(Refusal::Short.into()));
        assert_eq!(rt; room, [b'9'; 34]);
    }
}
