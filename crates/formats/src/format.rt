ghost use Rattle.std.specs.Prelude.{◌≡◌, find, MatchOption, MatchResult, ◌≢◌};
ghost use Rattle.std.specs.Str.{bytes_eq};
ghost use Rattle.formats.specs.declared.format.Format.{Format as Named};
ghost use Rattle.formats.specs.Formats.{word_of, format_of, format_verdict, FormatValid};

use alphabet::{Fault, Refusal, Turn};
use pure::Pure;
use scheme::check;

/// What a number is written as.
#[derive(Clone, Copy, PartialEq, Eq, Debug)]
pub enum Format {
    /// A pure system of ISO 7064, alone.
    System(Pure),
}

// The formats among which a word is looked for. That none is missing follows from the contract of `named`.
const EVERY: [Format; 5] = [
    Format::System(Pure::Mod11R2),
    Format::System(Pure::Mod37R2),
    Format::System(Pure::Mod97R10),
    Format::System(Pure::Mod661R26),
    Format::System(Pure::Mod1271R36),
];

// The first of some formats that has a word.
fn search(formats: &[Format], word: &[u8]) -> Option<Format>
    ensures { result ≡ find (λ f. bytes_eq word.now (word_of f)) formats.now }
{
    formats.iter().copied().find(|format| word == format.word())
}

impl Format {
    /// The word of the format, as it is written before a number.
    pub fn word(self) -> &'static [u8]
        ensures { result.now ≡ word_of self }
    {
        match self {
            Format::System(Pure::Mod11R2) => b"MOD11-2",
            Format::System(Pure::Mod37R2) => b"MOD37-2",
            Format::System(Pure::Mod97R10) => b"MOD97-10",
            Format::System(Pure::Mod661R26) => b"MOD661-26",
            Format::System(Pure::Mod1271R36) => b"MOD1271-36",
        }
    }

    /// The format that has a word, byte for byte.
    pub fn named(word: &[u8]) -> Option<Format>
        ensures value { result ≡ format_of word.now }
        ensures exact { MatchOption result ((f : Named) → word_of f ≢ word.now) (λ f. word_of f ≡ word.now) }
    {
        search(&EVERY, word)
    }

    /// Checks a text by the format: `Ok` exactly where the text is valid, else the first refusal in order.
    pub fn check(self, text: &[u8]) -> Result<(), Fault>
        ensures answers { result ≡ format_verdict self text.now }
        ensures exact { MatchResult result (λ _. FormatValid self text.now) (λ _. FormatValid self text.now → ⊥) }
    {
        match self {
            Format::System(system) => check(&system, Turn::Straight, text),
        }
    }
}

/// The format of a word, byte for byte; any other word is refused.
impl TryFrom<&[u8]> for Format {
    type Error = Refusal;

    ghost use Rattle.std.specs.Prelude.{ok_or};
    ghost use Rattle.alphabet.specs.declared.fault.Refusal.TheVariants.{Format as NoFormat};

    ghost try_from_gives = { λ word result. result ≡ ok_or (format_of word.now) NoFormat };

    fn try_from(word: &[u8]) -> Result<Format, Refusal> {
        Format::named(word).ok_or(Refusal::Format)
    }
}

#[cfg(test)]
mod tests {
    use super::*;
    use std::process::Abort;

    fn answer(word: &[u8], text: &[u8]) -> Result<(), Fault> {
        Format::try_from(word)?.check(text)
    }

    fn refused(rt: &impl Abort, word: &[u8], text: &[u8], refusal: Refusal, place: usize) {
        assert_eq!(rt; answer(word, text), Err(Fault::new(refusal, 1, place)));
    }

    #[test]
    fn accepts_the_examples(rt: HostRuntime) {
        assert_eq!(rt; answer(b"MOD11-2", b"07940"), Ok(()));
        assert_eq!(rt; answer(b"MOD11-2", b"079X"), Ok(()));
        assert_eq!(rt; answer(b"MOD97-10", b"79444"), Ok(()));
        assert_eq!(rt; answer(b"MOD37-2", b"G123489654321Y"), Ok(()));
        assert_eq!(rt; answer(b"MOD661-26", b"BYX"), Ok(()));
        assert_eq!(rt; answer(b"MOD1271-36", b"1YN"), Ok(()));
    }

    #[test]
    fn refuses_one_character_changed(rt: HostRuntime) {
        refused(&rt, b"MOD11-2", b"07840", Refusal::Remainder, 0);
        refused(&rt, b"MOD11-2", b"07X", Refusal::Remainder, 0);
        refused(&rt, b"MOD11-2", b"0X9X", Refusal::Kind, 2);
        refused(&rt, b"MOD97-10", b"79400", Refusal::Key, 4);
        refused(&rt, b"MOD97-10", b"79A44", Refusal::Kind, 3);
        refused(&rt, b"MOD37-2", b"G123489654*21Y", Refusal::Kind, 11);
        refused(&rt, b"MOD661-26", b"CYX", Refusal::Remainder, 0);
        refused(&rt, b"MOD1271-36", b"1Y*", Refusal::Kind, 3);
    }

    #[test]
    fn refuses_by_the_whole_text(rt: HostRuntime) {
        assert_eq!(rt; answer(b"MOD11-2", b""), Err(Refusal::Width.into()));
        assert_eq!(rt;
            answer(b"MOD11-2", b"0 7940"),
            Err(Fault::new(Refusal::Stray, 0, 2))
        );
        assert_eq!(rt; answer(b"MOD11-02", b"07940"), Err(Refusal::Format.into()));
        refused(&rt, b"MOD97-10", b"98", Refusal::Width, 0);
    }
}
