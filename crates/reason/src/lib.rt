// Why the bytes at a place are bad, in plain UTF-8 with LAST.
#![tactic(auto)]

ghost use Rattle.std.specs.Prelude.{◌≡◌};
ghost use Rattle.reason.specs.Reason.{judged, reason};

use forms::Form;
use front::Front;
use std::fmt;

// With the numbers of request C-14; docs/RULES.md, "Why bytes are bad", has the bytes of each.
#[derive(Clone, Copy, Debug, PartialEq, Eq)]
pub enum Reason {
    // None: a well-formed sequence starts there.
    Good = 0,
    // A lone 80..BF.
    Lone = 1,
    // C0 or C1.
    Never = 2,
    // F5..FF.
    Beyond = 3,
    // Too long a form: E0 then 80..9F, F0 then 80..8F.
    TooLong = 4,
    // ED then A0..BF.
    Surrogate = 5,
    // F4 then 90..BF.
    TooHigh = 6,
    // A byte that is not 80..BF where a continuation was due.
    CutShort = 7,
    // The end, where a continuation was due.
    Unfinished = 8,
    // No byte.
    AtEnd = 9,
}

impl From<Reason> for u8 {
    ghost use Rattle.reason.specs.Reason.{number};

    ghost from_gives = { λ r n. n ≡ number r };

    fn from(reason: Reason) -> u8 {
        reason as u8
    }
}

// In the words of the header for C.
impl fmt::Display for Reason {
    ghost use Rattle.std.specs.Prelude.{Some};
    ghost use Rattle.reason.specs.Words.{words};

    ghost output = { λ reason. Some (words reason) };

    ghost styled_output = { λ reason style. Some (words reason) };

    fn fmt<W: fmt::Write>(&self, f: &mut fmt::Formatter<W>) -> fmt::Result {
        f.write_str(match self {
            Reason::Good => "well-formed",
            Reason::Lone => "a continuation byte with nothing to continue",
            Reason::Never => "C0 and C1 begin no sequence",
            Reason::Beyond => "F5 to FF begin no sequence",
            Reason::TooLong => "too long a form of its code",
            Reason::Surrogate => "a surrogate, D800 to DFFF",
            Reason::TooHigh => "above 10FFFF, the last code",
            Reason::CutShort => "no continuation byte follows",
            Reason::Unfinished => "the end of the input cuts it off",
            Reason::AtEnd => "at or past the end",
        })
    }
}

// By the rows of the request, where no sequence starts and the rest is not partial.
#[tactic(auto, using(crate::proofs::Judged::judged_tells))]
fn judge(s: &[u8]) -> Reason
    ensures { result ≡ judged s.now }
{
    match s {
        [0x80..=0xBF, ..] => Reason::Lone,
        [0xC0..=0xC1, ..] => Reason::Never,
        [0xF5..=0xFF, ..] => Reason::Beyond,
        [0xE0, 0x80..=0x9F, ..] => Reason::TooLong,
        [0xF0, 0x80..=0x8F, ..] => Reason::TooLong,
        [0xED, 0xA0..=0xBF, ..] => Reason::Surrogate,
        [0xF4, 0x90..=0xBF, ..] => Reason::TooHigh,
        _ => Reason::CutShort,
    }
}

// The reason at a place: Good where a sequence starts, AtEnd at or past the end.
#[tactic(auto, using(crate::proofs::Told::told_end, crate::proofs::Told::told_found))]
pub fn reason_of(s: &[u8], place: usize) -> Reason
    ensures { result ≡ reason s.now place }
{
    if s.len() <= place {
        return Reason::AtEnd;
    }
    match front::front_of(Form::Plain, &s[place..]) {
        Front::Well(_, _) => Reason::Good,
        Front::Partial(_) => Reason::Unfinished,
        Front::Bad(_) => judge(&s[place..]),
    }
}
