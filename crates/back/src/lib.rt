// 16-bit units back to bytes: what a unit gives, alone and after another.
#![tactic(auto)]

ghost use Rattle.std.specs.Prelude.{◌≡◌, [], ◌∷◌};
ghost use Rattle.form.specs.Table.{plain};
ghost use Rattle.form.specs.Text.{sequence};
ghost use Rattle.state.specs.Meaning.{starting};
ghost use Rattle.back.specs.Back.{bytes, back_of, tell, to, refuse, alone, after};

use forms::Form;
use state::{Kind, Record};

// What a 16-bit unit gives.
#[derive(Clone, Copy)]
pub enum Back {
    // The state is invalid or not the step back's. Nothing is consumed.
    Refused,
    // The unit is held.
    Held,
    // The bytes stand beside the answer.
    Bytes,
    // How many units had been held. The unit is not consumed: after a held one it is given again, and alone it would be bad again.
    Bad(u8),
}

// The answer, its bytes and how many, and the next state; unused places are zero.
#[derive(Clone, Copy)]
pub struct Written {
    pub answer: Back,
    pub count: usize,
    pub bytes: [u8; 4],
    pub next: Record,
}

// The sequence of a code.
fn bytes_back(c: u32) -> Written
    ensures { back_of result ≡ to (tell bytes 0 (sequence plain c) 0) starting }
{
    let w = sequence::bytes_of(Form::Plain, c);
    let b = w.bytes;
    Written {
        answer: Back::Bytes,
        count: w.count,
        bytes: [b[0], b[1], b[2], b[3]],
        next: state::start(),
    }
}

fn no_bytes(answer: Back, next: Record) -> Written
    ensures { result ≡ record { answer = answer; count = 0; bytes = 0 ∷ 0 ∷ 0 ∷ 0 ∷ []; next = next } }
{
    Written {
        answer,
        count: 0,
        bytes: [0; 4],
        next,
    }
}

// A unit in a state that is not the step back's.
#[tactic(auto, unfolding(crate::specs::Back::back_of))]
pub fn refused(s: Record) -> Written
    ensures { back_of result ≡ refuse s }
{
    no_bytes(Back::Refused, s)
}

// A unit after nothing.
#[tactic(auto, unfolding(crate::specs::Back::back_of, state::specs::Meaning::record_of))]
pub fn back_alone(u: u16) -> Written
    ensures { back_of result ≡ alone u }
{
    match u {
        0xD800..=0xDBFF => no_bytes(Back::Held, state::of_unit(Kind::High.into(), u)),
        0xDC00..=0xDFFF => no_bytes(Back::Bad(0), state::start()),
        _ => bytes_back(u.into()),
    }
}

// A unit after the high surrogate h.
#[tactic(auto, unfolding(crate::specs::Back::back_of))]
pub fn back_after(h: u16, u: u16) -> Written
    ensures { back_of result ≡ after h u }
{
    match u {
        0xDC00..=0xDFFF => bytes_back(utf16::code_of_pair(h, u)),
        _ => no_bytes(Back::Bad(1), state::start()),
    }
}
