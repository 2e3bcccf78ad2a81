// What the reading steps share: held bytes, advanced over the input.
#![tactic(auto)]

ghost use Rattle.std.specs.Prelude.{◌≡◌, ◌+◌, ◌≤◌, cond, eqb};
ghost use Rattle.std.proofs.Math.Seq.{paste};
ghost use Rattle.forms.specs.Forms.{rows_of};
ghost use Rattle.advance.specs.Advance.{Advances, Holding, taken};

use forms::Form;
use front::Front;
use state::{Kind, Record};

// What a reading step answers.
#[derive(Clone, Copy)]
pub enum Answer {
    // The state is invalid or not this step's. Nothing is consumed.
    Refused,
    // A unit that was pending. No input is consumed.
    Continuation(u32),
    // The input ends before a sequence is complete. All of it is consumed.
    Incomplete,
    // How many bytes had been held, and the length of the maximal subpart, those bytes counted in. Nothing is consumed.
    Bad(u8, u8),
    // Code 0. One byte is consumed.
    Null,
    // The first unit of a code, and the bytes consumed.
    Unit(u32, usize),
}

// What a step gives before its width counts.
#[derive(Clone, Copy)]
pub enum Reading {
    // The answer of every width.
    Done(Answer),
    // A pending 8-bit unit: it comes out if the step is of its width, and else the state is refused.
    Trail(u8),
    // The same of a pending 16-bit unit.
    Low(u16),
    // A code above 0, and the bytes consumed.
    Code(u32, usize),
}

// The next state: after Code that before the code's units, after Trail and Low that once the unit is out.
#[derive(Clone, Copy)]
pub struct Advanced {
    pub reading: Reading,
    pub next: Record,
}

// The record with the first bytes of the input held too. Six bytes decide, in every form.
fn gather(s: Record, input: &[u8]) -> Record
    requires { s.count ≤ 6 }
    ensures { result ≡ record { kind = 1; count = s.count + taken s.count input.now; bytes = paste s.bytes s.count input.now (taken s.count input.now) } }
{
    let n = usize::from(s.count);
    let m = (6 - n).min(input.len());
    let mut bytes = s.bytes;
    bytes[n..n + m].copy_from_slice(&input[..m]);
    Record {
        kind: Kind::Partial.into(),
        count: (n + m) as u8,
        bytes,
    }
}

// Code 0 is told by itself.
fn whole(c: u32, consumed: usize) -> Reading
    ensures { result ≡ cond (eqb c 0) (Reading.Done Answer.Null) (Reading.Code c consumed) }
{
    if c == 0 {
        Reading::Done(Answer::Null)
    } else {
        Reading::Code(c, consumed)
    }
}

fn done(answer: Answer, next: Record) -> Advanced
    ensures { result ≡ record { reading = Reading.Done answer; next = next } }
{
    Advanced {
        reading: Reading::Done(answer),
        next,
    }
}

// The bytes held, and the input.
fn read(form: Form, s: Record, input: &[u8]) -> Advanced
    requires { Holding (rows_of form) s }
    ensures { Advances (rows_of form) s input.now result }
{
    let window = gather(s, input);
    match front::front_of(form, &window.bytes[..usize::from(window.count)]) {
        Front::Partial(_) => {
            if window.count == 0 {
                return done(Answer::Incomplete, state::start());
            }
            done(Answer::Incomplete, window)
        }
        Front::Bad(len) => done(Answer::Bad(s.count, len as u8), state::start()),
        Front::Well(c, m) => Advanced {
            reading: whole(c, m - usize::from(s.count)),
            next: state::start(),
        },
    }
}

// What the steps of all widths make of a state and the input, up to the point where the width counts.
pub fn advance(form: Form, s: Record, input: &[u8]) -> Advanced
    ensures { Advances (rows_of form) s input.now result }
{
    let b = s.bytes;
    match validity::kind_of(form, s) {
        Some(Kind::Starting | Kind::Partial) => read(form, s, input),
        Some(Kind::Trail) => Advanced {
            reading: Reading::Trail(b[0]),
            next: state::after_first(s.count, [b[1], b[2], b[3]]),
        },
        Some(Kind::Low) => Advanced {
            reading: Reading::Low(state::unit_of(b[0], b[1])),
            next: state::start(),
        },
        Some(Kind::High) | None => done(Answer::Refused, s),
    }
}
