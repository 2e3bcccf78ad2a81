// The steps over records: bytes to units of a width, and 16-bit units back to bytes.
#![tactic(auto)]

ghost use Rattle.std.specs.Prelude.{◌≡◌, length, MatchOption};
ghost use Rattle.forms.specs.Forms.{rows_of};
ghost use Rattle.back.specs.Back.{back_of, step_back};
ghost use Rattle.advance.specs.Step.{step};
ghost use Rattle.moves.specs.Moves.{moved_of};

use advance::{Answer, Reading};
use back::Written;
use forms::Form;
use state::{Kind, Record};
use units::Width;

// What a reading step answers, and the next state.
#[derive(Clone, Copy)]
pub struct Moved {
    pub answer: Answer,
    pub next: Record,
}

// A pending unit comes out; without one the state is not this step's.
fn come_out(unit: Option<u32>, s: Record, next: Record) -> Moved
    ensures { MatchOption unit (result ≡ record { answer = Answer.Refused; next = s }) (λ u. result ≡ record { answer = Answer.Continuation u; next = next }) }
{
    match unit {
        Some(u) => Moved {
            answer: Answer::Continuation(u),
            next,
        },
        None => Moved {
            answer: Answer::Refused,
            next: s,
        },
    }
}

// Bytes of a form to units of a width, at most one sequence a call. A state with units of another width is refused. A surrogate, which only SURRO's form
// has, is no scalar value and has no 8-bit and no 16-bit units: it gives 0.
pub fn step<W: Width>(form: Form, s: Record, input: &[u8]) -> Moved
    ensures { moved_of (length input.now) result ≡ step (rows_of form) W.width s input.now }
{
    let a = advance::advance(form, s, input);
    match a.reading {
        Reading::Done(answer) => Moved {
            answer,
            next: a.next,
        },
        Reading::Trail(u) => come_out(W::trail(u), s, a.next),
        Reading::Low(u) => come_out(W::low(u), s, a.next),
        Reading::Code(c, n) => {
            let w = W::split(c);
            Moved {
                answer: Answer::Unit(w.first, n),
                next: w.rest,
            }
        }
    }
}

// One 16-bit unit.
pub fn move_back(s: Record, u: u16) -> Written
    ensures { back_of result ≡ step_back s u }
{
    let b = s.bytes;
    match validity::kind_of(Form::Plain, s) {
        Some(Kind::Starting) => back::back_alone(u),
        Some(Kind::High) => back::back_after(state::unit_of(b[0], b[1]), u),
        Some(Kind::Partial | Kind::Trail | Kind::Low) => back::refused(s),
        None => back::refused(s),
    }
}
