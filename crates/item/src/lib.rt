// The item at the front of a slice, by the reading with LAST alone: what every walk over items takes for a step.
#![tactic(auto)]

ghost use Rattle.std.specs.Prelude.{◌≡◌};
ghost use Rattle.form.specs.Text.{escape};
ghost use Rattle.item.specs.Leaf.{leaf, leaf_of, leaf_span, item_of};

use forms::Form;
use front::Front;

// A code and how many bytes it takes; where it is an escape, the length of the maximal subpart that its byte begins.
#[derive(Clone, Copy)]
pub struct Leaf {
    pub code: u32,
    pub span: usize,
    pub subpart: Option<usize>,
}

fn escaped(b: u8) -> u32
    ensures { result ≡ escape b }
{
    0xDC00 + b as u32
}

// With LAST a partial sequence is bad bytes like any others.
fn of_front(f: Front, b: u8) -> Leaf
    ensures { result ≡ leaf (item_of f b) }
{
    match f {
        Front::Well(c, n) => Leaf {
            code: c,
            span: n,
            subpart: None,
        },
        Front::Partial(n) => Leaf {
            code: escaped(b),
            span: 1,
            subpart: Some(n),
        },
        Front::Bad(n) => Leaf {
            code: escaped(b),
            span: 1,
            subpart: Some(n),
        },
    }
}

// A sequence in a straight line, and else what a walk finds. Of no bytes there is no item.
pub fn item_of(s: &[u8]) -> Option<Leaf>
    ensures { result ≡ leaf_of s.now }
{
    if s.is_empty() {
        return None;
    }
    Some(match straight::straight_of(Form::Plain, s) {
        Some(q) => Leaf {
            code: q.code,
            span: q.len,
            subpart: None,
        },
        None => of_front(front::front_of(Form::Plain, s), s[0]),
    })
}

// How many bytes that item takes, which a straight line tells: those of a well-formed sequence, or else one; of no bytes none.
#[tactic(auto, using(crate::proofs::Fronts::spans))]
pub fn span_of(s: &[u8]) -> usize
    ensures { result ≡ leaf_span (leaf_of s.now) }
{
    if s.len() == 0 {
        return 0;
    }
    if s[0] < 0x80 {
        return 1;
    }
    match straight::straight_of(Form::Plain, s) {
        Some(q) => q.len,
        None => 1,
    }
}
