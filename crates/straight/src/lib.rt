// The sequence at the front of a slice, in a straight line. Each byte is read after the tests before it.
#![tactic(auto)]

ghost use Rattle.std.specs.Prelude.{◌≡◌, ◌+◌, ◌-◌, ◌*◌, ◌↔◌, IsTrue, Option, None, get_or};
ghost use Rattle.form.specs.Table.{◌to◌, tail, cesu, In};
ghost use Rattle.form.specs.Scan.{scan};
ghost use Rattle.forms.specs.Forms.{rows_of};
ghost use Rattle.straight.specs.Straight.{straight_of, InEvery};

use forms::Form;

// The length and the code of a well-formed sequence.
#[derive(Clone, Copy)]
pub struct Straight {
    pub len: usize,
    pub code: u32,
}

fn is_tail(b: u8) -> bool
    ensures { IsTrue result ↔ In tail b }
{
    0x80 <= b && b <= 0xBF
}

// The code of two bytes, by the bits below their marks; then of three and of four.
fn code2(a: u8, b: u8) -> u32
    requires { In (0xC0 to 0xDF) a × In tail b }
    ensures { result ≡ (a - 0xC0) * 0x40 + (b - 0x80) }
{
    (a as u32 - 0xC0) * 0x40 + (b as u32 - 0x80)
}

fn code3(a: u8, b: u8, c: u8) -> u32
    requires { In (0xE0 to 0xEF) a × In tail b × In tail c }
    ensures { result ≡ (a - 0xE0) * 0x1000 + (b - 0x80) * 0x40 + (c - 0x80) }
{
    (a as u32 - 0xE0) * 0x1000 + (b as u32 - 0x80) * 0x40 + (c as u32 - 0x80)
}

fn code4(a: u8, b: u8, c: u8, d: u8) -> u32
    requires { In (0xF0 to 0xFF) a × In tail b × In tail c × In tail d }
    ensures { result ≡ (a - 0xF0) * 0x40000 + (b - 0x80) * 0x1000 + (c - 0x80) * 0x40 + (d - 0x80) }
{
    (a as u32 - 0xF0) * 0x40000
        + (b as u32 - 0x80) * 0x1000
        + (c as u32 - 0x80) * 0x40
        + (d as u32 - 0x80)
}

// The code of a pair: its high surrogate, and the last two bytes of its low one.
fn code6(high: u32, e: u8, f: u8) -> u32
    requires { In (0xD800 to 0xDBFF) high × In (0xB0 to 0xBF) e × In tail f }
    ensures { result ≡ 0x10000 + (high - 0xD800) * 0x400 + (e - 0xB0) * 0x40 + (f - 0x80) }
{
    0x10000 + (high - 0xD800) * 0x400 + (e as u32 - 0xB0) * 0x40 + (f as u32 - 0x80)
}

// A sequence that C2..DF begins: every form has the same ones.
fn two(s: &[u8]) -> Option<Straight>
    requires { In (0xC2 to 0xDF) (get_or s.now 0 0) }
    ensures { InEvery result s.now }
{
    if s.len() < 2 {
        return None;
    }
    let b = s[1];
    if !is_tail(b) {
        return None;
    }
    Some(Straight {
        len: 2,
        code: code2(s[0], b),
    })
}

// CESU-8's sequence that a surrogate of three bytes begins: a pair, a high surrogate and a low one.
fn pair(s: &[u8], high: u32) -> Option<Straight>
    requires { In (0xD800 to 0xDFFF) high × In (0xE0 to 0xEF) (get_or s.now 0 0) × In tail (get_or s.now 1 0) × In tail (get_or s.now 2 0)
        × (high ≡ (get_or s.now 0 0 - 0xE0) * 0x1000 + (get_or s.now 1 0 - 0x80) * 0x40 + (get_or s.now 2 0 - 0x80)) }
    ensures { result ≡ straight_of (scan cesu s.now) }
{
    if 0xDBFF < high || s.len() < 6 {
        return None;
    }
    if s[3] != 0xED {
        return None;
    }
    let e = s[4];
    if e < 0xB0 || 0xBF < e {
        return None;
    }
    let f = s[5];
    if !is_tail(f) {
        return None;
    }
    Some(Straight {
        len: 6,
        code: code6(high, e, f),
    })
}

// A sequence that E0..EF begins.
fn three(form: Form, s: &[u8]) -> Option<Straight>
    requires { In (0xE0 to 0xEF) (get_or s.now 0 0) }
    ensures { result ≡ straight_of (scan (rows_of form) s.now) }
{
    if s.len() < 3 {
        return None;
    }
    let b = s[1];
    if !is_tail(b) {
        return None;
    }
    let c = s[2];
    if !is_tail(c) {
        return None;
    }
    let code = code3(s[0], b, c);
    match code {
        0..=0x7FF => None,
        0xD800..=0xDFFF => match form {
            Form::Plain => None,
            Form::Surro => Some(Straight { len: 3, code }),
            Form::Cesu => pair(s, code),
        },
        _ => Some(Straight { len: 3, code }),
    }
}

// A sequence that F0..FF begins.
fn four(form: Form, s: &[u8]) -> Option<Straight>
    requires { In (0xF0 to 0xFF) (get_or s.now 0 0) }
    ensures { result ≡ straight_of (scan (rows_of form) s.now) }
{
    if s.len() < 4 {
        return None;
    }
    let b = s[1];
    if !is_tail(b) {
        return None;
    }
    let c = s[2];
    if !is_tail(c) {
        return None;
    }
    let d = s[3];
    if !is_tail(d) {
        return None;
    }
    let code = code4(s[0], b, c, d);
    if code < 0x10000 || 0x10FFFF < code {
        return None;
    }
    match form {
        Form::Plain | Form::Surro => Some(Straight { len: 4, code }),
        Form::Cesu => None, // CESU-8 has it as a pair
    }
}

// The well-formed sequence at the front of s. None for anything else: no bytes, a sequence that the end of s cuts, bad bytes.
#[tactic(auto, using(crate::proofs::Shapes::lost_none, crate::proofs::Shapes::ascii_tells, crate::proofs::Shapes::stray_tells))]
pub fn straight_of(form: Form, s: &[u8]) -> Option<Straight>
    ensures { result ≡ straight_of (scan (rows_of form) s.now) }
{
    if s.len() == 0 {
        return None;
    }
    let a = s[0];
    match a {
        0..=0x7F => Some(Straight {
            len: 1,
            code: a as u32,
        }),
        0x80..=0xC1 => None,
        0xC2..=0xDF => two(s),
        0xE0..=0xEF => three(form, s),
        0xF0..=0xFF => four(form, s),
    }
}
