// The loop of the whole-buffer writer: codes to bytes, for any form and flags.
#![tactic(auto)]

ghost use Rattle.std.specs.Prelude.{◌≡◌, cond, [], ◌++◌, ◌+◌, ◌≤◌, length, drop};
ghost use Rattle.std.proofs.Math.Seq.{paste};
ghost use Rattle.forms.specs.Forms.{rows_of};
ghost use Rattle.sequence.specs.Leaf.{coded_of};
ghost use Rattle.writings.specs.Writing.{refuses, bytes, writing};
ghost use Rattle.writer.specs.Encoded.{encoded_of};

use flags::Flags;
use forms::Form;
use sequence::Coded;

// The bytes that the writer writes for a code, or none where it refuses the code. Most codes are below 80, and above FFFF each form has its own
// sequences. With SURRO no code is an escape. STRICT alone refuses the surrogates, which plain UTF-8 does not have. Without either an escape is its byte.
fn written(form: Form, m: Flags, c: u32) -> Coded
    ensures { result ≡ coded_of (cond (refuses m c) [] (bytes (rows_of form) m c)) }
{
    if c < 0x80 {
        return Coded {
            count: 1,
            bytes: [c as u8, 0, 0, 0, 0, 0],
        };
    }
    if 0xFFFF < c {
        return sequence::bytes_of(form, c);
    }
    if m.surro {
        return sequence::bytes_of(Form::Surro, c);
    }
    if m.strict {
        return sequence::bytes_of(Form::Plain, c);
    }
    match c {
        0xDC80..=0xDCFF => Coded {
            count: 1,
            bytes: [(c - 0xDC00) as u8, 0, 0, 0, 0, 0],
        },
        _ => sequence::bytes_of(Form::Surro, c),
    }
}

// The bytes of a code, into the places from n on. A loop over so few bytes is compiled to a call of memcpy for each code.
fn put(dst: &mut [u8], n: usize, w: Coded)
    requires { (1 ≤ w.count) × (w.count ≤ 6) × (n + w.count ≤ length dst.old) }
    ensures { dst.new ≡ paste dst.old n w.bytes w.count }
{
    dst[n] = w.bytes[0];
    if w.count == 1 {
        return;
    }
    dst[n + 1] = w.bytes[1];
    if w.count == 2 {
        return;
    }
    dst[n + 2] = w.bytes[2];
    if w.count == 3 {
        return;
    }
    dst[n + 3] = w.bytes[3];
    if w.count == 4 {
        return;
    }
    dst[n + 4] = w.bytes[4];
    if w.count == 5 {
        return;
    }
    dst[n + 5] = w.bytes[5];
}

// The number that the writer stops with, the codes consumed and the bytes written.
#[derive(Clone, Copy)]
pub struct Encoded {
    pub number: u8,
    pub consumed: usize,
    pub produced: usize,
}

// The writer, for any form and flags. The stops at each code, in document 01's order: no codes left, code refused, no room for all its bytes.
pub fn write_as(form: Form, m: Flags, codes: &[u32], dst: &mut [u8]) -> Encoded
    ensures answer { result ≡ encoded_of (writing (rows_of form) m (length dst.old) codes.now) }
    ensures output { dst.new ≡ (writing (rows_of form) m (length dst.old) codes.now).written ++ drop result.produced dst.old }
{
    let mut at: usize = 0;
    let mut n: usize = 0;
    let number = 'codes: loop {
        if at == codes.len() {
            break 'codes 0;
        }
        let w = written(form, m, codes[at]);
        if w.count == 0 {
            break 'codes 3;
        }
        if dst.len() - n < w.count {
            break 'codes 1;
        }
        put(dst, n, w);
        n += w.count;
        at += 1;
    };
    Encoded {
        number,
        consumed: at,
        produced: n,
    }
}
