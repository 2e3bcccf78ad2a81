// The loop of the whole-buffer reader: bytes to codes, for any form and flags.
#![tactic(auto)]

ghost use Rattle.std.specs.Prelude.{◌≡◌, cond, ◌++◌, ◌-◌, max, eqb, length, drop};
ghost use Rattle.forms.specs.Forms.{rows_of};
ghost use Rattle.form.specs.Text.{escape};
ghost use Rattle.readings.specs.Reading.{reading};
ghost use Rattle.reader.specs.Decoded.{decoded_of};

use flags::Flags;
use forms::Form;

// The number that the reader stopped with, the bytes consumed, the codes produced, and for number 3 the length of the maximal subpart there.
#[derive(Clone, Copy)]
pub struct Decoded {
    pub number: u8,
    pub consumed: usize,
    pub produced: usize,
    pub subpart: usize,
}

// The code for a byte at which no well-formed sequence starts: its escape, or a mark.
fn stray(b: u8, show: bool) -> u32
    ensures { result ≡ cond show 0xFFFD (escape b) }
{
    if show { 0xFFFD } else { 0xDC00 + b as u32 }
}

// The bytes that it stands for: an escape for one, a mark for the maximal subpart.
fn taken(len: usize, show: bool) -> usize
    ensures { result ≡ cond show len 1 }
{
    if show { len } else { 1 }
}

// The length of the maximal subpart at a bad byte, where n bytes have led to the stage: the last of them does not go on, or there are no more.
fn subpart_by(stage: usize, n: usize) -> usize
    ensures { result ≡ cond (eqb stage 0) (max 1 (n - 1)) n }
{
    if stage != classify::BAD {
        return n;
    }
    if n < 2 {
        return 1;
    }
    n - 1
}

// The reader, for any form and flags. The stops at each place, in document 01's order: input used up, waiting for more of a sequence, no sequence where one
// is demanded, output full.
pub fn read_as(form: Form, m: Flags, s: &[u8], codes: &mut [u32]) -> Decoded
    ensures answer { result ≡ decoded_of (reading (rows_of form) m (length codes.old) s.now) }
    ensures output { codes.new ≡ (reading (rows_of form) m (length codes.old) s.now).codes ++ drop result.produced codes.old }
{
    let mut at: usize = 0;
    let mut n: usize = 0;
    let mut subpart: usize = 0;
    let number = 'places: loop {
        if at == s.len() {
            break 'places 0;
        }
        let mut stage = classify::first(form, s[at]);
        let mut end = at + 1;
        let found = 'bytes: loop {
            if stage <= classify::WHOLE {
                break 'bytes stage;
            }
            if end == s.len() {
                if m.last {
                    break 'bytes classify::BAD;
                }
                break 'places 2;
            }
            stage = classify::next(stage, s[end]);
            end += 1;
        };
        if found == classify::WHOLE {
            if n == codes.len() {
                break 'places 1;
            }
            codes[n] = bits::code_of(&s[at..end]);
            n += 1;
            at = end;
            continue 'places;
        }
        let len = subpart_by(stage, end - at);
        if m.strict {
            subpart = len;
            break 'places 3;
        }
        if n == codes.len() {
            break 'places 1;
        }
        codes[n] = stray(s[at], m.show);
        n += 1;
        at += taken(len, m.show);
    };
    Decoded {
        number,
        consumed: at,
        produced: n,
        subpart,
    }
}
