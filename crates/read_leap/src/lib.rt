// The reader's leap: what needs no care is read in a straight line.
#![tactic(auto)]

ghost use Rattle.std.specs.Prelude.{◌≡◌, [], ◌∷◌, ◌++◌, ◌+◌, ◌≤◌, length, take, drop};
ghost use Rattle.forms.specs.Forms.{rows_of};
ghost use Rattle.readings.specs.Come.{Singles, Onward};
ghost use Rattle.read_leap.specs.Leap.{Sequenced, Strays};

use cells::Cell;
use flags::Flags;
use forms::Form;

// Where fewer bytes are left, a run is read byte by byte: a short line is not worth more.
pub const MANY: usize = 32;

// A place in the bytes and in the codes.
#[derive(Clone, Copy)]
pub struct Place {
    pub at: usize,
    pub n: usize,
}

// ASCII byte by byte.
fn ones<C: Cell>(s: &[u8], codes: &mut [C]) -> usize
    ensures { Singles C.lay 0x80 0 s.now codes.old codes.new result }
{
    let end = s.len().min(C::room(codes.len()));
    for n in 0..end {
        let b = s[n];
        if 0x80 <= b {
            return n;
        }
        C::put(codes, n, u32::from(b));
    }
    end
}

// Into a slice whose length the compiler knows: it then drops the tests of the room.
fn put_four<C: Cell>(codes: &mut [C], n: usize, a: u8, b: u8, c: u8, d: u8)
    requires { C.cells n + C.cells 4 ≤ length codes.old }
    ensures { codes.new ≡ take (C.cells n) codes.old ++ C.lay (a ∷ b ∷ c ∷ d ∷ []) ++ drop (C.cells n + C.cells 4) codes.old }
{
    let first = C::cells(n);
    let four = &mut codes[first..first + C::cells(4)];
    C::put(four, 0, u32::from(a));
    C::put(four, 1, u32::from(b));
    C::put(four, 2, u32::from(c));
    C::put(four, 3, u32::from(d));
}

// An ASCII byte, and then four at a time.
fn fours<C: Cell>(s: &[u8], codes: &mut [C]) -> usize
    ensures { Singles C.lay 0x80 0 s.now codes.old codes.new result }
{
    let end = s.len().min(C::room(codes.len()));
    if end == 0 {
        return 0;
    }
    let first = s[0];
    if 0x80 <= first {
        return 0;
    }
    C::put(codes, 0, u32::from(first));
    let mut n: usize = 1;
    'blocks: while 4 <= end - n {
        let a = s[n];
        let b = s[n + 1];
        let c = s[n + 2];
        let d = s[n + 3];
        if !alone::all_ascii(a, b, c, d) {
            break 'blocks;
        }
        put_four(codes, n, a, b, c, d);
        n += 4;
    }
    n
}

// ASCII from the front on, if not all of it.
fn ascii<C: Cell>(s: &[u8], codes: &mut [C]) -> usize
    ensures { Singles C.lay 0x80 0 s.now codes.old codes.new result }
{
    if s.len() < MANY {
        ones(s, codes)
    } else {
        fours(s, codes)
    }
}

// A byte, and those behind it that begin no sequence of more bytes, each by itself; not ED, where a surrogate pair may be cut.
fn strays<C: Cell>(s: &[u8], codes: &mut [C]) -> usize
    ensures { Strays C.lay s.now codes.old codes.new result }
{
    let end = s.len().min(C::room(codes.len()));
    if s.len() < 4 || end == 0 {
        return 0;
    }
    let first = s[0];
    if first == 0xED {
        return 0;
    }
    C::put(codes, 0, alone::single_of(first));
    for n in 1..end {
        let b = s[n];
        if 0xC2 <= b {
            return n;
        }
        C::put(codes, n, alone::single_of(b));
    }
    end
}

// A sequence in a straight line, where there is room for its code: how many bytes it takes.
#[tactic(auto, using(crate::proofs::Pieces::sequence_found))]
fn sequence<C: Cell>(form: Form, s: &[u8], codes: &mut [C]) -> Option<usize>
    ensures { Sequenced C.lay (C.cells 1) (rows_of form) s.now codes.old codes.new result }
{
    if C::room(codes.len()) == 0 {
        return None;
    }
    let q = straight::straight_of(form, s)?;
    C::put(codes, 0, q.code);
    Some(q.len)
}

// From one place to another: runs of ASCII, sequences, and without STRICT and SHOW bad bytes. What is left for care: the last
// bytes and ED, where a sequence may be cut, and what STRICT and SHOW ask for.
pub fn leap<C: Cell>(form: Form, m: Flags, s: &[u8], codes: &mut [C], from: Place) -> Place
    ensures { Onward C.lay (rows_of form) m s.now codes.old codes.new from.at from.n result.at result.n }
{
    let Place { mut at, mut n } = from;
    if C::room(codes.len()) < n {
        return from;
    }
    let care = alone::careful(m);
    'places: while at < s.len() {
        let cell = C::cells(n);
        if s[at] < 0x80 {
            let run = ascii(&s[at..], &mut codes[cell..]);
            at += run;
            n += run;
            if run == 0 {
                break 'places;
            }
            continue 'places;
        }
        if let Some(len) = sequence(form, &s[at..], &mut codes[cell..]) {
            at += len;
            n += 1;
            continue 'places;
        }
        if care {
            break 'places;
        }
        let run = strays(&s[at..], &mut codes[cell..]);
        at += run;
        n += run;
        if run == 0 {
            break 'places;
        }
    }
    Place { at, n }
}
