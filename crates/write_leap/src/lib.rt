// The writer's leap over codes of any source: codes whose bytes are plain to see, as fast as they come, in front of the writer that takes every code.
#![tactic(auto)]

ghost use Rattle.std.specs.Prelude.{◌≡◌, false, cond, ◌++◌, ℕ, ◌+◌, ◌%◌, ◌≤◌, ◌<◌, length, take, drop};
ghost use Rattle.form.specs.Table.{Escape};
ghost use Rattle.form.specs.Pattern.{pattern, cesu_pattern};
ghost use Rattle.form.specs.Text.{sequence};
ghost use Rattle.forms.specs.Forms.{rows_of};
ghost use Rattle.writings.specs.Come.{Onward};
ghost use Rattle.writings.specs.Singled.{Ascii, Single, Singled};

use flags::Flags;
use forms::Form;
use source::Source;

const FIRST_SURROGATE: u32 = 0xD800;

fn low(c: u32) -> u8
    ensures { result ≡ c % 256 }
{
    (c & 0xFF) as u8
}

// A byte after the first: the low six bits, below the mark.
fn mark(c: u32) -> u8
    ensures { result ≡ 0x80 + c % 0x40 }
{
    (0x80 + c % 0x40) as u8
}

fn put2(dst: &mut [u8], n: usize, c: u32)
    requires { (0x80 ≤ c) × (c < 0x800) × (n + 2 ≤ length dst.old) }
    ensures { dst.new ≡ take n dst.old ++ pattern c ++ drop (n + 2) dst.old }
{
    dst[n] = (0xC0 + c / 0x40) as u8;
    dst[n + 1] = mark(c);
}

fn put3(dst: &mut [u8], n: usize, c: u32)
    requires { (0x800 ≤ c) × (c < 0x10000) × (n + 3 ≤ length dst.old) }
    ensures { dst.new ≡ take n dst.old ++ pattern c ++ drop (n + 3) dst.old }
{
    dst[n] = (0xE0 + c / 0x1000) as u8;
    dst[n + 1] = mark(c / 0x40);
    dst[n + 2] = mark(c);
}

fn put4(dst: &mut [u8], n: usize, c: u32)
    requires { (0x10000 ≤ c) × (c ≤ 0x10FFFF) × (n + 4 ≤ length dst.old) }
    ensures { dst.new ≡ take n dst.old ++ pattern c ++ drop (n + 4) dst.old }
{
    dst[n] = (0xF0 + c / 0x40000) as u8;
    dst[n + 1] = mark(c / 0x1000);
    dst[n + 2] = mark(c / 0x40);
    dst[n + 3] = mark(c);
}

// A pair of surrogates: the marks ED, and the upper and the lower ten bits of what is above FFFF.
fn put6(dst: &mut [u8], n: usize, c: u32)
    requires { (0x10000 ≤ c) × (c ≤ 0x10FFFF) × (n + 6 ≤ length dst.old) }
    ensures { dst.new ≡ take n dst.old ++ cesu_pattern c ++ drop (n + 6) dst.old }
{
    let upper = (c - 0x10000) / 0x400;
    let lower = (c - 0x10000) % 0x400;
    dst[n] = 0xED;
    dst[n + 1] = (0xA0 + upper / 0x40) as u8;
    dst[n + 2] = mark(upper);
    dst[n + 3] = 0xED;
    dst[n + 4] = (0xB0 + lower / 0x40) as u8;
    dst[n + 5] = mark(lower);
}

fn no_ascii(c: u32) -> bool
    ensures { result ≡ false → Ascii c }
{
    0x80 <= c
}

// One of four codes is not ASCII.
fn some_high(a: u32, b: u32, c: u32, d: u32) -> bool
    ensures { result ≡ false → Ascii a × (Ascii b × (Ascii c × Ascii d)) }
{
    no_ascii(a) || no_ascii(b) || no_ascii(c) || no_ascii(d)
}

// A run of codes of one byte each, up to one that ends it, one by one.
fn singles_out<C: Source, E: Fn(u32) -> bool>(codes: &[C], dst: &mut [u8], ends: E) -> usize
    requires { E.IsAlwaysCallable ends }
    ensures { Singled (λ c. E.post ends c false) (C.codes codes.now) dst.old dst.new result }
{
    let end = C::count(codes).min(dst.len());
    for n in 0..end {
        let c = C::get(codes, n);
        if ends(c) {
            return n;
        }
        dst[n] = low(c);
    }
    end
}

// By fours, each in a slice whose length the compiler knows: it then drops the tests of the places.
fn blocks_out<C: Source>(codes: &[C], dst: &mut [u8]) -> usize
    ensures { Singled Ascii (C.codes codes.now) dst.old dst.new result }
{
    let end = C::count(codes).min(dst.len());
    let mut n: usize = 0;
    while 4 <= end - n {
        let first = C::cells(n);
        let four = &codes[first..first + C::cells(4)];
        let a = C::get(four, 0);
        let b = C::get(four, 1);
        let c = C::get(four, 2);
        let d = C::get(four, 3);
        if some_high(a, b, c, d) {
            break;
        }
        dst[n] = low(a);
        dst[n + 1] = low(b);
        dst[n + 2] = low(c);
        dst[n + 3] = low(d);
        n += 4;
    }
    n
}

// A run of ASCII, where many codes are left by fours.
fn run_out<C: Source>(codes: &[C], dst: &mut [u8]) -> usize
    ensures { Singled Ascii (C.codes codes.now) dst.old dst.new result }
{
    if C::count(codes) < 32 {
        singles_out(codes, dst, no_ascii)
    } else {
        blocks_out(codes, dst)
    }
}

fn no_escape(c: u32) -> bool
    ensures { result ≡ false → Escape c }
{
    c < 0xDC80 || 0xDCFF < c
}

fn no_single(c: u32) -> bool
    ensures { result ≡ false → Single c }
{
    0x80 <= c && no_escape(c)
}

// A run of escapes and ASCII.
fn escapes_out<C: Source>(codes: &[C], dst: &mut [u8]) -> usize
    ensures { Singled Single (C.codes codes.now) dst.old dst.new result }
{
    singles_out(codes, dst, no_single)
}

// With one of these flags an escape is not its byte.
fn careful(m: Flags) -> bool
    ensures { result ≡ false → (m.strict ≡ false) × (m.surro ≡ false) }
{
    m.strict || m.surro
}

// The form writes a code above FFFF as a pair of surrogates.
fn has_pairs(form: Form) -> bool
    ensures { (c : ℕ) → 0xFFFF < c → c ≤ 0x10FFFF → sequence (rows_of form) c ≡ cond result (cesu_pattern c) (pattern c) }
{
    matches!(form, Form::Cesu)
}

// The place that is reached: codes consumed and bytes written.
#[derive(Clone, Copy)]
pub struct Place {
    pub at: usize,
    pub n: usize,
}

// From a place on, up to a code that is left to the writer: a surrogate that is not an escape, an escape with STRICT or SURRO, a code above
// 10FFFF, or any where fewer than four bytes are free, for a pair six. Beyond the codes or the buffer it stays where it is.
pub fn leap<C: Source>(form: Form, m: Flags, codes: &[C], dst: &mut [u8], from: Place) -> Place
    ensures { Onward (rows_of form) m (C.codes codes.now) dst.old dst.new from.at from.n result.at result.n }
{
    let Place { mut at, mut n } = from;
    if dst.len() < n {
        return from;
    }
    let count = C::count(codes);
    while at < count && 4 <= dst.len() - n {
        let c = C::get(codes, at);
        if c < 0x80 {
            dst[n] = low(c);
            n += 1;
            at += 1;
            let k = run_out(C::rest(codes, at), &mut dst[n..]);
            at += k;
            n += k;
            continue;
        }
        if c < 0x800 {
            put2(dst, n, c);
            n += 2;
            at += 1;
            continue;
        }
        if c < FIRST_SURROGATE {
            put3(dst, n, c);
            n += 3;
            at += 1;
            continue;
        }
        if 0xFFFF < c {
            if 0x10FFFF < c {
                break;
            }
            if has_pairs(form) {
                if dst.len() - n < 6 {
                    break;
                }
                put6(dst, n, c);
                n += 6;
                at += 1;
                continue;
            }
            put4(dst, n, c);
            n += 4;
            at += 1;
            continue;
        }
        if 0xDFFF < c {
            put3(dst, n, c);
            n += 3;
            at += 1;
            continue;
        }
        if careful(m) || no_escape(c) {
            break;
        }
        dst[n] = low(c);
        n += 1;
        at += 1;
        let k = escapes_out(C::rest(codes, at), &mut dst[n..]);
        at += k;
        n += k;
    }
    Place { at, n }
}
