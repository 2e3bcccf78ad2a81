// What the entries for C do, in any coding.
#![tactic(auto)]

ghost use Rattle.std.specs.Prelude.{◌≡◌, [], ◌∷◌, ◌++◌, ◌≤◌, length};
ghost use Rattle.numbers.specs.Number.{low_first};
ghost use Rattle.entries.specs.Entry.{entry, answer_of, decode_entry_in, encode_entry_in};

use codings::Coding;

// The most bytes in an input or an output.
const LIMIT: usize = 1048576;

// The bytes in a report.
const REPORT: usize = 9;

// The items, or -1 for number 3 with none.
fn answer(number: u8, items: usize) -> i64
    requires { items ≤ 1048576 }
    ensures { result ≡ answer_of number items }
{
    if number != 3 {
        return items as i64;
    }
    if items == 0 {
        return -1;
    }
    items as i64
}

// The report: the count, and after it the length of the maximal subpart.
fn put_report(consumed: usize, subpart: u8, report: &mut [u8])
    requires { length report.old ≡ 9 }
    ensures { report.new ≡ low_first 8 consumed ++ (subpart ∷ []) }
{
    numbers::put(consumed, report);
    report[8] = subpart;
}

// The reader. Refusals in document 01's order: 6, 8, 4.
pub fn decode_entry(
    coding: Coding,
    src: &[u8],
    codes: &mut [u8],
    flags: u32,
    report: &mut [u8],
) -> i64
    ensures { entry result codes.new report.new ≡ decode_entry_in coding src.now codes.old flags report.old }
{
    if report.len() != REPORT {
        return -6;
    }
    if LIMIT < src.len() {
        return -8;
    }
    if LIMIT < codes.len() {
        return -8;
    }
    let r = packed::decode_packed(coding, src, codes, flags);
    if r.number == 4 {
        return -4;
    }
    let subpart = r.subpart as u8;
    put_report(r.consumed, subpart, report);
    answer(r.number, r.produced)
}

// The writer. Refusals in document 01's order: 6, 8, 7, 4.
pub fn encode_entry(
    coding: Coding,
    codes: &[u8],
    dst: &mut [u8],
    flags: u32,
    report: &mut [u8],
) -> i64
    ensures { entry result dst.new report.new ≡ encode_entry_in coding codes.now dst.old flags report.old }
{
    if report.len() != REPORT {
        return -6;
    }
    if LIMIT < codes.len() {
        return -8;
    }
    if LIMIT < dst.len() {
        return -8;
    }
    if codes.len() % 4 != 0 {
        return -7;
    }
    let r = packed::encode_packed(coding, codes, dst, flags);
    if r.number == 4 {
        return -4;
    }
    put_report(r.consumed, 0, report);
    answer(r.number, r.produced)
}
