// The records of a log from a place on: how many, and their bytes.
#![tactic(auto)]

ghost use Rattle.std.specs.Prelude.{◌≡◌, ◌/◌, leb, length, take};
ghost use Rattle.numbers.specs.Number.{laid_in, over};
ghost use Rattle.log_index.specs.Index.{starts, every};

// A record is for every so many codes.
pub const EVERY: usize = 64;

// The bytes of a record.
pub const RECORD: usize = 8;

// How many records the codes from a place on have, the first of them after k codes.
pub fn count_records(log: &[u8], from: usize, k: usize) -> usize
    ensures { result ≡ length (every k (starts log.now from)) }
{
    let first = walk::place_after(log, from, k);
    walk::walk_from(log, first).step_by(EVERY).count()
}

// Whether there are at most so many of them. Where the bytes that are left cannot have more, they are not read.
pub fn are_few(log: &[u8], from: usize, k: usize, most: usize) -> bool
    ensures { result ≡ leb (length (every k (starts log.now from))) most }
{
    log.len() <= from
        || (log.len() - from - 1) / EVERY < most
        || count_records(log, from, k) <= most
}

// Those records at the front of a buffer, as many as it has room for; answers how many.
pub fn lay_records(log: &[u8], from: usize, k: usize, out: &mut [u8]) -> usize
    ensures answer { result ≡ length (take (length out.old / 8) (every k (starts log.now from))) }
    ensures output { out.new ≡ over (laid_in 8 (take (length out.old / 8) (every k (starts log.now from)))) out.old }
{
    let first = walk::place_after(log, from, k);
    let room = out.len() / RECORD;
    let mut n = 0;
    for item in walk::walk_from(log, first).step_by(EVERY).take(room) {
        let at = n * RECORD;
        numbers::put(item.start, &mut out[at..at + RECORD]);
        n += 1;
    }
    n
}
