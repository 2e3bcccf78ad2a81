// The place of a code in a log, by an index beside it.
#![tactic(auto)]

ghost use Rattle.std.specs.Prelude.{◌≡◌};
ghost use Rattle.log_index.specs.Index.{finding, records};
ghost use Rattle.log_find.specs.Answer.{place_of};

use log_records::{EVERY, RECORD};

// The place of code k: from one record, and at most 63 items after it. Only those are read.
pub fn find(log: &[u8], index: &[u8], k: usize) -> Option<usize>
    ensures { result ≡ place_of (finding log.now (records index.now) k) }
{
    let first = k / EVERY * RECORD;
    let record = index.get(first..first + RECORD)?;
    let from = numbers::number_of(record);
    let place = walk::place_after(log, from, k % EVERY);
    (place < log.len()).then_some(place)
}
