// Building the index of a log, and updating it after an append.
#![tactic(auto)]

ghost use Rattle.std.specs.Prelude.{◌≡◌, ◌-◌, ◌*◌, ◌≤◌, length};
ghost use Rattle.numbers.specs.Number.{values_in, over};
ghost use Rattle.log_index.specs.Update.{standing, building, updating};
ghost use Rattle.log_update.specs.Resumption.{last_of, skip_of};
ghost use Rattle.log_update.specs.Refusal.{number_of};
ghost use Rattle.log_update.specs.Answer.{answer_of};

use log_records::{EVERY, RECORD};

// Why a call on a log is refused.
#[derive(Clone, Copy, Debug, PartialEq, Eq)]
pub enum Refusal {
    // The records do not fit.
    NoRoom,
    // What was asked for is not there: an old length, old records, a code, a byte.
    Outside,
}

// The number that C knows it by.
impl From<Refusal> for u32 {
    ghost from_gives = { λ refusal n. n ≡ number_of refusal };

    fn from(refusal: Refusal) -> u32 {
        match refusal {
            Refusal::NoRoom => 1,
            Refusal::Outside => 15,
        }
    }
}

// How many of the first `old` records stand: their places are more than three bytes before the old end.
fn count_standing(index: &[u8], old: usize, was: usize) -> usize
    requires { old * 8 ≤ length index.now }
    ensures count { result ≡ length (standing was (values_in 8 old index.now)) }
    ensures few { result ≤ old }
{
    index
        .chunks_exact(RECORD)
        .take(old)
        .take_while(|record| numbers::number_of(record) < was.saturating_sub(3))
        .count()
}

// Where the walk goes on after so many records, and how many codes it passes over: the last record stands, and the next is for the code
// 64 further on.
fn resume_after(index: &[u8], count: usize) -> (usize, usize)
    requires { count * 8 ≤ length index.now }
    ensures place { result.0 ≡ last_of 0 (values_in 8 count index.now) }
    ensures skip { result.1 ≡ skip_of count }
{
    match count.checked_sub(1) {
        Some(last) => (numbers::number_of(&index[last * RECORD..]), EVERY),
        None => (0, 0),
    }
}

// The index of a log after an append: `was` is the old length, and `old` how many records the index has of the old log. Answers how many
// it has then.
pub fn update(log: &[u8], was: usize, index: &mut [u8], old: usize) -> Result<usize, Refusal>
    ensures answer { result ≡ answer_of (updating log.now was index.old old) }
    ensures output { index.new ≡ over (updating log.now was index.old old).bytes index.old }
{
    let room = index.len() / RECORD;
    if log.len() < was || room < old {
        return Err(Refusal::Outside);
    }
    let count = count_standing(index, old, was);
    let (place, skip) = resume_after(index, count);
    if !log_records::are_few(log, place, skip, room - count) {
        return Err(Refusal::NoRoom);
    }
    let laid = log_records::lay_records(log, place, skip, &mut index[count * RECORD..]);
    Ok(count + laid)
}

// The index of a log.
pub fn build(log: &[u8], index: &mut [u8]) -> Result<usize, Refusal>
    ensures answer { result ≡ answer_of (building log.now (length index.old)) }
    ensures output { index.new ≡ over (building log.now (length index.old)).bytes index.old }
{
    update(log, 0, index, 0)
}
