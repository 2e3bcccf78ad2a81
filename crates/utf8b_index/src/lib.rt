// The entries for C, for the index into a log: a number is the answer, and results go where the caller says; after another number than 0
// nothing is written.
#![tactic(auto)]

ghost use Rattle.std.specs.Prelude.{◌≡◌, length};
ghost use Rattle.form.specs.Table.{plain};
ghost use Rattle.form.specs.Text.{items};
ghost use Rattle.bounds.specs.Cover.{covering};
ghost use Rattle.log_index.specs.Index.{finding, records};
ghost use Rattle.log_index.specs.Update.{building, updating};
ghost use Rattle.utf8b_index.specs.Entry.{placed, found, covered, told, indexed, filled};

use log_update::Refusal;

// The index of a log: 0 or 1.
#[tactic(auto, using(log_update::proofs::Answer::building_given))]
#[unsafe(no_mangle)]
pub extern "C" fn utf8b_index_build(log: &[u8], index: &mut [u8], records: &mut usize) -> u32
    ensures { indexed result index.new records.new ≡ filled (building log.now (length index.old)) index.old records.old }
{
    match log_update::build(log, index) {
        Ok(built) => {
            *records = built;
            0
        }
        Err(refusal) => refusal.into(),
    }
}

// The place of code k: 0 or 15.
#[unsafe(no_mangle)]
pub extern "C" fn utf8b_index_find(log: &[u8], index: &[u8], k: usize, place: &mut usize) -> u32
    ensures { placed result place.new ≡ found (finding log.now (records index.now) k) place.old }
{
    match log_find::find(log, index, k) {
        Some(at) => {
            *place = at;
            0
        }
        None => Refusal::Outside.into(),
    }
}

// The item that covers byte p: 0 or 15.
#[unsafe(no_mangle)]
pub extern "C" fn utf8b_index_cover(
    log: &[u8],
    p: usize,
    start: &mut usize,
    len: &mut usize,
    code: &mut u32,
) -> u32
    ensures { told result start.new len.new code.new ≡ covered (covering 0 (items plain 0 log.now) p) start.old len.old code.old }
{
    match cover::cover(log, p) {
        Some(c) => {
            *start = c.start;
            *len = c.len;
            *code = c.code;
            0
        }
        None => Refusal::Outside.into(),
    }
}

// The index of a log after an append, by its old length and its old records: 0, 1 or 15.
#[tactic(auto, using(log_update::proofs::Answer::updating_given))]
#[unsafe(no_mangle)]
pub extern "C" fn utf8b_index_update(
    log: &[u8],
    was: usize,
    old: usize,
    index: &mut [u8],
    records: &mut usize,
) -> u32
    ensures { indexed result index.new records.new ≡ filled (updating log.now was index.old old) index.old records.old }
{
    match log_update::update(log, was, index, old) {
        Ok(updated) => {
            *records = updated;
            0
        }
        Err(refusal) => refusal.into(),
    }
}
