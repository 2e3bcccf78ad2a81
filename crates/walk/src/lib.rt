// The items of a log, one after another from a place on, by the reading with LAST alone.
#![tactic(auto)]

ghost use Rattle.std.specs.Prelude.{◌≡◌, ◌+◌, drop};
ghost use Rattle.std.specs.Iterator.{YieldsFirst, item_count};
ghost use Rattle.form.specs.Table.{plain};
ghost use Rattle.form.specs.Text.{items};
ghost use Rattle.bounds.specs.Cover.{place};
ghost use Rattle.walk.specs.Walk.{ahead, extents_from};

// Where an item starts, and where it ends.
#[derive(Clone, Copy)]
pub struct Extent {
    pub start: usize,
    pub end: usize,
}

#[derive(Drop)]
pub struct Walk<'a> {
    log: &'a [u8],
    at: usize,
}

// From a place at or past the end there are none.
pub fn walk_from(log: &[u8], at: usize) -> Walk<'_>
    ensures { ahead result ≡ extents_from log.now at }
{
    Walk { log, at }
}

// So many items on from a place: only those are read.
pub fn place_after(log: &[u8], from: usize, n: usize) -> usize
    ensures { result ≡ from + place n (items plain 0 (drop from log.now)) }
{
    walk_from(log, from).take(n).fold(from, |_, item| item.end)
}

impl<'a> Iterator for Walk<'a> {
    type Item = Extent;

    ghost next_gives = { YieldsFirst ahead };

    ghost remaining = { item_count ahead };

    fn next(&mut self) -> Option<Extent> {
        if self.log.len() <= self.at {
            return None;
        }
        let start = self.at;
        let end = start + item::span_of(&self.log[start..]);
        self.at = end;
        Some(Extent { start, end })
    }
}
