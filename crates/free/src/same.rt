// Do a list by block and a list by size hold the same extents, equally often? They do where both are as long and each extent by size is among those by
// block, since no accepted list has an extent twice. Extents of one size ascend by their start, so each is searched from where the last one was found, in steps that
// double, and then by halves: n log n at most, and nothing is lent or copied.
ghost use Rattle.std.specs.Prelude.{◌≡◌, true, ◌<◌, length};
ghost use Rattle.free.specs.declared.order.Order.TheVariants.{ByBlock};
ghost use Rattle.free.specs.Free.{accepted};
ghost use Rattle.free.specs.Same.{same_outcome, same_said};
ghost use Rattle.free.specs.Inner.Searches.{extents_in, start_of, StartBefore, RangeIs, PlaceIs, is_at, all_in};

use crate::order::{Order, check_order};
use codec::check::ListRefusal;
use codec::free_extent::{EXTENT_LEN, FreeExtent, decode};
use std::ops::Range;

// The extents of a list by block that is accepted, so they ascend by their start.
#[derive(Clone, Copy)]
struct Ascending<'a> {
    extents: &'a [[u8; EXTENT_LEN]],
    ghost in_order: { accepted ByBlock (extents_in extents.now) ≡ true },
}

impl Ascending<'_> {
    // The start of the i-th extent.
    fn start_at(&self, i: usize) -> u32
        requires { i < length self.now.extents.now }
        ensures { result ≡ start_of (extents_in self.now.extents.now) i }
    {
        decode(&self.extents[i], 0).startblock
    }

    // How many extents start before a block for sure, where the last search ended at `last`: those up to there, or none.
    fn known(&self, last: usize, start: u32) -> usize
        ensures { StartBefore (extents_in self.now.extents.now) start result }
    {
        if last < self.extents.len() && self.start_at(last) < start {
            last + 1
        } else {
            0
        }
    }

    // In steps that double, which no range or iterator takes: extents of which those before the range start before a block, and those behind it do not.
    fn reach(&self, from: usize, start: u32) -> Range<usize>
        requires { StartBefore (extents_in self.now.extents.now) start from }
        ensures { RangeIs (extents_in self.now.extents.now) start result.start result.end }
    {
        let n = self.extents.len();
        let mut low = from;
        let mut step = 1;
        while step <= n - low {
            let last = low + step - 1;
            if start <= self.start_at(last) {
                return low..last;
            }
            low += step;
            step *= 2;
        }
        low..n
    }

    // How many extents start before a block, searched from where the last search ended.
    fn place(&self, last: usize, start: u32) -> usize
        ensures { PlaceIs (extents_in self.now.extents.now) start result }
    {
        let Range {
            start: low,
            end: high,
        } = self.reach(self.known(last, start), start);
        low + self.extents[low..high].partition_point(|x| decode(x, 0).startblock < start)
    }

    // Is e the i-th extent?
    fn is_at(&self, i: usize, e: FreeExtent) -> bool
        ensures { result ≡ is_at e (extents_in self.now.extents.now) i }
    {
        i < self.extents.len() && decode(&self.extents[i], 0) == e
    }

    // Is each of some extents among these?
    fn has_all(&self, extents: &[[u8; EXTENT_LEN]]) -> bool
        ensures { result ≡ all_in (extents_in extents.now) (extents_in self.now.extents.now) }
    {
        let mut last = 0;
        for x in extents {
            let e = decode(x, 0);
            last = self.place(last, e.startblock);
            if !self.is_at(last, e) {
                return false;
            }
        }
        true
    }
}

// Questions 19 and 21 on the list by block, then on the list by size; then yes or no.
pub fn same_extents(by_block: &[u8], by_size: &[u8]) -> Result<bool, ListRefusal>
    ensures { same_said result ≡ same_outcome by_block.now by_size.now }
{
    check_order(Order::ByBlock, by_block)?;
    check_order(Order::BySize, by_size)?;
    if by_block.len() != by_size.len() {
        return Ok(false);
    }
    let ascending = Ascending {
        extents: by_block.as_chunks().0,
    };
    Ok(ascending.has_all(by_size.as_chunks().0))
}
