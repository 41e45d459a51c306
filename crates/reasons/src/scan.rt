// One pass over a reverse map: question 20, the record that a letting go cuts, and the first record over a block other than that one.
ghost use Rattle.std.specs.Prelude.{if◌then◌else◌, ◌≡◌, ◌&&◌, true, nat_eq, nat_lt};
ghost use Rattle.codec.specs.Records.{records_of, rmaps};
ghost use Rattle.codec.specs.Rmaps.{good, follows};
ghost use Rattle.lists.specs.RmapEdits.{contains, lines_up};
ghost use Rattle.reasons.specs.Why.{map_over};
ghost use Rattle.lists.specs.Answer.{edited_outcome};
ghost use Rattle.reasons.specs.Inner.Finding.{probe, Within, Noted, FoundIs, other_before26};

use crate::find::over;
use codec::check::ListRefusal;
use codec::rmap::{RMAP_LEN, Rmap, decode, good};
use lists::EditRefusal;
use lists::search::{contains, lines_up, note, passes};

// What a pass finds, each by its index, or the number of records where there is none. Of the records over a block: the first that contains the extent and
// lines up with it, the first that contains it, the first of all, and the second. They are numbers, no Options, as the definitions have them: two places are
// compared, and where there is none both are the number of records.
#[derive(Clone, Copy)]
pub(crate) struct Found {
    pub aligned: usize,
    pub containing: usize,
    pub first: usize,
    pub second: usize,
}

// Does r contain x and line up with it?
fn contains_aligned(x: Rmap, r: Rmap) -> bool
    ensures { result ≡ (contains x r && lines_up x r) }
{
    contains(x, r) && lines_up(x, r)
}

// Does the good record r lie over the block? One comparison tells: before the record the difference wraps, and is larger than any count.
fn is_over(r: Rmap, block: u32) -> bool
    requires { good r ≡ true }
    ensures { result ≡ map_over block r }
{
    block.wrapping_sub(r.startblock) < r.blockcount
}

// What was found, with the record i. One that does not lie over the block is none of these.
fn noted(s: Found, x: Rmap, block: u32, r: Rmap, i: usize, n: usize) -> Found
    requires { Within n s × (good r ≡ true) }
    ensures { Noted x block r i n s result }
{
    if !is_over(r, block) {
        return s;
    }
    Found {
        aligned: note(s.aligned, n, i, contains_aligned(x, r)),
        containing: note(s.containing, n, i, contains(x, r)),
        first: note(s.first, n, i, true),
        second: note(s.second, n, i, s.first < n),
    }
}

// Is r good, and may it stand behind prev? Three tests tell it of most records: they start behind prev, their start and count are small, and bit 53 of their
// offset is clear. By the tests of `passes` alone an explanation took longer than the whole letting go.
#[tactic(auto, unfolding(codec::specs::Rmaps::good, codec::specs::Rmaps::follows, codec::specs::Rmaps::before))]
fn may_stand(prev: Rmap, r: Rmap) -> bool
    ensures { result ≡ (good r && follows prev r) }
{
    let small = (r.startblock < 0x4000_0000) & (0 < r.blockcount) & (r.blockcount <= 0x4000_0000);
    prev.startblock < r.startblock && small && r.offset / 0x20_0000_0000_0000 % 2 == 0
        || passes(prev, r)
}

// The pass: nothing where the list is not in order. It is not the pass of `lists`, which finds other things of records that need not lie over a block: a pass by
// closures of both would be no plainer.
fn scan(map: &[u8], x: Rmap, block: u32) -> Option<Found>
    ensures { FoundIs x block (records_of rmaps map.now) result }
{
    let n = map.len() / RMAP_LEN;
    let mut prev = Rmap {
        startblock: 0,
        blockcount: 0,
        owner: 0,
        offset: 0,
    };
    let mut s = Found {
        aligned: n,
        containing: n,
        first: n,
        second: n,
    };
    for i in 0..n {
        let r = decode(map, i * RMAP_LEN);
        if !may_stand(prev, r) {
            return None;
        }
        s = noted(s, x, block, r, i, n);
        prev = r;
    }
    Some(s)
}

// A block of x to search by: the one given, or the first where that is none. Whatever contains x lies over it.
fn probe(x: Rmap, block: u32) -> u32
    ensures { result ≡ probe x block }
{
    if over(x.startblock, x.blockcount, block) {
        block
    } else {
        x.startblock
    }
}

// The record cut: the first that lines up, else the first that contains the extent; n where none does.
fn cut_of(s: Found, n: usize) -> usize
    ensures { result ≡ (if nat_lt s.aligned n then s.aligned else s.containing) }
{
    if s.aligned < n {
        s.aligned
    } else {
        s.containing
    }
}

// The first record over the block other than the one cut.
fn other_than(cut: usize, s: Found) -> usize
    ensures { result ≡ (if nat_eq s.first cut then s.second else s.first) }
{
    if s.first == cut { s.second } else { s.first }
}

// The questions 19, 20, 22 and 24 of a letting go of x, then the index of the first record over the block other than the one cut, or the number of records.
// Where the block is none of x it is the first block of x that is searched by.
pub(crate) fn find_other(map: &[u8], x: Rmap, block: u32) -> Result<usize, EditRefusal>
    ensures { edited_outcome result ≡ other_before26 map.now x block }
{
    if map.len() % RMAP_LEN != 0 {
        return Err(EditRefusal::List(ListRefusal::Length));
    }
    let Some(s) = scan(map, x, probe(x, block)) else {
        return Err(EditRefusal::List(ListRefusal::RmapOrder));
    };
    if !good(x) {
        return Err(EditRefusal::Extent);
    }
    let n = map.len() / RMAP_LEN;
    let cut = cut_of(s, n);
    if n <= cut {
        return Err(EditRefusal::Missing);
    }
    Ok(other_than(cut, s))
}
