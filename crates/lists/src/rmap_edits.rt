// Extents taken and given up in a reverse map: a splice is prepared by value, then written. The old list is read, the new one goes to another buffer.
ghost use Rattle.std.specs.Prelude.{◌≡◌, true, cond, ◌+◌, ◌/◌, ◌^◌, ◌≤◌, ◌<◌, length};
ghost use Rattle.codec.specs.Records.{records_of, rmaps};
ghost use Rattle.codec.specs.Rmaps.{end, exempt, good};
ghost use Rattle.lists.specs.declared.splice.Edit.TheVariants.{Insert, InsertShared, Remove};
ghost use Rattle.lists.specs.RmapEdits.{later};
ghost use Rattle.lists.specs.Answer.{EditIs, Inserts, InsertsShared, Removes};
ghost use Rattle.lists.specs.Splice.{part_count, PartsGood, PreparedIs};
ghost use Rattle.lists.specs.Inner.Searches.{Finds};
ghost use Rattle.lists.specs.Inner.Splicing.{edit_outcome, previous, SpliceIs};

use crate::EditRefusal;
use crate::findings::Scan;
use crate::ordered::Ordered;
use crate::search::asked;
use crate::splice::{Edit, Part, Splice};
use crate::write::write_splice;
use codec::rmap::{RMAP_LEN, Rmap, exempt};

// The index before `at`, and n where there is none.
#[tactic(auto, unfolding(crate::specs::Inner::Splicing::previous))]
fn previous(at: usize, n: usize) -> usize
    ensures { result ≡ previous at n }
{
    if at == 0 { n } else { at - 1 }
}

// How many records a part has.
fn part_count(p: Part) -> usize
    requires { (p.from ≤ p.to) × (p.to < 2 ^ 63) }
    ensures { result ≡ part_count p }
{
    let copied = p.to - p.from;
    match p.rmap {
        None => copied,
        Some(_) => 1 + copied,
    }
}

// The splice of the parts, with its size.
fn ready(old: &Ordered<'_>, front: usize, first: Part, second: Part, rest: usize) -> Splice
    requires { PartsGood (length old.now.list.now / rmaps.size) front first second rest }
    ensures { SpliceIs (records_of rmaps old.now.list.now) front first second rest result }
{
    let count = front + part_count(first) + part_count(second) + (old.len() - rest);
    Splice {
        front,
        first,
        second,
        rest,
        size: count * RMAP_LEN,
    }
}

// Question 23 of `insert`, and its splice. Here and in the two below the extent is good, by a clause: a type of good extents would be taken apart in all three,
// since what they promise is of the extent.
fn place_insert(old: &Ordered<'_>, x: Rmap, s: Scan) -> Result<Splice, EditRefusal>
    requires { (good x ≡ true) × Finds Insert x (records_of rmaps old.now.list.now) s }
    ensures { PreparedIs Insert old.now.list.now x result }
{
    let n = old.len();
    let at = old.after(x);
    if s.conflict < n {
        return Err(EditRefusal::Overlap);
    }
    let high = old.join(false, at, x);
    let y = high.unwrap_or(x);
    let i = previous(at, n);
    let low = old.join(true, i, y);
    let z = low.unwrap_or(y);
    let front = if low.is_some() { i } else { at };
    let rest = if high.is_some() { at + 1 } else { at };
    let first = Part {
        rmap: Some(z),
        from: at,
        to: at,
    };
    let second = Part {
        rmap: None,
        from: at,
        to: at,
    };
    Ok(ready(old, front, first, second, rest))
}

// Question 23 of `insert_shared`, and its splice.
fn place_shared(old: &Ordered<'_>, x: Rmap, s: Scan) -> Result<Splice, EditRefusal>
    requires { (good x ≡ true) × Finds InsertShared x (records_of rmaps old.now.list.now) s }
    ensures { PreparedIs InsertShared old.now.list.now x result }
{
    if s.conflict < old.len() {
        return Err(EditRefusal::Overlap);
    }
    let i = s.before;
    let j = s.after;
    let low = old.join(true, i, x);
    let y = low.unwrap_or(x);
    let high = old.join(false, j, y);
    let z = high.unwrap_or(y);
    let place = old.seat(z);
    let to = if low.is_some() { i } else { place };
    let from = if low.is_some() { i + 1 } else { place };
    let rest = if high.is_some() { j + 1 } else { j };
    let first = Part {
        rmap: Some(z),
        from: place,
        to,
    };
    let second = Part {
        rmap: None,
        from,
        to: j,
    };
    Ok(ready(old, place, first, second, rest))
}

// The offset of w, n blocks on.
fn moved(w: Rmap, n: u64) -> u64
    requires { (good w ≡ true) × (n ≤ w.blockcount) }
    ensures { result ≡ cond (exempt w) w.offset (w.offset + n) }
{
    if exempt(w) { w.offset } else { w.offset + n }
}

// What is left of w after x.
fn later(x: Rmap, w: Rmap) -> Rmap
    requires { (good w ≡ true) × (w.startblock ≤ x.startblock) × (end x ≤ end w) }
    ensures { result ≡ later x w }
{
    let stop = x.end();
    let whole = w.end();
    Rmap {
        startblock: stop as u32,
        blockcount: (whole - stop) as u32,
        offset: moved(w, stop - w.startblock as u64),
        ..w
    }
}

// Question 24 of `remove`, and its splice.
fn place_remove(old: &Ordered<'_>, x: Rmap, s: Scan) -> Result<Splice, EditRefusal>
    requires { (good x ≡ true) × Finds Remove x (records_of rmaps old.now.list.now) s }
    ensures { PreparedIs Remove old.now.list.now x result }
{
    let n = old.len();
    let at = if s.aligned < n {
        s.aligned
    } else {
        s.containing
    };
    if n <= at {
        return Err(EditRefusal::Missing);
    }
    let w = old.at(at);
    let k = later(x, w);
    let place = old.seat(k);
    let f = Rmap {
        blockcount: x.startblock - w.startblock,
        ..w
    };
    let first = Part {
        rmap: (w.startblock < x.startblock).then_some(f),
        from: at + 1,
        to: place,
    };
    let second = Part {
        rmap: (x.end() < w.end()).then_some(k),
        from: place,
        to: place,
    };
    Ok(ready(old, at, first, second, place))
}

// An edit prepared: the questions 19, 20, 22, and 23 or 24, then the new list. Nothing is written.
pub fn prepare(old: &[u8], e: Edit, x: Rmap) -> Result<Splice, EditRefusal>
    ensures { PreparedIs e old.now x result }
{
    let s = asked(old, e, x)?;
    let list = Ordered { list: old };
    match e {
        Edit::Insert => place_insert(&list, x, s),
        Edit::InsertShared => place_shared(&list, x, s),
        Edit::Remove => place_remove(&list, x, s),
    }
}

// An edit prepared, 26 asked, and the new list written; a refusal writes nothing.
fn edit(old: &[u8], e: Edit, x: Rmap, new: &mut [u8]) -> Result<usize, EditRefusal>
    ensures { EditIs (edit_outcome e old.now x (length new.old)) result new.old new.new }
{
    let p = prepare(old, e, x)?;
    if new.len() < p.size {
        return Err(EditRefusal::Room);
    }
    write_splice(old, p, new);
    Ok(p.size)
}

// Takes an extent of which no block is held: questions 19, 20, 22, 23 and 26, then the new list, of which the bytes are said.
pub fn insert(old: &[u8], x: Rmap, new: &mut [u8]) -> Result<usize, EditRefusal>
    ensures { Inserts old.now x result new.old new.new }
{
    edit(old, Edit::Insert, x, new)
}

// The same for an extent whose blocks others may hold; 23 asks that no record clashes. The counts are left alone, so they may no longer agree
// with the new list: `take_held` of crate groups is the call for held blocks, and histories take by that.
pub fn insert_shared(old: &[u8], x: Rmap, new: &mut [u8]) -> Result<usize, EditRefusal>
    ensures { InsertsShared old.now x result new.old new.new }
{
    edit(old, Edit::InsertShared, x, new)
}

// Gives an extent up: questions 19, 20, 22, 24 and 26, then the new list, of which the bytes are said.
pub fn remove(old: &[u8], x: Rmap, new: &mut [u8]) -> Result<usize, EditRefusal>
    ensures { Removes old.now x result new.old new.new }
{
    edit(old, Edit::Remove, x, new)
}
