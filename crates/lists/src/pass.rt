// One pass along the shared counts for a release or a raise. It decides 21, 25 and 28 and adds up both lengths, or it writes the lists: a refusal
// writes nothing, and 26 asks the lengths, so an edit takes a pass that measures and then one that writes. Behind each record it steps over, it
// skips those that stay as they are.
ghost use Rattle.std.specs.Prelude.{◌≡◌, not, ◌&&◌, ltb, length};
ghost use Rattle.codec.specs.Records.{records_of, refcounts};
ghost use Rattle.codec.specs.Refcounts.{staging, block, end};
ghost use Rattle.lists.specs.Raise.{full};
ghost use Rattle.lists.specs.Inner.Passes.{raises, writes_counts, writes_free, begun, StepAsks, Stepped, Passable, PassIs};

use crate::carried::{Carried, Change, CountEdit, Joiner, Pass};
use crate::gaps::put_gap;
use crate::join::{change, fill, finish};
use crate::unchanged::{skip, unchanged};
use crate::{EditRefusal, Lengths};
use codec::check::ListRefusal;
use codec::refcount::{MAXREFCOUNT, REFCOUNT_LEN, Refcount, decode, follows, good};

// Before the first record, for an extent from `s` on.
fn begin(s: u64) -> Carried
    ensures { result ≡ begun s }
{
    Carried {
        prev: Refcount {
            startblock: 0,
            blockcount: 0,
            refcount: 0,
        },
        joiner: Joiner {
            start: 0,
            count: 0,
            owners: 0,
            at: 0,
        },
        gap: s,
        free: 0,
        clear: true,
        fit: true,
    }
}

// Does the record stage a block of the edit?
fn stages(r: Refcount, edit: CountEdit) -> bool
    ensures { result ≡ (staging r && (ltb (block r) edit.end && ltb edit.start (end r))) }
{
    r.is_staging() && (r.block() as u64) < edit.end && edit.start < r.end()
}

// Are the blocks of the edit clear of this record too?
fn stays_clear(clear: bool, r: Refcount, edit: CountEdit) -> bool
    ensures { result ≡ (clear && not (staging r && (ltb (block r) edit.end && ltb edit.start (end r)))) }
{
    clear && !stages(r, edit)
}

// Does the record, a shared one, meet the blocks of the edit with as many owners as it can tell?
#[tactic(auto, unfolding(crate::specs::Raise::full))]
fn full(r: Refcount, edit: CountEdit) -> bool
    ensures { result ≡ full edit.start edit.end r }
{
    let start = r.startblock as u64;
    MAXREFCOUNT <= r.refcount && !r.is_staging() && edit.meets(start, start + r.blockcount as u64)
}

// Can this record too tell one owner more of the blocks of the edit?
fn stays_fit(fit: bool, r: Refcount, edit: CountEdit) -> bool
    ensures { result ≡ (fit && not (full edit.start edit.end r)) }
{
    fit && !full(r, edit)
}

// Does a raise make more owners than a record can tell?
fn too_many(how: Change, fit: bool) -> bool
    ensures { result ≡ (raises how && not fit) }
{
    how.raises() && !fit
}

// The next record, which is good and in order.
fn step(
    w: Carried,
    r: Refcount,
    edit: CountEdit,
    new: &mut [u8],
    free: &mut [u8],
    pass: Pass,
) -> Carried
    requires { StepAsks (raises edit.how) (writes_counts pass) (writes_free pass) edit.start edit.end w r (length new.old) (length free.old) }
    ensures { Stepped (raises edit.how) (writes_counts pass) (writes_free pass) edit.start edit.end w r new.old free.old
        result new.new free.new }
{
    let clear = stays_clear(w.clear, r, edit);
    let fit = stays_fit(w.fit, r, edit);
    let start = r.startblock as u64;
    let end = start + r.blockcount as u64;
    let gap = w.gap.max(end);
    let z = start.min(edit.end);
    let found = put_gap(free, w.free, w.gap, z, pass);
    let j = w.joiner;
    let filled = fill(j, w.gap, z, edit.how, new, pass);
    let joiner = change(filled, r, edit, new, pass);
    Carried {
        prev: r,
        joiner,
        gap,
        free: found,
        clear,
        fit,
    }
}

// Asks 21 and 25, in a raise 28 too, of a good extent, and gives both lengths. A pass that writes, where the questions hold and what it writes
// fits, puts the new counts into `new`, and the free extents into `free`.
pub(crate) fn pass(
    counts: &[u8],
    startblock: u32,
    blockcount: u32,
    how: Change,
    new: &mut [u8],
    free: &mut [u8],
    pass: Pass,
) -> Result<Lengths, EditRefusal>
    requires { Passable (raises how) (records_of refcounts counts.now) startblock blockcount
        (writes_counts pass) (writes_free pass) (length new.old) (length free.old) }
    ensures { PassIs (raises how) (writes_counts pass) (writes_free pass) (records_of refcounts counts.now) startblock blockcount
        result new.old new.new free.old free.new }
{
    let start = startblock as u64;
    let edit = CountEdit {
        how,
        start,
        end: start + blockcount as u64,
    };
    let n = counts.len() / REFCOUNT_LEN;
    let mut w = begin(start);
    let mut i = 0;
    // No `for`: a round goes on behind the records that stay, however many they are.
    while i < n {
        let r = decode(counts, i * REFCOUNT_LEN);
        if !good(r) || !follows(w.prev, r) {
            return Err(EditRefusal::List(ListRefusal::ExtentOrder));
        }
        w = step(w, r, edit, new, free, pass);
        let next = i + 1;
        let j = unchanged(w, counts, next, edit);
        w = skip(w, counts, next, j, new, pass);
        i = j;
    }
    if !w.clear {
        return Err(EditRefusal::Staging);
    }
    if too_many(how, w.fit) {
        return Err(EditRefusal::Owners);
    }
    let j = w.joiner;
    let filled = fill(j, w.gap, edit.end, how, new, pass);
    let counts_len = finish(filled, new, pass);
    let free_len = put_gap(free, w.free, w.gap, edit.end, pass);
    Ok(Lengths {
        counts: counts_len,
        free: free_len,
    })
}
