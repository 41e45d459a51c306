// Shared counts that an edit leaves as they are: a run of them is found in one go, and copied as bytes.
ghost use Rattle.std.specs.Prelude.{◌≡◌, true, false, ◌+◌, ◌/◌, ◌≤◌, length};
ghost use Rattle.codec.specs.Records.{records_of, refcounts};
ghost use Rattle.lists.specs.Splice.{between};
ghost use Rattle.lists.specs.Inner.Passes.{writes_counts, put_if};
ghost use Rattle.lists.specs.Inner.Staying.{Stays, AllStay, behind, Unchanged, SkipAsks, Skipped};

use crate::carried::{Carried, CountEdit, Joiner, Pass};
use crate::join::finish;
use codec::check::END_LIMIT;
use codec::copy::copy;
use codec::refcount::{REFCOUNT_LEN, Refcount, decode};

// Do `owners` from `start` on join the `last` ones, which stop at `stop`?
fn joins(start: u64, owners: u32, stop: u64, last: u32) -> bool
    ensures { result ≡ false → start ≡ stop → owners ≡ last → ⊥ }
{
    start == stop && owners == last
}

// Does a record stay behind the place `stop`, where so many `owners` stop? It is good and shared, joins nothing, and lies before `s` or from `high` on.
fn stays(r: Refcount, stop: u64, owners: u32, s: u64, high: u64) -> bool
    ensures { result ≡ true → Stays stop owners s high r }
{
    let start = r.startblock as u64;
    let end = start + r.blockcount as u64;
    // as one expression it took 9 instructions a count more
    if r.blockcount == 0
        || END_LIMIT < end
        || r.refcount < 2
        || start < stop
        || joins(start, r.refcount, stop, owners)
    {
        return false;
    }
    end <= s || high <= start
}

// The end of a run of records that stay, from number i on. A call of its own: inlined into a pass, it takes 10 instructions a count more.
#[inline(never)]
fn run_end(counts: &[u8], i: usize, stop: u64, owners: u32, s: u64, high: u64) -> usize
    requires { i ≤ length counts.now / refcounts.size }
    ensures lower_bound { (i ≤ result) × (result ≤ length counts.now / refcounts.size) }
    ensures all_stay { AllStay stop owners s high (between (records_of refcounts counts.now) i result) }
{
    let n = counts.len() / REFCOUNT_LEN;
    let mut last_stop = stop;
    let mut last_owners = owners;
    for j in i..n {
        let r = decode(counts, j * REFCOUNT_LEN);
        if !stays(r, last_stop, last_owners, s, high) {
            return j;
        }
        last_stop = r.startblock as u64 + r.blockcount as u64;
        last_owners = r.refcount;
    }
    n
}

// From where on a record behind the extent stays: none does before all free blocks are found.
#[tactic(auto, unfolding(crate::specs::Inner::Staying::behind))]
fn behind(gap: u64, e: u64) -> u64
    ensures { result ≡ behind gap e }
{
    if gap < e { 0x1_0000_0000 } else { e }
}

// The end of a run of records that an edit leaves as they are, from number i on; i if there is none.
pub(crate) fn unchanged(w: Carried, counts: &[u8], i: usize, edit: CountEdit) -> usize
    requires { i ≤ length counts.now / refcounts.size }
    ensures lower_bound { (i ≤ result) × (result ≤ length counts.now / refcounts.size) }
    ensures unchanged { Unchanged edit.start edit.end w (between (records_of refcounts counts.now) i result) }
{
    // none does behind a staging record, nor while a free block of the extent may be found
    if w.prev.is_staging() || edit.start < w.gap && w.gap < edit.end {
        return i;
    }
    let stop = w.prev.startblock as u64 + w.prev.blockcount as u64;
    let high = behind(w.gap, edit.end);
    let owners = w.joiner.owners;
    if counts.len() / REFCOUNT_LEN <= i {
        return i;
    }
    // one that joins is seen here: a call for each takes a third more where all join
    let r = decode(counts, i * REFCOUNT_LEN);
    if joins(r.startblock as u64, r.refcount, stop, owners) {
        return i;
    }
    run_end(counts, i, stop, owners, edit.start, high)
}

// Puts bytes of the old counts at a place of `new`, in a pass that writes.
fn put_counts(bytes: &[u8], new: &mut [u8], at: usize, pass: Pass)
    requires { writes_counts pass ≡ true → at + length bytes.now ≤ length new.old }
    ensures { new.new ≡ put_if (writes_counts pass) new.old at bytes.now }
{
    if pass.writes_counts() {
        copy(bytes, new, at);
    }
}

// Carries on behind the records from number i up to j, which stay. The last one waits; a pass that writes copies those before it.
pub(crate) fn skip(
    w: Carried,
    counts: &[u8],
    i: usize,
    j: usize,
    new: &mut [u8],
    pass: Pass,
) -> Carried
    requires { SkipAsks (writes_counts pass) w i j counts.now (length new.old) }
    ensures { Skipped (writes_counts pass) w (between (records_of refcounts counts.now) i j) new.old result new.new }
{
    if j <= i {
        return w;
    }
    let from = i * REFCOUNT_LEN;
    let to = (j - 1) * REFCOUNT_LEN;
    let at = finish(w.joiner, new, pass);
    put_counts(&counts[from..to], new, at, pass);
    let r = decode(counts, to);
    let end = r.startblock as u64 + r.blockcount as u64;
    Carried {
        prev: r,
        joiner: Joiner {
            start: r.startblock,
            count: r.blockcount,
            owners: r.refcount,
            at: at + (to - from),
        },
        gap: w.gap.max(end),
        ..w
    }
}
