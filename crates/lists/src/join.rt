// The counts with one owner fewer or more on an extent, adjacent equals joined, record by record. What a joiner keeps, and the room that it has, stand in each
// contract: the definitions make joiners too, and each would have to carry a proof of it.
ghost use Rattle.std.specs.Prelude.{◌≡◌, ◌+◌, ◌<◌, ◌≤◌, max, length};
ghost use Rattle.codec.specs.Accepted.{end_limit};
ghost use Rattle.codec.specs.Records.{bytes_of, refcounts};
ghost use Rattle.lists.specs.Release.{stop, fewer, share};
ghost use Rattle.lists.specs.Inner.Passes.{raises, writes_counts, put_if, pending, goes_on, more, next, fresh, changed, Lies, Fits, Room, Cut, Pushed};

use crate::carried::{Change, CountEdit, Joiner, Pass};
use codec::refcount::{MAXREFCOUNT, REFCOUNT_LEN, Refcount, encode};

// Finishes the record that waits, and says the place behind it. A pass that writes puts it into `new`.
pub(crate) fn finish(j: Joiner, new: &mut [u8], pass: Pass) -> usize
    requires fits { Fits j }
    requires room { Room (writes_counts pass) j (length new.old) }
    ensures value { result ≡ j.at + length (bytes_of refcounts (pending j)) }
    ensures after { new.new ≡ put_if (writes_counts pass) new.old j.at (bytes_of refcounts (pending j)) }
{
    if j.count == 0 {
        return j.at;
    }
    if pass.writes_counts() {
        let last = Refcount {
            startblock: j.start,
            blockcount: j.count,
            refcount: j.owners,
        };
        encode(new, j.at, last);
    }
    j.at + REFCOUNT_LEN
}

// Do n owners from place `a` on join the record that waits?
#[tactic(auto, unfolding(crate::specs::Inner::Passes::goes_on))]
fn goes_on(j: Joiner, a: u64, n: u64) -> bool
    requires { Fits j }
    ensures { result ≡ goes_on j a n }
{
    j.count != 0 && j.start as u64 + j.count as u64 == a && j.owners as u64 == n
}

// The places from `a` up to `z` with n owners, if there are any: they join the record that waits, or finish it and wait.
fn push(j: Joiner, a: u64, z: u64, n: u64, new: &mut [u8], pass: Pass) -> Joiner
    requires lies { Lies a z n }
    requires a_le_z { (a ≤ z) × (j.start + j.count ≤ a) }
    requires fits { Fits j }
    requires room { Room (writes_counts pass) j (length new.old) }
    ensures { Pushed (writes_counts pass) j new.old (share a z n) z result new.new }
{
    if z <= a {
        return j;
    }
    if n == 0 {
        return j;
    }
    if goes_on(j, a, n) {
        return Joiner {
            start: j.start,
            count: j.count + (z - a) as u32,
            owners: n as u32,
            at: j.at,
        };
    }
    let at = finish(j, new, pass);
    Joiner {
        start: a as u32,
        count: (z - a) as u32,
        owners: n as u32,
        at,
    }
}

// One owner fewer; at 2 none is left that a record tells of.
#[tactic(auto, unfolding(crate::specs::Release::fewer))]
fn fewer(n: u64) -> u64
    ensures { result ≡ fewer n }
{
    if n <= 2 { 0 } else { n - 1 }
}

// One owner more, as long as a record can tell them.
#[tactic(auto, unfolding(crate::specs::Inner::Passes::more))]
fn more(n: u64) -> u64
    ensures { result ≡ more n }
{
    if n < MAXREFCOUNT as u64 { n + 1 } else { n }
}

// What becomes of n owners.
#[tactic(auto, unfolding(crate::specs::Inner::Passes::next))]
fn next(how: Change, n: u64) -> u64
    ensures { result ≡ next (raises how) n }
{
    match how {
        Change::Lower => fewer(n),
        Change::Raise => more(n),
    }
}

// The places from `a` up to `z` that no record tells of: a raise gives them 2 owners.
pub(crate) fn fill(j: Joiner, a: u64, z: u64, how: Change, new: &mut [u8], pass: Pass) -> Joiner
    requires z_le_end_limit { (z ≤ end_limit) × (j.start + j.count ≤ a) }
    requires fits { Fits j }
    requires room { Room (writes_counts pass) j (length new.old) }
    ensures { Pushed (writes_counts pass) j new.old (share a z (fresh (raises how))) (max (j.start + j.count) z) result new.new }
{
    if !how.raises() {
        return j;
    }
    if z <= a {
        return j;
    }
    push(j, a, z, 2, new, pass)
}

// A record that meets the blocks of the edit: what lies before them, the owners changed there, and what lies after them; if it lies within them, in
// one piece.
fn cut(j: Joiner, r: Refcount, edit: CountEdit, new: &mut [u8], pass: Pass) -> Joiner
    requires cut { Cut (raises edit.how) (writes_counts pass) edit.start edit.end j r (length new.old) }
    requires startblock_lt_e { r.startblock < edit.end }
    ensures { Pushed (writes_counts pass) j new.old (changed (raises edit.how) edit.start edit.end r) (stop r) result new.new }
{
    let start = r.startblock as u64;
    let owners = r.refcount as u64;
    let end = start + r.blockcount as u64;
    let then = next(edit.how, owners);
    if edit.covers(start, end) {
        return push(j, start, end, then, new, pass);
    }
    let a = edit.start.clamp(start, end);
    let z = edit.end.clamp(start, end);
    let front = push(j, start, a, owners, new, pass);
    let middle = push(front, a, z, then, new, pass);
    push(middle, z, end, owners, new, pass)
}

// The next record: one that the extent does not meet stays whole.
pub(crate) fn change(j: Joiner, r: Refcount, edit: CountEdit, new: &mut [u8], pass: Pass) -> Joiner
    requires { Cut (raises edit.how) (writes_counts pass) edit.start edit.end j r (length new.old) }
    ensures { Pushed (writes_counts pass) j new.old (changed (raises edit.how) edit.start edit.end r) (stop r) result new.new }
{
    let start = r.startblock as u64;
    let end = start + r.blockcount as u64;
    if edit.meets(start, end) {
        return cut(j, r, edit, new, pass);
    }
    push(j, start, end, r.refcount as u64, new, pass)
}
