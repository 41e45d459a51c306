// Searches of a reverse map: two records beside each other, one pass over a list that asks 20 and finds what an edit needs, and the place of a record.
ghost use Rattle.std.specs.Prelude.{◌≡◌, ◌&&◌, ◌≤◌};
ghost use Rattle.codec.specs.Records.{records_of, rmaps};
ghost use Rattle.codec.specs.Rmaps.{good, follows};
ghost use Rattle.lists.specs.RmapEdits.{note_of, continues, overlaps, clash, contains, lines_up, alike};
ghost use Rattle.lists.specs.Inner.Searches.{touches, tests, Noted, ScanIs, AskedIs};

use crate::EditRefusal;
use crate::findings::{Hits, NO_HITS, Scan};
use crate::splice::Edit;
use codec::check::ListRefusal;
use codec::rmap::{RMAP_LEN, Rmap, comes_before, decode, exempt, good};

// Have the records the same owner and flags?
fn alike(r: Rmap, s: Rmap) -> bool
    ensures { result ≡ alike r s }
{
    r.owner == s.owner && r.flags() == s.flags()
}

// Does s continue r?
#[tactic(auto, unfolding(crate::specs::RmapEdits::continues))]
pub(crate) fn continues(r: Rmap, s: Rmap) -> bool
    ensures { result ≡ continues r s }
{
    alike(r, s)
        && r.end() == s.startblock as u64
        && (r.is_reserved() || r.file_offset() + r.blockcount as u64 == s.file_offset())
}

// Does the file offset of r line up with that of x?
#[tactic(auto, unfolding(crate::specs::RmapEdits::lines_up))]
pub fn lines_up(x: Rmap, r: Rmap) -> bool
    ensures { result ≡ lines_up x r }
{
    exempt(r) || r.file_offset() + x.startblock as u64 == x.file_offset() + r.startblock as u64
}

// Have x and r a block in common?
#[tactic(auto, unfolding(crate::specs::RmapEdits::overlaps))]
fn overlaps(x: Rmap, r: Rmap) -> bool
    ensures { result ≡ overlaps x r }
{
    (r.startblock as u64) < x.end() && (x.startblock as u64) < r.end()
}

// Do x and r overlap as no two shared mappings may?
#[tactic(auto, unfolding(crate::specs::RmapEdits::clash, crate::specs::RmapEdits::lines_up))]
fn clash(x: Rmap, r: Rmap) -> bool
    ensures { result ≡ clash x r }
{
    overlaps(x, r) && (exempt(r) || exempt(x) || alike(r, x) && lines_up(x, r))
}

// Is r of the owner and flags of x, and does it contain x?
#[tactic(auto, unfolding(crate::specs::RmapEdits::contains))]
pub fn contains(x: Rmap, r: Rmap) -> bool
    ensures { result ≡ contains x r }
{
    alike(r, x) && r.startblock <= x.startblock && x.end() <= r.end()
}

// What r passes of the searches of an edit.
#[tactic(auto, unfolding(crate::specs::Inner::Searches::tests))]
fn hits(e: Edit, x: Rmap, r: Rmap) -> Hits
    ensures { result ≡ tests e x r }
{
    match e {
        Edit::Insert => Hits {
            conflict: overlaps(x, r),
            ..NO_HITS
        },
        Edit::InsertShared => Hits {
            conflict: clash(x, r),
            before: continues(r, x),
            after: continues(x, r),
            ..NO_HITS
        },
        Edit::Remove => {
            let containing = contains(x, r);
            Hits {
                aligned: containing && lines_up(x, r),
                containing,
                ..NO_HITS
            }
        }
    }
}

// What was found already, or the record i where it passes; n where nothing was found.
#[tactic(auto, unfolding(crate::specs::RmapEdits::note_of))]
pub fn note(found: usize, n: usize, i: usize, hit: bool) -> usize
    ensures { result ≡ note_of found n i hit }
{
    if found < n {
        found
    } else if hit {
        i
    } else {
        n
    }
}

// Do x and r have a block in common, or lie side by side?
#[tactic(auto, unfolding(crate::specs::Inner::Searches::touches))]
fn touches(x: Rmap, r: Rmap) -> bool
    ensures { result ≡ touches x r }
{
    x.startblock as u64 <= r.end() && r.startblock as u64 <= x.end()
}

// What was found, with the record i. One that does not touch x passes nothing.
fn noted(s: Scan, e: Edit, x: Rmap, r: Rmap, i: usize, n: usize) -> Scan
    requires { (s.conflict ≤ n) × (s.before ≤ n) × (s.after ≤ n) × (s.aligned ≤ n) × (s.containing ≤ n) }
    ensures { Noted (tests e x r) i n s result }
{
    if !touches(x, r) {
        return s;
    }
    let h = hits(e, x, r);
    Scan {
        conflict: note(s.conflict, n, i, h.conflict),
        before: note(s.before, n, i, h.before),
        after: note(s.after, n, i, h.after),
        aligned: note(s.aligned, n, i, h.aligned),
        containing: note(s.containing, n, i, h.containing),
    }
}

// Is r good, and may it stand behind prev?
#[tactic(auto, unfolding(codec::specs::Rmaps::follows))]
pub fn passes(prev: Rmap, r: Rmap) -> bool
    ensures { result ≡ (good r && follows prev r) }
{
    good(r) && !comes_before(r, prev)
}

// Question 20, and what an edit searches for, in one pass: none where the list is not in order.
fn scan(list: &[u8], e: Edit, x: Rmap) -> Option<Scan>
    ensures { ScanIs e x (records_of rmaps list.now) result }
{
    let n = list.len() / RMAP_LEN;
    let mut prev = Rmap {
        startblock: 0,
        blockcount: 0,
        owner: 0,
        offset: 0,
    };
    let mut s = Scan {
        conflict: n,
        before: n,
        after: n,
        aligned: n,
        containing: n,
    };
    for i in 0..n {
        let r = decode(list, i * RMAP_LEN);
        if !passes(prev, r) {
            return None;
        }
        s = noted(s, e, x, r, i, n);
        prev = r;
    }
    Some(s)
}

// Questions 19, 20 and 22, and what the edit searches for.
pub(crate) fn asked(list: &[u8], e: Edit, x: Rmap) -> Result<Scan, EditRefusal>
    ensures { AskedIs e list.now x result }
{
    if list.len() % RMAP_LEN != 0 {
        return Err(EditRefusal::List(ListRefusal::Length));
    }
    let Some(s) = scan(list, e, x) else {
        return Err(EditRefusal::List(ListRefusal::RmapOrder));
    };
    if !good(x) {
        return Err(EditRefusal::Extent);
    }
    Ok(s)
}
