// A splice written: the records kept are copied as bytes, the new ones put between them.
// The place goes along as a number: each part is put behind the one before, and a buffer cut there would need the place handed back all the same.
ghost use Rattle.std.specs.Prelude.{◌≡◌, ◌+◌, ◌-◌, ◌*◌, ◌/◌, ◌≤◌, length};
ghost use Rattle.codec.specs.Bytes.{with_bytes};
ghost use Rattle.codec.specs.Records.{records_of, bytes_of, rmaps};
ghost use Rattle.lists.specs.Splice.{between, piece_of, part_of, list_of, SpliceGood};
ghost use Rattle.lists.specs.Inner.Splicing.{Wrote};

use crate::splice::{Part, Splice};
use codec::copy::copy;
use codec::rmap::{RMAP_LEN, Rmap, encode};

// Copies the records from a up to b to the place `at`, and returns the place after them.
fn copy_records(old: &[u8], a: usize, b: usize, new: &mut [u8], at: usize) -> usize
    requires a_le_b { (a ≤ b) × (b ≤ length old.now / rmaps.size) }
    requires size_in_bounds { at + (b - a) * rmaps.size ≤ length new.old }
    ensures { Wrote new.old new.new at (between (records_of rmaps old.now) a b) result }
{
    let from = a * RMAP_LEN;
    let to = b * RMAP_LEN;
    copy(&old[from..to], new, at);
    at + (to - from)
}

// Writes a record, if there is one, at the place `at`, and returns the place after it.
fn put_piece(new: &mut [u8], at: usize, piece: Option<Rmap>) -> usize
    requires { at + length (bytes_of rmaps (piece_of piece)) ≤ length new.old }
    ensures { Wrote new.old new.new at (piece_of piece) result }
{
    match piece {
        None => at,
        Some(r) => {
            encode(new, at, r);
            at + RMAP_LEN
        }
    }
}

// Writes a part of a new list at the place `at`, and returns the place after it.
fn put_part(old: &[u8], p: Part, new: &mut [u8], at: usize) -> usize
    requires from_le_to { (p.from ≤ p.to) × (p.to ≤ length old.now / rmaps.size) }
    requires p_in_bounds { at + length (bytes_of rmaps (part_of (records_of rmaps old.now) p)) ≤ length new.old }
    ensures { Wrote new.old new.new at (part_of (records_of rmaps old.now) p) result }
{
    let next = put_piece(new, at, p.rmap);
    copy_records(old, p.from, p.to, new, next)
}

// Writes a splice to the front of `new`, which is long enough for it.
pub fn write_splice(old: &[u8], p: Splice, new: &mut [u8])
    requires splice_good { SpliceGood (records_of rmaps old.now) p }
    requires size_in_bounds { p.size ≤ length new.old }
    ensures { new.new ≡ with_bytes new.old 0 (bytes_of rmaps (list_of (records_of rmaps old.now) p)) }
{
    let a = copy_records(old, 0, p.front, new, 0);
    let b = put_part(old, p.first, new, a);
    let c = put_part(old, p.second, new, b);
    copy_records(old, p.rest, old.len() / RMAP_LEN, new, c);
}
