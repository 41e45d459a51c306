// Sheets written.
ghost use Rattle.std.specs.Prelude.{◌≡◌, ◌+◌, ◌-◌, ◌*◌, ◌≤◌, min, length};
ghost use Rattle.codec.specs.Bytes.{with_bytes};
ghost use Rattle.sheets.specs.Layout.{block_len, place_at, changes_at, change_len, part_len, max_changes};
ghost use Rattle.sheets.specs.Change.{good_list};
ghost use Rattle.sheets.specs.Sheet.{sheet_header, filled_up, block_of, blocks_for, sheet_of};
ghost use Rattle.sheets.specs.Answer.{Writes};

use crate::SheetRefusal;
use crate::block::{
    BLANK, BLOCK_LEN, COUNT, CRC, HEADER_LEN, LAST, PART_LEN, PER_BLOCK, PLACE, mark,
};
use crate::change::{CHANGE_LEN, good_changes};
use codec::copy::copy;
use codec::crc::crc32c;
use codec::endian::{put_be16, put_be32, put_le32};

// The most changes of a sheet: 15 in each of 65,536 blocks.
const MAX_CHANGES: usize = 983040;

// Bytes 4 to 31 of a block. Here and below it is a part of the sheet, and its length is asked: lent as an array, by `first_chunk_mut`, the proof of what the
// sheet becomes did not close.
fn put_header(place: u32, count: u16, last: bool, b: &mut [u8])
    requires { length b.old ≡ block_len }
    ensures { b.new ≡ with_bytes b.old place_at (sheet_header place count last) }
{
    put_be32(b, PLACE, place);
    put_be16(b, COUNT, count);
    b[LAST] = mark(last);
    b[BLANK..HEADER_LEN].fill(0);
}

// The changes of a block, and zeros in place of unused ones.
fn put_part(part: &[u8], b: &mut [u8])
    requires { (length b.old ≡ block_len) × (length part.now ≤ part_len) }
    ensures { b.new ≡ with_bytes b.old changes_at (filled_up part.now) }
{
    copy(part, b, HEADER_LEN);
    b[HEADER_LEN + part.len()..].fill(0);
}

// The block with these changes, at its place of the sheet.
fn put_block(part: &[u8], place: u32, last: bool, b: &mut [u8])
    requires { (length b.old ≡ block_len) × (length part.now ≤ part_len) }
    ensures { b.new ≡ block_of place last part.now }
{
    put_header(place, (part.len() / CHANGE_LEN) as u16, last, b);
    put_part(part, b);
    let crc = crc32c(&b[PLACE..]);
    put_le32(b, CRC, crc);
}

// How many blocks the changes fill.
fn blocks_for(list: &[u8]) -> usize
    ensures { result ≡ blocks_for list.now }
{
    (list.len() / CHANGE_LEN).div_ceil(PER_BLOCK)
}

// The blocks of a list, one after another. The parts of the sheet are cut by hand, since of a slice written through `chunks_exact_mut` the library does not say
// what it ends as.
fn put_blocks(list: &[u8], sheet: &mut [u8])
    requires { (length list.now ≤ max_changes * change_len) × (blocks_for list.now * block_len ≤ length sheet.old) }
    ensures { sheet.new ≡ with_bytes sheet.old 0 (sheet_of list.now) }
{
    let n = blocks_for(list);
    for i in 0..n {
        let from = i * PART_LEN;
        let to = list.len().min(from + PART_LEN);
        let a = i * BLOCK_LEN;
        let e = a + BLOCK_LEN;
        put_block(&list[from..to], i as u32, i + 1 == n, &mut sheet[a..e]);
    }
}

// Question 33 on a list of changes.
fn check_changes(list: &[u8]) -> bool
    ensures { result ≡ good_list list.now }
{
    let n = list.len() / CHANGE_LEN;
    list.len() % CHANGE_LEN == 0 && (1..=MAX_CHANGES).contains(&n) && good_changes(list)
}

// The sheet of a list of changes, from the beginning of `sheet` on, and how many bytes it is.
pub fn write_sheet(list: &[u8], sheet: &mut [u8]) -> Result<usize, SheetRefusal>
    ensures { Writes list.now result sheet.old sheet.new }
{
    if !check_changes(list) {
        return Err(SheetRefusal::Rule);
    }
    let long = blocks_for(list) * BLOCK_LEN;
    if sheet.len() < long {
        return Err(SheetRefusal::Room);
    }
    put_blocks(list, sheet);
    Ok(long)
}
