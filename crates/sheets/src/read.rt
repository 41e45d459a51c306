// Sheets read.
ghost use Rattle.std.specs.Prelude.{◌≡◌, ◌≤◌, length};
ghost use Rattle.codec.specs.Bytes.{with_bytes};
ghost use Rattle.sheets.specs.Sheet.{sheet_changes, check_outcome};
ghost use Rattle.sheets.specs.Answer.{sheet_outcome, Reads};
ghost use Rattle.sheets.specs.Inner.Passes.{Kept};

use crate::SheetRefusal;
use crate::block::{BLOCK_LEN, COUNT, HEADER_LEN, MAX_BLOCKS, PART_LEN, crc_ok, is_ruled};
use crate::change::CHANGE_LEN;
use codec::copy::copy;
use codec::endian::be16;

// Questions 32 and 33 on a sheet, in one pass, and the bytes of its changes: all blocks but the last are full. A bad CRC in a later block comes before a rule
// broken in an earlier one, so a broken rule is only noted.
pub fn check_sheet(sheet: &[u8]) -> Result<usize, SheetRefusal>
    ensures { sheet_outcome result ≡ check_outcome sheet.now }
{
    let (blocks, rest) = sheet.as_chunks();
    if !rest.is_empty() {
        return Err(SheetRefusal::Crc);
    }
    let n = blocks.len();
    let mut good = n <= MAX_BLOCKS;
    for (i, b) in blocks.iter().enumerate() {
        if !crc_ok(b) {
            return Err(SheetRefusal::Crc);
        }
        good = good && is_ruled(b, i, i + 1 == n);
    }
    let Some((last, full)) = blocks.split_last() else {
        return Err(SheetRefusal::Rule);
    };
    if !good {
        return Err(SheetRefusal::Rule);
    }
    Ok(full.len() * PART_LEN + be16(last, COUNT) as usize * CHANGE_LEN)
}

// The changes of a sheet that keeps the rules, block by block.
fn copy_changes(sheet: &[u8], changes: &mut [u8])
    requires { Kept sheet.now × (length (sheet_changes sheet.now) ≤ length changes.old) }
    ensures { changes.new ≡ with_bytes changes.old 0 (sheet_changes sheet.now) }
{
    let mut at = 0;
    for b in sheet.as_chunks::<BLOCK_LEN>().0 {
        let end = HEADER_LEN + be16(b, COUNT) as usize * CHANGE_LEN;
        copy(&b[HEADER_LEN..end], changes, at);
        at += end - HEADER_LEN;
    }
}

// The changes of a sheet, from the beginning of `changes` on, and how many bytes they are.
pub fn read_sheet(sheet: &[u8], changes: &mut [u8]) -> Result<usize, SheetRefusal>
    ensures { Reads sheet.now result changes.old changes.new }
{
    let long = check_sheet(sheet)?;
    if changes.len() < long {
        return Err(SheetRefusal::Room);
    }
    copy_changes(sheet, changes);
    Ok(long)
}
