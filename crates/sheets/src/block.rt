// One block of a sheet: its CRC and its rules.
ghost use Rattle.std.specs.Prelude.{◌≡◌};
ghost use Rattle.sheets.specs.Sheet.{mark_of, is_zeros, crc_ok, good_count, good_header, ruled};

use crate::change::{CHANGE_LEN, good_changes};
use codec::crc::crc32c;
use codec::endian::{be16, be32, le32};

// The bytes of a block, and of what stands before its changes.
pub(crate) const BLOCK_LEN: usize = 512;

pub(crate) const HEADER_LEN: usize = 32;

// The most changes of a block.
pub(crate) const PER_BLOCK: usize = 15;

// The bytes of its changes.
pub(crate) const PART_LEN: usize = PER_BLOCK * CHANGE_LEN;

// The most blocks of a sheet.
pub(crate) const MAX_BLOCKS: usize = 65536;

// The CRC, of all bytes after it.
pub(crate) const CRC: usize = 0;

pub(crate) const PLACE: usize = 4;

pub(crate) const COUNT: usize = 8;

pub(crate) const LAST: usize = 10;

pub(crate) const BLANK: usize = 11;

// Are all bytes zero?
fn is_zeros(s: &[u8]) -> bool
    ensures { result ≡ is_zeros s.now }
{
    s.iter().all(|b| *b == 0)
}

// Is the block's CRC that of its bytes?
pub(crate) fn crc_ok(b: &[u8; BLOCK_LEN]) -> bool
    ensures { result ≡ crc_ok b.now }
{
    le32(b, CRC) == crc32c(&b[PLACE..])
}

// Has the block a number of changes that it may have: 1 to 15, and 15 unless it is the last?
fn good_count(count: usize, last: bool) -> bool
    ensures { result ≡ good_count count last }
{
    (1..=PER_BLOCK).contains(&count) && (last || count == PER_BLOCK)
}

// The mark of the last block.
pub(crate) fn mark(last: bool) -> u8
    ensures { result ≡ mark_of last }
{
    u8::from(last)
}

// Is what stands before the changes as it must be in the block with this place?
fn good_header(b: &[u8; BLOCK_LEN], place: usize, last: bool) -> bool
    ensures { result ≡ good_header place last b.now }
{
    be32(b, PLACE) as usize == place
        && good_count(be16(b, COUNT) as usize, last)
        && b[LAST] == mark(last)
        && is_zeros(&b[BLANK..HEADER_LEN])
}

// Does the block keep the rules, at this place of the sheet?
pub(crate) fn is_ruled(b: &[u8; BLOCK_LEN], place: usize, last: bool) -> bool
    ensures { result ≡ ruled place last b.now }
{
    if !good_header(b, place, last) {
        return false;
    }
    let end = HEADER_LEN + be16(b, COUNT) as usize * CHANGE_LEN;
    good_changes(&b[HEADER_LEN..end]) && is_zeros(&b[end..])
}
