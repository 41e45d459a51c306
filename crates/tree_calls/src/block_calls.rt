// Calls on bytes and on single blocks.
ghost use Rattle.std.specs.Prelude.{◌≡◌};
ghost use Rattle.codec.specs.Crc.{crc32c_of};
ghost use Rattle.blocks.specs.Check.{check_block};
ghost use Rattle.interface.specs.Interface.{geometry_of, kind_of, Says};
ghost use Rattle.tree_calls.specs.TreeCalls.{header_figures};

use crate::answers::header_figures;
use blocks::check::check_block;
use blocks::geometry::AgBlock;
use codec::crc::{crc32c, crc32c_singly};
use interface::answer::{answer_of, say};
use interface::given::{geometry, tree_kind};

// CRC32C of the bytes. (This call answers the check itself.)
#[unsafe(no_mangle)]
pub extern "C" fn kf_crc32c(bytes: &[u8]) -> u32
    ensures { result ≡ crc32c_of bytes.now }
{
    crc32c(bytes)
}

// The same by single bytes.
#[unsafe(no_mangle)]
pub extern "C" fn kf_crc32c_singly(bytes: &[u8]) -> u32
    ensures { result ≡ crc32c_of bytes.now }
{
    crc32c_singly(bytes)
}

// Questions 1 to 8, 30, 9 and 10 on a block: `block` is its number in the group, `level` the level it should have. The figures of a good block are its
// records, how many it could hold, and the blocks that it names before and after it on its level; of a refused one what was expected and what
// was found.
#[unsafe(no_mangle)]
pub extern "C" fn kf_check_block(
    version: u16,
    blocksize: u32,
    agblocks: u32,
    agno: u32,
    uuid_high: u64,
    uuid_low: u64,
    last_lsn: u64,
    kind: u32,
    block: u32,
    level: u16,
    bytes: &[u8],
    said: &mut [u64; 4],
) -> u32
    ensures { Says header_figures (check_block (geometry_of version blocksize agblocks agno uuid_high uuid_low last_lsn) (kind_of kind)
        block level bytes.now) result said.new }
{
    let g = geometry(
        version, blocksize, agblocks, agno, uuid_high, uuid_low, last_lsn,
    );
    let tree = tree_kind(kind);
    let checked = check_block(g, tree, AgBlock(block), level, bytes);
    say(answer_of(checked, header_figures), said)
}
