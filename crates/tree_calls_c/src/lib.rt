// What C calls of `tree_calls`: each function calls the one of its name there, and promises the same.
#![tactic(auto)]

ghost use Rattle.std.specs.Prelude.{◌≡◌, length};
ghost use Rattle.codec.specs.Crc.{crc32c_of};
ghost use Rattle.blocks.specs.Check.{check_block};
ghost use Rattle.interface.specs.Interface.{geometry_of, kind_of, Says, number_of};
ghost use Rattle.tree_calls.specs.TreeCalls.{header_figures, PlanSays, BuildSays};
ghost use Rattle.free.specs.Same.{same_outcome};
ghost use Rattle.tree_calls.specs.SameFigures.{same_figures};
ghost use Rattle.blocks.specs.Tree.{record_len};
ghost use Rattle.trees.specs.BuildCall.{build_outcome};
ghost use Rattle.trees.specs.PlanAnswer.{plan_outcome};
ghost use Rattle.walks.specs.WalkCall.{walk_of, lent};
ghost use Rattle.book.specs.Textbook.{textbook_of, lists};
ghost use Rattle.lookup.specs.Lookup.{lookup_of};
ghost use Rattle.tree_calls.specs.WalkFigures.{WalkSays, LinkingSays, TextbookSays};
ghost use Rattle.tree_calls.specs.LookupFigures.{LookupSays};
ghost use Rattle.codec.specs.Rmaps as rmap;
ghost use Rattle.codec.specs.Refcounts as refcount;
ghost use Rattle.free.specs.Free as free;
ghost use Rattle.free.specs.declared.order.Order.TheVariants as order;

use tree_calls::{block_calls, list_checks, whole_trees};

// CRC32C of the bytes. (This call answers the check itself.)
#[unsafe(no_mangle)]
pub extern "C" fn kf_crc32c(bytes: &[u8]) -> u32
    ensures { result ≡ crc32c_of bytes.now }
{
    block_calls::kf_crc32c(bytes)
}

// The same by single bytes.
#[unsafe(no_mangle)]
pub extern "C" fn kf_crc32c_singly(bytes: &[u8]) -> u32
    ensures { result ≡ crc32c_of bytes.now }
{
    block_calls::kf_crc32c_singly(bytes)
}

// Questions 1 to 8, 30, 9 and 10 on a block: `block` is its number in the group, `level` the level it should have. The figures of a good block are its
// records, how many it could hold, and the blocks that it names before and after it on its level; of a refused one what was expected and what
// was found.
#[unsafe(no_mangle)]
pub extern "C" fn kf_check_block(
    version: u16,
    blocksize: u32,
    agblocks: u32,
    agno: u32,
    uuid_high: u64,
    uuid_low: u64,
    last_lsn: u64,
    kind: u32,
    block: u32,
    level: u16,
    bytes: &[u8],
    said: &mut [u64; 4],
) -> u32
    ensures { Says header_figures (check_block (geometry_of version blocksize agblocks agno uuid_high uuid_low last_lsn) (kind_of kind)
        block level bytes.now) result said.new }
{
    block_calls::kf_check_block(
        version, blocksize, agblocks, agno, uuid_high, uuid_low, last_lsn, kind, block, level,
        bytes, said,
    )
}

// Questions 19 and 20 on a reverse map.
#[unsafe(no_mangle)]
pub extern "C" fn kf_check_rmaps(list: &[u8]) -> u32
    ensures { result ≡ number_of (rmap.check_order list.now) }
{
    list_checks::kf_check_rmaps(list)
}

// Questions 19 and 21 on shared counts.
#[unsafe(no_mangle)]
pub extern "C" fn kf_check_refcounts(list: &[u8]) -> u32
    ensures { result ≡ number_of (refcount.check_order list.now) }
{
    list_checks::kf_check_refcounts(list)
}

// Questions 19 and 21 on free extents by block.
#[unsafe(no_mangle)]
pub extern "C" fn kf_check_by_block(list: &[u8]) -> u32
    ensures { result ≡ number_of (free.check_order order.ByBlock list.now) }
{
    list_checks::kf_check_by_block(list)
}

// Questions 19 and 21 on free extents by size.
#[unsafe(no_mangle)]
pub extern "C" fn kf_check_by_size(list: &[u8]) -> u32
    ensures { result ≡ number_of (free.check_order order.BySize list.now) }
{
    list_checks::kf_check_by_size(list)
}

// Do a list by block and a list by size hold the same extents, equally often? Questions 19 and 21 on the first, then on the second. The figure is 1 for
// yes, 0 for no.
#[unsafe(no_mangle)]
pub extern "C" fn kf_same_extents(by_block: &[u8], by_size: &[u8], said: &mut [u64; 4]) -> u32
    ensures { Says same_figures (same_outcome by_block.now by_size.now) result said.new }
{
    list_checks::kf_same_extents(by_block, by_size, said)
}

// The blocks of each level of a tree of so many records, leaves first, and zeros after them: questions 1 and 16. A refusal leaves `levels` as
// they were. The figures are the levels and the blocks of all of them.
#[unsafe(no_mangle)]
pub extern "C" fn kf_plan(
    version: u16,
    blocksize: u32,
    agblocks: u32,
    agno: u32,
    uuid_high: u64,
    uuid_low: u64,
    last_lsn: u64,
    kind: u32,
    records: u64,
    levels: &mut [u64; 9],
    said: &mut [u64; 4],
) -> u32
    ensures { PlanSays (plan_outcome (geometry_of version blocksize agblocks agno uuid_high uuid_low last_lsn) (kind_of kind) records) result
        said.new levels.old levels.new }
{
    whole_trees::kf_plan(
        version, blocksize, agblocks, agno, uuid_high, uuid_low, last_lsn, kind, records, levels,
        said,
    )
}

// The blocks of a fresh tree, one after another, root last, where `numbers` are their numbers in the group: questions 1, 3, 19, 20 or 21, 16,
// 17 and 18. The figures are the blocks and their bytes.
#[unsafe(no_mangle)]
pub extern "C" fn kf_build(
    version: u16,
    blocksize: u32,
    agblocks: u32,
    agno: u32,
    uuid_high: u64,
    uuid_low: u64,
    last_lsn: u64,
    kind: u32,
    list: &[u8],
    numbers: &[u32],
    out: &mut [u8],
    said: &mut [u64; 4],
) -> u32
    ensures { BuildSays
        (build_outcome (geometry_of version blocksize agblocks agno uuid_high uuid_low last_lsn) (kind_of kind)
        list.now numbers.now (length out.old))
        numbers.now result said.new out.old out.new }
{
    whole_trees::kf_build(
        version, blocksize, agblocks, agno, uuid_high, uuid_low, last_lsn, kind, list, numbers,
        out, said,
    )
}

// The records of a tree, from its root, and its blocks by level, leaves first: questions 1, 11 and 12, then at each block 13, 14, 3 to 8, 30, 9, 10 and
// 15. The figures are the visits, the records and their bytes; of a refusal what was expected, what was found and the visits.
#[unsafe(no_mangle)]
pub extern "C" fn kf_walk(
    version: u16,
    blocksize: u32,
    agblocks: u32,
    agno: u32,
    uuid_high: u64,
    uuid_low: u64,
    last_lsn: u64,
    kind: u32,
    image: &[u8],
    root: u32,
    levels: u32,
    stack: &mut [u32],
    scratch: &mut [u64],
    blocks: &mut [u32],
    records: &mut [u8],
    said: &mut [u64; 4],
) -> u32
    ensures { WalkSays (record_len (kind_of kind)) levels
        (walk_of (geometry_of version blocksize agblocks agno uuid_high uuid_low last_lsn) (kind_of kind) image.now root levels
        (lent stack.old scratch.old blocks.old records.old))
        result said.new stack.old stack.new scratch.old scratch.new
        blocks.old blocks.new records.old records.new }
{
    whole_trees::kf_walk(
        version, blocksize, agblocks, agno, uuid_high, uuid_low, last_lsn, kind, image, root,
        levels, stack, scratch, blocks, records, said,
    )
}

// The same walk, and whether every level of the tree is linked: each block names the one before it on its level and the one after, all ones at the
// ends. The figures are the walk's, the fourth 1 where it is so.
#[unsafe(no_mangle)]
pub extern "C" fn kf_walk_linked(
    version: u16,
    blocksize: u32,
    agblocks: u32,
    agno: u32,
    uuid_high: u64,
    uuid_low: u64,
    last_lsn: u64,
    kind: u32,
    image: &[u8],
    root: u32,
    levels: u32,
    stack: &mut [u32],
    scratch: &mut [u64],
    blocks: &mut [u32],
    records: &mut [u8],
    said: &mut [u64; 4],
) -> u32
    ensures { LinkingSays blocksize image.now (record_len (kind_of kind)) levels
        (walk_of (geometry_of version blocksize agblocks agno uuid_high uuid_low last_lsn) (kind_of kind) image.now root levels
        (lent stack.old scratch.old blocks.old records.old))
        result said.new stack.old stack.new scratch.old scratch.new
        blocks.old blocks.new records.old records.new }
{
    whole_trees::kf_walk_linked(
        version, blocksize, agblocks, agno, uuid_high, uuid_low, last_lsn, kind, image, root,
        levels, stack, scratch, blocks, records, said,
    )
}

// The same walk as textbooks have it: one routine reads a block, another its children from left to right. It is lent no stack, so 12 asks for the level
// scratch alone; it says and leaves what `kf_walk` does on a stack of 18 places or more.
#[unsafe(no_mangle)]
pub extern "C" fn kf_walk_textbook(
    version: u16,
    blocksize: u32,
    agblocks: u32,
    agno: u32,
    uuid_high: u64,
    uuid_low: u64,
    last_lsn: u64,
    kind: u32,
    image: &[u8],
    root: u32,
    levels: u32,
    scratch: &mut [u64],
    blocks: &mut [u32],
    records: &mut [u8],
    said: &mut [u64; 4],
) -> u32
    ensures { TextbookSays (record_len (kind_of kind)) levels
        (textbook_of (geometry_of version blocksize agblocks agno uuid_high uuid_low last_lsn) (kind_of kind) image.now root levels
        (lists scratch.old blocks.old records.old))
        result said.new scratch.old scratch.new blocks.old blocks.new
        records.old records.new }
{
    whole_trees::kf_walk_textbook(
        version, blocksize, agblocks, agno, uuid_high, uuid_low, last_lsn, kind, image, root,
        levels, scratch, blocks, records, said,
    )
}

// How many records of a reverse map lie over each of the numbers `asked`, which ascend, in one descent from its root that skips each child between
// whose low and high key's start none of them lies: questions 1, 11, 12 (the stack alone) and 29, then at each block 13, 14, 3 to 8, 30, 9 and 10. The figure is the
// visits; of a refusal what was expected, what was found and the visits.
#[unsafe(no_mangle)]
pub extern "C" fn kf_lookup(
    version: u16,
    blocksize: u32,
    agblocks: u32,
    agno: u32,
    uuid_high: u64,
    uuid_low: u64,
    last_lsn: u64,
    image: &[u8],
    root: u32,
    levels: u32,
    asked: &[u32],
    stack: &mut [u32],
    answers: &mut [u64],
    said: &mut [u64; 4],
) -> u32
    ensures { LookupSays asked.now
        (lookup_of (geometry_of version blocksize agblocks agno uuid_high uuid_low last_lsn) image.now root levels
        (length stack.old) asked.now (length answers.old))
        result said.new stack.old stack.new answers.old answers.new }
{
    whole_trees::kf_lookup(
        version, blocksize, agblocks, agno, uuid_high, uuid_low, last_lsn, image, root, levels,
        asked, stack, answers, said,
    )
}
