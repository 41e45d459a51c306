// Calls on whole trees.
ghost use Rattle.std.specs.Prelude.{◌≡◌, length, Ok, Err};
ghost use Rattle.blocks.specs.Tree.{record_len};
ghost use Rattle.trees.specs.BuildCall.{build_outcome};
ghost use Rattle.trees.specs.PlanAnswer.{plan_outcome};
ghost use Rattle.trees.specs.declared.plan.PlanRefusal.{PlanRefusal};
ghost use Rattle.trees.specs.declared.plan.Planned.{Planned};
ghost use Rattle.walks.specs.WalkCall.{walk_of, lent};
ghost use Rattle.book.specs.Textbook.{textbook_of, lists};
ghost use Rattle.lookup.specs.Lookup.{lookup_of};
ghost use Rattle.interface.specs.Interface.{geometry_of, kind_of};
ghost use Rattle.tree_calls.specs.TreeCalls.{build_figures, PlanSays, BuildSays};
ghost use Rattle.tree_calls.specs.WalkFigures.{WalkSays, LinkingSays, TextbookSays};
ghost use Rattle.tree_calls.specs.LookupFigures.{LookupSays};

use crate::answers::{linking_answer, looked_up_answer, plan_figures, walked_answer};
use blocks::geometry::AgBlock;
use book::textbook::walk_textbook;
use interface::answer::{answer_of, say};
use interface::given::{geometry, tree_kind};
use lookup::lookup::lookup;
use trees::build::build;
use trees::plan::{PlanRefusal, Planned, plan};
use walks::walk::{walk, walk_linked};

// The blocks of each level of an accepted plan go to the nine places; a refused one leaves these.
fn put_places(planned: Result<Planned, PlanRefusal>, levels: &mut [u64; 9])
    ensures stored { (p : Planned) → planned ≡ Ok p → levels.new ≡ p.blocks }
    ensures kept { (r : PlanRefusal) → planned ≡ Err r → levels.new ≡ levels.old }
{
    match planned {
        Ok(p) => {
            let blocks = p.blocks;
            *levels = blocks;
        }
        Err(_) => {}
    }
}

// The blocks of each level of a tree of so many records, leaves first, and zeros after them: questions 1 and 16. A refusal leaves `levels` as
// they were. The figures are the levels and the blocks of all of them.
#[unsafe(no_mangle)]
pub extern "C" fn kf_plan(
    version: u16,
    blocksize: u32,
    agblocks: u32,
    agno: u32,
    uuid_high: u64,
    uuid_low: u64,
    last_lsn: u64,
    kind: u32,
    records: u64,
    levels: &mut [u64; 9],
    said: &mut [u64; 4],
) -> u32
    ensures { PlanSays (plan_outcome (geometry_of version blocksize agblocks agno uuid_high uuid_low last_lsn) (kind_of kind) records) result
        said.new levels.old levels.new }
{
    let g = geometry(
        version, blocksize, agblocks, agno, uuid_high, uuid_low, last_lsn,
    );
    let tree = tree_kind(kind);
    let planned = plan(g, tree, records);
    let answer = answer_of(planned, plan_figures);
    put_places(planned, levels);
    say(answer, said)
}

// The blocks of a fresh tree, one after another, root last, where `numbers` are their numbers in the group: questions 1, 3, 19, 20 or 21, 16,
// 17 and 18. The figures are the blocks and their bytes.
#[unsafe(no_mangle)]
pub extern "C" fn kf_build(
    version: u16,
    blocksize: u32,
    agblocks: u32,
    agno: u32,
    uuid_high: u64,
    uuid_low: u64,
    last_lsn: u64,
    kind: u32,
    list: &[u8],
    numbers: &[u32],
    out: &mut [u8],
    said: &mut [u64; 4],
) -> u32
    ensures { BuildSays
        (build_outcome (geometry_of version blocksize agblocks agno uuid_high uuid_low last_lsn) (kind_of kind)
        list.now numbers.now (length out.old))
        numbers.now result said.new out.old out.new }
{
    let g = geometry(
        version, blocksize, agblocks, agno, uuid_high, uuid_low, last_lsn,
    );
    let tree = tree_kind(kind);
    let blocks = numbers.len();
    let built = build(g, tree, list, numbers, out);
    let figures = |bytes: usize| -> [u64; 4]
        ensures { result ≡ build_figures blocks bytes }
    { [blocks as u64, bytes as u64, 0, 0] };
    say(answer_of(built, figures), said)
}

// The records of a tree, from its root, and its blocks by level, leaves first: questions 1, 11 and 12, then at each block 13, 14, 3 to 8, 30, 9, 10 and
// 15. The figures are the visits, the records and their bytes; of a refusal what was expected, what was found and the visits.
#[unsafe(no_mangle)]
pub extern "C" fn kf_walk(
    version: u16,
    blocksize: u32,
    agblocks: u32,
    agno: u32,
    uuid_high: u64,
    uuid_low: u64,
    last_lsn: u64,
    kind: u32,
    image: &[u8],
    root: u32,
    levels: u32,
    stack: &mut [u32],
    scratch: &mut [u64],
    blocks: &mut [u32],
    records: &mut [u8],
    said: &mut [u64; 4],
) -> u32
    ensures { WalkSays (record_len (kind_of kind)) levels
        (walk_of (geometry_of version blocksize agblocks agno uuid_high uuid_low last_lsn) (kind_of kind) image.now root levels
        (lent stack.old scratch.old blocks.old records.old))
        result said.new stack.old stack.new scratch.old scratch.new
        blocks.old blocks.new records.old records.new }
{
    let g = geometry(
        version, blocksize, agblocks, agno, uuid_high, uuid_low, last_lsn,
    );
    let tree = tree_kind(kind);
    let walked = walk(
        g,
        tree,
        image,
        AgBlock(root),
        levels,
        stack,
        scratch,
        blocks,
        records,
    );
    say(walked_answer(walked, 0), said)
}

// The same walk, and whether every level of the tree is linked: each block names the one before it on its level and the one after, all ones at the
// ends. The figures are the walk's, the fourth 1 where it is so.
#[unsafe(no_mangle)]
pub extern "C" fn kf_walk_linked(
    version: u16,
    blocksize: u32,
    agblocks: u32,
    agno: u32,
    uuid_high: u64,
    uuid_low: u64,
    last_lsn: u64,
    kind: u32,
    image: &[u8],
    root: u32,
    levels: u32,
    stack: &mut [u32],
    scratch: &mut [u64],
    blocks: &mut [u32],
    records: &mut [u8],
    said: &mut [u64; 4],
) -> u32
    ensures { LinkingSays blocksize image.now (record_len (kind_of kind)) levels
        (walk_of (geometry_of version blocksize agblocks agno uuid_high uuid_low last_lsn) (kind_of kind) image.now root levels
        (lent stack.old scratch.old blocks.old records.old))
        result said.new stack.old stack.new scratch.old scratch.new
        blocks.old blocks.new records.old records.new }
{
    let g = geometry(
        version, blocksize, agblocks, agno, uuid_high, uuid_low, last_lsn,
    );
    let tree = tree_kind(kind);
    let linking = walk_linked(
        g,
        tree,
        image,
        AgBlock(root),
        levels,
        stack,
        scratch,
        blocks,
        records,
    );
    say(linking_answer(linking), said)
}

// The same walk as textbooks have it: one routine reads a block, another its children from left to right. It is lent no stack, so 12 asks for the level
// scratch alone; it says and leaves what `kf_walk` does on a stack of 18 places or more.
#[unsafe(no_mangle)]
pub extern "C" fn kf_walk_textbook(
    version: u16,
    blocksize: u32,
    agblocks: u32,
    agno: u32,
    uuid_high: u64,
    uuid_low: u64,
    last_lsn: u64,
    kind: u32,
    image: &[u8],
    root: u32,
    levels: u32,
    scratch: &mut [u64],
    blocks: &mut [u32],
    records: &mut [u8],
    said: &mut [u64; 4],
) -> u32
    ensures { TextbookSays (record_len (kind_of kind)) levels
        (textbook_of (geometry_of version blocksize agblocks agno uuid_high uuid_low last_lsn) (kind_of kind) image.now root levels
        (lists scratch.old blocks.old records.old))
        result said.new scratch.old scratch.new blocks.old blocks.new
        records.old records.new }
{
    let g = geometry(
        version, blocksize, agblocks, agno, uuid_high, uuid_low, last_lsn,
    );
    let tree = tree_kind(kind);
    let walked = walk_textbook(
        g,
        tree,
        image,
        AgBlock(root),
        levels,
        scratch,
        blocks,
        records,
    );
    say(walked_answer(walked, 0), said)
}

// How many records of a reverse map lie over each of the numbers `asked`, which ascend, in one descent from its root that skips each child between
// whose low and high key's start none of them lies: questions 1, 11, 12 (the stack alone) and 29, then at each block 13, 14, 3 to 8, 30, 9 and 10. The figure is the
// visits; of a refusal what was expected, what was found and the visits.
#[unsafe(no_mangle)]
pub extern "C" fn kf_lookup(
    version: u16,
    blocksize: u32,
    agblocks: u32,
    agno: u32,
    uuid_high: u64,
    uuid_low: u64,
    last_lsn: u64,
    image: &[u8],
    root: u32,
    levels: u32,
    asked: &[u32],
    stack: &mut [u32],
    answers: &mut [u64],
    said: &mut [u64; 4],
) -> u32
    ensures { LookupSays asked.now
        (lookup_of (geometry_of version blocksize agblocks agno uuid_high uuid_low last_lsn) image.now root levels
        (length stack.old) asked.now (length answers.old))
        result said.new stack.old stack.new answers.old answers.new }
{
    let g = geometry(
        version, blocksize, agblocks, agno, uuid_high, uuid_low, last_lsn,
    );
    let looked = lookup(g, image, AgBlock(root), levels, asked, stack, answers);
    say(looked_up_answer(looked), said)
}
