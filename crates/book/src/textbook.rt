// The textbook walk of a tree over lent memory.
ghost use Rattle.std.specs.Prelude.{max, [], length};
ghost use Rattle.codec.specs.Question.{done};
ghost use Rattle.blocks.specs.Geometry.{geometry_ok};
ghost use Rattle.blocks.specs.Tree.{record_len};
ghost use Rattle.walks.specs.Shapes.{shape_of};
ghost use Rattle.walks.specs.WalkCall.{stack_places, walk_in};
ghost use Rattle.walks.specs.WalkAnswer.{WalkIs};
ghost use Rattle.walks.specs.First.{Begun};
ghost use Rattle.book.specs.Textbook.{textbook_of, lists, TextbookIs};

use crate::subtree::{Limits, read_block};
use blocks::geometry::{AgBlock, Geometry};
use blocks::kind::TreeKind;
use walks::closing::{finish, read_all, wipe};
use walks::first::{ask_first, limit_of};
use walks::path::STACK_PLACES;
use walks::refusal::StoppedWalk;
use walks::tree::TreeImage;
use walks::visit::Count;
use walks::walk::Walked;

// The walk, once 1, 11 and 12 are asked.
fn read_tree(
    tree: &TreeImage,
    root: u32,
    levels: u32,
    scratch: &mut [u64],
    blocks: &mut [u32],
    out: &mut [u8],
) -> Result<Walked, StoppedWalk>
    requires { Begun (geometry_ok tree.now.g) levels stack_places (length scratch.old) (length blocks.old) }
    ensures { WalkIs (record_len tree.now.kind) levels (done (walk_in (shape_of tree.now.g tree.now.kind) tree.now.image.now root levels (max tree.now.g.agblocks 64)
        (length blocks.old) (length out.old))) result [] [] scratch.old scratch.new
        blocks.old blocks.new out.old out.new }
{
    let limits = Limits {
        visits: limit_of(tree.g.agblocks),
        blocks: blocks.len(),
    };
    let c = Count {
        visits: 0,
        bytes: 0,
    };
    let level = (levels - 1) as u16;
    match read_block(tree, root, level, limits, scratch, out, c) {
        Err(stopped) => {
            wipe(scratch, blocks, out);
            Err(stopped)
        }
        Ok(count) => {
            finish(count.visits, levels as u64, scratch, blocks);
            Ok(read_all(tree.kind, count))
        }
    }
}

// Walks a tree of a group from its root as textbooks have it: one routine reads a block, another its children from left to right. It gives what
// `walk` of crate `walks` gives on a stack of 18 places or more, refused or not (`EveryTextbook` of specs/Textbook.antt), and is lent no stack.
// Questions 1, 11 and 12 (as many places of `scratch` as of `blocks`); then, at each block, 13, 14, 3 to 8, 30, 9, 10 and 15. `scratch` is zero
// afterwards, and so are both lists where 13 or a later question refused; 1, 11 and 12 touch nothing.
pub fn walk_textbook(
    g: Geometry,
    kind: TreeKind,
    image: &[u8],
    root: AgBlock,
    levels: u32,
    scratch: &mut [u64],
    blocks: &mut [u32],
    records: &mut [u8],
) -> Result<Walked, StoppedWalk>
    ensures { TextbookIs (record_len kind) levels (textbook_of g kind image.now root.0 levels
        (lists scratch.old blocks.old records.old)) result scratch.old scratch.new
        blocks.old blocks.new records.old records.new }
{
    // no stack is lent, so 12 finds nothing missing of one
    ask_first(g, levels, STACK_PLACES, scratch.len(), blocks.len())?;
    let tree = TreeImage::new(g, kind, image);
    read_tree(&tree, root.0, levels, scratch, blocks, records)
}
