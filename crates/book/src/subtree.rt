// The two routines of the textbook walk, each calling the other. The level falls from call to call, and a loop goes over a node's children: no call is
// held open for a child that was read, so the machine's stack goes no deeper than the levels, however many children a node has.
ghost use Rattle.std.specs.Prelude.{◌∷◌, [], ◌+◌, ◌*◌, ◌≤◌, length};
ghost use Rattle.blocks.specs.Tree.{record_len};
ghost use Rattle.walks.specs.Walk.{visit_of, look_in, block_in, per_node};
ghost use Rattle.walks.specs.Shapes.{shape_of};
ghost use Rattle.walks.specs.Path.{fan_of, every, due_in};
ghost use Rattle.walks.specs.OneVisit.{Fitting};
ghost use Rattle.book.specs.Inner.Subtree.{Reads, Fits};

use walks::refusal::{StoppedWalk, WalkRefusal};
use walks::tree::TreeImage;
use walks::visit::Count;

// How far a walk may go: its visits, and the blocks that its list takes.
#[derive(Clone, Copy)]
pub(crate) struct Limits {
    pub(crate) visits: usize,
    pub(crate) blocks: usize,
}

// Reads a block that is due, and then its children: 13 before anything else of it, then the visit's 14, 3 to 8, 30, 9, 10 and 15. It gives the counts after
// all that is below it.
#[cycle(read_block_read_children)]
pub(crate) fn read_block(
    tree: &TreeImage,
    block: u32,
    level: u16,
    limits: Limits,
    scratch: &mut [u64],
    out: &mut [u8],
    c: Count,
) -> Result<Count, StoppedWalk>
    requires { Fitting scratch.old out.old limits.blocks c }
    ensures reads { Reads (look_in (shape_of tree.now.g tree.now.kind) tree.now.image.now) limits (record_len tree.now.kind) (visit_of block level ∷ []) c result
        scratch.old scratch.new out.old out.new }
    ensures fits { Fits result scratch.new out.new limits.blocks }
{
    let visits = c.visits;
    if limits.visits <= visits {
        return Err(StoppedWalk {
            refusal: WalkRefusal::Visits,
            visits,
        });
    }
    let step = tree.visit(block, level, scratch, out, limits.blocks, c);
    if let Err(refusal) = step.verdict {
        return Err(StoppedWalk {
            refusal,
            visits: visits + 1,
        });
    }
    if level == 0 {
        return Ok(step.count);
    }
    read_children(tree, block, level, limits, scratch, out, step.count)
}

// Reads the children of a node of that level from left to right, each with all below it, until one ends the walk.
#[cycle(read_block_read_children)]
fn read_children(
    tree: &TreeImage,
    node: u32,
    level: u16,
    limits: Limits,
    scratch: &mut [u64],
    out: &mut [u8],
    c: Count,
) -> Result<Count, StoppedWalk>
    requires node_inside { (1 ≤ level) × ((node + 1) * tree.now.g.blocksize ≤ length tree.now.image.now) }
    requires node_bound { fan_of (block_in tree.now.g.blocksize tree.now.image.now node) ≤ per_node (shape_of tree.now.g tree.now.kind) }
    requires fitting { Fitting scratch.old out.old limits.blocks c }
    ensures reads { Reads (look_in (shape_of tree.now.g tree.now.kind) tree.now.image.now) limits (record_len tree.now.kind)
        (due_in every (shape_of tree.now.g tree.now.kind) tree.now.image.now level node 0) c result
        scratch.old scratch.new out.old out.new }
    ensures fits { Fits result scratch.new out.new limits.blocks }
{
    let n = tree.fan(node);
    let mut count = c;
    for i in 0..n {
        let b = tree.child(node, i);
        count = read_block(tree, b, level - 1, limits, scratch, out, count)?;
    }
    Ok(count)
}
