// The walk of a tree over lent memory, left to right and depth first (`EveryWalk` of specs/Forest.antt), and whether its levels are linked.
ghost use Rattle.std.specs.Prelude.{◌≡◌, length};
ghost use Rattle.codec.specs.Question.{done};
ghost use Rattle.blocks.specs.Geometry.{geometry_ok};
ghost use Rattle.blocks.specs.Tree.{record_len};
ghost use Rattle.walks.specs.Shapes.{shape_of};
ghost use Rattle.walks.specs.WalkCall.{walk_in, walk_of, lent, report};
ghost use Rattle.walks.specs.WalkAnswer.{walked_report, WalkIs};
ghost use Rattle.walks.specs.Links.{says_linked, walked_of, says_yes, LinkingIs};
ghost use Rattle.walks.specs.First.{Begun};
ghost use Rattle.walks.specs.Inner.WalkState.{Leaves};

use crate::closing::{finish, read_all, wipe};
use crate::first::{ask_first, limit_of};
use crate::links::Links;
use crate::path::{Due, open};
use crate::refusal::{StoppedWalk, WalkRefusal};
use crate::tree::TreeImage;
use crate::visit::Count;
use blocks::geometry::{AgBlock, Geometry};
use blocks::kind::TreeKind;

// What a finished walk comes to: its visits, which are the blocks of the block list, its records, and their bytes.
#[derive(Clone, Copy, Debug, PartialEq, Eq)]
pub struct Walked {
    pub visits: usize,
    pub records: usize,
    pub bytes: usize,
}

// A finished walk, and whether every level of the tree is linked: each block names the one before it on its level and the one after, all ones at the ends.
#[derive(Clone, Copy, Debug, PartialEq, Eq)]
pub struct Linking {
    pub walked: Walked,
    pub linked: bool,
}

// Visits every block that is due, from the root on, and follows the links of each level; 13 before each visit. One turn is one visit: going back to a
// node is none.
fn descend(
    tree: &TreeImage,
    root: u32,
    levels: u32,
    limit: usize,
    stack: &mut [u32],
    scratch: &mut [u64],
    out: &mut [u8],
    places: usize,
) -> Result<Linking, StoppedWalk>
    requires { Begun (geometry_ok tree.now.g) levels (length stack.old) (length scratch.old) places }
    ensures walked_value { walked_report (walked_of result) ≡ report (record_len tree.now.kind) (done (walk_in (shape_of tree.now.g tree.now.kind) tree.now.image.now
        root levels limit places (length out.old))) }
    ensures left { Leaves (walked_of result) (walk_in (shape_of tree.now.g tree.now.kind) tree.now.image.now root levels limit places (length out.old)) scratch.new
        out.old out.new }
    ensures linked_value { says_yes result ≡ says_linked tree.now.g.blocksize tree.now.image.now levels (done (walk_in (shape_of tree.now.g tree.now.kind)
        tree.now.image.now root levels limit places (length out.old))) }
{
    let mut c = Count {
        visits: 0,
        bytes: 0,
    };
    let mut due = Due {
        block: root,
        level: levels - 1,
    };
    let mut links = Links::new();
    for visits in 0..limit {
        let Due { block, level } = due;
        let step = tree.visit(block, level as u16, scratch, out, places, c);
        if let Err(refusal) = step.verdict {
            return Err(StoppedWalk {
                refusal,
                visits: visits + 1,
            });
        }
        c = step.count;
        links.follow(block, level as usize, step.siblings);
        let low = open(stack, block, level);
        let Some(next) = tree.advance(stack, low, levels) else {
            return Ok(Linking {
                walked: read_all(tree.kind, c),
                linked: links.all_linked(levels as usize),
            });
        };
        due = next;
    }
    Err(StoppedWalk {
        refusal: WalkRefusal::Visits,
        visits: limit,
    })
}

// The walk, once 1, 11 and 12 are asked. The four lent slices go one by one: a struct of `&mut` slices that is passed on gets no generated proof.
fn walk_tree(
    tree: &TreeImage,
    root: u32,
    levels: u32,
    limit: usize,
    stack: &mut [u32],
    scratch: &mut [u64],
    blocks: &mut [u32],
    out: &mut [u8],
) -> Result<Linking, StoppedWalk>
    requires { Begun (geometry_ok tree.now.g) levels (length stack.old) (length scratch.old) (length blocks.old) }
    ensures { LinkingIs tree.now.g.blocksize (record_len tree.now.kind) tree.now.image.now levels (done (walk_in (shape_of tree.now.g tree.now.kind)
        tree.now.image.now root levels limit (length blocks.old) (length out.old))) result stack.old stack.new
        scratch.old scratch.new blocks.old blocks.new out.old out.new }
{
    let places = blocks.len();
    let end = descend(tree, root, levels, limit, stack, scratch, out, places);
    stack.fill(0);
    let Ok(linking) = end else {
        wipe(scratch, blocks, out);
        return end;
    };
    finish(linking.walked.visits, levels as u64, scratch, blocks);
    end
}

// The walk, and whether every level of the tree is linked. It is lent what `walk` is lent, asks the same and leaves the same.
pub fn walk_linked(
    g: Geometry,
    kind: TreeKind,
    image: &[u8],
    root: AgBlock,
    levels: u32,
    stack: &mut [u32],
    scratch: &mut [u64],
    blocks: &mut [u32],
    records: &mut [u8],
) -> Result<Linking, StoppedWalk>
    ensures { LinkingIs g.blocksize (record_len kind) image.now levels (walk_of g kind image.now root.0 levels
        (lent stack.old scratch.old blocks.old records.old)) result stack.old stack.new
        scratch.old scratch.new blocks.old blocks.new records.old records.new }
{
    ask_first(g, levels, stack.len(), scratch.len(), blocks.len())?;
    let tree = TreeImage::new(g, kind, image);
    let limit = limit_of(g.agblocks);
    walk_tree(
        &tree, root.0, levels, limit, stack, scratch, blocks, records,
    )
}

// Walks a tree of a group from its root, left to right and depth first (`EveryWalk` of specs/Forest.antt): its records in order into `records`,
// its blocks by level, leaves first, into `blocks`. `image` is the group, block n at n times the block size. Questions 1, 11 and 12 (18 places of
// `stack`, and as many of `scratch` as of `blocks`); then, at each block, 13, 14, 3 to 8, 30, 9, 10 and 15. `stack` and `scratch` are zero afterwards, and so are
// both lists where 13 or a later question refused; 1, 11 and 12 touch nothing.
pub fn walk(
    g: Geometry,
    kind: TreeKind,
    image: &[u8],
    root: AgBlock,
    levels: u32,
    stack: &mut [u32],
    scratch: &mut [u64],
    blocks: &mut [u32],
    records: &mut [u8],
) -> Result<Walked, StoppedWalk>
    ensures { WalkIs (record_len kind) levels (walk_of g kind image.now root.0 levels
        (lent stack.old scratch.old blocks.old records.old)) result stack.old stack.new
        scratch.old scratch.new blocks.old blocks.new records.old records.new }
{
    let linking = walk_linked(
        g, kind, image, root, levels, stack, scratch, blocks, records,
    )?;
    Ok(linking.walked)
}
