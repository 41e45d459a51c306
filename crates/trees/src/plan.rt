// How many blocks each level of a tree has, and how entries are shared over the blocks of a level.
ghost use Rattle.std.specs.Prelude.{◌≡◌, true, ◌<◌, ◌≤◌};
ghost use Rattle.codec.specs.Told.{Tells};
ghost use Rattle.blocks.specs.Geometry.{geometry_ok};
ghost use Rattle.trees.specs.Plan.{levels_of, share_of};
ghost use Rattle.walks.specs.Walk.{per_leaf, per_node};
ghost use Rattle.walks.specs.Shapes.{shape_of};
ghost use Rattle.trees.specs.PlanAnswer.{plan_number, plan_values, plan_outcome, PlanIs};
ghost use Rattle.trees.specs.Inner.LevelPlans.{LevelsAre};

use blocks::geometry::Geometry;
use blocks::kind::{TreeKind, block_capacity};
use codec::refusal::Told;

// Why a plan is refused. The number of each case (docs/QUESTIONS.md) is `plan_number` of specs/PlanAnswer.antt.
#[derive(Clone, Copy, Debug, PartialEq, Eq)]
pub enum PlanRefusal {
    // the geometry is none: 1
    BadGeometry,
    // there would be more than 9 levels: 16
    Levels,
}

// No question of a plan has values.
impl From<PlanRefusal> for Told {
    ghost from_gives = { λ r t. Tells t (plan_number r) (plan_values r) };

    fn from(r: PlanRefusal) -> Told {
        match r {
            PlanRefusal::BadGeometry => Told::plain(1),
            PlanRefusal::Levels => Told::plain(16),
        }
    }
}

// A plan: how many levels, the blocks of each, leaves first, and of all levels together. Places past the last level are 0: with no heap, an
// array of nine stands for the list.
#[derive(Clone, Copy, Debug, PartialEq, Eq)]
pub struct Planned {
    pub levels: usize,
    pub blocks: [u64; 9],
    pub total: u64,
}

// Block i's part of entries shared evenly over blocks: the first ones take one more.
pub(crate) fn share(entries: u64, blocks: u64, i: u64) -> u64
    requires { 0 < blocks }
    ensures { result ≡ share_of entries blocks i }
{
    let each = entries / blocks;
    if i < entries % blocks {
        return each + 1;
    }
    each
}

// The levels over leaves and nodes of so many places; none where there would be more than 9.
fn count_levels(per_leaf: u64, per_node: u64, records: u64) -> Option<Planned>
    requires { (10 ≤ per_leaf) × (10 ≤ per_node) }
    ensures { LevelsAre (levels_of per_leaf per_node records) result }
{
    let mut blocks = [0u64; 9];
    let mut below = records.div_ceil(per_leaf).max(1);
    blocks[0] = below;
    let mut total = below;
    let mut levels: usize = 1;
    // not a `for`: the level of one block ends it, and what a count of nine would end is question 16
    while 1 < below {
        if levels == 9 {
            return None;
        }
        below = below.div_ceil(per_node);
        blocks[levels] = below;
        total += below;
        levels += 1;
    }
    Some(Planned {
        levels,
        blocks,
        total,
    })
}

// The levels of a tree of so many records, once 1 is asked; none is question 16.
pub(crate) fn plan_levels(g: Geometry, kind: TreeKind, records: u64) -> Option<Planned>
    requires { geometry_ok g ≡ true }
    ensures { LevelsAre (levels_of (per_leaf (shape_of g kind)) (per_node (shape_of g kind)) records) result }
{
    let version = g.version;
    let size = g.blocksize as usize;
    let per_leaf = block_capacity(kind, version, 0, size);
    let per_node = block_capacity(kind, version, 1, size);
    count_levels(per_leaf as u64, per_node as u64, records)
}

// The plan of a tree of so many records: questions 1 and 16, on version 4 too.
pub fn plan(g: Geometry, kind: TreeKind, records: u64) -> Result<Planned, PlanRefusal>
    ensures { PlanIs (plan_outcome g kind records) result }
{
    if !g.is_ok() {
        return Err(PlanRefusal::BadGeometry);
    }
    plan_levels(g, kind, records).ok_or(PlanRefusal::Levels)
}
