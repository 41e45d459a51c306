// What is asked before the first visit of a tree, and how many visits there may be.
ghost use Rattle.std.specs.Prelude.{◌≡◌, ◌<◌, ◌^◌, max};
ghost use Rattle.walks.specs.First.{FirstIs};

use crate::path::STACK_PLACES;
use crate::refusal::WalkRefusal;
use blocks::check::BlockRefusal;
use blocks::geometry::Geometry;

// Questions 1, 11 and 12, of so many places lent.
pub fn ask_first(
    g: Geometry,
    levels: u32,
    stack: usize,
    scratch: usize,
    blocks: usize,
) -> Result<(), WalkRefusal>
    ensures { FirstIs g levels stack scratch blocks result }
{
    if !g.is_ok() {
        return Err(WalkRefusal::Block(BlockRefusal::BadGeometry));
    }
    if !(1..=9).contains(&levels) {
        return Err(WalkRefusal::Levels);
    }
    if stack < STACK_PLACES || scratch < blocks {
        return Err(WalkRefusal::Scratch);
    }
    Ok(())
}

// The visits that a walk, or a lookup, may make: max(agblocks, 64).
pub fn limit_of(agblocks: u32) -> usize
    ensures { (result ≡ max agblocks 64) × (result < 2 ^ 32) }
{
    agblocks.max(64) as usize
}
