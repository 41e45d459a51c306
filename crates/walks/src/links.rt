// The links of a tree's levels, followed from visit to visit: of each level the block met last is held, and the one that it named as next.
ghost use Rattle.std.specs.Prelude.{◌≡◌, ◌&&◌, ◌≤◌, ◌<◌, true, replicate, take};
ghost use Rattle.walks.specs.Inner.Chains.{joins, ends, all_end, Followed};

use crate::visit::Siblings;
use blocks::geometry::NULL_AGBLOCK;

// The block met last on a level, and the one that it named as next.
#[derive(Clone, Copy)]
pub(crate) struct Held {
    pub(crate) block: u32,
    pub(crate) next: u32,
}

// Does a block follow what is held of its level? The first block of a level has none before it.
fn follows(held: Option<Held>, block: u32, left: u32) -> bool
    ensures { result ≡ joins held block left }
{
    match held {
        None => left == NULL_AGBLOCK,
        Some(last) => left == last.block && last.next == block,
    }
}

// May a level end here?
fn may_end(held: Option<Held>) -> bool
    ensures { result ≡ ends held }
{
    match held {
        None => true,
        Some(last) => last.next == NULL_AGBLOCK,
    }
}

// May each level end as it is held?
fn all_end(held: &[Option<Held>]) -> bool
    ensures { result ≡ all_end held.now }
{
    held.iter().all(|last| may_end(*last))
}

// What is held of each level, nothing before its first block, and whether all blocks so far follow.
#[derive(Drop)]
pub(crate) struct Links {
    pub(crate) held: [Option<Held>; 9],
    pub(crate) linked: bool,
}

impl Links {
    // Before the first visit.
    pub(crate) fn new() -> Links
        ensures { (result.held ≡ replicate 9 None) × (result.linked ≡ true) }
    {
        Links {
            held: [None; 9],
            linked: true,
        }
    }

    // After a block of a level was met: it is held of its level from now on.
    pub(crate) fn follow(&mut self, block: u32, level: usize, siblings: Siblings)
        requires { level < 9 }
        ensures { Followed self.old.held self.new.held self.old.linked self.new.linked block level siblings.left siblings.right }
    {
        if self.linked {
            self.linked = follows(self.held[level], block, siblings.left);
        }
        self.held[level] = Some(Held {
            block,
            next: siblings.right,
        });
    }

    // After the last visit: is every level linked to its end?
    pub(crate) fn all_linked(&self, levels: usize) -> bool
        requires { levels ≤ 9 }
        ensures { result ≡ (self.now.linked && all_end (take levels self.now.held)) }
    {
        self.linked && all_end(&self.held[..levels])
    }
}
