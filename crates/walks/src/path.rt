// The blocks that are due in a walk or a lookup, kept as nine pairs: for each level a block and its next child. A node is not checked again when it is come
// back to: the image is lent for reading, so its count and pointers are still those that passed.
ghost use Rattle.std.specs.Prelude.{◌≡◌, ◌+◌, ◌*◌, ◌≤◌, ◌<◌, length};
ghost use Rattle.walks.specs.Walk.{block_in, per_node};
ghost use Rattle.walks.specs.Shapes.{shape_of};
ghost use Rattle.walks.specs.WalkCall.{stack_places};
ghost use Rattle.walks.specs.Path.{child_at, fan_of, Opened, with_pair, low_of, Advanced};

use crate::tree::TreeImage;
use blocks::kind::PTR_LEN;
use blocks::offsets::NUMRECS;
use codec::endian::{be16, be32};

// The places of nine pairs, which the stack of a walk or of a lookup has to have.
// A pair is two places, not a struct: the stack is lent as 18 places of 32 bits (12).
pub const STACK_PLACES: usize = 18;

// A block that is due, and the level that its parent says.
#[derive(Clone, Copy, Debug, PartialEq, Eq)]
pub struct Due {
    pub block: u32,
    pub level: u32,
}

impl<'a> TreeImage<'a> {
    // How many children a block says it has.
    pub fn fan(&self, block: u32) -> usize
        requires { (block + 1) * self.now.g.blocksize ≤ length self.now.image.now }
        ensures { result ≡ fan_of (block_in self.now.g.blocksize self.now.image.now block) }
    {
        let at = (block as usize) * (self.g.blocksize as usize);
        be16(self.image, at + NUMRECS) as usize
    }

    // Its child i.
    pub fn child(&self, block: u32, i: usize) -> u32
        requires { ((block + 1) * self.now.g.blocksize ≤ length self.now.image.now) × (i < per_node (shape_of self.now.g self.now.kind)) }
        ensures { result ≡ (child_at (shape_of self.now.g self.now.kind) (block_in self.now.g.blocksize self.now.image.now block) 0 i).block }
    {
        let at = (block as usize) * (self.g.blocksize as usize);
        be32(self.image, at + (self.first + i * PTR_LEN))
    }

    // The next block due on the pairs from level `low` up, each pair's later children before those above it. Its parent's pair then has the child
    // after it.
    pub fn advance(&self, pairs: &mut [u32], low: u32, levels: u32) -> Option<Due>
        requires { Opened (shape_of self.now.g self.now.kind) self.now.image.now pairs.old low levels }
        ensures { Advanced (shape_of self.now.g self.now.kind) self.now.image.now result low levels pairs.old pairs.new }
    {
        for level in low..levels {
            let at = (level as usize) * 2;
            let block = pairs[at];
            let i = pairs[at + 1];
            let n = self.fan(block);
            if (i as usize) < n {
                pairs[at + 1] = i + 1;
                return Some(Due {
                    block: self.child(block, i as usize),
                    level: level - 1,
                });
            }
        }
        None
    }
}

// A block's own pair, where it is a node; says the lowest level that has a pair.
pub fn open(pairs: &mut [u32], block: u32, level: u32) -> u32
    requires { (stack_places ≤ length pairs.old) × (level < 9) }
    ensures { (result ≡ low_of level) × (pairs.new ≡ with_pair pairs.old block level) }
{
    if level == 0 {
        return 1;
    }
    let at = (level as usize) * 2;
    pairs[at] = block;
    pairs[at + 1] = 0;
    level
}
