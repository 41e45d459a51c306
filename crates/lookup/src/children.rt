// The children of a node that a lookup does not skip.
ghost use Rattle.std.specs.Prelude.{◌≡◌, ◌+◌, ◌*◌, ◌<◌, ◌≤◌, length};
ghost use Rattle.blocks.specs.declared.kind.TreeKind.TheVariants as kind;
ghost use Rattle.walks.specs.Walk.{block_in, per_node};
ghost use Rattle.walks.specs.Shapes.{shape_of};
ghost use Rattle.walks.specs.Path.{due_in, Opened};
ghost use Rattle.lookup.specs.Lookup.{keeps};
ghost use Rattle.lookup.specs.Inner.Descent.{TakenIs};

use crate::numbers::Asked;
use blocks::kind::{RMAP_KEY_LEN, TreeKind, header_len};
use codec::endian::be32;
use walks::path::Due;
use walks::tree::TreeImage;

// What a descent goes by: the image that the reverse map is read in, and the numbers that are asked about.
#[derive(Clone, Copy)]
pub(crate) struct Search<'a> {
    pub(crate) tree: TreeImage<'a>,
    pub(crate) asked: Asked<'a>,
    ghost rmap: { tree.kind ≡ kind.Rmap },
}

impl<'a> Search<'a> {
    // Does one of the numbers lie between the starts of child i's low and high key? All numbers are asked about every child.
    fn kept(&self, block: u32, i: usize) -> bool
        requires { ((block + 1) * self.now.tree.g.blocksize ≤ length self.now.tree.image.now) × (i < per_node (shape_of self.now.tree.g kind.Rmap)) }
        ensures { result ≡ keeps self.now.asked.numbers.now (shape_of self.now.tree.g kind.Rmap)
            (block_in self.now.tree.g.blocksize self.now.tree.image.now block) i }
    {
        let TreeImage { g, image, .. } = self.tree;
        let at = (block as usize) * (g.blocksize as usize);
        let from = header_len(g.version) + i * TreeKind::Rmap.keys_len();
        let low = be32(image, at + from);
        let high = be32(image, at + (from + RMAP_KEY_LEN));
        self.asked.any_between(low, high)
    }

    // The next block due on the pairs from level `low` up: the walk's own, without the children that are skipped.
    pub(crate) fn next_kept(&self, pairs: &mut [u32], low: u32, levels: u32) -> Option<Due>
        requires { Opened (shape_of self.now.tree.g kind.Rmap) self.now.tree.image.now pairs.old low levels }
        ensures { TakenIs
            (due_in (keeps self.now.asked.numbers.now (shape_of self.now.tree.g kind.Rmap)) (shape_of self.now.tree.g kind.Rmap) self.now.tree.image.now)
            (shape_of self.now.tree.g kind.Rmap) self.now.tree.image.now result low levels pairs.old pairs.new }
    {
        let mut from = low;
        loop {
            let next = self.tree.advance(pairs, from, levels)?;
            from = next.level + 1;
            // the parent's pair has the child after this one
            let at = (from as usize) * 2;
            let i = pairs[at + 1] - 1;
            if self.kept(pairs[at], i as usize) {
                return Some(next);
            }
        }
    }
}
