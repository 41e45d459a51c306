// The look at a block of an image.
ghost use Rattle.std.specs.Prelude.{◌≡◌};
ghost use Rattle.walks.specs.Walk.{visit_of};
ghost use Rattle.walks.specs.Shapes.{header_in};
ghost use Rattle.walks.specs.WalkAnswer.{looked_outcome};

use crate::refusal::WalkRefusal;
use blocks::check::{Header, check_block};
use blocks::geometry::{AgBlock, Geometry};
use blocks::kind::TreeKind;

// Looks at a block of the group's image, block n at n times the block size, which should be of that level: 14, then the block check. It gives the header.
pub fn look(
    g: Geometry,
    kind: TreeKind,
    image: &[u8],
    block: AgBlock,
    level: u16,
) -> Result<Header, WalkRefusal>
    ensures { looked_outcome result ≡ header_in g kind image.now (visit_of block.0 level) }
{
    let size = g.blocksize as usize;
    let start = (block.0 as usize) * size;
    let end = start + size;
    if image.len() < end {
        return Err(WalkRefusal::Outside);
    }
    let checked = check_block(g, kind, block, level, &image[start..end]);
    // `let .. else` and no `?`: the form that was asked for here (docs/DECISIONS.md, Forms)
    let Ok(header) = checked else {
        return Err(WalkRefusal::from(checked.unwrap_err()));
    };
    Ok(header)
}
