// The image of a group in which a tree of one kind is read.
ghost use Rattle.std.specs.Prelude.{◌≡◌, true};
ghost use Rattle.blocks.specs.Geometry.{geometry_ok};
ghost use Rattle.walks.specs.Walk.{first_pointer};
ghost use Rattle.walks.specs.Shapes.{shape_of};

use blocks::geometry::Geometry;
use blocks::kind::{TreeKind, block_capacity, header_len};

// Block n of the group lies at n times the block size. The geometry passed 1.
#[derive(Clone, Copy)]
pub struct TreeImage<'a> {
    pub g: Geometry,
    pub kind: TreeKind,
    pub image: &'a [u8],
    // where the pointers of a node begin: it is worked out once, since it takes a division
    pub first: usize,
    ghost good: { geometry_ok g ≡ true },
    ghost pointers: { first ≡ first_pointer (shape_of g kind) },
}

impl<'a> TreeImage<'a> {
    // Of a geometry that passed 1.
    pub fn new(g: Geometry, kind: TreeKind, image: &'a [u8]) -> TreeImage<'a>
        requires { geometry_ok g ≡ true }
        ensures { (result.g ≡ g) × (result.kind ≡ kind) × (result.image.now ≡ image.now) }
    {
        TreeImage {
            g,
            kind,
            image,
            first: first_pointer(g, kind),
        }
    }
}

// Where the pointers of a node begin: after room for the capacity's keys.
pub fn first_pointer(g: Geometry, kind: TreeKind) -> usize
    requires { geometry_ok g ≡ true }
    ensures { result ≡ first_pointer (shape_of g kind) }
{
    let most = block_capacity(kind, g.version, 1, g.blocksize as usize);
    let keys = kind.keys_len();
    header_len(g.version) + most * keys
}
