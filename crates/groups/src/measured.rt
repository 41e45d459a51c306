// The first half of an edit of both lists: every question but 26 is asked, the new reverse map is prepared, and all that is to be written is measured.
ghost use Rattle.std.specs.Prelude.{◌≡◌, ◌&&◌, leb};

use crate::Sizes;
use lists::splice::Splice;

// Both lists and the extent are three parameters in either edit, as the two promises have them. After `fit_all` each edit writes by two calls, and only the
// first is the same.

// The splice of the new reverse map, and the bytes of all that is to be written.
#[derive(Clone, Copy)]
pub(crate) struct Measure {
    pub splice: Splice,
    pub sizes: Sizes,
}

// 26: do the new reverse map, the new counts and the free extents fit what was lent?
pub(crate) fn fit_all(n: Sizes, map: usize, counts: usize, free: usize) -> bool
    ensures { result ≡ (leb n.map map && (leb n.counts counts && leb n.free free)) }
{
    n.map <= map && n.counts <= counts && n.free <= free
}
