// A visit: a block that is due is looked at, noted and, if it is a leaf, copied.
ghost use Rattle.std.specs.Prelude.{◌≡◌, ◌∷◌, [], ◌≤◌, length};
ghost use Rattle.walks.specs.Walk.{visit_of, good, look_in};
ghost use Rattle.walks.specs.Shapes.{shape_of};
ghost use Rattle.walks.specs.Links.{leftsib_of, rightsib_of};
ghost use Rattle.walks.specs.OneVisit.{step_outcome, Beside, step_of, onward, Fitting, Wrote};

use crate::by_level::LEVEL_STEP;
use crate::look::look;
use crate::refusal::WalkRefusal;
use crate::tree::TreeImage;
use blocks::check::Header;
use blocks::geometry::{AgBlock, NULL_AGBLOCK};
use codec::copy::copy;

// The blocks read and the record bytes stored so far.
#[derive(Clone, Copy, Debug, PartialEq, Eq)]
pub struct Count {
    pub visits: usize,
    pub bytes: usize,
}

// The blocks that a block names before and after it on its level.
#[derive(Clone, Copy, Debug, PartialEq, Eq)]
pub struct Siblings {
    pub left: u32,
    pub right: u32,
}

// A visit: whether the block was read or its refusal ends the walk and, where it was read, the counts after it and its siblings. These stand beside the
// verdict: with them inside it walks took longer (docs/PERFORMANCE.md).
#[derive(Clone, Copy, Debug, PartialEq, Eq)]
pub struct Step {
    pub count: Count,
    pub siblings: Siblings,
    pub verdict: Result<(), WalkRefusal>,
}

// The siblings that a checked header names.
impl From<Header> for Siblings {
    ghost from_gives = { λ h s. (s.left ≡ h.leftsib.0) × (s.right ≡ h.rightsib.0) };

    fn from(h: Header) -> Siblings {
        Siblings {
            left: h.leftsib.0,
            right: h.rightsib.0,
        }
    }
}

// A visit that is refused: the walk ends, with the counts as they are.
fn stop(refusal: WalkRefusal, c: Count) -> Step
    ensures { result.verdict ≡ Err refusal }
{
    let siblings = Siblings {
        left: NULL_AGBLOCK,
        right: NULL_AGBLOCK,
    };
    Step {
        count: c,
        siblings,
        verdict: Err(refusal),
    }
}

// A block that passed the check: 15, then its visit is noted in one place of the level scratch and its records, if it is a leaf, go to the record list.
fn enter(
    bytes: &[u8],
    place: u64,
    siblings: Siblings,
    scratch: &mut [u64],
    out: &mut [u8],
    places: usize,
    c: Count,
) -> Step
    requires { (places ≤ length scratch.old) × (c.bytes ≤ length out.old) }
    ensures result_value { step_outcome result ≡ step_of places (length out.old) c (good [] bytes.now) }
    ensures scratch_after { (scratch.new ≡ onward (step_outcome result) scratch.old c.visits (place ∷ []))
        × (out.new ≡ onward (step_outcome result) out.old c.bytes bytes.now) }
    ensures beside { Beside result siblings.left siblings.right }
{
    let visits = c.visits;
    let at = c.bytes;
    let len = bytes.len();
    if places <= visits || out.len() - at < len {
        return stop(WalkRefusal::Full, c);
    }
    copy(bytes, out, at);
    scratch[visits] = place;
    let count = Count {
        visits: visits + 1,
        bytes: at + len,
    };
    Step {
        count,
        siblings,
        verdict: Ok(()),
    }
}

impl<'a> TreeImage<'a> {
    // Reads a block that is due: 14, then 3 to 8, 30, 9 and 10, then 15. A node has no records: it hands an empty part of the image on.
    pub fn visit(
        &self,
        block: u32,
        level: u16,
        scratch: &mut [u64],
        out: &mut [u8],
        places: usize,
        c: Count,
    ) -> Step
        requires { Fitting scratch.old out.old places c }
        ensures result_value { step_outcome result
            ≡ step_of places (length out.old) c (look_in (shape_of self.now.g self.now.kind) self.now.image.now (visit_of block level)) }
        ensures wrote { Wrote (step_outcome result) (visit_of block level) (look_in (shape_of self.now.g self.now.kind) self.now.image.now (visit_of block level)) c
            scratch.old scratch.new out.old out.new }
        ensures beside { Beside result (leftsib_of self.now.g.blocksize self.now.image.now block) (rightsib_of self.now.g.blocksize self.now.image.now block) }
    {
        let header = match look(self.g, self.kind, self.image, AgBlock(block), level) {
            Err(refusal) => return stop(refusal, c),
            Ok(header) => header,
        };
        let siblings = Siblings::from(header);
        let place = (level as u64) * LEVEL_STEP + (block as u64);
        if level == 0 {
            let from = (block as usize) * (self.g.blocksize as usize) + header.body;
            let to = from + (header.numrecs as usize) * self.kind.record_len();
            return enter(
                &self.image[from..to],
                place,
                siblings,
                scratch,
                out,
                places,
                c,
            );
        }
        enter(&self.image[0..0], place, siblings, scratch, out, places, c)
    }
}
