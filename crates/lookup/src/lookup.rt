// Many blocks looked up together.
ghost use Rattle.std.specs.Prelude.{length};
ghost use Rattle.codec.specs.Question.{done};
ghost use Rattle.blocks.specs.declared.kind.TreeKind.TheVariants as kind;
ghost use Rattle.walks.specs.Shapes.{shape_of};
ghost use Rattle.lookup.specs.Lookup.{descent_of, lookup_of};
ghost use Rattle.lookup.specs.Answer.{LookupIs};
ghost use Rattle.lookup.specs.Inner.Descent.{Ready};

use crate::children::Search;
use crate::numbers::Asked;
use crate::refusal::{LookupRefusal, StoppedLookup};
use crate::tally::sum_up;
use blocks::geometry::{AgBlock, Geometry};
use blocks::kind::TreeKind;
use walks::first::{ask_first, limit_of};
use walks::tree::TreeImage;

// What a finished lookup comes to: how many blocks passed 13.
#[derive(Clone, Copy, Debug, PartialEq, Eq)]
pub struct LookedUp {
    pub visits: usize,
}

impl<'a> Search<'a> {
    // The lookup, once 1, 11, 12 and 29 are asked.
    fn lookup_tree(
        &self,
        root: u32,
        levels: u32,
        limit: usize,
        stack: &mut [u32],
        answers: &mut [u64],
    ) -> Result<LookedUp, StoppedLookup>
        requires { Ready levels limit self.now.asked.numbers.now stack.old answers.old }
        ensures { LookupIs self.now.asked.numbers.now
            (done (descent_of self.now.asked.numbers.now (shape_of self.now.tree.g kind.Rmap) self.now.tree.image.now root levels limit)) result
            stack.old stack.new answers.old answers.new }
    {
        let n = self.asked.numbers.len();
        answers[..n].fill(0);
        let end = self.descend(root, levels, limit, stack, answers);
        stack.fill(0);
        match end {
            Ok(_) => sum_up(&mut answers[..n]),
            Err(_) => answers.fill(0),
        }
        end
    }
}

// Looks up ascending block numbers in a reverse map: how many of the records read lie over each, into `answers`, in one descent from the root that skips
// each child between whose low and high key's start none of the numbers lies. `image` is the group, block n at n times the block size. Questions 1,
// 11, 12 (the stack alone) and 29; then, at each block, 13, 14, 3 to 8, 30, 9 and 10. A lookup that is done leaves `stack` zero, and the answers past the numbers as
// they were; 13 or a later question leaves both zero throughout; 1, 11, 12 and 29 touch nothing. What the answers are worth: `EveryLookup` of
// specs/Claims.antt.
pub fn lookup(
    g: Geometry,
    image: &[u8],
    root: AgBlock,
    levels: u32,
    asked: &[u32],
    stack: &mut [u32],
    answers: &mut [u64],
) -> Result<LookedUp, StoppedLookup>
    ensures { LookupIs asked.now (lookup_of g image.now root.0 levels (length stack.old) asked.now
        (length answers.old)) result stack.old stack.new answers.old answers.new }
{
    // no lists are lent
    ask_first(g, levels, stack.len(), 0, 0)?;
    let numbers = Asked::with_places(asked, answers.len()).ok_or(LookupRefusal::Asked)?;
    let limit = limit_of(g.agblocks);
    let search = Search {
        tree: TreeImage::new(g, TreeKind::Rmap, image),
        asked: numbers,
    };
    search.lookup_tree(root.0, levels, limit, stack, answers)
}
