// The descent of a lookup.
ghost use Rattle.std.specs.Prelude.{◌≡◌, ◌≤◌, length};
ghost use Rattle.codec.specs.Question.{done};
ghost use Rattle.codec.specs.Records.{records_of, rmaps};
ghost use Rattle.blocks.specs.declared.kind.TreeKind.TheVariants as kind;
ghost use Rattle.walks.specs.Walk.{visit_of, bytes_found, records, look_in};
ghost use Rattle.walks.specs.Shapes.{shape_of, header_in};
ghost use Rattle.walks.specs.WalkAnswer.{looked_outcome};
ghost use Rattle.lookup.specs.Lookup.{descent_of};
ghost use Rattle.lookup.specs.Answer.{looked_up_report, visits_report};
ghost use Rattle.lookup.specs.Inner.Tally.{tallied, summed, Room};
ghost use Rattle.lookup.specs.Inner.Descent.{Zeroed, Ready, Added};

use crate::children::Search;
use crate::lookup::LookedUp;
use crate::refusal::{LookupRefusal, StoppedLookup};
use crate::tally::tally_leaf;
use blocks::check::Header;
use blocks::geometry::AgBlock;
use blocks::kind::TreeKind;
use codec::rmap::RMAP_LEN;
use walks::look::look;
use walks::path::{Due, open};
use walks::refusal::WalkRefusal;
use walks::tree::TreeImage;

impl<'a> Search<'a> {
    // Reads a block that is due: the walk's look at it, and the records of a leaf added to the counts. No leaf has more than 8,192 records, and there are fewer
    // than 2^32 visits, so no count comes near 2^64.
    fn read(&self, block: u32, level: u16, answers: &mut [u64]) -> Result<Header, WalkRefusal>
        requires { (length self.now.asked.numbers.now ≤ length answers.old)
            × Room 8192 self.now.asked.numbers.now (summed (length self.now.asked.numbers.now) answers.old) }
        ensures result_value { looked_outcome result ≡ header_in self.now.tree.g kind.Rmap self.now.tree.image.now (visit_of block level) }
        ensures answers_after { summed (length self.now.asked.numbers.now) answers.new
            ≡ tallied (records_of rmaps (bytes_found (look_in (shape_of self.now.tree.g kind.Rmap) self.now.tree.image.now (visit_of block level))))
            self.now.asked.numbers.now (summed (length self.now.asked.numbers.now) answers.old) }
    {
        let TreeImage { g, image, .. } = self.tree;
        let header = look(g, TreeKind::Rmap, image, AgBlock(block), level)?;
        if level == 0 {
            let from = (block as usize) * (g.blocksize as usize) + header.body;
            let to = from + (header.numrecs as usize) * RMAP_LEN;
            tally_leaf(&image[from..to], self.asked, answers);
        }
        Ok(header)
    }

    // Visits the blocks that are due, from the root on, without the children that are skipped; 13 before each visit.
    pub(crate) fn descend(
        &self,
        root: u32,
        levels: u32,
        limit: usize,
        stack: &mut [u32],
        answers: &mut [u64],
    ) -> Result<LookedUp, StoppedLookup>
        requires ready { Ready levels limit self.now.asked.numbers.now stack.old answers.old }
        requires zeroed { Zeroed self.now.asked.numbers.now answers.old }
        ensures result_value { looked_up_report result
            ≡ visits_report (done (descent_of self.now.asked.numbers.now (shape_of self.now.tree.g kind.Rmap) self.now.tree.image.now root levels limit)) }
        ensures added { Added result (records_of rmaps (records
            (descent_of self.now.asked.numbers.now (shape_of self.now.tree.g kind.Rmap) self.now.tree.image.now root levels limit)))
            self.now.asked.numbers.now answers.old answers.new }
    {
        let mut due = Due {
            block: root,
            level: levels - 1,
        };
        for passed in 0..limit {
            let visits = passed + 1;
            let Due { block, level } = due;
            if let Err(refusal) = self.read(block, level as u16, answers) {
                return Err(StoppedLookup {
                    refusal: LookupRefusal::Walk(refusal),
                    visits,
                });
            }
            let low = open(stack, block, level);
            let Some(next) = self.next_kept(stack, low, levels) else {
                return Ok(LookedUp { visits });
            };
            due = next;
        }
        Err(StoppedLookup {
            refusal: LookupRefusal::Walk(WalkRefusal::Visits),
            visits: limit,
        })
    }
}
