// What a call on a list, a block or a tree says of what it came to.
ghost use Rattle.std.specs.Prelude.{◌≡◌, ◌∷◌, []};
ghost use Rattle.codec.specs.ListRefusal.{list_outcome};
ghost use Rattle.walks.specs.WalkAnswer.{walked_report};
ghost use Rattle.walks.specs.Links.{walked_of, says_yes};
ghost use Rattle.lookup.specs.Answer.{looked_up_report};
ghost use Rattle.interface.specs.Interface.{number_of};
ghost use Rattle.tree_calls.specs.TreeCalls.{header_figures};
ghost use Rattle.tree_calls.specs.WalkFigures.{Reports, yes_figure};
ghost use Rattle.tree_calls.specs.LookupFigures.{ReportsVisits};
ghost use Rattle.tree_calls.specs.SameFigures.{same_figures};

use blocks::check::Header;
use codec::check::ListRefusal;
use codec::refusal::Told;
use interface::answer::{Answer, refused};
use lookup::lookup::LookedUp;
use lookup::refusal::StoppedLookup;
use trees::plan::Planned;
use walks::refusal::StoppedWalk;
use walks::walk::{Linking, Walked};

pub(crate) fn list_number(checked: Result<usize, ListRefusal>) -> u32
    ensures { result ≡ number_of (list_outcome checked) }
{
    match checked {
        Ok(_) => 0,
        Err(r) => Told::from(r).number,
    }
}

pub(crate) fn header_figures(h: Header) -> [u64; 4]
    ensures { result ≡ header_figures h }
{
    [
        h.numrecs as u64,
        h.maxrecs as u64,
        h.leftsib.0 as u64,
        h.rightsib.0 as u64,
    ]
}

pub(crate) fn plan_figures(p: Planned) -> [u64; 4]
    ensures { result ≡ (p.levels ∷ p.total ∷ 0 ∷ 0 ∷ []) }
{
    [p.levels as u64, p.total, 0, 0]
}

// 1 for yes, 0 for no.
pub(crate) fn same_figures(so: bool) -> [u64; 4]
    ensures { result ≡ same_figures so }
{
    [so as u64, 0, 0, 0]
}

// With a fourth figure for a walk that read its tree. A walk that is refused tells its visits too, so `answer_of` does not do.
pub(crate) fn walked_answer(walked: Result<Walked, StoppedWalk>, fourth: u64) -> Answer
    ensures { Reports fourth (walked_report walked) result.number result.figures }
{
    match walked {
        Ok(w) => Answer {
            number: 0,
            figures: [w.visits as u64, w.records as u64, w.bytes as u64, fourth],
        },
        Err(s) => refused(Told::from(s.refusal), s.visits as u64),
    }
}

// With 1 for a tree whose levels are linked, else 0.
pub(crate) fn linking_answer(linking: Result<Linking, StoppedWalk>) -> Answer
    ensures { Reports (yes_figure (says_yes linking)) (walked_report (walked_of linking)) result.number result.figures }
{
    match linking {
        Ok(l) => walked_answer(Ok(l.walked), l.linked as u64),
        Err(s) => walked_answer(Err(s), 0),
    }
}

// A lookup that is refused tells its visits too.
pub(crate) fn looked_up_answer(looked: Result<LookedUp, StoppedLookup>) -> Answer
    ensures { ReportsVisits (looked_up_report looked) result.number result.figures }
{
    match looked {
        Ok(l) => Answer {
            number: 0,
            figures: [l.visits as u64, 0, 0, 0],
        },
        Err(s) => refused(Told::from(s.refusal), s.visits as u64),
    }
}
