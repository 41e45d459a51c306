// Why a lookup is refused.
ghost use Rattle.std.specs.Prelude.{◌≡◌};
ghost use Rattle.codec.specs.Told.{Tells};
ghost use Rattle.lookup.specs.declared.refusal.LookupRefusal.TheVariants.{Walk};
ghost use Rattle.lookup.specs.Answer.{lookup_number, lookup_values};

use codec::refusal::Told;
use walks::refusal::WalkRefusal;

// The number of each case (docs/QUESTIONS.md) is `lookup_number` of specs/Answer.antt.
#[derive(Clone, Copy, Debug, PartialEq, Eq)]
pub enum LookupRefusal {
    // the walk's own: 1, 11 to 14, 3 to 10 and 30
    Walk(WalkRefusal),
    // the numbers do not ascend strictly, or there are fewer places for answers: 29
    Asked,
}

impl From<WalkRefusal> for LookupRefusal {
    ghost from_gives = { λ e r. r ≡ Walk e };

    fn from(e: WalkRefusal) -> LookupRefusal {
        LookupRefusal::Walk(e)
    }
}

// Its number and values.
impl From<LookupRefusal> for Told {
    ghost from_gives = { λ r t. Tells t (lookup_number r) (lookup_values r) };

    fn from(r: LookupRefusal) -> Told {
        match r {
            LookupRefusal::Walk(refusal) => Told::from(refusal),
            LookupRefusal::Asked => Told::plain(29),
        }
    }
}

// A lookup that is refused: why, and how many blocks had passed 13. As `StoppedWalk`, of another refusal: one generic struct would need the same `From` of each.
#[derive(Clone, Copy, Debug, PartialEq, Eq)]
pub struct StoppedLookup {
    pub refusal: LookupRefusal,
    pub visits: usize,
}

// What is asked before the first visit.
impl From<LookupRefusal> for StoppedLookup {
    ghost from_gives = { λ e r. r ≡ record { refusal = e; visits = 0 } };

    fn from(refusal: LookupRefusal) -> StoppedLookup {
        StoppedLookup { refusal, visits: 0 }
    }
}

impl From<WalkRefusal> for StoppedLookup {
    ghost from_gives = { λ e r. r ≡ record { refusal = Walk e; visits = 0 } };

    fn from(e: WalkRefusal) -> StoppedLookup {
        StoppedLookup {
            refusal: LookupRefusal::Walk(e),
            visits: 0,
        }
    }
}
