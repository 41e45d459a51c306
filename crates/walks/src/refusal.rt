// Why a walk, or a look at one of its blocks, is refused.
ghost use Rattle.std.specs.Prelude.{◌≡◌};
ghost use Rattle.codec.specs.Told.{Tells};
ghost use Rattle.walks.specs.declared.refusal.WalkRefusal.TheVariants.{Block};
ghost use Rattle.walks.specs.WalkAnswer.{walk_number, walk_values};

use blocks::check::BlockRefusal;
use codec::refusal::Told;

// The number of each case (docs/QUESTIONS.md) is `walk_number` of specs/WalkAnswer.antt.
#[derive(Clone, Copy, Debug, PartialEq, Eq)]
pub enum WalkRefusal {
    // there are not 1 to 9 levels: 11
    Levels,
    // the stack or the level scratch is too short: 12
    Scratch,
    // the visits are used up: 13
    Visits,
    // the block does not lie whole in the image: 14
    Outside,
    // the block check's own refusal: 1, 3 to 10 and 30
    Block(BlockRefusal),
    // the block list or the record list is full: 15
    Full,
}

impl From<BlockRefusal> for WalkRefusal {
    ghost from_gives = { λ e r. r ≡ Block e };

    fn from(e: BlockRefusal) -> WalkRefusal {
        WalkRefusal::Block(e)
    }
}

// Its number and values.
impl From<WalkRefusal> for Told {
    ghost from_gives = { λ r t. Tells t (walk_number r) (walk_values r) };

    fn from(r: WalkRefusal) -> Told {
        match r {
            WalkRefusal::Levels => Told::plain(11),
            WalkRefusal::Scratch => Told::plain(12),
            WalkRefusal::Visits => Told::plain(13),
            WalkRefusal::Outside => Told::plain(14),
            WalkRefusal::Block(refusal) => Told::from(refusal),
            WalkRefusal::Full => Told::plain(15),
        }
    }
}

// A walk that is refused: why, and how many blocks had passed 13.
#[derive(Clone, Copy, Debug, PartialEq, Eq)]
pub struct StoppedWalk {
    pub refusal: WalkRefusal,
    pub visits: usize,
}

// A refusal before the first visit.
impl From<WalkRefusal> for StoppedWalk {
    ghost from_gives = { λ e s. s ≡ record { refusal = e; visits = 0 } };

    fn from(e: WalkRefusal) -> StoppedWalk {
        StoppedWalk {
            refusal: e,
            visits: 0,
        }
    }
}
