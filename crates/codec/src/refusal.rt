// A refusal as a number and values, whichever call refused: all that an interface or a test program wants of it.
ghost use Rattle.codec.specs.Question.{none, two};
ghost use Rattle.codec.specs.Told.{Tells};

// The number that a question expected, and the one that it found.
#[derive(Clone, Copy, Debug, PartialEq, Eq)]
pub struct Mismatch {
    pub expected: u64,
    pub found: u64,
}

// The number of docs/QUESTIONS.md and the values of a refusal: none where the question that failed has no two numbers.
#[derive(Clone, Copy, Debug, PartialEq, Eq)]
pub struct Told {
    pub number: u32,
    pub values: Option<Mismatch>,
}

impl Told {
    // A refusal that has no values.
    pub fn plain(number: u32) -> Told
        ensures { Tells result number none }
    {
        Told {
            number,
            values: None,
        }
    }

    // A refusal with the number expected and the one found.
    pub fn two(number: u32, expected: u64, found: u64) -> Told
        ensures { Tells result number (two expected found) }
    {
        Told {
            number,
            values: Some(Mismatch { expected, found }),
        }
    }
}
