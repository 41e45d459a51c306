// What a call says of its answer: a number and four figures.
ghost use Rattle.std.specs.Prelude.{◌≡◌, MatchResult};
ghost use Rattle.codec.specs.Told.{values_of};
ghost use Rattle.interface.specs.Interface.{value_figures};

use codec::refusal::Told;

// The number and the figures of an answer: numbers in an array, since the C interface hands them out so.
#[derive(Clone, Copy)]
pub struct Answer {
    pub number: u32,
    pub figures: [u64; 4],
}

// What was expected and what was found, zeros where there are no such numbers, and a third figure.
fn refusal_figures(told: Told, third: u64) -> [u64; 4]
    ensures { result ≡ value_figures (values_of told.values) third }
{
    match told.values {
        Some(m) => [m.expected, m.found, third, 0],
        None => [0, 0, third, 0],
    }
}

// A refusal, with a third figure.
pub fn refused(told: Told, third: u64) -> Answer
    ensures number { result.number ≡ told.number }
    ensures figures { result.figures ≡ value_figures (values_of told.values) third }
{
    Answer {
        number: told.number,
        figures: refusal_figures(told, third),
    }
}

// Puts the figures of an answer into the caller's array, and says its number.
pub fn say(answer: Answer, said: &mut [u64; 4]) -> u32
    ensures number { result ≡ answer.number }
    ensures figures { said.new ≡ answer.figures }
{
    let Answer { number, figures } = answer;
    *said = figures;
    number
}

// What a call says of a result: 0 and the figures of what it came to, or the number and the figures of the refusal.
pub fn answer_of<T, E: Into<Told>, F: FnOnce(T) -> [u64; 4]>(
    outcome: Result<T, E>,
    figures: F,
) -> Answer
    requires { (x : T) → outcome ≡ Ok x → F.pre figures x }
    ensures { MatchResult outcome
        (λ x. (result.number ≡ 0) × F.post figures x result.figures)
        (λ e. (told : Told) × E.converts e told × (result.number ≡ told.number) × (result.figures ≡ value_figures (values_of told.values) 0)) }
{
    match outcome {
        Ok(x) => Answer {
            number: 0,
            figures: figures(x),
        },
        Err(e) => refused(e.into(), 0),
    }
}
