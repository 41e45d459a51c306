// What became of memory that was lent filled with 0xEE. Each function prints it, and says whether it is as the first of its texts has it.
ghost use Rattle.std.specs.Prelude.{◌≡◌, ◌&&◌, length};
ghost use Rattle.show.specs.Places.{throughout, walk_throughout, tail_throughout};

use crate::lines::{either, number, show_outcome};
use crate::places;
use codec::refusal::Told;

// What a walk leaves of what it was lent: its stack, its level scratch, its block list and its record list.
#[derive(Clone, Copy)]
pub struct Left<'a> {
    pub stack: &'a [u32],
    pub scratch: &'a [u64],
    pub blocks: &'a [u32],
    pub records: &'a [u8],
}

impl<'a> Left<'a> {
    // Is every place of it `value`?
    fn is_throughout(self, value: u8) -> bool
        ensures { let l = self.entry in result ≡ walk_throughout l.stack.now l.scratch.now l.blocks.now l.records.now value }
    {
        places::throughout(self.stack, value as u32)
            && places::throughout(self.scratch, value as u64)
            && places::throughout(self.blocks, value as u32)
            && places::throughout(self.records, value)
    }

    // After a walk that was refused: is all of it zero?
    pub fn show_state(self) -> bool
        ensures { let l = self.entry in result ≡ walk_throughout l.stack.now l.scratch.now l.blocks.now l.records.now 0 }
    {
        let zero = self.is_throughout(0);
        let kept = self.is_throughout(0xEE);
        if zero {
            io::write_all(1, b" zero");
        } else {
            either(kept, b" kept", b" mixed");
        }
        zero
    }

    // After a walk that was done: are both scratches zero?
    pub fn show_scratches(self) -> bool
        ensures { let l = self.entry in result ≡ (throughout l.stack.now 0 && throughout l.scratch.now 0) }
    {
        let zero = places::throughout(self.stack, 0) && places::throughout(self.scratch, 0);
        either(zero, b" scratches zero", b" scratches dirty");
        zero
    }
}

// Are both lists past the result as they were?
pub fn show_tails(blocks: &[u32], records: &[u8]) -> bool
    ensures { result ≡ (throughout blocks.now 0xEE && throughout records.now 0xEE) }
{
    let kept = places::throughout(blocks, 0xEE) && places::throughout(records, 0xEE);
    either(kept, b" tails kept", b" tails written");
    kept
}

// The blocks in a list, and how many there are.
pub fn show_blocks(blocks: &[u32]) -> usize
    ensures { result ≡ length blocks.now }
{
    for block in blocks {
        number(b" ", *block as u64);
    }
    blocks.len()
}

// Are the bytes of an output from a place on as they were? Past its end nothing is printed.
pub fn show_tail(out: &[u8], from: usize) -> bool
    ensures { result ≡ tail_throughout out.now from 0xEE }
{
    if out.len() < from {
        return false;
    }
    let kept = places::throughout(&out[from..], 0xEE);
    either(kept, b" kept", b" written");
    kept
}

// The number that a call came to, after a name for it, or what it refused; and whether the bytes of its output past that number are as they were.
pub fn show_output<E: Into<Told> + Copy>(done: &[u8], outcome: Result<usize, E>, out: &[u8]) {
    show_outcome(done, outcome);
    show_tail(out, outcome.unwrap_or(0));
}
