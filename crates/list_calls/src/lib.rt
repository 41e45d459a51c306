// Edits of lists, and of both lists of a group, and sheets of such changes, as C and Rust call them: functions on numbers and slices alone. A slice passes
// as a pointer and a length. Each call answers 0 where it was done, else the number of the refusal (docs/QUESTIONS.md), and puts four figures into `said`. None has
// a precondition; what a caller owes with its pointers is in docs/INTERFACE.md.
#![tactic(auto)]

pub mod edits;
pub mod explaining;
mod figures;
pub mod sheet_calls;
