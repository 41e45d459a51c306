// CRC32C, lists checked, blocks and trees as C and Rust call them: functions on numbers and slices alone. A slice passes as a pointer and a
// length. Each call but the two of CRC32C, which answer the CRC, answers 0 where it was done, else the number of the refusal (docs/QUESTIONS.md);
// one that is lent `said` puts four figures there. None has a precondition; what a caller owes with its pointers is in docs/INTERFACE.md.
#![tactic(auto)]

mod answers;
pub mod block_calls;
pub mod list_checks;
pub mod whole_trees;
