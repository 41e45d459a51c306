// The textbook walk of a tree: one routine reads a block, another its children from left to right, each calling the other.
#![tactic(auto)]

mod subtree;
pub mod textbook;
