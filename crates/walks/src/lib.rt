// Trees of a group read: the image that a tree is read in, what is asked first, the look at a block, the visit, the blocks that are due, the links of a level,
// the walk, and how it closes.
#![tactic(auto)]

mod by_level;
pub mod closing;
pub mod first;
mod links;
pub mod look;
pub mod path;
pub mod refusal;
pub mod tree;
pub mod visit;
pub mod walk;
