// One block of a group tree: the geometry, where a block lies, the kinds of tree by their lengths, the check of a block and the header of
// a fresh one.
#![tactic(auto)]

pub mod check;
pub mod geometry;
pub mod kind;
pub mod offsets;
pub mod stamp;
mod uuid;
