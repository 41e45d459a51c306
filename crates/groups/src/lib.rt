// A group: its reverse map and its shared counts, edited together.
#![tactic(auto)]

pub mod let_go;
mod measured;
pub mod take_held;

// The bytes of the new reverse map, of the new counts and of the free extents; a take frees nothing.
#[derive(Clone, Copy, Debug, PartialEq, Eq)]
pub struct Sizes {
    pub map: usize,
    pub counts: usize,
    pub free: usize,
}
