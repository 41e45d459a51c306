// Free extents of a group as lists, in either order of the two free-space trees: what is asked of them (19, 21), and whether two lists hold the
// same extents.
#![tactic(auto)]

pub mod order;
pub mod same;
