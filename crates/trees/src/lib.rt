// Trees of a group: how many blocks a tree needs, how it is written, and how it is read back.
#![tactic(auto)]

pub mod build;
mod keys;
pub mod plan;
