// What the test programs print and compare: lines of text, memory that was lent, blocks to check, and images of such blocks.
#![tactic(auto)]

pub mod images;
pub mod lent;
pub mod lines;
pub mod places;
pub mod samples;
