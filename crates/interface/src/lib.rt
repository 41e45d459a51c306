// What the calls of the C interface share: what they make of the numbers they are given, and what they say of an answer.
#![tactic(auto)]

pub mod answer;
pub mod given;
