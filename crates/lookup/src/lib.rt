// Many blocks looked up together: how many records of a reverse map lie over each, in one descent from the root.
#![tactic(auto)]

mod children;
mod descend;
pub mod lookup;
mod numbers;
pub mod refusal;
mod tally;
