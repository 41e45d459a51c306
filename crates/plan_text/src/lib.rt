// The text of the plan program: what its input asks for, and what it prints.
#![tactic(auto)]

mod line;
pub mod text;
