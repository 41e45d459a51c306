// Why a block of a letting go is free now, still held, or staging.
#![tactic(auto)]

pub mod explain;
mod find;
mod scan;
