// The archives that keep each item as a row of its own, in memory.
#![tactic(auto)]

pub mod latest;
pub mod record;
