// Layers over any archive: one that joins items in groups, and one that limits the allowance.
#![tactic(auto)]

pub mod allowance;
pub mod coarsen;
pub mod twice;
