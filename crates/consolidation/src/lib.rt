// Consolidations: how readings that were held for some seconds are joined into one element.
#![tactic(auto)]

pub mod consolidation;
pub mod fold;
pub mod item;
pub mod mean;
pub mod monoid;
pub mod pick;
pub mod single;
#[cfg(test)]
mod tests;
