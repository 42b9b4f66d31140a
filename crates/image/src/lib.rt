// The image of a ring of rows: its bytes, what can be wrong with them, and the rows that they hold.
#![tactic(auto)]

pub mod fault;
pub mod header;
mod number;
pub mod opened;
pub mod ring;
pub mod row;
