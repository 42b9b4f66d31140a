// Elements as an image has them: of a kind, by an amount and a weight.
#![tactic(auto)]

pub mod coded;
pub mod fault;
pub mod kind;
