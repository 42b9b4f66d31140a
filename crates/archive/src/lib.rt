// Archives: what keeps the newest rows of all the items that it was given.
#![tactic(auto)]

pub mod archive;
pub mod cursor;
pub mod entry;
pub mod refusal;
pub mod store_all;
