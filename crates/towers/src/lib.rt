// The tests of the layers, one over another and beside other archives, in a crate of their own for the same reason as those of the ends.
#![tactic(auto)]

#[cfg(test)]
mod beside;
#[cfg(test)]
mod layered;
