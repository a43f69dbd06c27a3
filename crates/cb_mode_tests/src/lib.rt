//! Tests of the crates that modes of the program stand on: their calls with ample memory, and the
//! ends of the program, each of whose calls fails in turn.
#![tactic(auto)]

#[cfg(test)]
mod ends;
#[cfg(test)]
mod rma;
