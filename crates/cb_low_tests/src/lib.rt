//! Tests of the ground and the parts: worked values from outside, calls that may lack memory once
//! with ample memory, and what neither a clause nor a case of the built program says. They stand in
//! a crate of their own, so that the crates which they call are proved once.
#![tactic(auto)]

#[cfg(test)]
mod codes;
#[cfg(test)]
mod fields;
#[cfg(test)]
mod maps;
#[cfg(test)]
mod nodes;
#[cfg(test)]
mod orders;
#[cfg(test)]
mod scripts;
#[cfg(test)]
mod streams;
#[cfg(test)]
mod vectors;
