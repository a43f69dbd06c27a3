//! Tests of what crosses crates: calls of the world that may lack memory once with ample memory, and
//! places and words of objects, which no case of the built program shows; the scrubber over a world,
//! and the rows that are given out where two sets become one, which no line of a script tells; and
//! the shared runtime, in threads and on one thread, with orders, a far array and a far map on it
//! among them.
//! They stand in a crate of their own, so that the crates which they call are proved once. The parts
//! below the world are tested in `cb_low_tests`.
#![tactic(auto)]

#[cfg(test)]
mod acting;
#[cfg(test)]
mod asking;
#[cfg(test)]
mod bodies;
#[cfg(test)]
mod called;
#[cfg(test)]
mod closed;
#[cfg(test)]
mod coding;
#[cfg(test)]
mod crew;
#[cfg(test)]
mod far_core;
#[cfg(test)]
mod joins;
#[cfg(test)]
mod making;
#[cfg(test)]
mod merges;
#[cfg(test)]
mod notes;
#[cfg(test)]
mod pinned;
#[cfg(test)]
mod rounds;
#[cfg(test)]
mod runs;
#[cfg(test)]
mod scrubbing;
#[cfg(test)]
mod seats;
#[cfg(test)]
mod tables;
#[cfg(test)]
mod told;
#[cfg(test)]
mod values;
#[cfg(test)]
mod worlds;
