//! The generator of numbers: a linear congruence of 64 bits.

ghost use Rattle.std.specs.Prelude.{◌≡◌, ◌<◌, ◌≤◌, OnOk, IfOk};
ghost use Rattle.cb_gen.specs.Draws.{state_after, next_state, drawn, drawn_bytes};

use cb_types::{Bytes, NoMemory};
use std::alloc::Global;

/// The factor and the summand of the generator.
const FACTOR: u64 = 6_364_136_223_846_793_005;

const SUMMAND: u64 = 1_442_695_040_888_963_407;

/// Numbers that are drawn one after the other.
#[derive(Drop)]
pub(crate) struct Draws {
    /// What the next number is made from.
    pub(crate) state: u64,
}

impl Draws {
    /// The next number, below `most`.
    pub(crate) fn below(&mut self, most: u32) -> u32
        requires { 1 ≤ most }
        ensures drawn { result ≡ drawn self.old.state 0 most }
        ensures left { self.new.state ≡ next_state self.old.state }
        ensures low { result < most }
    {
        self.state = self.state.wrapping_mul(FACTOR).wrapping_add(SUMMAND);
        ((self.state >> 33) % u64::from(most)) as u32
    }

    /// The next bytes.
    pub(crate) fn bytes(&mut self, alloc: Global, count: u32) -> Result<Bytes, NoMemory>
        ensures bytes { IfOk result (λ bytes. bytes ≡ drawn_bytes self.old.state count) }
        ensures left { OnOk result (self.new.state ≡ state_after self.old.state count) }
    {
        let mut bytes = Vec::new(alloc);
        for _i in 0..count {
            bytes.push(self.below(256) as u8)?;
        }
        Ok(Bytes::from(bytes))
    }
}
