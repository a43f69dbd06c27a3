//! The lengths of the objects that each lane made so far.

ghost use Rattle.std.specs.Prelude.{◌≡◌, ◌<◌, ◌∷◌, ◌++◌, ◌==◌, ℕ, [], length, get_or, if◌then◌else◌, option_to_list, All, OnOk, IfOk};
ghost use Rattle.cb_gen.specs.Drawn.{length_made};

use cb_types::{NoMemory, Request};
use std::alloc::Global;
use std::marker::Model;

/// So many lanes have a place: one for each number of a lane.
const PLACES: usize = 16;

/// The lengths of the objects that one lane made, in order.
#[derive(Drop)]
struct Lengths {
    items: Vec<u8>,
}

impl Model for Lengths {
    ghost use Rattle.std.specs.Prelude.{List, ℕ};

    ghost Value = { List ℕ };

    ghost view = { λ a. a.items.items };
}

/// The lengths of the objects that each lane made. Contracts see a list a lane.
#[derive(Drop)]
pub(crate) struct LaneLengths {
    lanes: Vec<Lengths>,
}

impl Model for LaneLengths {
    ghost use Rattle.std.specs.Prelude.{List, ℕ};

    ghost Value = { List (List ℕ) };

    ghost view = { λ a. a.lanes.items };
}

impl LaneLengths {
    /// No lane made anything.
    pub(crate) fn new(alloc: Global) -> Result<LaneLengths, NoMemory>
        ensures places { IfOk result (λ made. length made ≡ 16) }
        ensures empty { IfOk result (λ made. (lane : ℕ) → get_or made lane [] ≡ []) }
    {
        let mut lanes = Vec::new(alloc);
        for _lane in 0..PLACES {
            lanes.push(Lengths {
                items: Vec::new(alloc),
            })?;
        }
        Ok(LaneLengths { lanes })
    }

    /// The lengths of what this lane made.
    pub(crate) fn of(&self, lane: u8) -> &[u8]
        requires { lane < length self.now }
        ensures { result.now ≡ get_or self.now lane [] }
    {
        self.lanes[usize::from(lane)].items.as_slice()
    }

    /// Notes the length of an object that this lane made, where it made one.
    pub(crate) fn note(&mut self, lane: u8, made: Option<u8>) -> Result<(), NoMemory>
        requires { lane < length self.old }
        ensures places { OnOk result (length self.new ≡ length self.old) }
        ensures noted { OnOk result ((other : ℕ) → get_or self.new other []
            ≡ get_or self.old other [] ++ (if lane == other then option_to_list made else [])) }
    {
        match made {
            Some(len) => self.push(lane, len),
            None => Ok(()),
        }
    }

    /// Adds a length at the end of this lane's.
    fn push(&mut self, lane: u8, len: u8) -> Result<(), NoMemory>
        requires { lane < length self.old }
        ensures places { OnOk result (length self.new ≡ length self.old) }
        ensures pushed { OnOk result ((other : ℕ) → get_or self.new other []
            ≡ get_or self.old other [] ++ (if lane == other then len ∷ [] else [])) }
    {
        self.lanes[usize::from(lane)].items.push(len)?;
        Ok(())
    }
}

/// The length of what a request makes, where it makes something.
pub(crate) fn length_made(request: &Request) -> Option<u8>
    requires { All (λ len. len < 256) (length_made request.now) }
    ensures { option_to_list result ≡ length_made request.now }
{
    if let Request::Make { bytes, .. } = request {
        return Some(bytes.len() as u8);
    }
    None
}
