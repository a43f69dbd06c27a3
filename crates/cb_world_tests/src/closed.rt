//! How a runtime is closed.
ghost use Rattle.cb_world.specs.World.{IsSoundWorld};
ghost use Rattle.cb_shared.specs.Passes.{IsPassOf};

use crate::acting::{Act, Acts, are_told};
use crate::bodies::len_shared;
use crate::merges::given_in;
use crate::notes::{FREED, Note, last, last_word};
use crate::seats::AtSeats;
use crate::told::{Number, Plain, Told};
use cb_shared::{CloseRefused, Pass, Shared};
use cb_types::{Handle, NoMemory};
use cb_world::World;
use std::alloc::Global;
use std::mem;

/// What was done before a runtime is closed. Where nothing was noted, the world is not read.
#[derive(Drop)]
pub(crate) struct Ended {
    pub(crate) is_right: bool,
    /// Whether passes are out, so that the close is to be refused.
    pub(crate) is_out: bool,
    /// How many rows were to be given out, where that is fixed.
    pub(crate) given: Option<u64>,
    pub(crate) objects: Vec<Handle>,
    pub(crate) notes: Vec<Note>,
}

/// What a read of an object is to tell by its last version.
fn wanted(notes: &[Note], object: usize) -> Told {
    match last_word(notes, object) {
        Some(FREED) => Told::Just(Plain::Freed),
        Some(word) => Told::Bytes {
            version: last(notes, object),
            len: len_shared(object),
            word,
        },
        None => Told::Just(Plain::Other),
    }
}

/// Whether no answer was wrong, no pass is out, and each object that was noted has its last version
/// in a world, which a read of it tells.
fn are_last<A: Acts>(seats: &mut A, ended: &Ended) -> Result<bool, NoMemory>
    requires { A.may seats.old }
{
    let notes = ended.notes.as_slice();
    let mut all = ended.is_right && !ended.is_out;
    for (i, h) in ended.objects.iter().enumerate() {
        let version = Told::Count(Number::Version, last(notes, i));
        let rows = [
            (0, h.n, Act::Version, version),
            (0, h.n, Act::Read, wanted(notes, i)),
        ];
        all &= are_told(seats, &rows, &[])?;
    }
    Ok(all)
}

/// The same of a world that is given up, and whether as many rows were given out in it as were to be.
fn is_world(alloc: Global, world: World, ended: &Ended) -> Result<bool, NoMemory>
    requires { IsSoundWorld world }
{
    let mut world = world;
    let given = given_in(&world);
    let mut seats = AtSeats {
        alloc,
        world: &mut world,
    };
    let are_last = are_last(&mut seats, ended);
    let AtSeats { alloc: _, world: _ } = seats;
    world.end();
    Ok(are_last? && ended.given.unwrap_or(given) == given)
}

/// Closes a runtime by its first pass; whether no answer was wrong, and the world has all that was
/// written, or the close is refused as it is to be. A runtime that is not closed is left as it is.
pub(crate) fn close(
    alloc: Global,
    shared: Shared,
    first: Pass,
    ended: &Ended,
) -> Result<bool, NoMemory>
    requires of { IsPassOf shared first }
{
    match shared.close(alloc, first) {
        Ok((world, _seal)) => is_world(alloc, world, ended),
        Err(refused) => {
            let is_out = matches!(&refused, CloseRefused::Out { share: 63, .. });
            mem::forget(refused);
            Ok(is_out && ended.is_out && ended.is_right)
        }
    }
}
