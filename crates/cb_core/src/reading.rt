//! A read, wherever the object lies.

ghost use Rattle.std.specs.Prelude.{◌≡◌, ◌+◌, ◌^◌, ◌<◌, true, false, [], IfOk, OnErr};
ghost use Rattle.cb_types.specs.Config.{IsAccepted};
ghost use Rattle.cb_types.specs.declared.reply.Reply.TheVariants as answer;
ghost use Rattle.cb_world.specs.Desks.{IsReadyDesk};
ghost use Rattle.cb_world.specs.World.{AreCounted, IsConfigured};
ghost use Rattle.cb_core.specs.OnceHere.{IsThere, OnceHere, OnceHereStops};
ghost use Rattle.cb_core.specs.ReadTurn.{BroughtToRead, StoppedToRead};
ghost use Rattle.cb_core.specs.TurnLeaves.{TurnLeaves};
ghost use Rattle.cb_core.specs.Turned.{ComeLacks, ComesIn, ReadLacks, Reads};

use crate::bringing::swap_object;
use crate::turning::count_turn;
use cb_mutate::read;
use cb_types::{Handle, Job, NoMemory, Reply};
use cb_world::{Desk, Far};
use std::alloc::Global;

/// The first of the two calls of a read: a turn of the job Read is counted, and the object is
/// brought in where it is far. A turn with the job Read is this call, and then the desk's read
/// where the object is here; who reads under a pin of its own makes this call and then that read.
/// It writes no version.
///
/// Answers Stays where the object is here, and Swapped where it was brought in; else what a read of
/// it is to answer, as `turn` does. Where there is no memory, the turn is counted and what was done
/// before stays. Where 2^40 turns were counted it answers Worn, and neither counts nor does
/// anything.
pub fn bring_to_read<D: Desk>(desk: &mut D, far: &mut Far, h: Handle) -> Result<Reply, NoMemory>
    requires config { IsAccepted (D.settings desk.old) }
    requires configured { IsConfigured (D.settings desk.old) far.old }
    requires handle { h.n < (D.settings desk.old).handles }
    requires counted { AreCounted far.old }
    requires sound { IsReadyDesk D.shows desk.old far.old }
    ensures brought { IfOk result
        (λ reply. BroughtToRead D.run D.shows
        (D.settings desk.old) h (record { desk = desk.old; far = far.old }) reply
        (record { desk = desk.new; far = far.new })) }
    ensures no_frame { IfOk result (λ reply. reply ≡ answer.NoFrame → ⊥) }
    ensures error { OnErr result (StoppedToRead D.run D.shows
        (D.settings desk.old) h (record { desk = desk.old; far = far.old })
        (record { desk = desk.new; far = far.new })) }
    ensures leaves { TurnLeaves D.run D.shows (D.settings desk.old)
        (record { desk = desk.old; far = far.old }) (record { desk = desk.new; far = far.new })
        (λ more. more ≡ []) }
{
    if !count_turn(far, &Job::Read { handle: h }) {
        return Ok(Reply::Worn);
    }
    swap_object(desk, far, h)
}

/// Brings an object in where it is far, and reads it. Where it can't be brought in, or is not to be
/// read, the answer is why.
pub(crate) fn read_anywhere<D: Desk>(
    alloc: Global,
    desk: &mut D,
    far: &mut Far,
    h: Handle,
) -> Result<Reply, NoMemory>
    requires handle { h.n < (D.settings desk.old).handles }
    requires config { IsAccepted (D.settings desk.old) }
    requires configured { IsConfigured (D.settings desk.old) far.old }
    requires counts { (far.old.counts.sets + 2 ^ 18 < 2 ^ 62)
        × (far.old.counts.keys + 2 ^ 18 < 2 ^ 62) }
    requires given { far.old.nodes.given + 16 < 2 ^ 64 }
    requires sound { IsReadyDesk D.shows desk.old far.old }
    ensures reads { IfOk result (λ reply. OnceHere
        (ComesIn D.run D.shows (D.settings desk.old) h.n)
        (Reads D.run D.shows h.n)
        (record { desk = desk.old; far = far.old }) reply
        (record { desk = desk.new; far = far.new })) }
    ensures error { OnErr result (OnceHereStops
        (ComesIn D.run D.shows (D.settings desk.old) h.n)
        (ComeLacks D.run D.shows (D.settings desk.old) h.n)
        (ReadLacks D.run D.shows h.n)
        (record { desk = desk.old; far = far.old }) (record { desk = desk.new; far = far.new })) }
{
    let place = swap_object(desk, far, h)?;
    if !is_there(&place) {
        return Ok(place);
    }
    read(alloc, desk, far, h)
}

/// Whether a reply is that the object is here: it was so, or was brought in.
pub fn is_there(reply: &Reply) -> bool
    ensures yes { result ≡ true → IsThere reply.now }
    ensures other { result ≡ false → IsThere reply.now → ⊥ }
{
    match reply {
        Reply::Stays | Reply::Swapped { .. } => true,
        _ => false,
    }
}
