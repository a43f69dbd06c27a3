//! The seats of a world, as tables act at them.
ghost use Rattle.std.specs.Prelude.{◌<◌, IfOk, IfSome};
ghost use Rattle.std.specs.List.{AllByRecursion};
ghost use Rattle.cb_core.specs.Events.{IsEvent};
ghost use Rattle.cb_world.specs.World.{IsSoundWorld};

use crate::acting::{Act, Acts, Row};
use crate::bodies::MOST;
use crate::told::{Number, Plain, Step, Told, shows, told_of};
use cb_core::{Atomic, Event, Replies, run, step};
use cb_ptr::unpack;
use cb_types::{Bytes, Config, Handle, Job, NoMemory, Reply};
use cb_world::{Desk, World};
use std::alloc::Global;

/// The event of a seat that does so to an object; None where it only looks, or can't.
fn event_of(
    alloc: Global,
    config: Config,
    seat: u32,
    handle: Handle,
    act: Act,
    bytes: &[u8],
) -> Result<Option<Event>, NoMemory>
    requires seat { seat < 64 }
    requires handle { handle.n < config.handles }
    ensures { IfOk result (λ found. IfSome found (λ e. IsEvent config e)) }
{
    let atomic = match act {
        Act::Make if 0 < bytes.len() && bytes.len() <= MOST => {
            let bytes = Bytes::copy_of(alloc, bytes)?;
            let job = Job::Make { bytes };
            return Ok(Some(Event::Turn { seat, job }));
        }
        Act::Read | Act::Show => {
            let job = Job::Read { handle };
            return Ok(Some(Event::Turn { seat, job }));
        }
        Act::Evict => {
            let job = Job::Evict;
            return Ok(Some(Event::Turn { seat, job }));
        }
        Act::Claim => {
            let bytes = Bytes::copy_of(alloc, &[0xff])?;
            Atomic::Claim {
                handle,
                at: 1,
                bytes,
            }
        }
        Act::Load => Atomic::Load { handle },
        Act::Pin => Atomic::Pin { handle },
        Act::Unpin => Atomic::Unpin { handle },
        Act::Store => Atomic::Store { handle },
        Act::Settle => Atomic::Settle { handle },
        Act::Take => Atomic::Take,
        Act::Give => Atomic::Give,
        _ => return Ok(None),
    };
    Ok(Some(Event::Step { seat, atomic }))
}

/// What a look at a word tells. The memory words are those with the numbers of handles.
fn looked(world: &World, h: Handle, act: Act) -> Told
    requires sound { IsSoundWorld world.now }
    requires word { h.n < world.now.desk.settings.handles }
    requires frame { h.n < world.now.desk.settings.frames }
{
    let desk = &world.desk;
    match act {
        Act::Word => Told::Step(Step::Word, desk.look(h)),
        Act::Place => Told::Step(Step::Place, u64::from(unpack(desk.look(h)).place)),
        Act::Version => Told::Count(Number::Version, desk.tell(h)),
        Act::Memory => Told::Step(Step::Word, desk.load_word(h.n)),
        _ => Told::Just(Plain::Other),
    }
}

/// What an act tells that was so answered.
fn told_by_act(reply: Result<Reply, NoMemory>, act: Act, bytes: &[u8]) -> Result<Told, NoMemory> {
    let reply = reply?;
    match act {
        Act::Show if shows(&reply, bytes) => Ok(Told::Just(Plain::Done)),
        Act::Show => Ok(Told::Just(Plain::Other)),
        _ => Ok(told_of(&reply)),
    }
}

/// The seats of a world.
pub(crate) struct AtSeats<'a> {
    pub(crate) alloc: Global,
    pub(crate) world: &'a mut World,
}

impl<'a> Acts for AtSeats<'a> {
    ghost may = { λ a. IsSoundWorld a.world.now };

    fn act(&mut self, seat: u8, h: Handle, act: Act, bytes: &[u8]) -> Result<Told, NoMemory> {
        let (alloc, world) = (self.alloc, &mut *self.world);
        let config = world.desk.config();
        if h.n >= config.handles || h.n >= config.frames {
            return Ok(Told::Just(Plain::Other));
        }
        match event_of(alloc, config, u32::from(seat % 64), h, act, bytes)? {
            Some(event) => told_by_act(step(alloc, world, &event), act, bytes),
            None => Ok(looked(world, h, act)),
        }
    }
}

/// The events of rows on the first object.
fn events_of(
    alloc: Global,
    config: Config,
    rows: &[Row],
    bytes: &[u8],
) -> Result<Vec<Event>, NoMemory>
    requires { 0 < config.handles }
    ensures { IfOk result (λ events. AllByRecursion (IsEvent config) events.items) }
{
    let mut events = Vec::new(alloc);
    for row in rows {
        let (seat, _, act, _) = *row;
        let seat = u32::from(seat % 64);
        let found = event_of(alloc, config, seat, Handle { n: 0 }, act, bytes)?;
        let Some(event) = found else {
            return Err(NoMemory);
        };
        events.push(event)?;
    }
    Ok(events)
}

/// Whether these are the replies of rows, in order.
fn are_of_rows(replies: Result<Replies, NoMemory>, rows: &[Row]) -> Result<bool, NoMemory> {
    let replies = replies?;
    let replies = replies.as_slice();
    if replies.len() != rows.len() {
        return Ok(false);
    }
    let mut all = true;
    for i in 0..rows.len() {
        all &= told_of(&replies[i]) == rows[i].3;
    }
    Ok(all)
}

/// Whether a run of the events of rows on the first object is answered as they say.
pub(crate) fn are_told_in_a_run(
    alloc: Global,
    world: &mut World,
    rows: &[Row],
    bytes: &[u8],
) -> Result<bool, NoMemory>
    requires { IsSoundWorld world.old }
{
    let config = world.desk.config();
    if config.handles == 0 {
        return Ok(false);
    }
    let events = events_of(alloc, config, rows, bytes)?;
    are_of_rows(run(alloc, world, events.as_slice()), rows)
}
