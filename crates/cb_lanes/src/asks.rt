//! What a lane asks of the shared runtime with its pass: calls, pins, looks under a pin, and the
//! ends of pins.
ghost use Rattle.std.specs.Prelude.{◌≡◌, ◌<◌, ℕ, List, length, None, IfOk, OnErr};
ghost use Rattle.cb_core.specs.Jobs.{IsJob, NeedsNoOrder};
ghost use Rattle.cb_rule.specs.Lists.{Has};
ghost use Rattle.cb_rule.specs.Steps.{IsNewest, Knows};
ghost use Rattle.cb_shared.specs.Fetching.{AreBringing, AreTried, GetsTurns};
ghost use Rattle.cb_shared.specs.Joining.{unpinned_all};
ghost use Rattle.cb_shared.specs.Passes.{IsPassOf, IsPinOf, record_of, stand_of};
ghost use Rattle.cb_shared.specs.Turning.{KnowsOf};
ghost use Rattle.cb_lanes.specs.Passing.{AreHeld, CallGives, PeekGoes, PeeksAll, PinGoes, PinTries};
ghost use Rattle.cb_lanes.specs.Passing.{PinsAtLast, UnpinGoes};
ghost use Rattle.cb_lanes.specs.Stopping.{BringsNot, CallStops, PinStops};

use crate::kept_pins::{KeptPins, MOST_PINS, keep_pin, newest_pin};
use cb_shared::{Pass, Patience, Pin, PinAnswer, Shared};
use cb_types::{Bytes, Handle, Job, NoMemory, Reply, put_word};
use std::alloc::Global;
use std::sync::Wait;

/// A call with a job: a read, a write, a make and a free try again until they are answered, and
/// every other job is one turn. Waits.
pub(crate) fn call<R: Wait>(
    rt: &R,
    alloc: Global,
    shared: &Shared,
    pass: &mut Pass,
    job: &Job,
) -> Result<Reply, NoMemory>
    requires of { IsPassOf shared.now pass.old }
    requires job { IsJob shared.now.config job.now }
    requires alone { NeedsNoOrder job.now }
    requires knows { KnowsOf job.now (record_of pass.old) }
    ensures of { IsPassOf shared.now pass.new }
    ensures pins { (record_of pass.new).pins ≡ (record_of pass.old).pins }
    ensures call { IfOk result (λ reply. CallGives shared.now.config job.now (record_of pass.old)
        reply (record_of pass.new)) }
    ensures error { OnErr result (CallStops shared.now.config job.now (record_of pass.old)
        (record_of pass.new)) }
{
    match job {
        Job::Make { bytes } => shared.make(rt, alloc, pass, bytes.as_slice()),
        Job::Read { handle } => shared.read(rt, alloc, pass, *handle),
        Job::Write { handle, at, bytes } => {
            shared.write(rt, alloc, pass, *handle, *at, bytes.as_slice())
        }
        Job::Free { handle } => shared.free(rt, alloc, pass, *handle),
        _ => shared.turn_within(rt, alloc, pass, job),
    }
}

/// Pins an object that the pass knows: Version with the version that the pin keeps; ScopeFull where
/// the lane has as many pins as it may have; Freed where it was freed. A far object is brought in
/// as `Shared::bring` says: where its row is lost that row is made outside of the far lock. Where
/// it can't be brought in, the answer is why: Unavailable, NoRoom, or Worn by the count of turns.
/// Tries again where the object is being moved or written, has as many pins
/// as its word can count, or another pass came first, and where too few spans were loose but there
/// are so many frames that more may come. Waits.
pub(crate) fn pin<R: Wait>(
    rt: &R,
    alloc: Global,
    shared: &Shared,
    pass: &mut Pass,
    pins: &mut KeptPins,
    h: Handle,
) -> Result<Reply, NoMemory>
    requires of { IsPassOf shared.now pass.old }
    requires knows { Knows h.n (record_of pass.old) }
    requires held { AreHeld pins.old.items (record_of pass.old) }
    ensures of { IsPassOf shared.now pass.new }
    ensures held { AreHeld pins.new.items (record_of pass.new) }
    ensures pin { IfOk result (λ reply. PinGoes shared.now.config h.n (record_of pass.old) reply
        (record_of pass.new)) }
    ensures error { OnErr result (PinStops shared.now.config h.n (record_of pass.old)
        (record_of pass.new)) }
    ensures jobs { GetsTurns (AreBringing h.n) (record_of pass.old) (record_of pass.new) }
{
    if pins.len() == MOST_PINS {
        return Ok(Reply::ScopeFull);
    }
    pin_at_last(rt, alloc, shared, pass, pins, h)
}

/// Tries to pin an object until that is answered.
fn pin_at_last<R: Wait>(
    rt: &R,
    alloc: Global,
    shared: &Shared,
    pass: &mut Pass,
    pins: &mut KeptPins,
    h: Handle,
) -> Result<Reply, NoMemory>
    requires of { IsPassOf shared.now pass.old }
    requires knows { Knows h.n (record_of pass.old) }
    requires held { AreHeld pins.old.items (record_of pass.old) }
    requires room { length (record_of pass.old).pins < 16 }
    ensures of { IsPassOf shared.now pass.new }
    ensures held { AreHeld pins.new.items (record_of pass.new) }
    ensures pin { IfOk result (λ reply. PinsAtLast shared.now.config h.n reply
        (record_of pass.old) (record_of pass.new)) }
    ensures error { OnErr result (PinStops shared.now.config h.n (record_of pass.old)
        (record_of pass.new)) }
    ensures jobs { GetsTurns (AreBringing h.n) (record_of pass.old) (record_of pass.new) }
{
    let mut patience = Patience::new();
    for _ in rt.forever() {
        if let Some(reply) = try_pin(rt, alloc, shared, pass, pins, h, &mut patience)? {
            return Ok(reply);
        }
    }
    unreachable!()
}

/// One pin, or turns that bring the object in; None where none of them answers the line, after a
/// wait where others stand in its way.
fn try_pin<R: Wait>(
    rt: &R,
    alloc: Global,
    shared: &Shared,
    pass: &mut Pass,
    pins: &mut KeptPins,
    h: Handle,
    patience: &mut Patience,
) -> Result<Option<Reply>, NoMemory>
    requires of { IsPassOf shared.now pass.old }
    requires knows { Knows h.n (record_of pass.old) }
    requires held { AreHeld pins.old.items (record_of pass.old) }
    requires room { length (record_of pass.old).pins < 16 }
    ensures of { IsPassOf shared.now pass.new }
    ensures held { AreHeld pins.new.items (record_of pass.new) }
    ensures pin { IfOk result (λ o. PinTries shared.now.config h.n o (record_of pass.old)
        (record_of pass.new)) }
    ensures error { OnErr result (BringsNot shared.now.config h.n (record_of pass.old)
        (record_of pass.new)) }
    ensures jobs { GetsTurns (AreBringing h.n) (record_of pass.old) (record_of pass.new) }
    ensures again { IfOk result (λ o. o ≡ None → GetsTurns (AreTried h.n) (record_of pass.old)
        (record_of pass.new)) }
{
    match shared.pin(pass, h) {
        PinAnswer::Pinned(pin) => {
            let version = pin.version();
            keep_pin(pins, pin);
            Ok(Some(Reply::Version { version }))
        }
        PinAnswer::ScopeFull => unreachable!(),
        PinAnswer::Freed => Ok(Some(Reply::Freed)),
        PinAnswer::NotHere => shared.bring(rt, alloc, pass, h, patience),
        PinAnswer::Moving | PinAnswer::Crowded | PinAnswer::Raced { .. } => {
            shared.wait(rt, patience);
            Ok(None)
        }
    }
}

/// The bytes of an object on which the lane has a pin, word by word; NotPinned where it has none.
/// Running out of memory leaves all as it was.
pub(crate) fn peek(
    alloc: Global,
    shared: &Shared,
    pass: &mut Pass,
    pins: &KeptPins,
    h: Handle,
) -> Result<Reply, NoMemory>
    requires of { IsPassOf shared.now pass.old }
    requires held { AreHeld pins.now.items (record_of pass.old) }
    ensures of { IsPassOf shared.now pass.new }
    ensures held { AreHeld pins.now.items (record_of pass.new) }
    ensures peek { IfOk result (λ reply. PeekGoes h.n (record_of pass.old) reply
        (record_of pass.new)) }
    ensures same { OnErr result (pass.new ≡ pass.old) }
{
    let pins = pins.as_slice();
    match newest_pin(pins, h.n) {
        Some(at) => peek_at(alloc, shared, pass, &pins[at]),
        None => Ok(Reply::NotPinned),
    }
}

/// The bytes of a pinned object, and the version of the pin.
fn peek_at(alloc: Global, shared: &Shared, pass: &mut Pass, pin: &Pin) -> Result<Reply, NoMemory>
    requires of { IsPassOf shared.now pass.old }
    requires pin { IsPinOf pin.now (record_of pass.old) }
    ensures of { IsPassOf shared.now pass.new }
    ensures pins { (record_of pass.new).pins ≡ (record_of pass.old).pins }
    ensures bytes { IfOk result (λ reply. (words : List ℕ)
        → Has (stand_of pin.now words) (record_of pass.old).pins
        → PeeksAll (stand_of pin.now words) reply (record_of pass.old) (record_of pass.new)) }
    ensures above { IfOk result (λ reply. IsNewest pin.now.handle.n pin.now.version
        (record_of pass.old)) }
    ensures same { OnErr result (pass.new ≡ pass.old) }
{
    let len = pin.len() as usize;
    let mut room = Bytes::from(vec![in alloc; 0; len]?);
    let version = shared.version(pass, pin);
    for i in 0..len.div_ceil(8) {
        let word = shared.peek(pass, pin, i as u32);
        put_word(&mut room, i, word);
    }
    Ok(Reply::Bytes {
        version,
        bytes: room,
    })
}

/// Gives the newest pin on an object back: Done, or NotPinned where there is none.
pub(crate) fn unpin(shared: &Shared, pass: &mut Pass, pins: &mut KeptPins, h: Handle) -> Reply
    requires of { IsPassOf shared.now pass.old }
    requires held { AreHeld pins.old.items (record_of pass.old) }
    ensures of { IsPassOf shared.now pass.new }
    ensures held { AreHeld pins.new.items (record_of pass.new) }
    ensures unpin { UnpinGoes h.n (record_of pass.old) result (record_of pass.new) }
{
    match newest_pin(pins.as_slice(), h.n) {
        Some(at) => {
            shared.unpin(pass, pins.remove(at));
            Reply::Done
        }
        None => Reply::NotPinned,
    }
}

/// Gives all pins back, and answers how many there were.
pub(crate) fn leave(shared: &Shared, pass: &mut Pass, pins: &mut KeptPins) -> u32
    requires of { IsPassOf shared.now pass.old }
    requires held { AreHeld pins.old.items (record_of pass.old) }
    ensures of { IsPassOf shared.now pass.new }
    ensures held { AreHeld pins.new.items (record_of pass.new) }
    ensures count { result ≡ length (record_of pass.old).pins }
    ensures left { record_of pass.new ≡ unpinned_all (record_of pass.old) }
{
    let count = pins.len();
    for _ in 0..count {
        shared.unpin(pass, pins.remove(0));
    }
    count as u32
}
