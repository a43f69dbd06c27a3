//! The request of a drawn line.

ghost use Rattle.std.specs.Prelude.{◌≡◌, ◌<◌, ◌≤◌, ◌^◌, ◌==◌, ◌||◌, nat_lt, length, OnOk, IfOk};
ghost use Rattle.cb_gen.specs.Drawn.{object_name, drawn_make, drawn_write, drawn_object, drawn_seldom, drawn_action};
ghost use Rattle.cb_gen.specs.Draws.{drawn, next_state};

use crate::draws::Draws;
use cb_types::{Name, NoMemory, NodeId, Request};
use std::alloc::Global;

/// An object that a script makes has so many bytes at the most, and a write of it so many.
const LONGEST_OBJECT: u32 = 120;

const LONGEST_WRITE: u32 = 32;

/// The request that a lane's line with this action has. The lane made objects of these lengths.
pub(crate) fn draw_request(
    alloc: Global,
    draws: &mut Draws,
    action: u32,
    lane: u8,
    lengths: &[u8],
) -> Result<Request, NoMemory>
    requires { length lengths.now < 2 ^ 32 }
    ensures request { IfOk result (λ request. request
        ≡ (drawn_action action draws.old.state lane lengths.now).request) }
    ensures left { OnOk result (draws.new.state
        ≡ (drawn_action action draws.old.state lane lengths.now).left) }
{
    let count = lengths.len() as u32;
    if is_make(action, lengths) {
        return draw_make(alloc, draws, lane, count);
    }
    if action < 10 {
        let name = draw_object(alloc, draws, lane, count)?;
        return Ok(Request::Read { name });
    }
    if action < 14 {
        return draw_write(alloc, draws, lane, lengths);
    }
    if action == 14 {
        return Ok(Request::Evict);
    }
    let what = draws.below(6);
    draw_seldom(alloc, draws, what, lane, count)
}

/// Whether a lane's line with this action is a make: a lane that made nothing makes something
/// first.
fn is_make(action: u32, lengths: &[u8]) -> bool
    ensures { result ≡ (nat_lt action 4 || (length lengths.now == 0)) }
{
    action < 4 || lengths.is_empty()
}

/// A make of the lane's next object, after so many.
fn draw_make(alloc: Global, draws: &mut Draws, lane: u8, before: u32) -> Result<Request, NoMemory>
    ensures request { IfOk result (λ request. request
        ≡ (drawn_make draws.old.state lane before).request) }
    ensures left { OnOk result (draws.new.state ≡ (drawn_make draws.old.state lane before).left) }
{
    let count = 1 + draws.below(LONGEST_OBJECT);
    let bytes = draws.bytes(alloc, count)?;
    let name = object_name(alloc, lane, before)?;
    Ok(Request::Make { name, bytes })
}

/// A write within one of the lane's objects, which have these lengths.
fn draw_write(
    alloc: Global,
    draws: &mut Draws,
    lane: u8,
    lengths: &[u8],
) -> Result<Request, NoMemory>
    requires some { 1 ≤ length lengths.now }
    requires few { length lengths.now < 2 ^ 32 }
    ensures request { IfOk result (λ request. request
        ≡ (drawn_write draws.old.state lane lengths.now).request) }
    ensures left { OnOk result (draws.new.state
        ≡ (drawn_write draws.old.state lane lengths.now).left) }
{
    let object = draws.below(lengths.len() as u32);
    let len = u32::from(lengths[object as usize]);
    let at = draws.below(len + 1);
    let count = draws.below((len - at).min(LONGEST_WRITE) + 1);
    let bytes = draws.bytes(alloc, count)?;
    let name = object_name(alloc, lane, object)?;
    Ok(Request::Write { name, at, bytes })
}

/// What is drawn seldom, by its number. The lane made so many objects.
fn draw_seldom(
    alloc: Global,
    draws: &mut Draws,
    what: u32,
    lane: u8,
    count: u32,
) -> Result<Request, NoMemory>
    requires { 1 ≤ count }
    ensures request { IfOk result (λ request. request
        ≡ (drawn_seldom what draws.old.state lane count).request) }
    ensures left { OnOk result (draws.new.state
        ≡ (drawn_seldom what draws.old.state lane count).left) }
{
    if what == 0 {
        let name = draw_object(alloc, draws, lane, count)?;
        return Ok(Request::Free { name });
    }
    if what == 1 {
        let name = draw_object(alloc, draws, lane, count)?;
        return Ok(Request::Filter { name });
    }
    if what == 2 {
        let node = draw_node(draws);
        return Ok(Request::Crash { node });
    }
    if what == 3 {
        let node = draw_node(draws);
        return Ok(Request::Join { node });
    }
    if what == 4 {
        return Ok(Request::Rebuild);
    }
    Ok(Request::Compact)
}

/// One of the two nodes that crash and join.
fn draw_node(draws: &mut Draws) -> NodeId
    ensures node { result.n ≡ drawn draws.old.state 0 2 }
    ensures left { draws.new.state ≡ next_state draws.old.state }
{
    NodeId {
        n: draws.below(2) as u8,
    }
}

/// The name of one of the lane's objects, of so many.
fn draw_object(alloc: Global, draws: &mut Draws, lane: u8, count: u32) -> Result<Name, NoMemory>
    requires { 1 ≤ count }
    ensures name { IfOk result (λ name. name ≡ drawn_object draws.old.state 0 lane count) }
    ensures left { draws.new.state ≡ next_state draws.old.state }
{
    let object = draws.below(count);
    object_name(alloc, lane, object)
}

/// The name of the object that a lane makes after so many others.
fn object_name(alloc: Global, lane: u8, before: u32) -> Result<Name, NoMemory>
    ensures { IfOk result (λ name. name ≡ object_name lane before) }
{
    let text = format!(in alloc; "l{lane}n{before}")?;
    Ok(Name::from(text.into_bytes()))
}
