//! Orders that a pass runs between two turns, while a second pass makes turns.
ghost use Rattle.std.specs.Prelude.{◌≡◌, ℕ, Some, Ok, IfOk, IfSome};
ghost use Rattle.cb_types.specs.declared.order.Kept.TheVariants.{Encode, Decode};
ghost use Rattle.cb_types.specs.declared.reply.Reply.TheVariants as answer;
ghost use Rattle.cb_types.specs.Orders.{IsDecodable, IsEncodable};
ghost use Rattle.cb_evict.specs.declared.gathering.Gathered.TheVariants as gathered;
ghost use Rattle.cb_swapin.specs.declared.fetching.Fetching.TheVariants as fetching;
ghost use Rattle.cb_shared.specs.Passes.{record_of};
ghost use Rattle.cb_world_tests.specs.Callers.{IsCaller, IsKnownAmong};

use crate::asking::{Between, Made};
use crate::called::turn_on;
use crate::told::{Plain, Told, told_by, told_of};
use cb_core::{Fetching, Gathered};
use cb_orders::{DecodeDone, EncodeDone, run_decode, run_encode};
use cb_shared::{Pass, Shared};
use cb_types::{DecodeOrder, EncodeOrder, Handle, NoMemory, Reply};
use std::alloc::Global;
use std::sync::Wait;

/// Whether a turn of the second pass told what it was to; none is to tell nothing.
fn is_made<R: Wait>(
    rt: &R,
    alloc: Global,
    shared: &Shared,
    objects: &[Handle],
    second: &mut Pass,
    made: Option<Made>,
) -> Result<bool, NoMemory>
    requires caller { IsCaller shared.now objects.now second.old }
    ensures caller { IsCaller shared.now objects.now second.new }
{
    match made {
        Some((i, deed, wanted)) if i < objects.len() => {
            let told = turn_on(rt, alloc, shared, objects, second, objects[i], deed)?;
            Ok(told == wanted)
        }
        Some(_) => Ok(false),
        None => Ok(true),
    }
}

/// Whether all its turns did.
fn are_made<R: Wait>(
    rt: &R,
    alloc: Global,
    shared: &Shared,
    objects: &[Handle],
    second: &mut Pass,
    between: Between,
) -> Result<bool, NoMemory>
    requires caller { IsCaller shared.now objects.now second.old }
    ensures caller { IsCaller shared.now objects.now second.new }
{
    let is_early = is_made(rt, alloc, shared, objects, second, between.0)?;
    let is_late = is_made(rt, alloc, shared, objects, second, between.1)?;
    Ok(is_early && is_late)
}

/// The order that a gather handed out.
fn encode_in(answer: Result<Gathered, NoMemory>) -> Result<Option<EncodeOrder>, NoMemory>
    ensures { IfOk result (λ found. IfSome found (λ o. answer ≡ Ok (gathered.Order o))) }
{
    match answer {
        Ok(Gathered::Order(order)) => Ok(Some(order)),
        Ok(Gathered::Answer(_)) => Ok(None),
        Err(e) => Err(e),
    }
}

/// The order of a batch that begins; None where none does.
fn gathered<R: Wait>(
    rt: &R,
    alloc: Global,
    shared: &Shared,
    objects: &[Handle],
    pass: &mut Pass,
) -> Result<Option<EncodeOrder>, NoMemory>
    requires caller { IsCaller shared.now objects.now pass.old }
    ensures caller { IsCaller shared.now objects.now pass.new }
    ensures kept { IfOk result (λ found. IfSome found (λ o. IsEncodable o
        × ((record_of pass.new).order ≡ Some (Encode o)))) }
{
    let answer = shared.gather(rt, alloc, pass);
    encode_in(answer)
}

/// Installs the parities of an order that was run. Where that is refused, the pass still keeps the
/// order.
fn install_run<R: Wait>(
    rt: &R,
    shared: &Shared,
    objects: &[Handle],
    pass: &mut Pass,
    done: EncodeDone,
) -> Reply
    requires caller { IsCaller shared.now objects.now pass.old }
    requires kept { (record_of pass.old).order ≡ Some (Encode done.order) }
    ensures caller { IsCaller shared.now objects.now pass.new }
    ensures still { (result ≡ answer.Done → ⊥)
        → (record_of pass.new).order ≡ Some (Encode done.order) }
{
    shared.install(rt, pass, done)
}

/// A batch begins, its order is run, the second pass makes turns, and the parities are installed:
/// what the install tells.
pub(crate) fn installed<R: Wait>(
    rt: &R,
    alloc: Global,
    shared: &Shared,
    objects: &[Handle],
    first: &mut Pass,
    second: &mut Pass,
    between: Between,
) -> Result<Told, NoMemory>
    requires caller { IsCaller shared.now objects.now first.old }
    requires second { IsCaller shared.now objects.now second.old }
    ensures caller { IsCaller shared.now objects.now first.new }
    ensures second { IsCaller shared.now objects.now second.new }
{
    let Some(order) = gathered(rt, alloc, shared, objects, first)? else {
        return Ok(Told::Just(Plain::Other));
    };
    let Ok(done) = run_encode(alloc, order) else {
        return Err(NoMemory);
    };
    if !are_made(rt, alloc, shared, objects, second, between)? {
        return Ok(Told::Just(Plain::Other));
    }
    let reply = install_run(rt, shared, objects, first, done);
    Ok(told_of(&reply))
}

/// The order that a fetch handed out.
fn decode_in(answer: Result<Fetching, NoMemory>) -> Result<Option<DecodeOrder>, NoMemory>
    ensures { IfOk result (λ found. IfSome found (λ o. answer ≡ Ok (fetching.Order o))) }
{
    match answer {
        Ok(Fetching::Order(order)) => Ok(Some(order)),
        Ok(Fetching::Answer(_)) => Ok(None),
        Err(e) => Err(e),
    }
}

/// The order to make the row of a far object again; None where there is none.
fn fetched<R: Wait>(
    rt: &R,
    alloc: Global,
    shared: &Shared,
    objects: &[Handle],
    pass: &mut Pass,
    h: Handle,
) -> Result<Option<DecodeOrder>, NoMemory>
    requires caller { IsCaller shared.now objects.now pass.old }
    requires among { IsKnownAmong h objects.now }
    ensures caller { IsCaller shared.now objects.now pass.new }
    ensures kept { IfOk result (λ found. IfSome found (λ o. IsDecodable o
        × ((record_of pass.new).order ≡ Some (Decode o)))) }
{
    let answer = shared.fetch(rt, alloc, pass, h);
    decode_in(answer)
}

/// A fetch of an object, whose order is left.
pub(crate) fn fetch_alone<R: Wait>(
    rt: &R,
    alloc: Global,
    shared: &Shared,
    objects: &[Handle],
    pass: &mut Pass,
    h: Handle,
) -> Result<Told, NoMemory>
    requires caller { IsCaller shared.now objects.now pass.old }
    requires among { IsKnownAmong h objects.now }
    ensures caller { IsCaller shared.now objects.now pass.new }
{
    match fetched(rt, alloc, shared, objects, pass, h)? {
        Some(_) => Ok(Told::Just(Plain::Fetched)),
        None => Ok(Told::Just(Plain::Other)),
    }
}

/// Lands the row of an order that was run. Where that is refused, the pass still keeps the order.
fn land_run<R: Wait>(
    rt: &R,
    alloc: Global,
    shared: &Shared,
    objects: &[Handle],
    pass: &mut Pass,
    done: DecodeDone,
) -> Result<Reply, NoMemory>
    requires caller { IsCaller shared.now objects.now pass.old }
    requires kept { (record_of pass.old).order ≡ Some (Decode done.order) }
    ensures caller { IsCaller shared.now objects.now pass.new }
    ensures still { IfOk result (λ reply. ((frame : ℕ) → reply ≡ answer.Swapped frame → ⊥)
        → (record_of pass.new).order ≡ Some (Decode done.order)) }
{
    shared.land(rt, alloc, pass, done)
}

/// The rows of an object are handed out in an order, it is run, the second pass makes turns, and the
/// row is landed: what the landing tells.
pub(crate) fn landed<R: Wait>(
    rt: &R,
    alloc: Global,
    shared: &Shared,
    objects: &[Handle],
    first: &mut Pass,
    second: &mut Pass,
    h: Handle,
    between: Between,
) -> Result<Told, NoMemory>
    requires caller { IsCaller shared.now objects.now first.old }
    requires second { IsCaller shared.now objects.now second.old }
    requires among { IsKnownAmong h objects.now }
    ensures caller { IsCaller shared.now objects.now first.new }
    ensures second { IsCaller shared.now objects.now second.new }
{
    let Some(order) = fetched(rt, alloc, shared, objects, first, h)? else {
        return Ok(Told::Just(Plain::Other));
    };
    let Ok(done) = run_decode(alloc, order) else {
        return Err(NoMemory);
    };
    if !are_made(rt, alloc, shared, objects, second, between)? {
        return Ok(Told::Just(Plain::Other));
    }
    told_by(land_run(rt, alloc, shared, objects, first, done))
}
