//! The calls of a pass that knows objects.
ghost use Rattle.std.specs.Prelude.{◌≡◌, ◌<◌, IfSome};
ghost use Rattle.cb_core.specs.Jobs.{IsJob, NeedsNoOrder};
ghost use Rattle.cb_rule.specs.declared.view.View.{View};
ghost use Rattle.cb_rule.specs.Steps.{Knows};
ghost use Rattle.cb_shared.specs.Turning.{KnowsOf};
ghost use Rattle.cb_world_tests.specs.Callers.{IsCaller, IsKnownAmong};

use crate::asking::{Asks, By, Call, Deed};
use crate::coding::{fetch_alone, installed, landed};
use crate::pinned::{look, words_under};
use crate::told::{Plain, Told, told_by, told_of_write, told_while};
use cb_member::NodeId;
use cb_shared::{Pass, PinAnswer, Shared};
use cb_types::{Config, Handle, Job, NoMemory};
use std::alloc::Global;
use std::mem;
use std::sync::Wait;

/// The job that does it to an object; None for a node that there is not.
fn job_of(config: Config, h: Handle, deed: Deed) -> Option<Job>
    requires { h.n < config.handles }
    ensures job { IfSome result (λ job. IsJob config job) }
    ensures alone { IfSome result (λ job. NeedsNoOrder job) }
    ensures object { IfSome result (λ job. (v : View) → Knows h.n v → KnowsOf job v) }
{
    match deed {
        Deed::Read => Some(Job::Read { handle: h }),
        Deed::Free => Some(Job::Free { handle: h }),
        Deed::Filter => Some(Job::Filter { handle: h }),
        Deed::Evict => Some(Job::Evict),
        Deed::Begin => Some(Job::Begin),
        Deed::Ship => Some(Job::Ship),
        Deed::Commit => Some(Job::Commit),
        Deed::Abort => Some(Job::Abort),
        Deed::Rebuild => Some(Job::Rebuild),
        Deed::Crash(node) if u32::from(node) < config.nodes => Some(Job::Crash {
            node: NodeId { n: node },
        }),
        Deed::Join(node) if u32::from(node) < config.nodes => Some(Job::Join {
            node: NodeId { n: node },
        }),
        _ => None,
    }
}

/// A turn that does this to an object.
pub(crate) fn turn_on<R: Wait>(
    rt: &R,
    alloc: Global,
    shared: &Shared,
    objects: &[Handle],
    pass: &mut Pass,
    h: Handle,
    deed: Deed,
) -> Result<Told, NoMemory>
    requires caller { IsCaller shared.now objects.now pass.old }
    requires among { IsKnownAmong h objects.now }
    ensures caller { IsCaller shared.now objects.now pass.new }
{
    match job_of(shared.config(), h, deed) {
        Some(job) => told_by(shared.turn(rt, alloc, pass, &job)),
        None => Ok(Told::Just(Plain::Other)),
    }
}

/// Splits a pass off with the share 1, and leaves it out.
fn leave(shared: &Shared, objects: &[Handle], pass: &mut Pass) -> Told
    requires caller { IsCaller shared.now objects.now pass.old }
    ensures caller { IsCaller shared.now objects.now pass.new }
{
    if pass.share() <= 1 {
        return Told::Just(Plain::Other);
    }
    mem::forget(shared.split(pass, 1));
    Told::Just(Plain::Left)
}

/// A call on an object; a write is from the first byte on.
fn called<R: Wait>(
    rt: &R,
    alloc: Global,
    shared: &Shared,
    objects: &[Handle],
    pass: &mut Pass,
    h: Handle,
    call: Call,
    bytes: &[u8],
) -> Result<Told, NoMemory>
    requires caller { IsCaller shared.now objects.now pass.old }
    requires among { IsKnownAmong h objects.now }
    ensures caller { IsCaller shared.now objects.now pass.new }
{
    match call {
        Call::Hold => Ok(look(shared, objects, pass, h, true)),
        Call::Look => Ok(look(shared, objects, pass, h, false)),
        Call::WriteHere => Ok(told_of_write(shared.write_here(pass, h, 0, bytes))),
        Call::Read => told_by(shared.read(rt, alloc, pass, h)),
        Call::Write => told_by(shared.write(rt, alloc, pass, h, 0, bytes)),
        Call::Free => told_by(shared.free(rt, alloc, pass, h)),
        Call::Turn(deed) => turn_on(rt, alloc, shared, objects, pass, h, deed),
        Call::Fetch => fetch_alone(rt, alloc, shared, objects, pass, h),
        Call::Leave => Ok(leave(shared, objects, pass)),
        Call::Install | Call::Land => Ok(Told::Just(Plain::Other)),
    }
}

/// A call by the second pass, or by the first one, while the second one has the object pinned or
/// between the turns of an order: the words under the pin stay as they are.
fn second_called<R: Wait>(
    rt: &R,
    alloc: Global,
    shared: &Shared,
    objects: &[Handle],
    first: &mut Pass,
    second: &mut Pass,
    h: Handle,
    by: By,
    call: Call,
    bytes: &[u8],
) -> Result<Told, NoMemory>
    requires caller { IsCaller shared.now objects.now first.old }
    requires second { IsCaller shared.now objects.now second.old }
    requires among { IsKnownAmong h objects.now }
    ensures caller { IsCaller shared.now objects.now first.new }
    ensures second { IsCaller shared.now objects.now second.new }
{
    match by {
        By::Beside => called_beside(rt, alloc, shared, objects, first, second, h, call, bytes),
        By::Between(between) => match call {
            Call::Install => installed(rt, alloc, shared, objects, first, second, between),
            Call::Land => landed(rt, alloc, shared, objects, first, second, h, between),
            _ => Ok(Told::Just(Plain::Other)),
        },
        _ => called(rt, alloc, shared, objects, second, h, call, bytes),
    }
}

/// A call by the first pass, while the second one has the object pinned.
fn called_beside<R: Wait>(
    rt: &R,
    alloc: Global,
    shared: &Shared,
    objects: &[Handle],
    first: &mut Pass,
    second: &mut Pass,
    h: Handle,
    call: Call,
    bytes: &[u8],
) -> Result<Told, NoMemory>
    requires caller { IsCaller shared.now objects.now first.old }
    requires second { IsCaller shared.now objects.now second.old }
    requires among { IsKnownAmong h objects.now }
    ensures caller { IsCaller shared.now objects.now first.new }
    ensures second { IsCaller shared.now objects.now second.new }
{
    match shared.pin(second, h) {
        PinAnswer::Pinned(pin) => {
            let before = words_under(shared, objects, second, &pin);
            let told = called(rt, alloc, shared, objects, first, h, call, bytes);
            let behind = words_under(shared, objects, second, &pin);
            shared.unpin(second, pin);
            told_while(before, told, behind)
        }
        _ => Ok(Told::Just(Plain::Other)),
    }
}

/// A call by a second pass, or beside its pin.
fn called_by_two<R: Wait>(
    rt: &R,
    alloc: Global,
    shared: &Shared,
    objects: &[Handle],
    first: &mut Pass,
    h: Handle,
    by: By,
    call: Call,
    bytes: &[u8],
) -> Result<Told, NoMemory>
    requires caller { IsCaller shared.now objects.now first.old }
    requires among { IsKnownAmong h objects.now }
    ensures caller { IsCaller shared.now objects.now first.new }
{
    let whole = first.share();
    if whole <= 1 {
        return Ok(Told::Just(Plain::Other));
    }
    let mut second = shared.split(first, 1);
    let is_apart = first.share() + 1 == whole && second.share() == 1;
    let told = second_called(
        rt,
        alloc,
        shared,
        objects,
        first,
        &mut second,
        h,
        by,
        call,
        bytes,
    );
    shared.join_pass(first, second);
    if is_apart && first.share() == whole {
        told
    } else {
        Ok(Told::Just(Plain::Other))
    }
}

/// A pass with all that its calls take.
pub(crate) struct Caller<'a, R: Wait> {
    pub(crate) rt: &'a R,
    pub(crate) alloc: Global,
    pub(crate) shared: &'a Shared,
    pub(crate) objects: &'a [Handle],
    pub(crate) pass: &'a mut Pass,
}

impl<'a, R: Wait> Asks for Caller<'a, R> {
    ghost use Rattle.std.proofs.Common.{refl, sym, ◌∙◌};
    ghost use Rattle.cb_world_tests.specs.Callers.{caller_at};

    ghost keeps = { λ a b. IsCaller a.shared.now a.objects.now b.pass.now
        × (b.shared.now ≡ a.shared.now) × (b.objects.now ≡ a.objects.now)
        × (b.pass.ghost_name ≡ a.pass.ghost_name) };

    fn ask(&mut self, i: usize, by: By, call: Call, bytes: &[u8]) -> Result<Told, NoMemory> {
        let (rt, alloc, shared, objects) = (self.rt, self.alloc, self.shared, self.objects);
        if i >= objects.len() {
            return Ok(Told::Just(Plain::Other));
        }
        let h = objects[i];
        match by {
            By::Itself => called(rt, alloc, shared, objects, self.pass, h, call, bytes),
            _ => called_by_two(rt, alloc, shared, objects, self.pass, h, by, call, bytes),
        }
    }

    ghost again = { λ a b k. (
      caller_at a.shared.now b.shared.now a.objects.now b.objects.now b.pass.now (sym k.1)
          (sym k.2) k.0,
      refl,
      refl,
      refl,
    ) };

    ghost more = { λ a b c j k. (
      caller_at b.shared.now a.shared.now b.objects.now a.objects.now c.pass.now j.1 j.2 k.0,
      k.1 ∙ j.1,
      k.2 ∙ j.2,
      k.3 ∙ j.3,
    ) };
}
