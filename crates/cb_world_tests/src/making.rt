//! Runtimes, and objects that are made.
ghost use Rattle.std.specs.Prelude.{◌≤◌, [], length, IfOk, IfSome, OnOk};
ghost use Rattle.cb_rule.specs.Steps.{Knows};
ghost use Rattle.cb_world_tests.specs.Callers.{IsCaller, TellsMade};

use crate::bodies::{Body, bytes_of, plan_of};
use crate::worlds::SMALL;
use cb_shared::{Pass, Shared};
use cb_types::{Bytes, Handle, Job, NoMemory, Reply};
use std::alloc::Global;
use std::sync::Wait;

/// A runtime in which nothing was made, and its first pass. A make gives the version 1, or the last
/// but one.
pub(crate) fn begun(alloc: Global, is_worn: bool) -> Result<(Shared, Pass), NoMemory>
    ensures caller { IfOk result (λ r. IsCaller r.0 [] r.1) }
{
    let Ok(()) = SMALL.check() else {
        return Err(NoMemory);
    };
    if is_worn {
        Shared::with_first_version(alloc, SMALL, u64::MAX - 1)
    } else {
        Shared::new(alloc, SMALL)
    }
}

/// The handle that was made, where it has this version.
fn made(reply: Result<Reply, NoMemory>, wanted: u64) -> Result<Option<Handle>, NoMemory>
    ensures made { IfOk result (λ found. IfSome found (TellsMade reply)) }
{
    match reply {
        Ok(Reply::Made { handle, version }) if version == wanted => Ok(Some(handle)),
        Ok(_) => Ok(None),
        Err(e) => Err(e),
    }
}

/// How an object is made.
#[derive(Clone, Copy)]
pub(crate) enum Way {
    /// By one turn.
    Turn,
    /// By the call that tries again.
    Call,
}

/// Makes an object of these bytes; None where it was not made at this version.
fn make_one<R: Wait>(
    rt: &R,
    alloc: Global,
    shared: &Shared,
    objects: &[Handle],
    pass: &mut Pass,
    way: Way,
    bytes: &[u8],
    wanted: u64,
) -> Result<Option<Handle>, NoMemory>
    requires caller { IsCaller shared.now objects.now pass.old }
    requires size { (1 ≤ length bytes.now) × (length bytes.now ≤ 1024) }
    ensures caller { IsCaller shared.now objects.now pass.new }
    ensures knows { IfOk result (λ r. IfSome r (λ h. Knows h.n pass.new.seat.me.0)) }
{
    match way {
        Way::Turn => {
            let bytes = Bytes::copy_of(alloc, bytes)?;
            let job = Job::Make { bytes };
            made(shared.turn(rt, alloc, pass, &job), wanted)
        }
        Way::Call => made(shared.make(rt, alloc, pass, bytes), wanted),
    }
}

/// Makes the objects of a test. The answer is whether each was made at its version.
pub(crate) fn make_all<R: Wait>(
    rt: &R,
    alloc: Global,
    shared: &Shared,
    objects: &mut Vec<Handle>,
    pass: &mut Pass,
    body: Body,
) -> Result<bool, NoMemory>
    requires caller { IsCaller shared.now objects.old.items pass.old }
    ensures caller { OnOk result (IsCaller shared.now objects.new.items pass.new) }
{
    let plan = plan_of(body);
    let (way, wanted) = (plan.way, plan.version);
    for i in 0..plan.count {
        let (len, all) = bytes_of(body, i);
        let bytes = &all[..len];
        let known = objects.as_slice();
        let Some(h) = make_one(rt, alloc, shared, known, pass, way, bytes, wanted)? else {
            return Ok(false);
        };
        objects.push(h)?;
    }
    Ok(true)
}
