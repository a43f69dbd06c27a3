//! Runtimes, and objects that are made in them.
ghost use Rattle.std.specs.Prelude.{◌≤◌, length, IfOk, IfSome};
ghost use Rattle.cb_shared.specs.Passes.{IsPassOf};
ghost use Rattle.cb_shared_bench.specs.Callers.{IsCaller, IsToldMade};

use crate::deeds::Deed;
use cb_shared::{Pass, Shared};
use cb_types::{Config, Handle, NoMemory, Reply};
use std::alloc::Global;
use std::sync::Wait;

/// One data position, so that one span leaves alone. Rounds are made with more.
pub(crate) const CONFIG: Config = Config {
    k: 1,
    r: 1,
    nodes: 4,
    frames: 64,
    room: 64,
    handles: 1024,
    turns: 0,
};

/// The bytes of each object.
pub(crate) const BYTES: usize = 1024;

/// The words of each object.
pub(crate) const WORDS: u32 = 128;

/// How many objects a span has.
pub(crate) const SLOTS: u32 = 4;

/// How many objects are made before the one that is used, so that the words of those of different
/// threads stand on different cache lines.
const APART: u32 = 31;

/// The settings with so many data positions: with as many parities, at most four, and as many nodes
/// as a set has positions, so that each node that crashes has a shard of it.
fn config_of(k: u32) -> Config {
    let r = k.min(4);
    Config {
        k,
        r,
        nodes: k.saturating_add(r).max(CONFIG.nodes),
        frames: CONFIG.frames,
        room: CONFIG.room,
        handles: CONFIG.handles,
        turns: CONFIG.turns,
    }
}

/// A runtime with so many data positions in which nothing was made, and its first pass.
pub(crate) fn begun(alloc: Global, k: u32) -> Result<(Shared, Pass), NoMemory>
    ensures of { IfOk result (λ r. IsPassOf r.0 r.1) }
{
    let config = config_of(k);
    let Ok(()) = config.check() else {
        return Err(NoMemory);
    };
    Shared::new(alloc, config)
}

/// The handle that a reply tells of as made.
fn made_in(reply: &Result<Reply, NoMemory>) -> Option<Handle>
    ensures { IfSome result (IsToldMade reply.now) }
{
    match reply {
        Ok(Reply::Made { handle, .. }) => Some(*handle),
        _ => None,
    }
}

/// Makes an object of these bytes.
fn make<R: Wait>(
    rt: &R,
    alloc: Global,
    shared: &Shared,
    pass: &mut Pass,
    bytes: &[u8],
) -> Option<Handle>
    requires of { IsPassOf shared.now pass.old }
    requires size { (1 ≤ length bytes.now) × (length bytes.now ≤ 1024) }
    ensures of { IsPassOf shared.now pass.new }
    ensures caller { IfSome result (λ h. IsCaller shared.now h pass.new) }
{
    let reply = shared.make(rt, alloc, pass, bytes);
    made_in(&reply)
}

/// How many objects are made before the one that is used. One that is to leave is the only one; for
/// rounds there are as many as k spans have.
fn apart_of(deed: Deed, k: u32) -> u32 {
    match deed {
        Deed::ReadFar | Deed::Await => 0,
        Deed::Alone(_) | Deed::Beside(_) => k.saturating_mul(SLOTS).saturating_sub(1),
        _ => APART,
    }
}

/// Makes an object for a thread, after others.
pub(crate) fn object<R: Wait>(
    rt: &R,
    alloc: Global,
    shared: &Shared,
    pass: &mut Pass,
    deed: Deed,
) -> Option<Handle>
    requires of { IsPassOf shared.now pass.old }
    ensures of { IsPassOf shared.now pass.new }
    ensures caller { IfSome result (λ h. IsCaller shared.now h pass.new) }
{
    let bytes = [1u8; BYTES];
    for _ in 0..apart_of(deed, shared.config().k) {
        make(rt, alloc, shared, pass, &bytes)?;
    }
    make(rt, alloc, shared, pass, &bytes)
}
