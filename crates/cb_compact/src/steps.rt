//! Which positions of a pair have a step, and which are done.

ghost use Rattle.std.specs.Prelude.{◌≡◌, ◌<◌, ◌≤◌, IfNone, IfSome, Some, length};
ghost use Rattle.cb_member.specs.declared.names.Shard.{Shard};
ghost use Rattle.cb_world.specs.JoinSteps.{with_step};
ghost use Rattle.cb_world.specs.Merged.{takes};
ghost use Rattle.cb_compact.specs.PatchStep.{AreDone, IsNext, has_step, is_undone, undone};

use cb_member::Shard;
use cb_set::MOST_POSITIONS;
use cb_types::Positions;
use cb_world::Joining;

/// Whether the position is one of those that are taken.
fn takes(taken: &[u32], position: u32) -> bool
    ensures { result ≡ takes taken.now position }
{
    for other in taken {
        if *other == position {
            return true;
        }
    }
    false
}

/// Whether the position has a step, of a pair with `k` data positions.
fn has_step(pair: &Joining, k: u32, position: u32) -> bool
    ensures { result ≡ has_step pair.now k position }
{
    if position < k {
        return takes(&pair.taken, position);
    }
    true
}

/// Whether the position's step is still to be done.
pub(crate) fn is_undone(pair: &Joining, k: u32, position: u32) -> bool
    requires { position < length pair.now.steps }
    ensures { result ≡ is_undone pair.now k position }
{
    has_step(pair, k, position) && pair.steps[position as usize].is_none()
}

/// The least position whose step is not done, of a pair with `k` data positions; None where all
/// are.
pub(crate) fn next_step(pair: &Joining, k: u32) -> Option<u32>
    requires { length pair.now.steps ≤ 20 }
    ensures next { IfSome result (IsNext pair.now k) }
    ensures none { IfNone result (AreDone pair.now k) }
{
    for position in 0..pair.steps.len() as u32 {
        if is_undone(pair, k, position) {
            return Some(position);
        }
    }
    None
}

/// The positions whose steps are not done, in order. Takes no memory.
pub(crate) fn undone_steps(pair: &Joining, k: u32) -> Positions
    requires { length pair.now.steps ≤ 20 }
    ensures { result ≡ undone pair.now k }
{
    let mut found = [0; MOST_POSITIONS];
    let mut count = 0;
    for position in 0..pair.steps.len() as u32 {
        if is_undone(pair, k, position) {
            found[count] = position as u8;
            count += 1;
        }
    }
    Positions::copy_of(&found[..count])
}

/// Notes the shard of a step that was done.
pub(crate) fn set_step(pair: &mut Joining, position: u32, shard: Shard)
    requires { position < length pair.old.steps }
    ensures { pair.new ≡ with_step pair.old position shard }
{
    pair.steps[position as usize] = Some(shard);
}
