//! Which set is scrubbed next.

ghost use Rattle.std.specs.Prelude.{ℕ, ◌+◌, ◌^◌, ◌<◌, ◌≤◌, IfNone, IfSome, None};
ghost use Rattle.cb_scrub_world.specs.Next.{Above, IsNextSet, AreNone};

use cb_types::SetId;
use cb_world::Far;

/// The least number above a set's, or of all; None where none is above.
fn least_above(after: Option<SetId>) -> Option<u64>
    ensures some { IfSome result (λ from. (j : ℕ) →
        (Above after j → from ≤ j) × (from ≤ j → Above after j)) }
    ensures none { IfNone result ((j : ℕ) → Above after j → 2 ^ 64 ≤ j) }
{
    match after {
        Some(set) => set.n.checked_add(1),
        None => Some(0),
    }
}

/// The least number of a committed set above this one's, or of all.
pub(crate) fn next_committed(far: &Far, after: Option<SetId>) -> Option<u64>
    ensures next { IfSome result (IsNextSet after far.now.sets) }
    ensures none { IfNone result (AreNone after far.now.sets) }
{
    let mut from = least_above(after)?;
    while let Some(id) = far.sets.next(from) {
        if far.sets.committed(id).is_some() {
            return Some(id);
        }
        if id == u64::MAX {
            return None;
        }
        from = id + 1;
    }
    None
}
