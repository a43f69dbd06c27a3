//! The first set that lost a row and can be mended.

ghost use Rattle.std.specs.Prelude.{◌≡◌, ◌≢◌, ◌+◌, ◌^◌, ◌<◌, ◌≤◌, true, false, Some, length};
ghost use Rattle.cb_set.specs.SetState.{SetState};
ghost use Rattle.cb_set.specs.Lost.{NodesAreMembers};
ghost use Rattle.cb_world.specs.declared.shown.Shown.{Shown};
ghost use Rattle.cb_world.specs.Sets.{if_committed};
ghost use Rattle.cb_world.specs.FarSound.{AwaySound};
ghost use Rattle.cb_world.specs.Surveyed.{IsSurvey};
ghost use Rattle.cb_rebuild.specs.declared.finding.Health.TheVariants as Health;
ghost use Rattle.cb_rebuild.specs.Finding.{FindsWeak, HasHealth, HealthAt, gone_number, with_found};

use cb_member::Members;
use cb_set::SpanSet;
use cb_world::{Far, KeptSet, Survey};

/// How a set stands: it has lost nothing, or what can be made again, or more than that.
#[derive(Clone, Copy)]
pub(crate) enum Health {
    Whole,
    Weak,
    Gone,
}

/// What the walk over the sets found.
#[derive(Clone, Copy)]
pub(crate) enum Found {
    /// The first set that is weak; so many before it are gone.
    Weak { id: u64, gone: u32 },
    /// No set is weak; so many are gone.
    Whole { gone: u32 },
}

/// How a set stands. Looks at each of its shards once.
fn health_of(set: &SpanSet, members: &Members) -> Health
    requires nodes { NodesAreMembers members.now set.now.shards }
    ensures { HasHealth members.now set.now result }
{
    let lost = set.lost_count(members);
    if lost == 0 {
        return Health::Whole;
    }
    if lost <= set.r() {
        return Health::Weak;
    }
    Health::Gone
}

/// How a kept set stands. Of one that is not committed nothing is lost.
fn kept_health(far: &Far, kept: &KeptSet) -> Health
    requires nodes { (set : SetState) → if_committed (Some kept.now) ≡ Some set
        → NodesAreMembers far.now.members set.shards }
    ensures { HealthAt far.now.members (if_committed (Some kept.now)) result }
{
    if kept.committed {
        return health_of(&kept.set, &far.members);
    }
    Health::Whole
}

/// Whether the number is one that was drawn for a set.
fn is_drawn(far: &Far, id: u64) -> bool
    ensures drawn { result ≡ true → id < far.now.counts.sets }
    ensures other { result ≡ false → far.now.counts.sets ≤ id }
{
    id < far.counts.sets
}

/// 1 for a set that is gone.
fn gone_number(health: Health) -> u32
    ensures { result ≡ gone_number health }
{
    match health {
        Health::Gone => 1,
        _ => 0,
    }
}

/// Whether the set is weak.
fn is_weak(health: Health) -> bool
    ensures weak { result ≡ true → health ≡ Health.Weak }
    ensures other { result ≡ false → health ≢ Health.Weak }
{
    match health {
        Health::Weak => true,
        _ => false,
    }
}

/// The first set that is weak, by number, and how many before it are gone; where none is weak, how
/// many are gone. Goes on from the survey, in one pass over the sets from there up to that one, and
/// looks at each of their shards once. Takes no memory.
pub(crate) fn find_weak(far: &Far) -> Found
    requires sound { (s : Shown) × AwaySound s far.now }
    requires survey { IsSurvey far.now far.now.survey }
    requires homes { length far.now.homes < 2 ^ 32 }
    ensures { FindsWeak far.now result }
{
    let mut gone = far.survey.gone;
    let mut sets = far.sets.range_from(far.survey.below);
    while let Some((id, kept)) = sets.next() {
        if !is_drawn(far, *id) {
            return Found::Whole { gone };
        }
        let health = kept_health(far, kept);
        if is_weak(health) {
            return Found::Weak { id: *id, gone };
        }
        gone += gone_number(health);
    }
    Found::Whole { gone }
}

/// Keeps what was found: the sets before the weak one were looked at, or all where none is weak.
pub(crate) fn keep_found(far: &mut Far, found: Found)
    ensures { far.new ≡ with_found far.old found }
{
    let drawn = far.counts.sets;
    far.survey = match found {
        Found::Weak { id, gone } => Survey {
            below: id,
            gone,
            no_pair: None,
        },
        Found::Whole { gone } => Survey {
            below: drawn,
            gone,
            no_pair: None,
        },
    };
}
