//! How the joining pair stands now.

ghost use Rattle.std.specs.Prelude.{◌≡◌, ◌≢◌, ◌↔◌, IsTrue, false, true};
ghost use Rattle.cb_set.specs.SetState.{SetState};
ghost use Rattle.cb_world.specs.declared.shown.Shown.{Shown};
ghost use Rattle.cb_world.specs.FarSound.{AwaySound};
ghost use Rattle.cb_compact.specs.Looking.{Looks};
ghost use Rattle.cb_compact.specs.PartStep.{HasChanged, SetStands};

use cb_member::Shard;
use cb_world::Far;

/// How the joining pair stands.
#[derive(Clone, Copy)]
pub(crate) enum PairStanding {
    /// No pair is joining.
    NoPair,
    /// The set of this number, of the pair, has changed since the begin.
    Changed { id: u64 },
    /// Both sets stand as they did at the begin.
    Fresh,
}

/// Whether both name the same row.
fn is_same(a: Shard, b: Shard) -> bool
    ensures { IsTrue result ↔ (a ≡ b) }
{
    a.node.n == b.node.n && a.incarnation == b.incarnation && a.key == b.key
}

/// Whether both are lists of the same shards.
fn are_same(a: &[Shard], b: &[Shard]) -> bool
    ensures same { result ≡ true → a.now ≡ b.now }
    ensures other { result ≡ false → a.now ≢ b.now }
{
    if a.len() != b.len() {
        return false;
    }
    for (i, shard) in a.iter().enumerate() {
        if !is_same(*shard, b[i]) {
            return false;
        }
    }
    true
}

/// Whether the committed set of a number is whole and has these shards.
fn stands(far: &Far, id: u64, shards: &[Shard]) -> bool
    requires sound { (s : Shown) × AwaySound s far.now }
    ensures stands { result ≡ true → (set : SetState) × SetStands far.now id shards.now set }
    ensures changed { result ≡ false → HasChanged far.now id shards.now }
{
    match far.sets.committed(id) {
        Some(set) => are_same(set.shards(), shards) && set.whole(&far.members),
        None => false,
    }
}

/// How the joining pair stands: where a set of it has changed since the begin, the first one that
/// has. Looks at the shards of both sets.
pub(crate) fn how_it_stands(far: &Far) -> PairStanding
    requires sound { (s : Shown) × AwaySound s far.now }
    ensures { Looks far.now result }
{
    let Some(pair) = &far.joining else {
        return PairStanding::NoPair;
    };
    if !stands(far, pair.a, &pair.shards_a) {
        return PairStanding::Changed { id: pair.a };
    }
    if !stands(far, pair.b, &pair.shards_b) {
        return PairStanding::Changed { id: pair.b };
    }
    PairStanding::Fresh
}
