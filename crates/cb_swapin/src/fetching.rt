//! The rows of a far object's set are handed out.

ghost use Rattle.std.specs.Prelude.{◌≡◌, true, false, ◌+◌, ◌^◌, ◌<◌, None, Some, IfOk, OnErr};
ghost use Rattle.cb_set.specs.SetState.{SetState, live_at};
ghost use Rattle.cb_set.specs.Lost.{lost_at};
ghost use Rattle.cb_world.specs.declared.shown.Shown.{Shown};
ghost use Rattle.cb_world.specs.FarSound.{AwaySound};
ghost use Rattle.cb_world.specs.Orders.{KeepsOrder};
ghost use Rattle.cb_world.specs.Sets.{set_in};
ghost use Rattle.cb_world.specs.SetWord.{is_broken};
ghost use Rattle.cb_world.specs.Sound.{Sound};
ghost use Rattle.cb_swapin.specs.FetchStep.{FetchStep, IsOrderFetched, fetching_order};

use crate::swapping::losses;
use cb_types::{DecodeOrder, NoMemory, Reply, SetId};
use cb_world::{Far, GivenRows, fetched};

/// What a fetch hands out: an order to make a row, or the answer why there is none.
#[derive(Drop)]
pub enum Fetching {
    Order(DecodeOrder),
    Answer(Reply),
}

/// Gives the rows out of which the row of a live position of a committed set can be made: an order,
/// with the rows at the set's k least positions whose shards are not lost. Each of these k rows was
/// given out, and nothing else has changed. Takes all memory before a row is given out, so that
/// running out of memory changes nothing.
///
/// Answers Unavailable where the set has lost more shards than it has parities, and then Direct where
/// the position's own shard is not lost. These change nothing.
pub fn fetch_rows(far: &mut Far, id: SetId, position: u32) -> Result<Fetching, NoMemory>
    requires live { (set : SetState) × (set_in far.old.sets id.n ≡ Some set)
        × (live_at set position ≡ true) }
    requires sound { (s : Shown) × Sound s far.old }
    requires given { far.old.nodes.given + 16 < 2 ^ 64 }
    ensures step { IfOk result (λ fetching. FetchStep id.n position far.old far.new fetching) }
    ensures sound { (s : Shown) → Sound s far.old → Sound s far.new }
    ensures kept { IfOk result (λ fetching. (s : Shown) → Sound s far.old
        → KeepsOrder s far.new (fetching_order None fetching)) }
    ensures far { OnErr result (far.new ≡ far.old) }
{
    if let Some(lost) = losses(far, id)? {
        return Ok(Fetching::Answer(Reply::Unavailable { set: id, lost }));
    }
    if !is_lost_in(far, id, position) {
        return Ok(Fetching::Answer(Reply::Direct));
    }
    Ok(Fetching::Order(order_of(far, id, position)?))
}

/// Whether the shard of a live position of a committed set is lost.
fn is_lost_in(far: &Far, id: SetId, position: u32) -> bool
    requires sound { (s : Shown) × AwaySound s far.now }
    requires live { (set : SetState) × (set_in far.now.sets id.n ≡ Some set)
        × (live_at set position ≡ true) }
    ensures { (set : SetState) → set_in far.now.sets id.n ≡ Some set
        → result ≡ lost_at far.now.members set.shards position }
{
    far.sets
        .committed(id.n)
        .unwrap()
        .lost_at(position, &far.members)
}

/// Gives rows of a set out that is not broken, for the row of one of its positions. Running out of
/// memory changes nothing.
fn order_of(far: &mut Far, id: SetId, position: u32) -> Result<DecodeOrder, NoMemory>
    requires sound { (s : Shown) × AwaySound s far.old }
    requires whole { (set : SetState) × (set_in far.old.sets id.n ≡ Some set)
        × (is_broken far.old.members set ≡ false) }
    requires given { far.old.nodes.given + 16 < 2 ^ 64 }
    ensures order { IfOk result (λ order. (set : SetState) → set_in far.old.sets id.n ≡ Some set
        → IsOrderFetched far.old far.new id.n position set order) }
    ensures far { OnErr result (far.new ≡ far.old) }
{
    let set = far.sets.committed(id.n).unwrap();
    let GivenRows { present, rows } = fetched(far.alloc, &mut far.nodes, &far.members, set)?;
    Ok(DecodeOrder {
        set: id.n,
        position,
        k: set.k(),
        r: set.r(),
        present,
        rows,
    })
}
