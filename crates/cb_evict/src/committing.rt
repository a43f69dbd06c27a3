//! A batch all of whose rows were put becomes a committed set.

ghost use Rattle.std.specs.Prelude.{◌≡◌, ◌≢◌, ◌^◌, ◌<◌, ◌≤◌, true, All, IfNone, IfOk, IfSome, IsOk, None, Some, length};
ghost use Rattle.std.specs.List.{AllPairs};
ghost use Rattle.std.specs.FinMap as map;
ghost use Rattle.cb_world.specs.Desks.{IsReadyDesk, Operates};
ghost use Rattle.cb_world.specs.LocalSound.{AreFrames};
ghost use Rattle.cb_member.specs.declared.names.Shard.{Shard};
ghost use Rattle.cb_set.specs.SetState.{with_shard};
ghost use Rattle.cb_span.specs.Contents.{Contents};
ghost use Rattle.cb_world.specs.FarState.{span_in};
ghost use Rattle.cb_world.specs.Leaving.{LeavingState};
ghost use Rattle.cb_world.specs.Reserved.{put_shards};
ghost use Rattle.cb_world.specs.Sets.{Kept};
ghost use Rattle.cb_world.specs.World.{IsConfigured};
ghost use Rattle.cb_evict.specs.Candidates.{AreUnique};
ghost use Rattle.cb_evict.specs.Closing.{HaveHomes, with_homes};
ghost use Rattle.cb_evict.specs.CommitRule.{CommitEffect, CommitRule};
ghost use Rattle.cb_evict.specs.Committing.{AreAllPut, HasPlaces, with_shards};
ghost use Rattle.cb_evict.specs.Waiting.{PutAtMembers, waiting};

use crate::closing::close_spans;
use crate::sending::send;
use crate::waiting::waiting_positions;
use cb_member::Shard;
use cb_types::{NoMemory, Positions, Reply, SetId};
use cb_world::{Desk, Far, Leaving, Sets};

/// Commits the batch that is leaving: its set is a committed one with the shards whose rows were
/// put, its objects are far and have their homes there, and its frames are free. No batch is
/// leaving then.
///
/// Refuses with NoBatch where none is leaving, and then with Short where rows were not put or were
/// lost since; their positions are told in order, and the batch stays. Looks at the batch's objects
/// and positions alone; takes no memory.
pub fn commit<D: Desk>(desk: &mut D, far: &mut Far) -> Result<Reply, NoMemory>
    requires configured { IsConfigured (D.settings desk.old) far.old }
    requires sound { IsReadyDesk D.shows desk.old far.old }
    ensures memory { IsOk result }
    ensures commit { IfOk result (λ reply. Operates D.run D.shows desk.old far.old desk.new far.new
        (CommitRule far.old far.new reply)
        (CommitEffect far.old far.new reply)) }
{
    let Some(positions) = waiting_in(far) else {
        return Ok(Reply::NoBatch);
    };
    if !positions.as_slice().is_empty() {
        return Ok(Reply::Short { positions });
    }
    let batch = far.leaving.take().unwrap();
    send(desk, &batch.words);
    keep_batch(far, &batch);
    Ok(Reply::Set {
        set: SetId { n: batch.set },
    })
}

/// The positions of the batch that is leaving whose rows are still to be put, in order, and None
/// where none is leaving.
fn waiting_in(far: &Far) -> Option<Positions>
    requires put { (batch : LeavingState) → far.now.leaving ≡ Some batch
        → PutAtMembers far.now.members batch.shards × (length batch.shards ≤ 20) }
    ensures found { IfSome result (λ positions. (batch : LeavingState)
        × (far.now.leaving ≡ Some batch)
        × (positions ≡ waiting far.now.members batch.shards)) }
    ensures none { IfNone result (far.now.leaving ≡ None) }
{
    match &far.leaving {
        Some(batch) => Some(waiting_positions(&batch.shards, &far.members)),
        None => None,
    }
}

/// Commits the set of a batch all of whose rows are put, gives the objects of its spans their homes
/// there, and the frames back. Takes no memory.
fn keep_batch(far: &mut Far, batch: &Leaving)
    requires kept { HasPlaces far.old.sets batch.now.set batch.now.shards }
    requires whole { AreAllPut batch.now.shards }
    requires numbered { length batch.now.shards < 2 ^ 32 }
    requires there { All (λ f. (span : Contents) × (span_in far.old.spans f ≡ Some span))
        batch.now.frames }
    requires unique { AreUnique far.old.spans (length far.old.homes) }
    requires apart { AllPairs (λ f g. f ≢ g) batch.now.frames }
    requires owned { AreFrames far.old }
    requires few { length batch.now.frames < 2 ^ 32 }
    ensures state { (kept : Kept) → map.get far.old.sets batch.now.set ≡ Some kept
        → far.new ≡ with_homes (record far.old {
          sets = map.insert far.old.sets batch.now.set
              (record (with_shards kept (put_shards batch.now.shards)) { committed = true });
        }) batch.now.frames far.new.homes }
    ensures homes { HaveHomes far.old.spans batch.now.frames batch.now.set far.old.homes
        far.new.homes }
{
    commit_set(&mut far.sets, batch.set, &batch.shards);
    close_spans(far, batch.set, &batch.frames);
}

/// Names the shards of a batch, all of whose rows are put, in the set that is kept for it, and
/// makes it a committed one. Takes no memory.
fn commit_set(sets: &mut Sets, id: u64, shards: &[Option<Shard>])
    requires kept { HasPlaces sets.old id shards.now }
    requires whole { AreAllPut shards.now }
    requires numbered { length shards.now < 2 ^ 32 }
    ensures committed { (kept : Kept) → map.get sets.old id ≡ Some kept → sets.new
        ≡ map.insert sets.old id
        (record (with_shards kept (put_shards shards.now)) { committed = true }) }
{
    for (p, shard) in shards.iter().enumerate() {
        name_shard(sets, id, p as u32, *shard);
    }
    sets.commit(id);
}

/// Names the shard of a position, if its row was put, in a kept set.
fn name_shard(sets: &mut Sets, id: u64, position: u32, shard: Option<Shard>)
    requires kept { (kept : Kept) × (map.get sets.old id ≡ Some kept)
        × (position < length kept.set.shards) }
    ensures named { (kept : Kept) (s : Shard) → map.get sets.old id ≡ Some kept → shard ≡ Some s
        → sets.new ≡ map.insert sets.old id (record kept { set = with_shard kept.set position s }) }
{
    if let Some(shard) = shard {
        sets.set_shard(id, position, shard);
    }
}
