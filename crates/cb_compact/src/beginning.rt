//! Two sets begin to join.

ghost use Rattle.std.specs.Prelude.{◌≡◌, ℕ, true, IfNone, IfOk, IfSome, OnErr, None, Some, replicate};
ghost use Rattle.cb_set.specs.SetState.{SetState};
ghost use Rattle.cb_world.specs.declared.shown.Shown.{Shown};
ghost use Rattle.cb_world.specs.Desks.{IsReadyDesk};
ghost use Rattle.cb_world.specs.Now.{now};
ghost use Rattle.cb_world.specs.FarSound.{AwaySound};
ghost use Rattle.cb_world.specs.Pairs.{HoldsNoPair, with_no_pair};
ghost use Rattle.cb_world.specs.Sets.{set_in};
ghost use Rattle.cb_world.specs.Sound.{Sound};
ghost use Rattle.cb_compact.specs.Compaction.{reply_of};
ghost use Rattle.cb_compact.specs.PairStep.{IsFirstPair, NoneCanJoin, PairStep, begun_pair, live_positions, with_pair};

use crate::candidates::{Match, find_pair};
use crate::compaction::Compaction;
use cb_member::Shard;
use cb_set::SpanSet;
use cb_types::{NoMemory, Reply};
use cb_world::{Desk, Far, Joining};
use std::alloc::Global;

/// The live positions of a set, in order.
fn live_positions(alloc: Global, set: &SpanSet) -> Result<Vec<u32>, NoMemory>
    ensures { IfOk result (λ live. live.items ≡ live_positions set.now) }
{
    let mut live = Vec::new(alloc);
    for position in 0..set.k() {
        if set.live_at(position) {
            live.push(position)?;
        }
    }
    Ok(live)
}

/// So many steps, none of which is done.
fn no_steps(alloc: Global, count: usize) -> Result<Vec<Option<Shard>>, NoMemory>
    ensures { IfOk result (λ steps. steps.items ≡ replicate count None) }
{
    let mut steps = Vec::with_capacity(alloc, count)?;
    for _ in 0..count {
        steps.push(None)?;
    }
    Ok(steps)
}

/// The pair of two sets at its begin.
fn pair_of(alloc: Global, x: u64, y: u64, a: &SpanSet, b: &SpanSet) -> Result<Joining, NoMemory>
    ensures { IfOk result (λ pair. pair ≡ begun_pair x y a.now b.now) }
{
    let taken = live_positions(alloc, b)?;
    let steps = no_steps(alloc, a.shards().len())?;
    let shards_a = Vec::from_slice(alloc, a.shards())?;
    let shards_b = Vec::from_slice(alloc, b.shards())?;
    Ok(Joining {
        a: x,
        b: y,
        shards_a,
        shards_b,
        taken,
        steps,
    })
}

/// The pair of the committed sets of two numbers at its begin.
fn new_pair(far: &Far, x: u64, y: u64) -> Result<Joining, NoMemory>
    requires there { (a : SetState) × (b : SetState) × (set_in far.now.sets x ≡ Some a)
        × (set_in far.now.sets y ≡ Some b) }
    ensures { IfOk result (λ pair. (a b : SetState) → set_in far.now.sets x ≡ Some a
        → set_in far.now.sets y ≡ Some b → pair ≡ begun_pair x y a b) }
{
    let a = far.sets.committed(x).unwrap();
    let b = far.sets.committed(y).unwrap();
    pair_of(far.alloc, x, y, a, b)
}

/// Lets a pair join.
fn put_pair(far: &mut Far, pair: Joining)
    requires { far.old.joining ≡ None }
    ensures { far.new ≡ with_pair far.old pair }
{
    far.joining = Some(pair);
}

/// Whether it is noted that no two sets can be joined.
fn is_noted(far: &Far) -> bool
    requires { HoldsNoPair far.now }
    ensures { result ≡ true → NoneCanJoin far.now }
{
    match far.survey.no_pair {
        Some(turns) => turns == far.counts.others(),
        None => false,
    }
}

/// The first two sets that can be joined. Where it is noted that there are none, nothing is looked
/// at.
fn look(far: &mut Far) -> Result<Option<Match>, NoMemory>
    requires sound { (s : Shown) × AwaySound s far.old }
    requires note { HoldsNoPair far.old }
    ensures same { far.new ≡ far.old }
    ensures found { IfOk result (λ found. IfSome found (λ m. (a : SetState) × (b : SetState)
        × IsFirstPair far.old m.a.id m.b.id a b)) }
    ensures none { IfOk result (λ found. IfNone found (NoneCanJoin far.old)) }
{
    if is_noted(far) {
        return Ok(None);
    }
    find_pair(far)
}

/// Notes that no two sets can be joined.
fn note_none(far: &mut Far)
    ensures { far.new ≡ with_no_pair far.old }
{
    far.survey.no_pair = Some(far.counts.others());
}

impl Compaction {
    /// Begins to join the first two sets that can be.
    pub fn begin(far: &mut Far) -> Result<Compaction, NoMemory>
        requires sound { (s : Shown) × Sound s far.old }
        requires note { HoldsNoPair far.old }
        ensures step { IfOk result (λ begun. PairStep far.old far.new (reply_of begun)) }
        ensures error { OnErr result (far.new ≡ far.old) }
        ensures sound { (s : Shown) → Sound s far.old → Sound s far.new }
    {
        if let Some(pair) = &far.joining {
            return Ok(Compaction::Joining {
                a: pair.a,
                b: pair.b,
            });
        }
        let Some(found) = look(far)? else {
            note_none(far);
            return Ok(Compaction::NoPair);
        };
        let pair = new_pair(far, found.a.id, found.b.id)?;
        put_pair(far, pair);
        Ok(Compaction::Pair {
            a: found.a.id,
            b: found.b.id,
        })
    }
}

/// Begins to join two committed sets of one code, both whole, of which no position is live in both:
/// the least a that can be joined with one of a greater number, and then the least such b. Both
/// stay as they are. The positions that are live in b are taken from it, and have steps, as all
/// parities have.
///
/// Answers Joining where a pair is joining already, whether its sets have changed or not; NoPair
/// where no two sets can be joined, and notes that; and else Pair. Where it is noted and no turn
/// but those that look has come since, nothing is looked at. Where at an earlier look there were
/// none, each set that has changed since is compared with the groups of one code and live
/// positions; and where that does not show that there are still none, each set is looked at once,
/// and then one of each group. No row is given out. Where there is no memory, nothing has changed.
pub fn compact_begin<D: Desk>(desk: &mut D, far: &mut Far) -> Result<Reply, NoMemory>
    requires sound { IsReadyDesk D.shows desk.old far.old }
    requires note { HoldsNoPair far.old }
    ensures desk { desk.new ≡ desk.old }
    ensures step { IfOk result (λ reply. PairStep far.old far.new reply) }
    ensures error { OnErr result (far.new ≡ far.old) }
    ensures sound { (s : Shown) → Sound s far.old → Sound s far.new }
    ensures now { (s : Shown) (h : ℕ) → Sound s far.old → now s far.new h ≡ now s far.old h }
    ensures given { far.new.nodes.given ≡ far.old.nodes.given }
{
    let begun = Compaction::begin(far)?;
    Ok(begun.reply())
}
