//! Which positions of a set are lost, and by which crash.

ghost use Rattle.std.specs.Prelude.{◌≡◌, ◌<◌, ◌≤◌, ◌↔◌, length, take, IfOk, IfSome, IsTrue};
ghost use Rattle.cb_set.specs.Lost.{IsWhole, NodesAreMembers, is_lost, least_lost, loss_of, lost, lost_at};
ghost use Rattle.cb_set.specs.Surviving.{surviving};

use crate::span_set::SpanSet;
use cb_member::{Loss, Losses, Members, NoMemory, Shard};
use std::alloc::Global;

/// The most positions of a set of which `survivors` tells.
pub const MOST_POSITIONS: usize = 20;

/// Whether the shard is lost: its node has crashed in the shard's incarnation.
pub fn is_lost(m: &Members, shard: Shard) -> bool
    requires { shard.node.n < length m.now.nodes }
    ensures { result ≡ is_lost m.now shard }
{
    m.crashed_at(shard.node, shard.incarnation).is_some()
}

fn loss_of(m: &Members, shard: Shard) -> Option<Loss>
    requires { shard.node.n < length m.now.nodes }
    ensures { result ≡ loss_of m.now shard }
{
    let epoch = m.crashed_at(shard.node, shard.incarnation)?;
    Some(Loss {
        node: shard.node,
        epoch,
    })
}

impl SpanSet {
    /// Whether the position's shard is lost.
    pub fn lost_at(&self, position: u32, m: &Members) -> bool
        requires position { position < length self.now.shards }
        requires nodes { NodesAreMembers m.now self.now.shards }
        ensures { result ≡ lost_at m.now self.now.shards position }
    {
        is_lost(m, self.shard(position))
    }

    /// The least position whose shard is lost, and None where none is.
    pub fn least_lost(&self, m: &Members) -> Option<u32>
        requires { NodesAreMembers m.now self.now.shards }
        ensures least { result ≡ least_lost m.now self.now.shards }
        ensures in_range { IfSome result (λ position. position < length self.now.shards) }
    {
        for (place, shard) in self.shards().iter().enumerate() {
            if is_lost(m, *shard) {
                return Some(place as u32);
            }
        }
        None
    }

    /// The positions whose shards are not lost, ascending, in the first places.
    pub fn survivors(&self, m: &Members) -> [u8; MOST_POSITIONS]
        requires nodes { NodesAreMembers m.now self.now.shards }
        requires few { length self.now.shards ≤ MOST_POSITIONS }
        ensures size { length result ≡ MOST_POSITIONS }
        ensures positions { take (length (surviving m.now self.now.shards)) result
            ≡ surviving m.now self.now.shards }
    {
        let mut present = [0; MOST_POSITIONS];
        let mut count = 0;
        for (p, shard) in self.shards().iter().enumerate() {
            if !is_lost(m, *shard) {
                present[count] = p as u8;
                count += 1;
            }
        }
        present
    }

    /// How many shards are lost.
    pub fn lost_count(&self, m: &Members) -> u32
        requires { NodesAreMembers m.now self.now.shards }
        ensures { result ≡ length (lost m.now self.now.shards) }
    {
        let mut count = 0;
        for shard in self.shards() {
            if is_lost(m, *shard) {
                count += 1;
            }
        }
        count
    }

    /// The lost shards in order of position, each as its node and the epoch of the crash that
    /// ended its incarnation.
    pub fn lost(&self, alloc: Global, m: &Members) -> Result<Losses, NoMemory>
        requires { NodesAreMembers m.now self.now.shards }
        ensures { IfOk result (λ losses. losses ≡ lost m.now self.now.shards) }
    {
        let mut losses = Vec::new(alloc);
        for shard in self.shards() {
            if let Some(loss) = loss_of(m, *shard) {
                losses.push(loss)?;
            }
        }
        Ok(Losses::from(losses))
    }

    /// Whether no shard is lost.
    pub fn whole(&self, m: &Members) -> bool
        requires { NodesAreMembers m.now self.now.shards }
        ensures { IsTrue result ↔ IsWhole m.now self.now }
    {
        self.lost_count(m) == 0
    }
}
