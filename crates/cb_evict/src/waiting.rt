//! Which positions of a leaving batch still wait for their row.

ghost use Rattle.std.specs.Prelude.{◌≡◌, ◌<◌, ◌≤◌, IfSome, length};
ghost use Rattle.cb_evict.specs.Waiting.{PutAtMembers, is_waiting, least_waiting, waiting};

use cb_member::{Members, Shard};
use cb_set::{MOST_POSITIONS, is_lost};
use cb_types::Positions;

/// Whether the row of a position is still to be put: none was, or the one that was is lost.
fn is_waiting(shard: Option<Shard>, members: &Members) -> bool
    requires node { IfSome shard (λ s. s.node.n < length members.now.nodes) }
    ensures { result ≡ is_waiting members.now shard }
{
    match shard {
        Some(shard) => is_lost(members, shard),
        None => true,
    }
}

/// The least position that waits for its row to be put, and None where none does. Takes no memory.
pub(crate) fn least_waiting(shards: &[Option<Shard>], members: &Members) -> Option<u32>
    requires nodes { PutAtMembers members.now shards.now }
    requires few { length shards.now ≤ 20 }
    ensures least { result ≡ least_waiting members.now shards.now }
    ensures in_range { IfSome result (λ p. p < length shards.now) }
{
    for (p, shard) in shards.iter().enumerate() {
        if is_waiting(*shard, members) {
            return Some(p as u32);
        }
    }
    None
}

/// The positions that wait for their rows to be put, in order. Takes no memory.
pub(crate) fn waiting_positions(shards: &[Option<Shard>], members: &Members) -> Positions
    requires nodes { PutAtMembers members.now shards.now }
    requires few { length shards.now ≤ 20 }
    ensures { result ≡ waiting members.now shards.now }
{
    let mut found = [0; MOST_POSITIONS];
    let mut count = 0;
    for (p, shard) in shards.iter().enumerate() {
        if is_waiting(*shard, members) {
            found[count] = p as u8;
            count += 1;
        }
    }
    Positions::copy_of(&found[..count])
}
