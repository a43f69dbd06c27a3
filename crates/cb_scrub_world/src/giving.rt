//! All rows of a set are given out.

ghost use Rattle.std.specs.Prelude.{◌≡◌, ◌+◌, ◌*◌, ◌^◌, ◌<◌, All, length};
ghost use Rattle.cb_gf256.specs.Rows.{AreRows, HaveLength};
ghost use Rattle.cb_world.specs.Fetched.{with_rows_given};
ghost use Rattle.cb_scrub_world.specs.Standing.{RowStands, rows_of};

use cb_gf256::Rows;
use cb_node::Nodes;
use cb_set::SpanSet;

/// Gives all rows of the set out into the table, none of which is lost.
pub(crate) fn give_all(nodes: &mut Nodes, set: &SpanSet, table: &mut Rows)
    requires count { length table.old ≡ length set.now.shards }
    requires lengths { HaveLength (4096 * set.now.pages) table.old }
    requires stand { All (RowStands nodes.old set.now.pages) set.now.shards }
    requires some { 0 < length set.now.shards }
    requires given { nodes.old.given + length set.now.shards < 2 ^ 64 }
    ensures nodes { nodes.new ≡ with_rows_given nodes.old (length set.now.shards) }
    ensures rows { table.new ≡ rows_of nodes.old set.now.shards }
    ensures bytes { AreRows table.new }
{
    for position in 0..table.count() {
        let shard = set.shard(position);
        nodes.give_row(shard.node, shard.key, table.row_mut(position));
    }
    // The rows are of bytes, as a proof reads here.
    let _ = table.row_len();
}
