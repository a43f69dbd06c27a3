//! A wrong row is made right at its node.

ghost use Rattle.std.specs.Prelude.{◌≡◌, ◌+◌, ◌*◌, ◌^◌, ◌<◌, All, length, IfOk, IfSome, OnErr, OnOk};
ghost use Rattle.cb_set.specs.Nodes.{OnDistinctNodes};
ghost use Rattle.cb_set.specs.SetState.{parities};
ghost use Rattle.cb_gf256.specs.Rows.{AreRows};
ghost use Rattle.cb_gf256.specs.InRange.{IsInRange};
ghost use Rattle.cb_scrub_world.specs.Standing.{RowStands, rows_of};
ghost use Rattle.cb_scrub_world.specs.Scrub.{IsExamined, MakesRight, Replaces};

use crate::giving::give_all;
use cb_class::PAGE_BYTES;
use cb_gf256::Rows;
use cb_node::Nodes;
use cb_scrub::{Found, examine, mend};
use cb_set::SpanSet;
use cb_types::NoMemory;
use std::alloc::Global;

/// Gives all rows of a set out and examines them; one wrong row is made right at its node. Takes
/// the memory of all rows first; its want leaves the nodes as they were.
pub(crate) fn examine_set(
    alloc: Global,
    nodes: &mut Nodes,
    set: &SpanSet,
) -> Result<Found, NoMemory>
    requires range { IsInRange (length set.now.positions) (parities set.now) }
    requires stand { All (RowStands nodes.old set.now.pages) set.now.shards }
    requires given { nodes.old.given + length set.now.shards < 2 ^ 64 }
    ensures examined { IfOk result (λ found. IsExamined nodes.old set.now found nodes.new) }
    ensures right { OnDistinctNodes set.now.shards → IfOk result (λ found.
        MakesRight (parities set.now) (rows_of nodes.old set.now.shards) found
        (rows_of nodes.new set.now.shards)) }
    ensures error { OnErr result (nodes.new ≡ nodes.old) }
{
    examine_rows(alloc, nodes, set)
}

/// The bytes of a row of a span of so many pages. None where they are more than any table can have
/// in a row, as in a world that is not sound.
fn row_bytes(pages: u32) -> Option<u32>
    ensures { IfSome result (λ bytes. bytes ≡ 4096 * pages) }
{
    PAGE_BYTES.checked_mul(pages)
}

fn examine_rows(alloc: Global, nodes: &mut Nodes, set: &SpanSet) -> Result<Found, NoMemory>
    requires range { IsInRange (length set.now.positions) (parities set.now) }
    requires stand { All (RowStands nodes.old set.now.pages) set.now.shards }
    requires given { nodes.old.given + length set.now.shards < 2 ^ 64 }
    ensures examined { IfOk result (λ found. IsExamined nodes.old set.now found nodes.new) }
    ensures bytes { OnOk result (AreRows (rows_of nodes.old set.now.shards)) }
    ensures error { OnErr result (nodes.new ≡ nodes.old) }
{
    let Some(bytes) = row_bytes(set.pages()) else {
        return Err(NoMemory);
    };
    let Ok(mut rows) = Rows::new(alloc, set.k() + set.r(), bytes) else {
        return Err(NoMemory);
    };
    give_all(nodes, set, &mut rows);
    let found = examine(set.r(), &rows);
    if let Found::One { position } = found {
        mend_at_node(nodes, set, &mut rows, position);
    }
    Ok(found)
}

/// Makes one row right, and puts it at its node in place of the wrong one.
fn mend_at_node(nodes: &mut Nodes, set: &SpanSet, rows: &mut Rows, position: u32)
    requires position { position < length set.now.shards }
    requires rows { rows.old ≡ rows_of nodes.old set.now.shards }
    requires stand { All (RowStands nodes.old set.now.pages) set.now.shards }
    ensures { Replaces nodes.old set.now (rows_of nodes.old set.now.shards) position nodes.new }
{
    mend(rows, position);
    let shard = set.shard(position);
    nodes.set_row(shard.node, shard.key, rows.row(position));
}
