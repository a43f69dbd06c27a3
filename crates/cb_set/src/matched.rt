//! Whether two sets may join.

ghost use Rattle.std.specs.Prelude.{◌↔◌, IsTrue};
ghost use Rattle.cb_set.specs.Lost.{NodesAreMembers};
ghost use Rattle.cb_set.specs.Matched.{IsMatched, PositionsApart};

use crate::position::Position;
use crate::span_set::SpanSet;
use cb_member::Members;

impl SpanSet {
    /// Whether both sets are whole, their spans have as many pages, and no position is live in both.
    pub fn matched(a: &SpanSet, b: &SpanSet, m: &Members) -> bool
        requires nodes_a { NodesAreMembers m.now a.now.shards }
        requires nodes_b { NodesAreMembers m.now b.now.shards }
        ensures { IsTrue result ↔ IsMatched m.now a.now b.now }
    {
        a.whole(m)
            && b.whole(m)
            && a.pages() == b.pages()
            && live_apart(a.positions(), b.positions())
    }
}

/// Whether no place is live in both lists.
fn live_apart(a: &[Position], b: &[Position]) -> bool
    ensures { IsTrue result ↔ PositionsApart a.now b.now }
{
    for (x, y) in a.iter().zip(b) {
        if x.live && y.live {
            return false;
        }
    }
    true
}
