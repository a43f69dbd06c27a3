//! The k spans that leave next.

ghost use Rattle.std.specs.Prelude.{[], IfOk, OnErr};
ghost use Rattle.cb_types.specs.Config.{IsAccepted};
ghost use Rattle.cb_world.specs.Desks.{IsReadyDesk};
ghost use Rattle.cb_world.specs.World.{IsConfigured};
ghost use Rattle.cb_evict.specs.Finding.{FindsSpans};

use crate::candidates::candidates;
use crate::eviction::Lack;
use crate::lengths::{LengthCounts, count_lengths};
use crate::looking::find_loose;
use cb_types::NoMemory;
use cb_world::{Desk, Far, nodes_with_room};

/// What was found of the spans that may leave.
#[derive(Drop)]
pub(crate) enum Found {
    /// Of no length are as many spans loose as the code in force has data positions, or fewer nodes
    /// have room than it has positions. So many spans of one length are loose at the most, and so
    /// many nodes have room.
    Few {
        lack: Lack,
        loose: u32,
        nodes: u32,
    },
    /// The spans in these frames are loose, in the order in which they are taken: so many of each
    /// length, and k of one at least. So many nodes have room, which are enough.
    Loose {
        frames: Vec<u32>,
        counts: LengthCounts,
        nodes: u32,
    },
}

/// Finds the spans that can leave now: of the spans that may leave, those none of whose objects is
/// pinned or claimed, the cold ones before the hot ones and then by frame number.
///
/// Each object of each span that may leave is looked at once, and the nodes are counted after that.
/// Where there is no memory, nothing was looked at.
pub(crate) fn find_spans<D: Desk>(desk: &mut D, far: &Far) -> Result<Found, NoMemory>
    requires config { IsAccepted (D.settings desk.old) }
    requires configured { IsConfigured (D.settings desk.old) far.now }
    requires sound { IsReadyDesk D.shows desk.old far.now }
    ensures found { IfOk result
        (FindsSpans (λ es. D.run desk.old es desk.new) (λ s. D.shows desk.old s)
        far.now) }
    ensures error { OnErr result (D.run desk.old [] desk.new) }
{
    let frames = candidates(far)?;
    let mut loose = Vec::with_capacity(far.alloc, frames.len())?;
    find_loose(desk, &far.spans, &frames, &mut loose);
    let nodes = nodes_with_room(&far.nodes, &far.members);
    let counts = count_lengths(&far.spans, &loose);
    let most = counts.most() as u32;
    let code = far.in_force();
    if most < code.k {
        return Ok(Found::Few {
            lack: Lack::Spans,
            loose: most,
            nodes,
        });
    }
    if nodes < code.k + code.r {
        return Ok(Found::Few {
            lack: Lack::Nodes,
            loose: most,
            nodes,
        });
    }
    Ok(Found::Loose {
        frames: loose,
        counts,
        nodes,
    })
}
