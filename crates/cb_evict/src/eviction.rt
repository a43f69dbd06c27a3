//! What came of an eviction, and its reply.

ghost use Rattle.std.specs.Prelude.{◌≡◌};
ghost use Rattle.cb_evict.specs.Eviction.{reply_of};

use cb_types::{Reply, SetId};

/// Of what there is too little for a set.
#[derive(Clone, Copy)]
pub enum Lack {
    /// Fewer spans are loose than a set has data positions.
    Spans,
    /// Enough spans are loose, and fewer nodes have room than a set has positions.
    Nodes,
}

/// What came of an eviction.
#[derive(Clone, Copy)]
pub enum Eviction {
    /// Spans left as this set.
    Set { set: SetId },
    /// Nothing left, for want of spans or of nodes: so many spans are loose, by the last looks at
    /// their objects, and so many nodes have room for a row.
    Refused { lack: Lack, loose: u32, nodes: u32 },
}

/// The reply of an eviction: the set, or the number of which there is too little.
pub(crate) fn reply_of(eviction: Eviction) -> Reply
    ensures { result ≡ reply_of eviction }
{
    match eviction {
        Eviction::Set { set } => Reply::Set { set },
        Eviction::Refused { lack, loose, nodes } => refusal(lack, loose, nodes),
    }
}

/// The refusal for want of spans or of nodes.
pub(crate) fn refusal(lack: Lack, loose: u32, nodes: u32) -> Reply
    ensures { result ≡ reply_of (Eviction.Refused lack loose nodes) }
{
    match lack {
        Lack::Spans => Reply::NoSpans { loose },
        Lack::Nodes => Reply::NoNodes { nodes },
    }
}
