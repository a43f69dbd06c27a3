//! The names of nodes, epochs, losses and shards.

/// A memory node, by its number. Nodes are numbered from 0.
#[derive(Clone, Copy, Debug, PartialEq, Eq, PartialOrd, Ord)]
pub struct NodeId {
    pub n: u8,
}

/// A moment of the membership: how many crashes and joins there were up to it.
#[derive(Clone, Copy, Debug, PartialEq, Eq, PartialOrd, Ord)]
pub struct Epoch {
    pub n: u64,
}

/// A node that crashed, with the epoch of that crash.
#[derive(Clone, Copy, Debug, PartialEq, Eq)]
pub struct Loss {
    pub node: NodeId,
    pub epoch: Epoch,
}

/// The name of one row: the node that has it, that node's incarnation when the row was put there,
/// and the row's key at the node.
#[derive(Clone, Copy, Debug, PartialEq, Eq)]
pub struct Shard {
    pub node: NodeId,
    pub incarnation: u64,
    pub key: u64,
}

/// The code of a span-set: so many data positions, and so many parities and so the lost shards that it
/// survives.
#[derive(Clone, Copy, Debug, PartialEq, Eq)]
pub struct Code {
    pub k: u32,
    pub r: u32,
}
