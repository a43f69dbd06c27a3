//! Who makes the parities of a join in one turn.

/// Who makes the parities where a line joins two span-sets in one turn.
#[derive(Clone, Copy)]
pub enum Side {
    /// The nodes patch the parities: no row is given to the compute side.
    Nodes,
    /// The compute side is given rows, makes the parities and puts them: two rows are given for
    /// each position that is taken from the second set, and one for each parity.
    Compute,
}
