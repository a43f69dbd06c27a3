//! All nodes, with one capacity.

ghost use Rattle.std.specs.Prelude.{◌≡◌, ◌-◌, ◌+◌, ◌^◌, ◌<◌, ◌↔◌, IsTrue, length, true, false, if◌then◌else◌, IfOk, IfSome, IfNone, OnOk, OnErr};
ghost use Rattle.std.specs.Borrow.{sem};
ghost use Rattle.cb_gf256.specs.Row.{row_sum, scaled_row};
ghost use Rattle.cb_gf256.specs.Rows.{HaveLength};
ghost use Rattle.cb_node.specs.NodesState.{IsNodes, empty_nodes, row_under, known_row, held, has, with_dropped, with_row, with_spoiled, with_wiped};
ghost use Rattle.cb_node.specs.Answer.{PutGives};
ghost use Rattle.cb_node.specs.Delta.{with_delta, NamesRow};
ghost use Rattle.cb_node.specs.Lent.{GivesOne};

use crate::node::Node;
use crate::row::Row;
use crate::spare::Spare;
use cb_gf256::Rows;
use cb_member::{NoMemory, NodeId, Shard};
use std::alloc::Global;
use std::marker::Model;

/// What a put answers.
#[derive(Clone, Copy, Debug, PartialEq, Eq)]
pub enum PutAnswer {
    /// The row was put.
    Stored,
    /// The node holds this many rows, which is all that it has room for.
    Full { held: u32 },
}

/// Memory nodes, each a map from keys to rows with the same capacity.
#[derive(Drop)]
pub struct Nodes {
    room: u32,
    given: u64,
    nodes: Vec<Node>,
    // No contract speaks of it: blocks that are used again.
    spare: Spare,
}

impl Model for Nodes {
    ghost use Rattle.cb_node.specs.NodesState.{NodesState, IsNodes, nodes_code, nodes_of};

    ghost Value = { NodesState };

    ghost coded = { nodes_code };

    ghost view = { λ a. nodes_of a.room a.given a.nodes.items };

    ghost invariant = { λ a. IsNodes (nodes_of a.room a.given a.nodes.items) };
}

impl Nodes {
    /// So many nodes, numbered from 0, with no row and with room for so many rows each.
    pub fn new(alloc: Global, nodes: u32, room: u32) -> Result<Nodes, NoMemory>
        ensures empty { IfOk result (λ all. all ≡ empty_nodes nodes room) }
        ensures valid { IfOk result IsNodes }
    {
        let mut all = Vec::with_capacity(alloc, nodes as usize)?;
        for _ in 0..nodes {
            all.push(Node::new(alloc))?;
        }
        let spare = Spare::new(alloc)?;
        Ok(Nodes {
            room,
            given: 0,
            nodes: all,
            spare,
        })
    }

    /// How many nodes there are.
    pub fn len(&self) -> u32
        ensures count { result ≡ length self.now.nodes }
        ensures valid { IsNodes self.now }
    {
        self.nodes.len() as u32
    }

    /// How many rows each node has room for.
    pub fn room(&self) -> u32
        ensures room { result ≡ self.now.room }
        ensures valid { IsNodes self.now }
    {
        self.room
    }

    /// How many rows the node holds.
    pub fn held(&self, node: NodeId) -> u32
        requires { node.n < length self.now.nodes }
        ensures held { result ≡ held self.now node }
        ensures valid { IsNodes self.now }
    {
        self.nodes[usize::from(node.n)].len() as u32
    }

    /// How many rows were ever given out.
    pub fn given(&self) -> u64
        ensures { result ≡ self.now.given }
    {
        self.given
    }

    /// Whether the node has a row under the key.
    pub fn has(&self, node: NodeId, key: u64) -> bool
        requires { node.n < length self.now.nodes }
        ensures { result ≡ has self.now node key }
    {
        self.nodes[usize::from(node.n)].has(key)
    }

    /// Puts a copy of the row at the node, or answers Full where the node holds as many rows as it
    /// has room for. Running out of memory changes nothing and does not come from a full node.
    pub fn put(&mut self, node: NodeId, key: u64, row: &[u8]) -> Result<PutAnswer, NoMemory>
        requires node { node.n < length self.old.nodes }
        requires fresh { has self.old node key ≡ false }
        ensures answer { IfOk result
            (λ answer. PutGives self.old node key row.now answer self.new) }
        ensures err { OnErr result (self.new ≡ self.old) }
        ensures err_only_with_room { OnErr result (held self.old node < self.old.room) }

        // What a caller needs for the next call, whatever the answer.
        ensures count { length self.new.nodes ≡ length self.old.nodes }
        ensures given { self.new.given ≡ self.old.given }
        ensures valid { IsNodes self.new }
    {
        let held = self.held(node);
        if held == self.room {
            return Ok(PutAnswer::Full { held });
        }
        let row = self.spare.copy_of(row)?;
        self.store(node, key, row)?;
        Ok(PutAnswer::Stored)
    }

    /// Copies the row under `key` at the node `from` to the node `to`, under the key `fresh`, or
    /// answers Full where `to` holds as many rows as it has room for. No row is given. Running out
    /// of memory changes nothing and does not come from a full node.
    pub fn copy(
        &mut self,
        from: NodeId,
        key: u64,
        to: NodeId,
        fresh: u64,
    ) -> Result<PutAnswer, NoMemory>
        requires from { from.n < length self.old.nodes }
        requires to { to.n < length self.old.nodes }
        requires source { has self.old from key ≡ true }
        requires fresh { has self.old to fresh ≡ false }
        ensures answer { IfOk result
            (λ answer. PutGives self.old to fresh (known_row self.old from key) answer self.new) }
        ensures err { OnErr result (self.new ≡ self.old) }
        ensures err_only_with_room { OnErr result (held self.old to < self.old.room) }

        // What a caller needs for the next call, whatever the answer.
        ensures count { length self.new.nodes ≡ length self.old.nodes }
        ensures given { self.new.given ≡ self.old.given }
        ensures valid { IsNodes self.new }
    {
        let held = self.held(to);
        if held == self.room {
            return Ok(PutAnswer::Full { held });
        }
        let row = Row::copy_of(*self.nodes.allocator(), self.known_row(from, key))?;
        self.store(to, fresh, row)?;
        Ok(PutAnswer::Stored)
    }

    /// Gives the row out, into a buffer of its length, and counts it; answers whether the row is
    /// there. A row leaves the nodes by this call and by `lend_row` alone.
    pub fn give_row(&mut self, node: NodeId, key: u64, into: &mut [u8]) -> bool
        requires node { node.n < length self.old.nodes }
        requires given { self.old.given < 2 ^ 64 - 1 }
        requires length { IfSome (row_under self.old node key)
            (λ row. length row ≡ length into.old) }
        ensures there { result ≡ has self.old node key }
        ensures row { IfSome (row_under self.old node key) (λ row. into.new ≡ row) }
        ensures no_row { IfNone (row_under self.old node key) (into.new ≡ into.old) }
        ensures given { self.new
            ≡ record self.old { given = self.old.given + (if result then 1 else 0) } }
        ensures valid { IsNodes self.new }
    {
        let Some(row) = self.nodes[usize::from(node.n)].row(key) else {
            return false;
        };
        into.copy_from_slice(row.bytes());
        self.given += 1;
        true
    }

    /// Gives the row out, which is there, where it stands, and counts it: no byte is copied.
    pub fn lend_row(&mut self, node: NodeId, key: u64) -> &[u8]
        requires node { node.n < length self.old.nodes }
        requires there { has self.old node key ≡ true }
        requires given { self.old.given < 2 ^ 64 - 1 }
        ensures* given { sem 𝓛 (GivesOne self.entry) }
        ensures row { result.now ≡ known_row self.old node key }
    {
        self.given += 1;
        self.known_row(node, key)
    }

    /// Adds `c` times the sum of the rows of the shards `old` and `new` to the row under `key` at
    /// the node `to`. The incarnations of the shards are not looked at. No row is given; takes no
    /// memory.
    pub fn add_delta(&mut self, to: NodeId, key: u64, c: u8, old: Shard, new: Shard)
        requires to { to.n < length self.old.nodes }
        requires old_node { old.node.n < length self.old.nodes }
        requires new_node { new.node.n < length self.old.nodes }
        requires target { has self.old to key ≡ true }
        requires old_row { has self.old old.node old.key ≡ true }
        requires new_row { has self.old new.node new.key ≡ true }
        requires old_length { length (known_row self.old to key)
            ≡ length (known_row self.old old.node old.key) }
        requires new_length { length (known_row self.old to key)
            ≡ length (known_row self.old new.node new.key) }
        ensures after { self.new ≡ with_delta self.old to key c old new }
        ensures valid { IsNodes self.new }
    {
        // This opens the invariant, for the case in which nothing changes.
        let _ = &self.room;
        match (is_row(old, to, key), is_row(new, to, key)) {
            // A row differs from itself by nothing.
            (true, true) => {}
            (true, false) => self.add_own_change(to, key, c, new),
            (false, true) => self.add_own_change(to, key, c, old),
            (false, false) => self.add_change(to, key, c, old, new),
        }
    }

    /// Adds `with` to one byte of the row under the key, as memory that goes bad does. No event
    /// calls it. Takes no memory.
    pub fn spoil(&mut self, node: NodeId, key: u64, at: u32, with: u8)
        requires node { node.n < length self.old.nodes }
        requires there { has self.old node key ≡ true }
        requires inside { at < length (known_row self.old node key) }
        ensures after { self.new ≡ with_spoiled self.old node key at with }
        ensures count { length self.new.nodes ≡ length self.old.nodes }
        ensures valid { IsNodes self.new }
    {
        let mut row = Row::empty(*self.nodes.allocator());
        self.swap_row(node, key, &mut row);
        row.add_at(at as usize, with);
        self.swap_row(node, key, &mut row);
    }

    /// Replaces the row under the key by another of its length. No row is given; takes no memory.
    pub fn set_row(&mut self, node: NodeId, key: u64, row: &[u8])
        requires node { node.n < length self.old.nodes }
        requires there { has self.old node key ≡ true }
        requires length { length row.now ≡ length (known_row self.old node key) }
        ensures after { self.new ≡ with_row self.old node key row.now }
        ensures count { length self.new.nodes ≡ length self.old.nodes }
        ensures valid { IsNodes self.new }
    {
        let mut kept = Row::empty(*self.nodes.allocator());
        self.swap_row(node, key, &mut kept);
        kept.replace(row);
        self.swap_row(node, key, &mut kept);
    }

    /// Drops the row under the key at the node, if it is there. Takes no memory.
    pub fn drop_row(&mut self, node: NodeId, key: u64)
        requires { node.n < length self.old.nodes }
        ensures after { self.new ≡ with_dropped self.old node key }
        ensures count { length self.new.nodes ≡ length self.old.nodes }
        ensures valid { IsNodes self.new }
    {
        let row = self.nodes[usize::from(node.n)].remove(key);
        self.spare.keep(row);
    }

    /// A table of so many rows of so many bytes, which may be any: the one that was kept last,
    /// where it has this shape. The only error is out of memory; the nodes stay as they are.
    pub fn spare_table(&mut self, count: u32, len: u32) -> Result<Rows, NoMemory>
        requires some { 0 < count }
        ensures count { IfOk result (λ rows. length rows ≡ count) }
        ensures lengths { IfOk result (λ rows. HaveLength len rows) }
        ensures unchanged { self.new ≡ self.old }
    {
        self.spare.table(count, len)
    }

    /// Keeps a table of rows, to be used again. Takes no memory; the nodes stay as they are.
    pub fn keep_table(&mut self, table: Rows)
        ensures unchanged { self.new ≡ self.old }
    {
        self.spare.keep_table(table);
    }

    /// Drops all rows at the node. Takes no memory.
    pub fn wipe(&mut self, node: NodeId)
        requires { node.n < length self.old.nodes }
        ensures after { self.new ≡ with_wiped self.old node }
        ensures count { length self.new.nodes ≡ length self.old.nodes }
        ensures valid { IsNodes self.new }
    {
        self.nodes[usize::from(node.n)].clear();
    }

    /// Adds `c` times the sum of two other rows to the row under the key.
    fn add_change(&mut self, to: NodeId, key: u64, c: u8, old: Shard, new: Shard)
        requires to { to.n < length self.old.nodes }
        requires old_node { old.node.n < length self.old.nodes }
        requires new_node { new.node.n < length self.old.nodes }
        requires old_other { ¬ (NamesRow old to key) }
        requires new_other { ¬ (NamesRow new to key) }
        requires target { has self.old to key ≡ true }
        requires old_row { has self.old old.node old.key ≡ true }
        requires new_row { has self.old new.node new.key ≡ true }
        requires old_length { length (known_row self.old to key)
            ≡ length (known_row self.old old.node old.key) }
        requires new_length { length (known_row self.old to key)
            ≡ length (known_row self.old new.node new.key) }
        ensures after { self.new ≡ with_delta self.old to key c old new }
        ensures valid { IsNodes self.new }
    {
        let mut row = Row::empty(*self.nodes.allocator());
        self.swap_row(to, key, &mut row);
        row.add_scaled(c, self.known_row(old.node, old.key));
        row.add_scaled(c, self.known_row(new.node, new.key));
        self.swap_row(to, key, &mut row);
    }

    /// Adds `c` times the sum of itself and another row to the row under the key.
    fn add_own_change(&mut self, to: NodeId, key: u64, c: u8, other: Shard)
        requires to { to.n < length self.old.nodes }
        requires other_node { other.node.n < length self.old.nodes }
        requires other { ¬ (NamesRow other to key) }
        requires target { has self.old to key ≡ true }
        requires other_row { has self.old other.node other.key ≡ true }
        requires other_length { length (known_row self.old to key)
            ≡ length (known_row self.old other.node other.key) }
        ensures after { let row = known_row self.old to key in
            let change = row_sum row (known_row self.old other.node other.key) in
            self.new ≡ with_row self.old to key (row_sum row (scaled_row c change)) }
        ensures valid { IsNodes self.new }
    {
        let mut row = Row::empty(*self.nodes.allocator());
        self.swap_row(to, key, &mut row);
        row.add_own_change(c, self.known_row(other.node, other.key));
        self.swap_row(to, key, &mut row);
    }

    /// Exchanges the row under the key, which is there, for another; takes no memory.
    fn swap_row(&mut self, node: NodeId, key: u64, row: &mut Row)
        requires node { node.n < length self.old.nodes }
        requires there { has self.old node key ≡ true }
        ensures after { self.new ≡ with_row self.old node key row.old }
        ensures row { row.new ≡ known_row self.old node key }
        ensures valid { IsNodes self.new }
    {
        self.nodes[usize::from(node.n)].swap_row(key, row);
    }

    /// The row under the key, which is there.
    fn known_row(&self, node: NodeId, key: u64) -> &[u8]
        requires node { node.n < length self.now.nodes }
        requires there { has self.now node key ≡ true }
        ensures row { result.now ≡ known_row self.now node key }
    {
        self.nodes[usize::from(node.n)].row(key).unwrap().bytes()
    }

    /// Puts the row under a fresh key at a node that has room. Running out of memory changes
    /// nothing.
    fn store(&mut self, node: NodeId, key: u64, row: Row) -> Result<(), NoMemory>
        requires node { node.n < length self.old.nodes }
        requires fresh { has self.old node key ≡ false }
        requires room { held self.old node < self.old.room }
        ensures ok { OnOk result (self.new ≡ with_row self.old node key row) }
        ensures err { OnErr result (self.new ≡ self.old) }
        ensures valid { IsNodes self.new }
    {
        self.nodes[usize::from(node.n)].insert(key, row)?;
        Ok(())
    }
}

/// Whether the shard names that row of that node.
fn is_row(shard: Shard, node: NodeId, key: u64) -> bool
    ensures { IsTrue result ↔ NamesRow shard node key }
{
    shard.node.n == node.n && shard.key == key
}
