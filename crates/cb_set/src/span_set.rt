//! A span-set: its code, shards and slot tables.

ghost use Rattle.std.specs.Prelude.{◌≡◌, ◌+◌, ◌-◌, ◌^◌, ◌<◌, ◌≤◌, length, Some, slice_get, is_some, nat_eq, IfOk, OnOk, OnErr};
ghost use Rattle.std.specs.List.{list_any};
ghost use Rattle.cb_set.specs.SetState.{IsSet, code_of, dead_position, filled_position, fresh_set, is_live, live_at, parities, position_of, slot_at, with_cleared, without_object, with_position, with_shard};
ghost use Rattle.cb_set.specs.Matched.{live_mask};
ghost use Rattle.cb_set.specs.Nodes.{names_elsewhere};

use crate::position::Position;
use cb_member::{Code, NoMemory, NodeId, Shard};
use std::alloc::Global;
use std::marker::Model;

/// A span-set of k data positions and r parities: a shard for each position, data first, and for
/// each data position a live flag and the slot table of its span. All of its spans have as many
/// pages.
#[derive(Drop)]
pub struct SpanSet {
    id: u64,
    pages: u32,
    shards: Vec<Shard>,
    positions: Vec<Position>,
}

impl Model for SpanSet {
    ghost use Rattle.cb_set.specs.SetState.{SetState, IsSet, set_code, set_of};

    ghost Value = { SetState };

    ghost coded = { set_code };

    ghost view = { λ a. set_of a.id a.pages a.shards.items a.positions.items };

    ghost invariant = { λ a. IsSet (set_of a.id a.pages a.shards.items a.positions.items) };
}

impl SpanSet {
    /// A set of spans of so many pages each, whose data positions are all dead. Positions are
    /// numbers of 32 bits: more shards than they number are answered as out of memory.
    pub fn new(
        alloc: Global,
        id: u64,
        k: u32,
        r: u32,
        pages: u32,
        shards: &[Shard],
    ) -> Result<SpanSet, NoMemory>
        requires { length shards.now ≡ k + r }
        ensures fresh { IfOk result (λ set. set ≡ fresh_set id k pages shards.now) }
        ensures valid { IfOk result IsSet }
    {
        if shards.len() > u32::MAX as usize {
            return Err(NoMemory);
        }
        let shards = Vec::from_slice(alloc, shards)?;
        let mut positions = Vec::with_capacity(alloc, k as usize)?;
        for _ in 0..k {
            positions.push(Position {
                live: false,
                slots: Vec::new(alloc),
            })?;
        }
        Ok(SpanSet {
            id,
            pages,
            shards,
            positions,
        })
    }

    /// The set's number.
    pub fn id(&self) -> u64
        ensures { result ≡ self.now.id }
    {
        self.id
    }

    /// The pages of each of its spans, and so of each of its rows.
    pub fn pages(&self) -> u32
        ensures { result ≡ self.now.pages }
    {
        self.pages
    }

    /// The number of data positions.
    pub fn k(&self) -> u32
        ensures count { result ≡ length self.now.positions }
        ensures valid { IsSet self.now }
    {
        self.positions.len() as u32
    }

    /// The number of parities.
    pub fn r(&self) -> u32
        ensures parities { result ≡ parities self.now }
        ensures rest { result + length self.now.positions ≡ length self.now.shards }
    {
        (self.shards.len() - self.positions.len()) as u32
    }

    /// The set's code: how many data positions it has, and how many parities.
    pub fn code(&self) -> Code
        ensures { result ≡ code_of self.now }
    {
        Code {
            k: self.k(),
            r: self.r(),
        }
    }

    /// Gives the data position that slot table; it is live where the table names a handle. Running
    /// out of memory changes nothing.
    pub fn fill(&mut self, position: u32, handles: &[Option<u32>]) -> Result<(), NoMemory>
        requires { position < length self.old.positions }
        ensures ok { OnOk result
            (self.new ≡ with_position self.old position (filled_position handles.now)) }
        ensures err { OnErr result (self.new ≡ self.old) }
        ensures valid { IsSet self.new }
    {
        let slots = Vec::from_slice(*self.shards.allocator(), handles)?;
        let live = names_a_handle(handles);
        self.positions[position as usize] = Position { live, slots };
        Ok(())
    }

    /// The handle at a slot of the data position, and None where the slot is empty or not there.
    pub fn slot(&self, position: u32, slot: u32) -> Option<u32>
        requires { position < length self.now.positions }
        ensures { result ≡ slot_at self.now position slot }
    {
        let content = &self.positions[position as usize];
        match content.slots.get(slot as usize) {
            Some(handle) => *handle,
            None => None,
        }
    }

    /// The slot table of the data position: the handle at each slot that is taken.
    pub fn slots(&self, position: u32) -> &[Option<u32>]
        requires { position < length self.now.positions }
        ensures { result.now ≡ (position_of self.now position).slots }
    {
        let content = &self.positions[position as usize];
        content.slots.as_slice()
    }

    /// Empties one slot and leaves the live flag. Takes no memory.
    pub fn clear(&mut self, position: u32, slot: u32)
        requires { position < length self.old.positions }
        ensures cleared { self.new
            ≡ with_position self.old position (with_cleared (position_of self.old position) slot) }
        ensures valid { IsSet self.new }
    {
        let content = &mut self.positions[position as usize];
        if let Some(handle) = content.slots.get_mut(slot as usize) {
            *handle = None;
        }
    }

    /// Takes the object out of one slot. A position that names no handle then is dead, and gives the
    /// memory of its slot table back. Looks at the position's slots; takes no memory.
    pub fn take_out(&mut self, position: u32, slot: u32)
        requires { position < length self.old.positions }
        ensures left { self.new
            ≡ with_position self.old position (without_object (position_of self.old position) slot) }
        ensures valid { IsSet self.new }
    {
        self.clear(position, slot);
        if !names_a_handle(self.slots(position)) {
            self.kill(position);
        }
    }

    /// Takes the slot table from the data position, gives its memory back, and makes the position
    /// dead. Takes no memory.
    pub fn kill(&mut self, position: u32)
        requires { position < length self.old.positions }
        ensures killed { self.new ≡ with_position self.old position dead_position }
        ensures valid { IsSet self.new }
    {
        let slots = Vec::new(*self.shards.allocator());
        self.positions[position as usize] = Position { live: false, slots };
    }

    /// Whether the data position is live.
    pub fn live_at(&self, position: u32) -> bool
        requires { position < length self.now.positions }
        ensures { result ≡ live_at self.now position }
    {
        self.positions[position as usize].live
    }

    /// Whether a data position is live.
    pub fn is_live(&self) -> bool
        ensures { result ≡ is_live self.now }
    {
        self.positions.iter().any(|position| position.live)
    }

    /// The live data positions as bits, that of position 0 the lowest; for at most 32 positions.
    pub fn live_mask(&self) -> u32
        requires { length self.now.positions ≤ 32 }
        ensures { result ≡ live_mask self.now.positions }
    {
        mask_of(&self.positions)
    }

    /// Whether a position other than this names the node.
    pub fn names_elsewhere(&self, node: NodeId, position: u32) -> bool
        requires { position < length self.now.shards }
        ensures { result ≡ names_elsewhere self.now.shards node position }
    {
        let place = position as usize;
        names(&self.shards[..place], node) || names(&self.shards[place + 1..], node)
    }

    /// The shard of the position, data or parity.
    pub fn shard(&self, position: u32) -> Shard
        requires { position < length self.now.shards }
        ensures { slice_get self.now.shards position ≡ Some result }
    {
        self.shards[position as usize]
    }

    /// What the data positions hold.
    pub(crate) fn positions(&self) -> &[Position]
        ensures { result.now ≡ self.now.positions }
    {
        self.positions.as_slice()
    }

    /// The shards of all positions, data first.
    pub fn shards(&self) -> &[Shard]
        ensures shards { result.now ≡ self.now.shards }
        ensures valid { IsSet self.now }
    {
        self.shards.as_slice()
    }

    /// Puts another shard in place of the position's. Takes no memory.
    pub fn set_shard(&mut self, position: u32, shard: Shard)
        requires { position < length self.old.shards }
        ensures shard { self.new ≡ with_shard self.old position shard }
        ensures valid { IsSet self.new }
    {
        self.shards[position as usize] = shard;
    }
}

/// Whether one of the shards stands on the node.
fn names(shards: &[Shard], node: NodeId) -> bool
    ensures { result ≡ list_any (λ shard. nat_eq shard.node.n node.n) shards.now }
{
    shards.iter().any(|shard| shard.node.n == node.n)
}

/// The bits of the live positions, the first the lowest.
fn mask_of(positions: &[Position]) -> u32
    requires { length positions.now ≤ 32 }
    ensures { result ≡ live_mask positions.now }
{
    let mut mask = 0;
    for (place, position) in positions.iter().enumerate() {
        mask += u32::from(position.live) << place;
    }
    mask
}

/// Whether the slot table names a handle.
fn names_a_handle(slots: &[Option<u32>]) -> bool
    ensures { result ≡ list_any (λ slot. is_some slot) slots.now }
{
    slots.iter().any(|slot| slot.is_some())
}
