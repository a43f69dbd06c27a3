//! Which nodes are up, and since when.

ghost use Rattle.std.specs.Prelude.{◌≡◌, ◌+◌, ◌-◌, ◌^◌, ◌<◌, ◌≤◌, length, true, IfOk, OnErr};
ghost use Rattle.cb_member.specs.Membership.{fresh_members, alive, incarnation, crashed_at, IsMembership};
ghost use Rattle.cb_member.specs.Answer.{CrashGives, JoinGives};

use crate::names::{Epoch, NodeId};
use crate::no_memory::NoMemory;
use crate::node::Node;
use std::alloc::Global;
use std::marker::Model;

/// What a crash or a join answers.
#[derive(Clone, Copy, Debug, PartialEq, Eq)]
pub enum MemberAnswer {
    /// It took place, at this epoch.
    Changed { epoch: Epoch },
    /// The node is down, so that it can't crash.
    Down { node: NodeId },
    /// The node is up, so that it can't join.
    Up { node: NodeId },
}

/// Which nodes are up, each node's incarnation, and the epoch of the crash that ended each
/// incarnation. The epoch counts crashes and joins.
#[derive(Drop)]
pub struct Members {
    epoch: u64,
    nodes: Vec<Node>,
}

impl Model for Members {
    ghost use Rattle.cb_member.specs.Membership.{Membership, IsMembership};

    ghost Value = { Membership };

    ghost view = { λ a. record { epoch = a.epoch; nodes = a.nodes.items } };

    ghost invariant = { λ a. IsMembership (record { epoch = a.epoch; nodes = a.nodes.items }) };
}

impl Members {
    /// So many nodes, numbered from 0, each up in incarnation 0; the epoch is 0.
    pub fn new(alloc: Global, nodes: u32) -> Result<Members, NoMemory>
        ensures fresh { IfOk result (λ members. members ≡ fresh_members nodes) }
        ensures valid { IfOk result IsMembership }
    {
        let mut all = Vec::with_capacity(alloc, nodes as usize)?;
        for _ in 0..nodes {
            all.push(Node {
                up: true,
                incarnation: 0,
                crashes: Vec::new(alloc),
            })?;
        }
        Ok(Members {
            epoch: 0,
            nodes: all,
        })
    }

    /// Answers Down exactly where the node is down, and otherwise Changed, unless there is no
    /// memory to keep the epoch. Running out of memory changes nothing.
    pub fn crash(&mut self, node: NodeId) -> Result<MemberAnswer, NoMemory>
        requires node { node.n < length self.old.nodes }
        requires epoch { self.old.epoch < 2 ^ 64 - 1 }
        ensures answer { IfOk result (λ answer. CrashGives self.old node answer self.new) }
        ensures err { OnErr result (self.new ≡ self.old) }
        ensures err_only_up { OnErr result (alive self.old node ≡ true) }

        // What a caller needs for the next call, whatever the answer.
        ensures count { length self.new.nodes ≡ length self.old.nodes }
        ensures epoch { self.new.epoch ≤ self.old.epoch + 1 }
        ensures valid { IsMembership self.new }
    {
        if !self.alive(node) {
            return Ok(MemberAnswer::Down { node });
        }
        let epoch = Epoch { n: self.epoch + 1 };
        let state = &mut self.nodes[usize::from(node.n)];
        state.crashes.push(epoch)?;
        state.up = false;
        self.epoch = epoch.n;
        Ok(MemberAnswer::Changed { epoch })
    }

    /// Answers Up exactly where the node is up, and otherwise Changed. Takes no memory.
    pub fn join(&mut self, node: NodeId) -> MemberAnswer
        requires node { node.n < length self.old.nodes }
        requires epoch { self.old.epoch < 2 ^ 64 - 1 }
        ensures answer { JoinGives self.old node result self.new }

        // What a caller needs for the next call, whatever the answer.
        ensures count { length self.new.nodes ≡ length self.old.nodes }
        ensures epoch { self.new.epoch ≤ self.old.epoch + 1 }
        ensures valid { IsMembership self.new }
    {
        if self.alive(node) {
            return MemberAnswer::Up { node };
        }
        let epoch = Epoch { n: self.epoch + 1 };
        let state = &mut self.nodes[usize::from(node.n)];
        state.up = true;
        state.incarnation += 1;
        self.epoch = epoch.n;
        MemberAnswer::Changed { epoch }
    }

    /// The present epoch: how many crashes and joins there were.
    pub fn epoch(&self) -> Epoch
        ensures epoch { result.n ≡ self.now.epoch }
        ensures valid { IsMembership self.now }
    {
        Epoch { n: self.epoch }
    }

    /// How many nodes there are, up or down.
    pub fn count(&self) -> u32
        ensures count { result ≡ length self.now.nodes }
        ensures valid { IsMembership self.now }
    {
        self.nodes.len() as u32
    }

    /// Whether the node is up.
    pub fn alive(&self, node: NodeId) -> bool
        requires { node.n < length self.now.nodes }
        ensures up { result ≡ alive self.now node }
        ensures valid { IsMembership self.now }
    {
        self.nodes[usize::from(node.n)].up
    }

    /// How often the node has joined.
    pub fn incarnation(&self, node: NodeId) -> u64
        requires { node.n < length self.now.nodes }
        ensures { result ≡ incarnation self.now node }
    {
        self.nodes[usize::from(node.n)].incarnation
    }

    /// The epoch of the crash that ended that incarnation, and None where none did. Constant time.
    pub fn crashed_at(&self, node: NodeId, incarnation: u64) -> Option<Epoch>
        requires { node.n < length self.now.nodes }
        ensures { result ≡ crashed_at self.now node incarnation }
    {
        let state = &self.nodes[usize::from(node.n)];
        let which = usize::try_from(incarnation).ok()?;
        state.crashes.get(which).copied()
    }
}
