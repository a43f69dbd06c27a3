//! One node as the membership knows it.

use crate::names::Epoch;
use std::marker::Model;

/// One node: whether it is up, how often it has joined, and the epochs of its crashes, the one
/// that ended incarnation 0 first.
#[derive(Drop)]
pub struct Node {
    pub up: bool,
    pub incarnation: u64,
    pub crashes: Vec<Epoch>,
}

impl Model for Node {
    ghost use Rattle.cb_member.specs.Membership.{NodeState};

    ghost Value = { NodeState };

    ghost view = { λ a. record {
      up = a.up;
      incarnation = a.incarnation;
      crashes = a.crashes.items;
    } };
}
