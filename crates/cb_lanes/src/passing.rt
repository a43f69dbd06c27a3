//! The lane of a pass of the runtime that threads share.
ghost use Rattle.cb_rule.specs.Steps.{Knows};
ghost use Rattle.cb_shared.specs.Passes.{IsPassOf, record_of};
ghost use Rattle.cb_lanes.specs.Passing.{AreHeld, goes_in};
ghost use Rattle.cb_lanes.specs.Stopping.{stops_in};

use crate::asks::{call, leave, peek, pin, unpin};
use crate::caller::Caller;
use crate::kept_pins::KeptPins;
use cb_shared::{Pass, Shared};
use cb_types::{Handle, Job, NoMemory, Reply};
use std::alloc::Global;
use std::sync::Wait;

/// The pass of a lane, and the pins that the lane keeps beside it.
#[derive(Drop)]
pub(crate) struct Passing {
    pub pass: Pass,
    pub pins: KeptPins,
}

/// Answers the lines of a lane by calls of the shared runtime with the lane's pass.
#[derive(Drop)]
pub(crate) struct PassCaller<'a, R: Wait> {
    pub rt: &'a R,
    pub shared: &'a Shared,
}

impl<'a, R: Wait> Caller for PassCaller<'a, R> {
    type State = Passing;

    ghost goes = { λ c ask a r b.
        goes_in c.shared.now.config ask (record_of a.pass) r (record_of b.pass) };

    ghost stops = { λ c ask a b.
        stops_in c.shared.now.config ask (record_of a.pass) (record_of b.pass) };

    ghost well = { λ c a.
        IsPassOf c.shared.now a.pass × AreHeld a.pins.items (record_of a.pass) };

    ghost nodes = { λ c a. c.shared.now.config.nodes };

    ghost may_name = { λ c a h. Knows h (record_of a.pass) };

    fn turn(&self, alloc: Global, lane: &mut Passing, job: Job) -> Result<Reply, NoMemory> {
        call(self.rt, alloc, self.shared, &mut lane.pass, &job)
    }

    fn pin(&self, alloc: Global, lane: &mut Passing, handle: Handle) -> Result<Reply, NoMemory> {
        pin(
            self.rt,
            alloc,
            self.shared,
            &mut lane.pass,
            &mut lane.pins,
            handle,
        )
    }

    fn peek(&self, alloc: Global, lane: &mut Passing, handle: Handle) -> Result<Reply, NoMemory> {
        peek(alloc, self.shared, &mut lane.pass, &lane.pins, handle)
    }

    fn unpin(&self, alloc: Global, lane: &mut Passing, handle: Handle) -> Result<Reply, NoMemory> {
        Ok(unpin(self.shared, &mut lane.pass, &mut lane.pins, handle))
    }

    fn leave(&self, alloc: Global, lane: &mut Passing) -> Result<Reply, NoMemory> {
        let pins = leave(self.shared, &mut lane.pass, &mut lane.pins);
        Ok(Reply::Left { pins })
    }
}
