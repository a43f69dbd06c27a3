//! What answers the lines of a lane: a seat of a world or a pass of a runtime.

ghost use Rattle.std.specs.Prelude.{ℕ, IfOk, OnErr};
ghost use Rattle.cb_lanes.specs.LineGoes.{Goes, Calls, Pins, Peeks, Unpins, Leaves};
ghost use Rattle.cb_lanes.specs.MayAsk.{IsNamedIfMade, MayCall, StayNamed};
ghost use Rattle.cb_lanes.specs.Stopping.{AskStops, Stops};

use cb_types::{Handle, Job, NoMemory, Reply};
use std::alloc::Global;

/// What answers the lines of a lane: a seat of a world, or a pass of the runtime that threads
/// share. A line is stated and proved once, over every caller. A call that finds no memory answers
/// so, and the lane can go on.
pub(crate) trait Caller {
    /// What the lane's lines change: the world, or the lane's pass and its pins.
    type State;

    // What is asked leads from one state to another, with this reply.
    ghost goes: { Self → Goes Self.State };

    // What is asked, and finds no memory, leads from one state to another.
    ghost stops: { Self → Stops Self.State };

    // The state is one in which lines may come.
    ghost well: { Self → Self.State → Type 0 };

    // How many nodes there are.
    ghost nodes: { Self → Self.State → ℕ };

    // The handle may be named.
    ghost may_name: { Self → Self.State → ℕ → Type 0 };

    /// A call with a job.
    fn turn(&self, alloc: Global, lane: &mut Self::State, job: Job) -> Result<Reply, NoMemory>
        requires well { well self.now lane.old }
        requires job { MayCall (nodes self.now lane.old) (may_name self.now lane.old) job }
        ensures goes { IfOk result (λ reply. goes self.now (Calls job) lane.old reply lane.new) }
        ensures stays { IfOk result (λ reply.
            StayNamed (may_name self.now lane.old) (may_name self.now lane.new)) }
        ensures made { IfOk result (λ reply.
            IsNamedIfMade (may_name self.now lane.new) job reply) }
        ensures error { OnErr result (AskStops (stops self.now) (Calls job) lane.old lane.new) }
        ensures well { well self.now lane.new };

    /// A pin of an object, until the lane gives it back.
    fn pin(&self, alloc: Global, lane: &mut Self::State, handle: Handle) -> Result<Reply, NoMemory>
        requires well { well self.now lane.old }
        requires named { may_name self.now lane.old handle.n }
        ensures goes { IfOk result (λ reply.
            goes self.now (Pins handle.n) lane.old reply lane.new) }
        ensures stays { IfOk result (λ reply.
            StayNamed (may_name self.now lane.old) (may_name self.now lane.new)) }
        ensures error { OnErr result (AskStops (stops self.now) (Pins handle.n) lane.old lane.new) }
        ensures well { well self.now lane.new };

    /// A look at an object under the lane's newest pin on it.
    fn peek(&self, alloc: Global, lane: &mut Self::State, handle: Handle) -> Result<Reply, NoMemory>
        requires well { well self.now lane.old }
        requires named { may_name self.now lane.old handle.n }
        ensures goes { IfOk result (λ reply.
            goes self.now (Peeks handle.n) lane.old reply lane.new) }
        ensures stays { IfOk result (λ reply.
            StayNamed (may_name self.now lane.old) (may_name self.now lane.new)) }
        ensures error { OnErr result
            (AskStops (stops self.now) (Peeks handle.n) lane.old lane.new) }
        ensures well { well self.now lane.new };

    /// The end of the lane's newest pin on an object.
    fn unpin(
        &self,
        alloc: Global,
        lane: &mut Self::State,
        handle: Handle,
    ) -> Result<Reply, NoMemory>
        requires well { well self.now lane.old }
        requires named { may_name self.now lane.old handle.n }
        ensures goes { IfOk result (λ reply.
            goes self.now (Unpins handle.n) lane.old reply lane.new) }
        ensures stays { IfOk result (λ reply.
            StayNamed (may_name self.now lane.old) (may_name self.now lane.new)) }
        ensures error { OnErr result
            (AskStops (stops self.now) (Unpins handle.n) lane.old lane.new) }
        ensures well { well self.now lane.new };

    /// The end of all pins of the lane.
    fn leave(&self, alloc: Global, lane: &mut Self::State) -> Result<Reply, NoMemory>
        requires well { well self.now lane.old }
        ensures goes { IfOk result (λ reply. goes self.now Leaves lane.old reply lane.new) }
        ensures stays { IfOk result (λ reply.
            StayNamed (may_name self.now lane.old) (may_name self.now lane.new)) }
        ensures error { OnErr result (AskStops (stops self.now) Leaves lane.old lane.new) }
        ensures well { well self.now lane.new };
}
