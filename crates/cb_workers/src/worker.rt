//! The four workers.

ghost use Rattle.std.specs.Prelude.{◌≡◌};
ghost use Rattle.cb_workers.specs.Rules.{first_job, lane_of, next_job};

use crate::turns::{after_batch, after_pair, after_visit};
use cb_types::{Handle, Job, Lane, Reply};

/// One of the four workers: what its turns are for.
#[derive(Clone, Copy)]
pub enum Worker {
    /// Objects move to spans of their temperature, one after the other.
    Filter,
    /// Batches of spans leave local memory, in steps.
    Evict,
    /// Pairs of span-sets become one, in steps.
    Compact,
    /// Lost rows are made again.
    Rebuild,
}

impl Worker {
    /// The number under which the worker comes to the gate: 16 to 19.
    pub fn lane(self) -> Lane
        ensures lane { result ≡ lane_of self }
    {
        match self {
            Worker::Filter => Lane { n: 16 },
            Worker::Evict => Lane { n: 17 },
            Worker::Compact => Lane { n: 18 },
            Worker::Rebuild => Lane { n: 19 },
        }
    }

    /// The job of the worker's first turn.
    pub fn first(self) -> Job
        ensures job { result ≡ first_job self }
    {
        match self {
            Worker::Filter => Job::Filter {
                handle: Handle { n: 0 },
            },
            Worker::Evict => Job::Gather,
            Worker::Compact => Job::Pair,
            Worker::Rebuild => Job::Rebuild,
        }
    }

    /// The job of the turn after one with this job and reply, of so many configured handles.
    pub fn next(self, handles: u32, job: &Job, reply: &Reply) -> Job
        ensures job { result ≡ next_job handles self job.now reply.now }
    {
        match self {
            Worker::Filter => after_visit(handles, job, reply),
            Worker::Evict => after_batch(job, reply),
            Worker::Compact => after_pair(reply),
            Worker::Rebuild => Job::Rebuild,
        }
    }
}
