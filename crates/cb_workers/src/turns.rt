//! The jobs of a worker's turns, one after another.

ghost use Rattle.std.specs.Prelude.{◌≡◌, ◌<◌, Option};
ghost use Rattle.cb_workers.specs.Rules.{
  after_batch,
  after_done,
  after_pair,
  after_visit,
  end_of,
  next_visit,
  visited,
};

use cb_types::{Handle, Job, Reply};

/// The handle of the object that a filter's turn is at; 0 where the job is another one.
fn visited(job: &Job) -> u32
    ensures { result ≡ visited job.now }
{
    match job {
        Job::Filter { handle } => handle.n,
        _ => 0,
    }
}

/// The filter goes from handle to handle, and begins anew after the last one that was made.
pub(crate) fn after_visit(handles: u32, job: &Job, reply: &Reply) -> Job
    ensures { result ≡ after_visit handles job.now reply.now }
{
    Job::Filter {
        handle: Handle {
            n: next_visit(handles, visited(job), reply),
        },
    }
}

/// The handle after this one; 0 after one that was never made, and after the last one.
fn next_visit(handles: u32, h: u32, reply: &Reply) -> u32
    ensures { result ≡ next_visit handles h reply.now }
{
    match reply {
        Reply::Unmade => 0,
        _ if handles > 0 && h < handles - 1 => h + 1,
        _ => 0,
    }
}

/// A batch gets its parities, is shipped row by row, and ends in a commit; where no node can take a
/// row, in an abort.
pub(crate) fn after_batch(job: &Job, reply: &Reply) -> Job
    ensures { result ≡ after_batch job.now reply.now }
{
    match reply {
        Reply::Batch { .. } => Job::Install,
        Reply::Done => after_done(job),
        Reply::Shipped { .. } | Reply::Short { .. } => Job::Ship,
        Reply::AllShipped => Job::Commit,
        Reply::NoNode => Job::Abort,
        _ => Job::Gather,
    }
}

/// A batch that has its parities is shipped; after one that was given up the next is gathered.
fn after_done(job: &Job) -> Job
    ensures { result ≡ after_done job.now }
{
    match job {
        Job::Install => Job::Ship,
        _ => Job::Gather,
    }
}

/// A pair is patched row by row, and ends in a merge; where a node is full, it is parted.
pub(crate) fn after_pair(reply: &Reply) -> Job
    ensures { result ≡ after_pair reply.now }
{
    match reply {
        Reply::Pair { .. } | Reply::Stepped { .. } | Reply::Unfinished { .. } => Job::Patch,
        Reply::AllStepped => Job::Merge,
        Reply::NodeFull { .. } => Job::Part,
        _ => Job::Pair,
    }
}

/// The turn that ends what a worker has begun, where its next job would go on with it.
pub(crate) fn end_of(due: &Job) -> Option<Job>
    ensures { result ≡ end_of due.now }
{
    match due {
        Job::Install | Job::Ship | Job::Commit | Job::Abort => Some(Job::Abort),
        Job::Patch | Job::Merge | Job::Part => Some(Job::Part),
        _ => None,
    }
}
