//! What a turn is asked for that hands an order out, or takes one, and what it answers.
ghost use Rattle.std.specs.Prelude.{◌≡◌};
ghost use Rattle.cb_swapin.specs.LandRule.{done_order};
ghost use Rattle.cb_core.specs.Ordered.{fetch_answer};
ghost use Rattle.cb_core.specs.OrderParts.{decode_in};
ghost use Rattle.cb_shared.specs.declared.asked.Outcome.TheVariants as ends;
ghost use Rattle.cb_shared.specs.Ordering.{IsFetched, IsGathered, IsInstalled, IsLanded};
ghost use Rattle.cb_shared.specs.Ordering.{fetched_of, order_run};

use cb_evict::Gathered;
use cb_orders::{DecodeDone, EncodeDone};
use cb_swapin::Fetching;
use cb_types::{Handle, NoMemory, Reply};

/// One of the four jobs, with the order that was run where it takes one.
#[derive(Clone, Copy)]
pub enum Asked<'a> {
    /// Spans begin to leave, and the order to make their parities is handed out.
    Gather,
    /// The batch gets the parities of the order.
    Install(&'a EncodeDone),
    /// The order to make the row of a far object is handed out.
    Fetch(Handle),
    /// The position of the order is brought in with its row.
    Land(&'a DecodeDone),
}

/// What a turn of such a job answers, each as it is asked. An install takes no memory.
pub enum Outcome {
    Gather(Result<Gathered, NoMemory>),
    Install(Reply),
    Fetch(Result<Fetching, NoMemory>),
    Land(Result<Reply, NoMemory>),
}

impl Asked<'_> {
    /// The order that was run of a landing.
    pub(crate) fn landing(&self) -> Option<&DecodeDone>
        ensures { done_order result ≡ decode_in (order_run self.now) }
    {
        match self {
            Asked::Land(done) => Some(*done),
            _ => None,
        }
    }
}

impl Outcome {
    /// What a gather answers.
    pub(crate) fn into_gathered(self) -> Result<Gathered, NoMemory>
        requires { IsGathered self }
        ensures { self ≡ ends.Gather result }
    {
        match self {
            Outcome::Gather(gathered) => gathered,
            _ => unreachable!(),
        }
    }

    /// What the install of an order answers.
    pub(crate) fn into_installed(self) -> Reply
        requires { IsInstalled self }
        ensures { self ≡ ends.Install result }
    {
        match self {
            Outcome::Install(reply) => reply,
            _ => unreachable!(),
        }
    }

    /// What a fetch of an object answers.
    pub(crate) fn into_fetching(self) -> Result<Fetching, NoMemory>
        requires { IsFetched self }
        ensures { self ≡ ends.Fetch result }
    {
        match self {
            Outcome::Fetch(fetching) => fetching,
            _ => unreachable!(),
        }
    }

    /// What the landing of an order answers.
    pub(crate) fn into_landed(self) -> Result<Reply, NoMemory>
        requires { IsLanded self }
        ensures { self ≡ ends.Land result }
    {
        match self {
            Outcome::Land(reply) => reply,
            _ => unreachable!(),
        }
    }
}

/// The object of a fetch that was answered Freed.
pub(crate) fn fetched_of(h: Handle, fetching: &Result<Fetching, NoMemory>) -> Option<u32>
    ensures { result ≡ fetched_of h.n (fetch_answer fetching.now) }
{
    match fetching {
        Ok(Fetching::Answer(reply)) => match reply {
            Reply::Freed => Some(h.n),
            _ => None,
        },
        _ => None,
    }
}
