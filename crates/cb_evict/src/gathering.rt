//! A batch begins to leave, and its rows are handed out for coding.

ghost use Rattle.std.specs.Prelude.{◌≡◌, ◌^◌, ◌<◌, false, IfOk, None, OnErr};
ghost use Rattle.cb_types.specs.Config.{IsAccepted};
ghost use Rattle.cb_world.specs.Desks.{IsReadyDesk, Operates};
ghost use Rattle.cb_world.specs.World.{IsConfigured};
ghost use Rattle.cb_world.specs.Still.{IsStill};
ghost use Rattle.cb_evict.specs.Evicting.{TouchesSpans};
ghost use Rattle.cb_evict.specs.Gathering.{GatherEffect, GatherRule, gathered_reply};

use crate::beginning::begin_with;
use cb_types::{EncodeOrder, NoMemory, Reply, SetId};
use cb_world::{Desk, Far};

/// What a gather answers.
#[derive(Drop)]
pub enum Gathered {
    /// The batch is leaving from here, and this is the order to make its parities.
    Order(EncodeOrder),
    /// A refusal.
    Answer(Reply),
}

impl Gathered {
    /// The reply alone: an order is Batch with its set.
    pub(crate) fn into_reply(self) -> Reply
        ensures { result ≡ gathered_reply self }
    {
        match self {
            Gathered::Order(order) => Reply::Batch {
                set: SetId { n: order.set },
            },
            Gathered::Answer(reply) => reply,
        }
    }
}

/// Begins to evict k spans as `begin` does, but makes no parities: it hands out an order with the
/// rows of the spans, by which these can be made while no lock is held, and takes the memory that
/// they will stand in. Until they are installed, or made by a ship, no parity of the batch can be
/// put.
///
/// Answers Leaving, NoSpans and NoNodes as `begin` does, and hands out no order then; else the order,
/// whose set is the number that was drawn. Where there is no memory, which may be only where no batch
/// is leaving, nothing has changed.
pub fn gather<D: Desk>(desk: &mut D, far: &mut Far) -> Result<Gathered, NoMemory>
    requires config { IsAccepted (D.settings desk.old) }
    requires configured { IsConfigured (D.settings desk.old) far.old }
    requires counts { far.old.counts.sets < 2 ^ 62 }
    requires sound { IsReadyDesk D.shows desk.old far.old }
    ensures gathered { IfOk result (λ g. Operates D.run D.shows desk.old far.old desk.new far.new
        (GatherRule far.old far.new g)
        (GatherEffect far.old far.new g)) }
    ensures error { OnErr result (Operates D.run D.shows desk.old far.old desk.new far.new
        (TouchesSpans far.old)
        IsStill) }
    ensures unchanged { OnErr result (far.new ≡ far.old) }
    ensures none { OnErr result (far.old.leaving ≡ None) }
{
    begin_with(desk, far, false)
}
