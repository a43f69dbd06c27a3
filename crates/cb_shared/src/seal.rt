//! The seal of a runtime that was closed.
ghost use Rattle.std.specs.Prelude.{◌≡◌};
ghost use Rattle.cb_world.specs.World.{WorldState};
ghost use Rattle.cb_rule.specs.declared.view.View.{View};
ghost use Rattle.cb_shared.specs.Sealing.{AnyWord, no_view, no_world, sealed, unsealed};
ghost use Rattle.cb_shared.specs.Seats.{record_at};

use crate::board::SeatAt;
use crate::boxed_far::BoxedFar;
use crate::sealed::Sealed;
use atomic_table::{Mark, PerchPlay, PerchRule, RuledPerch};
use cb_rule::View;
use cb_world::World;
use std::marker::{Brand, PhantomData};

/// What is put under a seal. Each call picks it.
pub trait UnderSeal {
    ghost world: { WorldState };

    ghost view: { View };
}

impl UnderSeal for Brand {
    ghost world = { no_world };

    ghost view = { no_view };
}

/// A step that puts this under a seal.
pub struct Puts<W> {
    picked: PhantomData<W>,
}

impl<W: UnderSeal> PerchPlay<Sealed> for Puts<W> {
    ghost then = { λ _ _ _ _ after. after ≡ sealed W.world W.view };
}

/// The word at which a seal is made has no rule.
pub struct Blank;

impl PerchRule<Sealed> for Blank {
    ghost holds = { AnyWord };

    ghost first = { unsealed };
}

/// A word at which a seal is made, which is no word of the table.
type Bench = RuledPerch<Option<BoxedFar>, View, Sealed, Blank>;

/// Shows that a runtime was closed: contracts see in it the world that `close` answered and the
/// record of the pass that closed. It has no bytes, `close` alone makes it, and it can't be copied.
#[derive(Drop)]
pub struct Seal {
    mark: Mark<Sealed>,
}

/// A seal that is being made.
#[derive(Drop)]
pub(crate) struct Draft {
    bench: Bench,
    mark: Mark<Sealed>,
    ghost tied: { mark.perch ≡ bench.name },
}

impl Draft {
    /// With the view of a seat under it.
    pub(crate) fn of(seat: &SeatAt) -> Draft
        ensures { result.mark.view.view ≡ record_at seat.now }
    {
        let (bench, mark) = Bench::new(seat, 0);
        let mut draft = Draft { bench, mark };
        put::<Brand, SeatAt>(&mut draft, seat);
        draft
    }

    /// The seal, with this world beside the view.
    pub(crate) fn seal(self, world: &World) -> Seal
        ensures { result.mark.view ≡ sealed world.now self.mark.view.view }
    {
        let mut draft = self;
        put::<Brand, World>(&mut draft, world);
        let Draft { bench: _, mark } = draft;
        Seal { mark }
    }
}

/// Puts what the call picked under the seal, by something that it was told.
fn put<W: UnderSeal, T>(draft: &mut Draft, told: &T)
    ensures { draft.new.mark.view ≡ sealed W.world W.view }
{
    let _told = told;
    draft.bench.swap::<Puts<W>>(&mut draft.mark, 0);
}
