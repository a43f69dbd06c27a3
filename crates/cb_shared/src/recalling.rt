//! What the record of a pass has of objects.
ghost use Rattle.std.specs.Prelude.{◌≡◌};
ghost use Rattle.cb_shared.specs.Passes.{IsPassOf, record_of};
ghost use Rattle.cb_shared.specs.Recalls.{Recalls, first_version_of};
ghost use Rattle.cb_shared.specs.Seats.{IsOf, Moves, record_at};

use crate::board::{SeatAt, Top};
use crate::pass::Pass;
use crate::plays::{Opening, Recall};
use crate::runtime::Shared;
use cb_types::Config;
use std::marker::Brand;

impl Shared {
    /// Tells what the pass has of its own objects, which it made and no other pass knows: what it
    /// read and found of them is what it wrote itself. And of any object: what it read at a version
    /// that it wrote is that entry, and one entry goes on from the one before it. With the whole
    /// share all turns of the record are one history. One load; the record stays as it is. Takes no
    /// memory and waits for nobody.
    pub fn recall(&self, pass: &mut Pass)
        requires of { IsPassOf self.now pass.old }
        ensures of { IsPassOf self.now pass.new }
        ensures same { record_of pass.new ≡ record_of pass.old }
        ensures own { Recalls (first_version_of self.now) (record_of pass.new) }
    {
        recall_at::<Brand>(&self.board.shared, &mut pass.seat, &self.config);
    }
}

/// A look that tells what the record has of its own objects.
fn recall_at<W: Opening>(top: &Top, seat: &mut SeatAt, config: &Config)
    requires of { IsOf top.now.table_id top.now.key config.now seat.old }
    requires picks { W.first ≡ top.now.key.first }
    ensures same { Moves seat.old seat.new (record_at seat.old) }
    ensures own { Recalls top.now.key.first (record_at seat.old) }
{
    let _config = *config;
    top.load::<Recall<W>>(seat, 0);
}
