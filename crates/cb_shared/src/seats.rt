//! Passes that are split and joined.
ghost use Rattle.std.specs.Prelude.{◌≡◌, ◌<◌, ◌≤◌, [], false};
ghost use Rattle.cb_rule.specs.Lists.{Each};
ghost use Rattle.cb_rule.specs.Steps.{joined, left_of, right_of};
ghost use Rattle.cb_shared.specs.Passes.{IsPassOf, PinFits, record_of};
ghost use Rattle.cb_shared.specs.Joining.{IsSpare, unpinned_all};
ghost use Rattle.cb_shared.specs.Seats.{IsOf, Moves, record_at};

use crate::board::{SeatAt, Top};
use crate::handles::{first_handle, no_pins};
use crate::pass::Pass;
use crate::pinning::unpin_one;
use crate::plays::{Cut, Given, Glue, Keyed, Tally};
use crate::runtime::Shared;
use cb_types::Config;
use std::marker::Brand;

impl Shared {
    /// A new pass with so much of the share of this one. It has read all that this one has written
    /// or read. Takes no memory and waits for nobody.
    pub fn split(&self, pass: &mut Pass, share: u32) -> Pass
        requires of { IsPassOf self.now pass.old }
        requires share { (1 ≤ share) × (share < (record_of pass.old).share) }
        ensures of { IsPassOf self.now pass.new }
        ensures new { IsPassOf self.now result }
        ensures left { record_of pass.new ≡ left_of share (record_of pass.old) }
        ensures right { record_of result ≡ right_of share (record_of pass.old) }
    {
        let seat = split_seat::<Brand>(&self.board.shared, &mut pass.seat, &self.config, share);
        pass.share -= share;
        Pass {
            seat,
            share,
            pins: no_pins(),
            tries: None,
        }
    }

    /// A pass takes another in, with its share and its record, whose lists stand in front. The
    /// pins of the other one are given back before. Takes no memory and waits for nobody.
    pub fn join_pass(&self, pass: &mut Pass, other: Pass)
        requires of { IsPassOf self.now pass.old }
        requires other { IsPassOf self.now other }
        requires free { (record_of other).holds ≡ false }
        ensures of { IsPassOf self.now pass.new }
        ensures joined { record_of pass.new
            ≡ joined (record_of pass.old) (unpinned_all (record_of other)) }
    {
        let mut other = other;
        give_back(&self.board.shared, &mut other, &self.config);
        pass.share += other.share;
        pass.tries = other.tries.or(pass.tries);
        let Pass { seat, .. } = other;
        join_seats::<Brand>(&self.board.shared, &mut pass.seat, seat, &self.config);
        // a look tells how large the share may be
        self.board.shared.load::<Tally>(&mut pass.seat, 0);
    }
}

/// A new seat with so much of the share of this one.
fn split_seat<W: Given>(top: &Top, seat: &mut SeatAt, config: &Config, share: u32) -> SeatAt
    requires of { IsOf top.now.table_id top.now.key config.now seat.old }
    requires picks { W.share ≡ share }
    requires share { (1 ≤ share) × (share < (record_at seat.old).share) }
    requires fresh { (record_at seat.old).fresh ≡ [] }
    ensures left { Moves seat.old seat.new (left_of share (record_at seat.old)) }
    ensures right { (result.table_id ≡ seat.old.table_id)
        × (result.me ≡ (right_of share (record_at seat.old), [])) }
{
    let _share = share;
    let _config = config;
    top.split_seat::<Cut<W>>(seat)
}

/// Gives all pins of a pass back.
pub(crate) fn give_back(top: &Top, pass: &mut Pass, config: &Config)
    requires of { IsOf top.now.table_id top.now.key config.now pass.old.seat }
    requires pins { Each (PinFits config.now) (record_of pass.old).pins }
    ensures { Moves pass.old.seat pass.new.seat (unpinned_all (record_of pass.old)) }
{
    while let Some(h) = first_handle(&pass.pins) {
        unpin_one(top, &mut pass.seat, &mut pass.pins, config, h);
    }
}

/// A seat takes another in.
fn join_seats<W: Keyed>(top: &Top, seat: &mut SeatAt, other: SeatAt, config: &Config)
    requires of { IsOf top.now.table_id top.now.key config.now seat.old }
    requires picks { W.key ≡ config.now }
    requires other { IsSpare top.now.table_id other }
    requires fresh { (record_at seat.old).fresh ≡ [] }
    requires out { (record_at seat.old).holds ≡ false }
    ensures { Moves seat.old seat.new (joined (record_at seat.old) (record_at other)) }
{
    let _config = config;
    top.join_seat::<Glue<W>>(seat, other)
}
