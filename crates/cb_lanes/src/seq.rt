//! The lines of a script on one thread.

ghost use Rattle.std.specs.Prelude.{◌≡◌, ◌<◌, ◌≤◌, ℕ, List, [], ◌∷◌, map, slice_index, IfOk};
ghost use Rattle.std.specs.List.{AllByRecursion};
ghost use Rattle.cb_model.specs.Legal.{IsLegalInOrder};
ghost use Rattle.cb_script.specs.Form.{IsRequest, IsScript};
ghost use Rattle.cb_script.specs.Roomy.{IsAtEase};
ghost use Rattle.cb_world.specs.Seats.{pins_of_seat};
ghost use Rattle.cb_world.specs.World.{IsSoundWorld, empty_world};
ghost use Rattle.cb_lanes.specs.Alone.{HasOwnLines, IsCalmReply, KeepAlone, fresh_lane};
ghost use Rattle.cb_lanes.specs.Asked.{asked, HasLineReply};
ghost use Rattle.cb_lanes.specs.Held.{HoldsAnswers};
ghost use Rattle.cb_lanes.specs.LineAnswered.{LineAnswered};
ghost use Rattle.cb_lanes.specs.LineStep.{LinesLead};
ghost use Rattle.cb_lanes.specs.LinesSoundly.{AreOnlyAnswers, LinesLeadSoundly};
ghost use Rattle.cb_lanes.specs.LinesLeft.{AreLeft};
ghost use Rattle.cb_lanes.specs.Lost.{AreInOrder, losses_of};
ghost use Rattle.cb_lanes.specs.Names.{AreReady};
ghost use Rattle.cb_lanes.specs.Scopes.{KeepScopes};

use crate::noting::answer_by;
use crate::resting::{LANES, lines_by_lane, rest, take_line};
use crate::seat::SeatCaller;
use crate::side::Side;
use cb_script::{Line, Script};
use cb_types::{Answers, Handle, Loss, Losses, NoMemory};
use cb_world::World;
use std::alloc::Global;
use std::collections::HashMap;

/// What a script leaves that was run on one thread.
#[derive(Drop)]
pub struct SeqEnd {
    /// The answers, one for each line after the header, in order.
    pub answers: Answers,
    /// The crashes that took place, in the order of their epochs.
    pub losses: Losses,
    /// The world that the lines led to.
    pub world: World,
}

/// Answers the lines of a script in order, in one world, where this side makes the parities of each
/// compaction. After the last line of a lane its pins are given back. A line costs a look at its
/// name by its hash, and what its event costs. On a script at ease no line is told of a want of
/// room or of a loss, and the own lines of each lane are answered as if it were alone. The lines
/// have no other answers, and lead to no other world.
pub fn run_lines(alloc: Global, s: &Script, side: Side) -> Result<SeqEnd, NoMemory>
    requires script { IsScript s.now }
    ensures lines { IfOk result (λ end. map asked end.answers ≡ s.now.lines) }
    ensures legal { IfOk result (λ end. IsLegalInOrder 1 s.now.config.handles end.answers) }
    ensures answered { IfOk result (λ end. AllByRecursion HasLineReply end.answers) }
    ensures leads { IfOk result (λ end.
        LinesLead side [] (empty_world s.now.config) end.answers end.world) }
    ensures along { IfOk result (λ end.
        LinesLeadSoundly side [] (empty_world s.now.config) end.answers end.world) }
    ensures fixes { IfOk result (λ end.
        AreOnlyAnswers side (empty_world s.now.config) end.answers end.world) }
    ensures sound { IfOk result (λ end. IsSoundWorld end.world) }
    ensures holds { IfOk result (λ end. HoldsAnswers end.world end.answers) }
    ensures losses { IfOk result (λ end. end.losses ≡ losses_of end.answers) }
    ensures in_order { IfOk result (λ end. AreInOrder end.losses) }
    ensures scopes { IfOk result (λ end. KeepScopes [] end.answers) }
    ensures idle { IfOk result (λ end. (seat : ℕ) → pins_of_seat end.world.seats seat ≡ []) }
    ensures calm { IfOk result (λ end.
        IsAtEase s.now → AllByRecursion (λ a. IsCalmReply a.reply) end.answers) }
    ensures alone { IfOk result (λ end. IsAtEase s.now → (lane : ℕ)
        → HasOwnLines s.now.lines lane → KeepAlone s.now.lines lane fresh_lane end.answers) }
{
    let mut world = World::new(alloc, s.config)?;
    let mut names = HashMap::new(alloc);
    let mut answers = Answers::new(alloc);
    let mut losses = Vec::new(alloc);
    let mut left = lines_by_lane(s.lines.as_slice());
    for line in s.lines.as_slice() {
        answer_line(
            alloc,
            &mut world,
            &mut names,
            &mut answers,
            &mut losses,
            &mut left,
            side,
            line,
        )?;
    }
    Ok(SeqEnd {
        answers,
        losses: Losses::from(losses),
        world,
    })
}

/// Answers a line in the world, and gives its lane's pins back where it is the last one that the
/// lane has left.
fn answer_line<'a>(
    alloc: Global,
    world: &mut World,
    names: &mut HashMap<&'a [u8], Handle>,
    answers: &mut Answers,
    losses: &mut Vec<Loss>,
    left: &mut [u32; LANES],
    side: Side,
    line: &'a Line,
) -> Result<(), NoMemory>
    requires lane { line.now.lane.n < 16 }
    requires some { 1 ≤ slice_index left.old line.now.lane.n }
    requires request { IsRequest world.old.desk.settings.nodes line.now.request }
    requires ready { AreReady world.old.desk.settings.handles names.old }
    requires sound { IsSoundWorld world.old }
    ensures line { (later : List ℕ) → AreLeft (line.now.lane.n ∷ later) left.old
        → IfOk result (λ done. LineAnswered side line.now later world.old names.old answers.old
        world.new names.new answers.new) }
    ensures losses { losses.old.items ≡ losses_of answers.old
        → IfOk result (λ done. losses.new.items ≡ losses_of answers.new) }
    ensures left { (later : List ℕ) → AreLeft (line.now.lane.n ∷ later) left.old
        → AreLeft later left.new }
    ensures sound { IsSoundWorld world.new }
{
    let caller = SeatCaller {
        side,
        seat: u32::from(line.lane.n),
    };
    let behind = take_line(left, line.lane.n);
    answer_by(alloc, &caller, world, names, answers, losses, line)?;
    rest(alloc, world, caller.seat, behind)
}
