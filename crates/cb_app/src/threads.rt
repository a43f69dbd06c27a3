//! Lanes and workers as threads.
ghost use Rattle.std.specs.Prelude.{◌≡◌, ◌≤◌, [], IfOk};
ghost use Rattle.cb_script.specs.Form.{AreInMode, AreLines, IsScript};
ghost use Rattle.cb_script.specs.declared.script.Mode.TheVariants as scripts;
ghost use Rattle.cb_shared.specs.Closing.{IsClosedBy};
ghost use Rattle.cb_shared.specs.Passes.{IsPassOf, IsRuntimeBegun, record_of};
ghost use Rattle.cb_app.specs.ByLane.{by_lane, of_lane};
ghost use Rattle.cb_app.specs.Crew.{IsLaneTold, IsTextWritten, StandIn, names_in, work_in};
ghost use Rattle.cb_app.specs.CrewTurns.{HasCrew};
ghost use Rattle.cb_app.specs.Threaded.{AreLosses, IsRun};
ghost use Rattle.cb_app.specs.TwoTexts.{TellsAsSeq};
ghost use Rattle.cb_lanes.specs.Bodies.{KnowsNames};
ghost use Rattle.cb_lanes.specs.Lost.{losses_of};
ghost use Rattle.cb_text.specs.Line.{text_of};
ghost use Rattle.cb_workers.specs.declared.worker.Worker.{Worker};

use crate::by_lane::{names_of, of_lane};
use crate::crew::{ToldEnd, run_crew};
use cb_cli::{Pieces, answers_text};
use cb_lanes::{LaneEnd, Names, lane_body, note_loss};
use cb_script::Script;
use cb_shared::{Pass, Seal, Shared};
use cb_types::{Answers, Gate, Lane, Loss, Losses, NoMemory};
use cb_world::World;
use std::alloc::Global;
use std::sync::Wait;
use std::thread::Threads;

/// What a script leaves that was run by threads.
#[derive(Drop)]
pub struct ThreadsEnd {
    /// The answers, one for each line after the header, by lane and then by line.
    pub answers: Answers,
    /// The crashes that took place, in the order of their epochs.
    pub losses: Losses,
    /// The world of the runtime that was closed.
    pub world: World,
    /// Shows that world, and the record of all calls.
    pub seal: Seal,
    /// The text that tells the answers.
    pub text: Pieces,
}

/// Answers the lines of a script: those of lane 0 first, and then those of lanes 1 to 15, each lane
/// in a thread of its own, beside the four workers, which make as many turns as are configured. The
/// lanes and workers call one shared runtime, which is closed after the last of them. A thread that
/// can't be started is run by the caller. The gate is told of each answered line and of each turn
/// of a worker.
pub fn run_threads<R: Threads + Wait + Sync, G: Gate>(
    rt: &R,
    alloc: Global,
    s: &Script,
    gate: &G,
) -> Result<ThreadsEnd, NoMemory>
    requires script { IsScript s.now }
    requires mode { AreInMode scripts.Threads s.now.lines }
    ensures run { IfOk result (IsRun s.now) }
    // What one thread answers to the script is told by the same text of each lane's own lines.
    ensures alike { IfOk result (TellsAsSeq s.now) }
    ensures text { IfOk result (λ end. end.text ≡ text_of end.answers) }
{
    let (shared, pass) = Shared::new(alloc, s.config)?;
    let told = run_all(rt, alloc, &shared, pass, s, gate)?;
    end(alloc, shared, told)
}

/// The lines of all lanes, and the turns of the workers.
fn run_all<R: Threads + Wait + Sync, G: Gate>(
    rt: &R,
    alloc: Global,
    shared: &Shared,
    pass: Pass,
    s: &Script,
    gate: &G,
) -> Result<ToldEnd, NoMemory>
    requires begun { IsRuntimeBegun 1 s.now.config shared.now pass }
    requires lines { AreLines s.now.config.nodes [] s.now.lines }
    ensures told { IfOk result (λ told. IsLaneTold shared.now [] (by_lane s.now.lines) told.end) }
    ensures work { IfOk result (λ told. (w : Worker) → shared.now.config.turns
        ≤ work_in w (record_of told.end.pass)) }
    ensures crew { IfOk result (λ told. HasCrew shared.now.config (record_of told.end.pass)
        told.end.answers) }
    ensures text { IfOk result IsTextWritten }
{
    let mut end = run_first(rt, alloc, shared, pass, s, gate)?;
    let names = names_of(alloc, &end.answers)?;
    let mut text = Pieces::one(alloc, answers_text(alloc, &end.answers)?);
    run_crew(
        rt,
        alloc,
        shared,
        &mut end,
        &mut text,
        s.lines.as_slice(),
        &names,
        gate,
    )?;
    Ok(ToldEnd { end, text })
}

/// The lines of lane 0, which come before all others.
fn run_first<R: Wait, G: Gate>(
    rt: &R,
    alloc: Global,
    shared: &Shared,
    pass: Pass,
    s: &Script,
    gate: &G,
) -> Result<LaneEnd, NoMemory>
    requires begun { IsRuntimeBegun 1 s.now.config shared.now pass }
    requires lines { AreLines s.now.config.nodes [] s.now.lines }
    ensures told { IfOk result (IsLaneTold shared.now [] (of_lane 0 s.now.lines)) }
    ensures whole { IfOk result (λ told. (record_of told.pass).share ≡ 64) }
    ensures known { IfOk result (λ told. KnowsNames (record_of told.pass)
        (names_in told.answers)) }
    ensures stand { IfOk result (λ told. StandIn (record_of told.pass) told.answers) }
{
    let lane = Lane { n: 0 };
    let lines = of_lane(alloc, s.lines.as_slice(), lane)?;
    let names = Names::new(alloc);
    match lane_body(
        rt,
        alloc,
        shared,
        pass,
        lane,
        lines.as_slice(),
        &names,
        gate,
    ) {
        Ok(end) => Ok(end),
        Err(_stopped) => Err(NoMemory),
    }
}

/// Closes the runtime.
fn end(alloc: Global, shared: Shared, told: ToldEnd) -> Result<ThreadsEnd, NoMemory>
    requires of { IsPassOf shared told.end.pass }
    requires text { IsTextWritten told }
    ensures answers { IfOk result (λ end. end.answers ≡ told.end.answers) }
    ensures closed { IfOk result (λ end. IsClosedBy shared told.end.pass end.world end.seal) }
    ensures losses { IfOk result (λ end. AreLosses end.losses told.end.answers) }
    ensures text { IfOk result (λ end. end.text ≡ text_of end.answers) }
{
    let ToldEnd { end, text } = told;
    let LaneEnd { answers, pass } = end;
    let losses = losses_of(alloc, &answers)?;
    match shared.close(alloc, pass) {
        Ok((world, seal)) => Ok(ThreadsEnd {
            answers,
            losses,
            world,
            seal,
            text,
        }),
        Err(_refused) => Err(NoMemory),
    }
}

/// The crashes that took place, in the order of their epochs.
fn losses_of(alloc: Global, answers: &Answers) -> Result<Losses, NoMemory>
    ensures { IfOk result (λ losses. AreLosses losses answers.now) }
{
    let mut losses = found_losses(alloc, answers)?;
    losses.sort_by_key(|loss| loss.epoch.n)?;
    Ok(Losses::from(losses))
}

/// The crashes that took place, in the order of the answers.
fn found_losses(alloc: Global, answers: &Answers) -> Result<Vec<Loss>, NoMemory>
    ensures { IfOk result (λ losses. losses.items ≡ losses_of answers.now) }
{
    let mut losses = Vec::new(alloc);
    for answer in answers.as_slice() {
        note_loss(&mut losses, &answer.request, &answer.reply)?;
    }
    Ok(losses)
}
