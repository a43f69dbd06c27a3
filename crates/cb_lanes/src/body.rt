//! What a lane answers that runs beside others, in a thread of its own.
ghost use Rattle.std.specs.Prelude.{◌≡◌, ◌⊎◌, ℕ, List, [], ◌∷◌, ◌++◌, map, IfOk, IfErr, None};
ghost use Rattle.std.specs.Prelude.{OnErr, OnOk};
ghost use Rattle.std.specs.List.{AllByRecursion};
ghost use Rattle.cb_script.specs.Form.{IsRequest};
ghost use Rattle.cb_shared.specs.Joining.{unpinned_all};
ghost use Rattle.cb_shared.specs.Passes.{IsPassOf, record_of};
ghost use Rattle.cb_shared.specs.Recalls.{Recalls, first_version_of};
ghost use Rattle.cb_lanes.specs.AloneUntil.{LaneKeepsAlone};
ghost use Rattle.cb_lanes.specs.Asked.{asked, HasLineReply};
ghost use Rattle.cb_lanes.specs.Bodies.{AddsBacked, AnswersOne, AreLinesOf, IsFront, KeepHandles};
ghost use Rattle.cb_lanes.specs.Bodies.{KnowsKept, KnowsNames, LaneGoes, LinesGo};
ghost use Rattle.cb_lanes.specs.LaneStops.{LaneStops, LinesStop};
ghost use Rattle.cb_lanes.specs.LastTries.{HasLastTry};
ghost use Rattle.cb_lanes.specs.Names.{kept_number, request_handle};
ghost use Rattle.cb_lanes.specs.Passing.{AreHeld, goes_in};
ghost use Rattle.cb_lanes.specs.Rising.{LaneRises};
ghost use Rattle.cb_lanes.specs.Scoped.{LaneScoped};
ghost use Rattle.cb_lanes.specs.Stopping.{LineStops, stops_in};

use crate::answering::reply_to;
use crate::asks::leave;
use crate::kept_pins::KeptPins;
use crate::passing::{PassCaller, Passing};
use cb_script::Line;
use cb_shared::{Pass, Shared};
use cb_types::{Answer, Answers, Gate, Handle, Lane, Name, NoMemory};
use std::alloc::Global;
use std::collections::HashMap;
use std::marker::Model;
use std::sync::Wait;

/// What a lane leaves: its answers, one a line, and its pass.
#[derive(Drop)]
pub struct LaneEnd {
    pub answers: Answers,
    pub pass: Pass,
}

/// What a lane leaves that found no memory.
#[derive(Drop)]
pub struct Stopped {
    pub pass: Pass,
    pub answers: Answers,
}

/// A name that was made, with its handle: None where the make was refused.
#[derive(Drop)]
pub struct Named {
    pub name: Name,
    pub handle: Option<Handle>,
}

/// Names, in the order of their makes. Contracts see them as a list.
#[derive(Drop)]
pub struct Names {
    items: Vec<Named>,
}

impl Model for Names {
    ghost use Rattle.std.specs.Prelude.{List};
    ghost use Rattle.cb_lanes.specs.declared.body.Named.{Named};

    ghost Value = { List Named };

    ghost view = { λ a. a.items.items };
}

impl Names {
    /// No names; takes no memory.
    pub fn new(alloc: Global) -> Names
        ensures empty { result ≡ [] }
    {
        Names {
            items: Vec::new(alloc),
        }
    }

    /// The names, the first one first.
    pub fn as_slice(&self) -> &[Named]
        ensures items { result.now ≡ self.now }
    {
        self.items.as_slice()
    }

    /// Adds a name at the end. Running out of memory leaves the list as it was.
    pub fn push(&mut self, item: Named) -> Result<(), NoMemory>
        ensures ok { OnOk result (self.new ≡ self.old ++ item ∷ []) }
        ensures err { OnErr result (self.new ≡ self.old) }
    {
        self.items.push(item)?;
        Ok(())
    }
}

/// Answers the lines of one lane in order, in whatever thread it is called. The names are those
/// that were made before, with their handles. After each line the gate is told of it, and after the
/// last one all pins are given back. Where there is no memory for a line, the answers before it and
/// the pass come back, without a pin. They are answers as of a lane that ends with these lines, and
/// the line that found none added no more than looks and turns to the record. Waits.
pub fn lane_body<R: Wait, G: Gate>(
    rt: &R,
    alloc: Global,
    shared: &Shared,
    pass: Pass,
    lane: Lane,
    lines: &[Line],
    names: &Names,
    gate: &G,
) -> Result<LaneEnd, Stopped>
    requires of { IsPassOf shared.now pass }
    requires pins { (record_of pass).pins ≡ [] }
    requires lines { AreLinesOf shared.now.config.nodes lane.n lines.now }
    requires names { KnowsNames (record_of pass) names.now }
    ensures of { IfOk result (λ end. IsPassOf shared.now end.pass
        × ((record_of end.pass).pins ≡ [])) }
    ensures lines { IfOk result (λ end. map asked end.answers ≡ lines.now) }
    ensures answered { IfOk result (λ end. AllByRecursion HasLineReply end.answers) }
    ensures last { IfOk result (λ end. AllByRecursion HasLastTry end.answers) }
    ensures goes { IfOk result (λ end. LaneGoes shared.now.config names.now (record_of pass)
        end.answers (record_of end.pass)) }
    ensures part { IfOk result (λ end. AddsBacked names.now end.answers (record_of pass)
        (record_of end.pass)) }
    ensures rises { IfOk result (λ end. LaneRises lane.n names.now end.answers (record_of pass)) }
    ensures scoped { IfOk result (λ end. LaneScoped lane.n names.now end.answers) }
    ensures alone { IfOk result (λ end. first_version_of shared.now ≡ 1
        → (record_of pass).written ≡ []
        → LaneKeepsAlone shared.now.config.nodes lane.n names.now lines.now end.answers) }
    ensures stopped { IfErr result (λ s. IsPassOf shared.now s.pass
        × ((record_of s.pass).pins ≡ [])
        × LaneStops (first_version_of shared.now) shared.now.config lane.n names.now lines.now
        (record_of pass) s.answers (record_of s.pass)) }
{
    let mut passing = Passing {
        pass,
        pins: KeptPins::new(),
    };
    let mut answers = Vec::new(alloc);
    let done = answer_all(
        rt,
        alloc,
        shared,
        &mut passing,
        lane,
        lines,
        names,
        &mut answers,
        gate,
    );
    leave_at_end(shared, &mut passing.pass, &mut passing.pins);
    let Passing { pass, pins: _none } = passing;
    let answers = Answers::from(answers);
    match done {
        Ok(()) => Ok(LaneEnd { answers, pass }),
        Err(_) => Err(Stopped { pass, answers }),
    }
}

/// After the last line: gives all pins back, and tells what the pass has of its own objects.
fn leave_at_end(shared: &Shared, pass: &mut Pass, pins: &mut KeptPins)
    requires of { IsPassOf shared.now pass.old }
    requires held { AreHeld pins.old.items (record_of pass.old) }
    ensures of { IsPassOf shared.now pass.new }
    ensures left { record_of pass.new ≡ unpinned_all (record_of pass.old) }
    ensures own { Recalls (first_version_of shared.now) (record_of pass.new) }
{
    leave(shared, pass, pins);
    shared.recall(pass);
}

/// Answers the lines of a lane, as long as there is memory.
fn answer_all<'a, R: Wait, G: Gate>(
    rt: &R,
    alloc: Global,
    shared: &Shared,
    passing: &mut Passing,
    lane: Lane,
    lines: &'a [Line],
    names: &'a Names,
    answers: &mut Vec<Answer>,
    gate: &G,
) -> Result<(), NoMemory>
    requires of { IsPassOf shared.now passing.old.pass }
    requires held { AreHeld passing.old.pins.items (record_of passing.old.pass) }
    requires lines { AreLinesOf shared.now.config.nodes lane.n lines.now }
    requires names { KnowsNames (record_of passing.old.pass) names.now }
    requires none { answers.old.items ≡ [] }
    ensures of { IsPassOf shared.now passing.new.pass }
    ensures held { AreHeld passing.new.pins.items (record_of passing.new.pass) }
    ensures front { IsFront (map asked answers.new.items) lines.now }
    ensures lines { IfOk result (λ _. map asked answers.new.items ≡ lines.now) }
    ensures goes { IfOk result (λ _. LinesGo (goes_in shared.now.config) names.now []
        (record_of passing.old.pass) answers.new.items (record_of passing.new.pass)) }
    ensures stops { OnErr result (LinesStop shared.now.config names.now lines.now
        (record_of passing.old.pass) answers.new.items (record_of passing.new.pass)) }
{
    let mut kept = HashMap::new(alloc);
    keep_names(&mut kept, names.as_slice())?;
    for line in lines {
        answer_one(rt, alloc, shared, passing, &mut kept, answers, line)?;
        gate.after(lane, line.line);
    }
    Ok(())
}

/// Keeps the handles of names under them.
fn keep_names<'a>(kept: &mut HashMap<&'a [u8], Handle>, names: &'a [Named]) -> Result<(), NoMemory>
    requires none { (name : List ℕ) → kept_number kept.old name ≡ None }
    ensures kept { IfOk result (λ _. KeepHandles kept.new names.now []) }
{
    for named in names {
        if let Some(handle) = named.handle {
            kept.insert(named.name.as_slice(), handle)?;
        }
    }
    Ok(())
}

/// Answers a line, and adds its answer. What that takes is made ready before, so that a line which
/// finds no memory is not made.
fn answer_one<'a, R: Wait>(
    rt: &R,
    alloc: Global,
    shared: &Shared,
    passing: &mut Passing,
    kept: &mut HashMap<&'a [u8], Handle>,
    answers: &mut Vec<Answer>,
    line: &'a Line,
) -> Result<(), NoMemory>
    requires of { IsPassOf shared.now passing.old.pass }
    requires held { AreHeld passing.old.pins.items (record_of passing.old.pass) }
    requires request { IsRequest shared.now.config.nodes line.now.request }
    requires knows { KnowsKept kept.old (record_of passing.old.pass) }
    ensures of { IsPassOf shared.now passing.new.pass }
    ensures held { AreHeld passing.new.pins.items (record_of passing.new.pass) }
    ensures line { IfOk result (λ _. AnswersOne shared.now.config line.now kept.old kept.new
        answers.old.items answers.new.items (record_of passing.old.pass)
        (record_of passing.new.pass)) }
    ensures same { OnErr result (answers.new.items ≡ answers.old.items) }
    ensures stops { OnErr result ((record_of passing.new.pass ≡ record_of passing.old.pass)
        ⊎ LineStops (stops_in shared.now.config) (request_handle kept.old line.now.request)
        line.now.request (record_of passing.old.pass) (record_of passing.new.pass)) }
{
    answers.reserve(1)?;
    let request = line.request.copy(alloc)?;
    let caller = PassCaller { rt, shared };
    let reply = reply_to(alloc, &caller, passing, kept, &line.request)?;
    answers.push(Answer {
        lane: line.lane,
        line: line.line,
        request,
        reply,
    })?;
    Ok(())
}
