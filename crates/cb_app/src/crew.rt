//! The bodies of lanes and workers, each in a thread of its own.
ghost use Rattle.std.specs.Prelude.{◌≡◌, ◌<◌, ◌≤◌, ◌+◌, ◌++◌, ◌∷◌, ℕ, List, [], map, All, IfOk, slice_index_or, vec_len};
ghost use Rattle.std.specs.List.{AllByRecursion};
ghost use Rattle.cb_types.specs.declared.answer.Answer.{Answer};
ghost use Rattle.cb_text.specs.Line.{text_of};
ghost use Rattle.cb_script.specs.Form.{AreLines};
ghost use Rattle.cb_script.specs.declared.script.Line.{Line};
ghost use Rattle.cb_rule.specs.declared.view.View.{View};
ghost use Rattle.cb_rule.specs.Steps.{left_of};
ghost use Rattle.cb_shared.specs.Passes.{IsPassOf, record_of};
ghost use Rattle.cb_lanes.specs.Asked.{HasLineReply, asked};
ghost use Rattle.cb_lanes.specs.Bodies.{AreLinesOf, AreNamesOf, KnowsNames};
ghost use Rattle.cb_rule.specs.Lists.{total};
ghost use Rattle.cb_workers.specs.declared.worker.Worker.{Worker as Worker'};
ghost use Rattle.cb_app.specs.ByLane.{AreLanesApart, AreOfOthers, IsApart, by_lane, flat, has_lines, of_lane};
ghost use Rattle.cb_app.specs.Crew.{
  AllMade,
  AreFirst,
  AreKnownTo,
  AreMade,
  HasText,
  IsDealt,
  IsDealtOne,
  IsEnded,
  IsFreshRecord,
  IsTaskReady,
  IsLaneTold,
  IsTextWritten,
  TaskRuns,
  StandIn,
  TakesIn,
  if_same,
  lines_due,
  lines_left,
  turns_due,
  work_in,
};
ghost use Rattle.cb_app.specs.CrewTurns.{
  HasCrew,
  HasTaken,
  IsCrew,
  IsLane,
  IsWorkOf,
  Joins,
  JoinsEnded,
  LeavesWork,
  bodies_of,
};
ghost use Rattle.cb_app.specs.declared.crew.Body.TheVariants as Body;
ghost use Rattle.cb_app.specs.declared.crew.Ended.{Ended};
ghost use Rattle.cb_app.specs.declared.crew.Task.{Task};

use crate::by_lane::{of_lane, used_lanes};
use cb_cli::{Pieces, answers_text};
use cb_lanes::{LaneEnd, Names, lane_body};
use cb_script::Line;
use cb_shared::{Pass, Shared};
use cb_types::{Answers, Bytes, Gate, Lane, NoMemory};
use cb_workers::{Worker, worker_body};
use std::alloc::{AllocError, Global};
use std::sync::Wait;
use std::thread::Threads;
use std::{mem, thread};

/// So many bytes of a thread's answers are given to it at once.
const ROOM: usize = 8 << 20;

/// What a thread is for: the lines of a lane, or the turns of a worker.
#[derive(Drop)]
pub(crate) enum Body {
    Lane { lane: Lane },
    Worker { worker: Worker, turns: u32 },
}

/// What a thread is given: its body, and a pass of its own.
#[derive(Drop)]
pub(crate) struct Task {
    pub(crate) body: Body,
    pub(crate) pass: Pass,
}

/// Answers, with the pass by whose calls they were given and with the text that tells them.
#[derive(Drop)]
pub(crate) struct ToldEnd {
    pub(crate) end: LaneEnd,
    pub(crate) text: Pieces,
}

/// What a thread leaves: its body, and what it told, a worker nothing, unless memory was wanting.
#[derive(Drop)]
pub(crate) struct Ended {
    pub(crate) body: Body,
    pub(crate) left: Result<ToldEnd, NoMemory>,
}

/// Runs lanes 1 to 15 of these lines beside the four workers, each in a thread of its own where
/// one can be made, and takes their answers, passes and texts in, lane by lane.
pub(crate) fn run_crew<R: Threads + Wait + Sync, G: Gate>(
    rt: &R,
    alloc: Global,
    shared: &Shared,
    first: &mut LaneEnd,
    text: &mut Pieces,
    lines: &[Line],
    names: &Names,
    gate: &G,
) -> Result<(), NoMemory>
    requires first { IsLaneTold shared.now [] (of_lane 0 lines.now) first.old }
    requires whole { (record_of first.old.pass).share ≡ 64 }
    requires lines { AreLines shared.now.config.nodes [] lines.now }
    requires names { AreNamesOf names.now first.old.answers }
    requires known { KnowsNames (record_of first.old.pass) names.now }
    requires stand { StandIn (record_of first.old.pass) first.old.answers }
    requires text { text.old ≡ text_of first.old.answers }
    ensures told { IfOk result (λ _. IsLaneTold shared.now [] (by_lane lines.now) first.new) }
    ensures work { IfOk result (λ _. (w : Worker') → shared.now.config.turns
        ≤ work_in w (record_of first.new.pass)) }
    ensures text { IfOk result (λ _. text.new ≡ text_of first.new.answers) }
    ensures crew { IfOk result (λ _. HasCrew shared.now.config (record_of first.new.pass)
        first.new.answers) }
{
    let tasks = deal(alloc, shared, &mut first.pass, lines)?;
    warm(alloc, 2 * ROOM);
    let ends = scatter(rt, alloc, shared, tasks, lines, names, gate)?;
    gather(shared, first, text, lines, ends)
}

/// What each thread is given: the lanes that have lines, in order, and the workers.
fn deal(
    alloc: Global,
    shared: &Shared,
    pass: &mut Pass,
    lines: &[Line],
) -> Result<Vec<Task>, NoMemory>
    requires of { IsPassOf shared.now pass.old }
    requires whole { (record_of pass.old).share ≡ 64 }
    ensures dealt { IfOk result (λ tasks. IsDealt shared.now lines.now 15 19 (record_of pass.old)
        tasks.items pass.new) }
    ensures work { IfOk result (λ tasks. (w : Worker') → shared.now.config.turns
        ≤ total (turns_due w) tasks.items) }
    ensures crew { IfOk result (λ tasks. IsCrew shared.now.config.turns (bodies_of tasks.items)) }
{
    let mut tasks = Vec::new(alloc);
    deal_lanes(shared, pass, lines, &mut tasks)?;
    deal_workers(shared, pass, &mut tasks)?;
    Ok(tasks)
}

/// Lanes 1 to 15, where they have lines.
fn deal_lanes(
    shared: &Shared,
    pass: &mut Pass,
    lines: &[Line],
    tasks: &mut Vec<Task>,
) -> Result<(), NoMemory>
    requires of { IsPassOf shared.now pass.old }
    requires whole { (record_of pass.old).share ≡ 64 }
    requires none { tasks.old.items ≡ [] }
    ensures dealt { IfOk result (λ _. IsDealt shared.now lines.now 15 15 (record_of pass.old)
        tasks.new.items pass.new) }
    ensures lanes { IfOk result (λ _. AllByRecursion IsLane (bodies_of tasks.new.items)) }
{
    let used = used_lanes(lines);
    for before in 0..15u8 {
        deal_lane(shared, pass, before, used[usize::from(before) + 1], tasks)?;
    }
    Ok(())
}

/// The lane after this one, where it has lines.
fn deal_lane(
    shared: &Shared,
    pass: &mut Pass,
    before: u8,
    used: bool,
    tasks: &mut Vec<Task>,
) -> Result<(), NoMemory>
    requires before { before < 15 }
    requires of { IsPassOf shared.now pass.old }
    requires share { 50 ≤ (record_of pass.old).share + before + 1 }
    ensures dealt { (lines : List Line) (v : View) → has_lines (before + 1) lines ≡ used
        → IsDealt shared.now lines before before v tasks.old.items pass.old
        → IfOk result (λ _. IsDealt shared.now lines (before + 1) (before + 1) v
        tasks.new.items pass.new) }
    ensures lane { AllByRecursion IsLane (bodies_of tasks.old.items)
        → IfOk result (λ _. AllByRecursion IsLane (bodies_of tasks.new.items)) }
{
    if !used {
        return Ok(());
    }
    let lane = Lane { n: before + 1 };
    deal_one(shared, pass, Body::Lane { lane }, tasks)
}

fn deal_workers(shared: &Shared, pass: &mut Pass, tasks: &mut Vec<Task>) -> Result<(), NoMemory>
    requires of { IsPassOf shared.now pass.old }
    requires share { 49 ≤ (record_of pass.old).share }
    ensures dealt { (lines : List Line) (v : View)
        → IsDealt shared.now lines 15 15 v tasks.old.items pass.old
        → IfOk result (λ _. IsDealt shared.now lines 15 19 v tasks.new.items pass.new) }
    ensures work { IfOk result (λ _. (w : Worker') → shared.now.config.turns
        ≤ total (turns_due w) tasks.new.items) }
    ensures crew { AllByRecursion IsLane (bodies_of tasks.old.items)
        → IfOk result (λ _. IsCrew shared.now.config.turns (bodies_of tasks.new.items)) }
{
    deal_worker(shared, pass, Worker::Filter, tasks)?;
    deal_worker(shared, pass, Worker::Evict, tasks)?;
    deal_worker(shared, pass, Worker::Compact, tasks)?;
    deal_worker(shared, pass, Worker::Rebuild, tasks)
}

fn deal_worker(
    shared: &Shared,
    pass: &mut Pass,
    worker: Worker,
    tasks: &mut Vec<Task>,
) -> Result<(), NoMemory>
    requires of { IsPassOf shared.now pass.old }
    requires share { 2 ≤ (record_of pass.old).share }
    ensures of { IsPassOf shared.now pass.new }
    ensures share { (record_of pass.new).share + 1 ≡ (record_of pass.old).share }
    ensures dealt { (lines : List Line) (n m : ℕ) (v : View)
        → IsDealt shared.now lines n m v tasks.old.items pass.old
        → IfOk result (λ _. IsDealt shared.now lines n (m + 1) v tasks.new.items pass.new) }
    ensures work { IfOk result (λ _. (w : Worker') → total (turns_due w) tasks.new.items
        ≡ total (turns_due w) tasks.old.items
        + if_same worker w shared.now.config.turns) }
    ensures crew { IfOk result (λ _. bodies_of tasks.new.items
        ≡ bodies_of tasks.old.items ++ Body.Worker worker shared.now.config.turns ∷ []) }
{
    let turns = shared.config().turns;
    deal_one(shared, pass, Body::Worker { worker, turns }, tasks)
}

/// One task more, with a pass that is split off.
fn deal_one(
    shared: &Shared,
    pass: &mut Pass,
    body: Body,
    tasks: &mut Vec<Task>,
) -> Result<(), NoMemory>
    requires of { IsPassOf shared.now pass.old }
    requires share { 2 ≤ (record_of pass.old).share }
    ensures of { IsPassOf shared.now pass.new }
    ensures left { record_of pass.new ≡ left_of 1 (record_of pass.old) }
    ensures task { IfOk result (λ _. IsDealtOne shared.now body (record_of pass.old)
        tasks.old.items tasks.new.items) }
{
    let pass = shared.split(pass, 1);
    tasks.push(Task { body, pass })?;
    Ok(())
}

/// Runs the tasks, each in a thread of its own where one can be made, and gives what they leave in
/// the order of the tasks.
fn scatter<R: Threads + Wait + Sync, G: Gate>(
    rt: &R,
    alloc: Global,
    shared: &Shared,
    tasks: Vec<Task>,
    lines: &[Line],
    names: &Names,
    gate: &G,
) -> Result<Vec<Ended>, NoMemory>
    requires ready { All (IsTaskReady shared.now lines.now names.now) tasks.items }
    ensures len { IfOk result (λ ends. vec_len ends ≡ vec_len tasks) }
    ensures lines { IfOk result (λ ends. (i : ℕ) (d : Ended) (t : Task) → i < vec_len tasks
        → lines_left lines.now (slice_index_or ends.items i d)
        ≡ lines_due lines.now (slice_index_or tasks.items i t)) }
    ensures ended { IfOk result (λ ends. (given : List Answer) → AreNamesOf names.now given
        → All (λ t. AreKnownTo (record_of t.pass) given) tasks.items
        → All (IsEnded shared.now lines.now given) ends.items) }
    ensures made { IfOk result (λ ends. (w : Worker') (i : ℕ) (d : Ended) (t : Task)
        → i < vec_len tasks → AreMade w (slice_index_or tasks.items i t)
        (slice_index_or ends.items i d)) }
    ensures text { IfOk result (λ ends. All HasText ends.items) }
    ensures leaves { IfOk result (λ ends. (i : ℕ) (d : Ended) (t : Task) → i < vec_len tasks
        → LeavesWork shared.now.config.handles (slice_index_or tasks.items i t).body
        (slice_index_or ends.items i d)) }
{
    let ends = thread::map_vec(
        rt,
        tasks,
        &|task: Task| -> Ended
            requires { IsTaskReady shared.now lines.now names.now task }
            ensures { TaskRuns shared.entry.now lines.entry.now names.entry.now task result }
        { run_task(rt, alloc, shared, task, lines, names, gate) },
    )?;
    Ok(ends)
}

/// One thread.
fn run_task<R: Wait, G: Gate>(
    rt: &R,
    alloc: Global,
    shared: &Shared,
    task: Task,
    lines: &[Line],
    names: &Names,
    gate: &G,
) -> Ended
    requires ready { IsTaskReady shared.now lines.now names.now task }
    ensures runs { TaskRuns shared.now lines.now names.now task result }
{
    let Task { body, pass } = task;
    match body {
        Body::Lane { lane } => { run_lane(rt, alloc, shared, pass, lane, lines, names, gate) }
        Body::Worker { worker, turns } => {
            run_worker(rt, alloc, shared, pass, worker, turns, gate)
        }
    }
}

/// Asks for so many bytes, and gives them back at once. After a first call the C library serves
/// requests of half of that from a thread's own memory, and what it gave to a thread once stays
/// there. Else that memory grows by a page, and by a call of the system that all threads wait for.
fn warm(alloc: Global, bytes: usize) {
    let _room: Result<Vec<u8>, AllocError> = Vec::with_capacity(alloc, bytes);
}

/// A lane answers its lines.
fn run_lane<R: Wait, G: Gate>(
    rt: &R,
    alloc: Global,
    shared: &Shared,
    pass: Pass,
    lane: Lane,
    lines: &[Line],
    names: &Names,
    gate: &G,
) -> Ended
    requires of { IsPassOf shared.now pass }
    requires fresh { IsFreshRecord (record_of pass) }
    requires lines { AreLinesOf shared.now.config.nodes lane.n (of_lane lane.n lines.now) }
    requires names { KnowsNames (record_of pass) names.now }
    requires other { 1 ≤ lane.n }
    ensures body { result.body ≡ Body.Lane lane }
    ensures ended { (given : List Answer) → AreNamesOf names.now given
        → AreKnownTo (record_of pass) given
        → IfOk result.left (λ told. IsLaneTold shared.now given (of_lane lane.n lines.now)
        told.end) }
    ensures made { (w : Worker')
        → IfOk result.left (λ told. 0 ≤ work_in w (record_of told.end.pass)) }
    ensures text { HasText result }
{
    warm(alloc, ROOM);
    let left = answer_lane(rt, alloc, shared, pass, lane, lines, names, gate);
    let body = Body::Lane { lane };
    Ended { body, left }
}

/// What the lines of a lane are answered. The lane copies its lines and writes the text of its
/// answers by itself, in its own thread.
fn answer_lane<R: Wait, G: Gate>(
    rt: &R,
    alloc: Global,
    shared: &Shared,
    pass: Pass,
    lane: Lane,
    lines: &[Line],
    names: &Names,
    gate: &G,
) -> Result<ToldEnd, NoMemory>
    requires of { IsPassOf shared.now pass }
    requires fresh { IsFreshRecord (record_of pass) }
    requires lines { AreLinesOf shared.now.config.nodes lane.n (of_lane lane.n lines.now) }
    requires names { KnowsNames (record_of pass) names.now }
    requires other { 1 ≤ lane.n }
    ensures told { (given : List Answer) → AreNamesOf names.now given
        → AreKnownTo (record_of pass) given
        → IfOk result (λ told. IsLaneTold shared.now given (of_lane lane.n lines.now) told.end) }
    ensures text { IfOk result IsTextWritten }
{
    let own = of_lane(alloc, lines, lane)?;
    match lane_body(rt, alloc, shared, pass, lane, own.as_slice(), names, gate) {
        Ok(end) => with_text(alloc, end),
        Err(_stopped) => Err(NoMemory),
    }
}

/// A worker answers no lines.
fn run_worker<R: Wait, G: Gate>(
    rt: &R,
    alloc: Global,
    shared: &Shared,
    pass: Pass,
    worker: Worker,
    turns: u32,
    gate: &G,
) -> Ended
    requires of { IsPassOf shared.now pass }
    requires fresh { IsFreshRecord (record_of pass) }
    ensures body { result.body ≡ Body.Worker worker turns }
    ensures ended { (given : List Answer)
        → IfOk result.left (λ told. IsLaneTold shared.now given [] told.end) }
    ensures made { (w : Worker') → IfOk result.left (λ told. if_same worker w turns
        ≤ work_in w (record_of told.end.pass)) }
    ensures text { HasText result }
    ensures work { IfOk result.left (λ told. IsWorkOf shared.now.config.handles worker turns
        (record_of told.end.pass).turns) }
{
    let body = Body::Worker { worker, turns };
    let answers = Answers::new(alloc);
    let none = Bytes::from(Vec::new(alloc));
    let text = Pieces::one(alloc, none);
    match worker_body(rt, alloc, shared, pass, worker, turns, gate) {
        Ok(pass) => Ended {
            body,
            left: Ok(ToldEnd {
                end: LaneEnd { answers, pass },
                text,
            }),
        },
        Err(_stopped) => Ended {
            body,
            left: Err(NoMemory),
        },
    }
}

/// Answers with their text. Each is a reply that its line may have.
pub(crate) fn with_text(alloc: Global, end: LaneEnd) -> Result<ToldEnd, NoMemory>
    requires { AllByRecursion HasLineReply end.answers }
    ensures end { IfOk result (λ told. told.end ≡ end) }
    ensures text { IfOk result IsTextWritten }
{
    let text = answers_text(alloc, &end.answers)?;
    let text = Pieces::one(alloc, text);
    Ok(ToldEnd { end, text })
}

/// Takes the passes in, and puts the answers and their texts after those that there are, thread by
/// thread.
fn gather(
    shared: &Shared,
    first: &mut LaneEnd,
    text: &mut Pieces,
    lines: &[Line],
    ends: Vec<Ended>,
) -> Result<(), NoMemory>
    requires first { IsLaneTold shared.now [] (map asked first.old.answers) first.old }
    requires ended { All (IsEnded shared.now lines.now first.old.answers) ends.items }
    requires apart { AreLanesApart [] (map (lines_left lines.now) ends.items) }
    requires of_first { AreFirst first.old.answers }
    requires text { text.old ≡ text_of first.old.answers }
    requires texts { All HasText ends.items }
    ensures told { IfOk result (λ _. IsLaneTold shared.now []
        (map asked first.old.answers ++ flat (map (lines_left lines.now) ends.items)) first.new) }
    ensures work { (w : Worker') (tasks : List Task) → AllMade w tasks ends.items
        → IfOk result (λ _. total (turns_due w) tasks ≤ work_in w (record_of first.new.pass)) }
    ensures text { IfOk result (λ _. text.new ≡ text_of first.new.answers) }
    ensures taken { IfOk result (λ _. HasTaken ends.items first.old first.new) }
{
    for ended in ends {
        take_in(shared, first, text, ended)?;
    }
    Ok(())
}

/// Takes in what one thread left.
fn take_in(
    shared: &Shared,
    first: &mut LaneEnd,
    text: &mut Pieces,
    ended: Ended,
) -> Result<(), NoMemory>
    requires of { IsPassOf shared.now first.old.pass }
    requires ended { IfOk ended.left (λ told. IsPassOf shared.now told.end.pass) }
    ensures told { (given others : List Answer) (lines : List Line)
        → first.old.answers ≡ given ++ others
        → IsLaneTold shared.now [] (map asked first.old.answers) first.old
        → IsEnded shared.now lines given ended
        → IsApart (map asked others) (lines_left lines ended)
        → AreOfOthers (map asked others) (lines_left lines ended) → AreFirst given
        → IfOk result (λ _. TakesIn shared.now given others (lines_left lines ended) first.new) }
    ensures work { (w : Worker') (t : Task) → AreMade w t ended
        → IfOk result (λ _. work_in w (record_of first.old.pass) + turns_due w t
        ≤ work_in w (record_of first.new.pass)) }
    ensures text { text.old ≡ text_of first.old.answers → HasText ended
        → IfOk result (λ _. text.new ≡ text_of first.new.answers) }
    ensures joins { IfOk result (λ _. JoinsEnded ended first.old first.new) }
{
    let Ended { body: _body, left } = ended;
    match left {
        Ok(told) => take_told(shared, first, text, told),
        Err(none) => Err(none),
    }
}

/// Takes in what one thread told, with its text.
fn take_told(
    shared: &Shared,
    first: &mut LaneEnd,
    text: &mut Pieces,
    told: ToldEnd,
) -> Result<(), NoMemory>
    requires of { IsPassOf shared.now first.old.pass }
    requires end { IsPassOf shared.now told.end.pass }
    ensures told { (given others : List Answer) (lines : List Line)
        → first.old.answers ≡ given ++ others
        → IsLaneTold shared.now [] (map asked first.old.answers) first.old
        → IsLaneTold shared.now given lines told.end → IsApart (map asked others) lines
        → AreOfOthers (map asked others) lines → AreFirst given
        → IfOk result (λ _. TakesIn shared.now given others lines first.new) }
    ensures work { (w : Worker') → IfOk result (λ _. work_in w (record_of first.new.pass)
        ≡ work_in w (record_of first.old.pass) + work_in w (record_of told.end.pass)) }
    ensures text { text.old ≡ text_of first.old.answers → IsTextWritten told
        → IfOk result (λ _. text.new ≡ text_of first.new.answers) }
    ensures joins { IfOk result (λ _. Joins first.old told.end first.new) }
{
    let ToldEnd { end, text: more } = told;
    text.append(more)?;
    take_end(shared, first, end)
}

fn take_end(shared: &Shared, first: &mut LaneEnd, end: LaneEnd) -> Result<(), NoMemory>
    requires of { IsPassOf shared.now first.old.pass }
    requires end { IsPassOf shared.now end.pass }
    ensures told { (given others : List Answer) (lines : List Line)
        → first.old.answers ≡ given ++ others
        → IsLaneTold shared.now [] (map asked first.old.answers) first.old
        → IsLaneTold shared.now given lines end → IsApart (map asked others) lines
        → AreOfOthers (map asked others) lines → AreFirst given
        → IfOk result (λ _. TakesIn shared.now given others lines first.new) }
    ensures work { (w : Worker') → IfOk result (λ _. work_in w (record_of first.new.pass)
        ≡ work_in w (record_of first.old.pass) + work_in w (record_of end.pass)) }
    ensures answers { IfOk result (λ _. first.new.answers ≡ first.old.answers ++ end.answers) }
    ensures joins { IfOk result (λ _. Joins first.old end first.new) }
{
    let LaneEnd { answers, pass } = end;
    shared.join_pass(&mut first.pass, pass);
    append(&mut first.answers, answers)
}

/// Puts answers after others.
fn append(answers: &mut Answers, more: Answers) -> Result<(), NoMemory>
    ensures { IfOk result (λ _. answers.new ≡ answers.old ++ more) }
{
    let mut more = more.into_vec();
    let none = Answers::new(*more.allocator());
    let mut all = mem::replace(answers, none).into_vec();
    all.append(&mut more)?;
    *answers = Answers::from(all);
    Ok(())
}
