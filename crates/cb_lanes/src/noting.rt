//! A line's answer is noted, with its loss.

ghost use Rattle.std.specs.Prelude.{◌≡◌, [], ◌∷◌, ◌++◌, IfOk, OnErr};
ghost use Rattle.std.specs.List.{cons_option};
ghost use Rattle.cb_script.specs.Form.{IsRequest};
ghost use Rattle.cb_lanes.specs.Asked.{answer_to};
ghost use Rattle.cb_lanes.specs.AnsweredBy.{AnsweredBy};
ghost use Rattle.cb_lanes.specs.Lost.{told_loss, losses_of};
ghost use Rattle.cb_lanes.specs.Names.{AreNamed};

use crate::answering::reply_to;
use crate::caller::Caller;
use cb_script::Line;
use cb_types::{Answer, Answers, Handle, Loss, NoMemory, Reply, Request};
use std::alloc::Global;
use std::collections::HashMap;

/// Answers a line of a lane by its caller, and notes its answer, and its loss, where it has one.
/// Where there was no memory, the answers are as they were.
pub(crate) fn answer_by<'a, C: Caller>(
    alloc: Global,
    caller: &C,
    lane: &mut C::State,
    names: &mut HashMap<&'a [u8], Handle>,
    answers: &mut Answers,
    losses: &mut Vec<Loss>,
    line: &'a Line,
) -> Result<(), NoMemory>
    requires request { IsRequest (C.nodes caller.now lane.old) line.now.request }
    requires ready { AreNamed (C.may_name caller.now lane.old) names.old }
    requires well { C.well caller.now lane.old }
    ensures line { IfOk result (λ done. AnsweredBy (C.goes caller.now) line.now lane.old names.old
        answers.old lane.new names.new answers.new) }
    ensures losses { losses.old.items ≡ losses_of answers.old
        → IfOk result (λ done. losses.new.items ≡ losses_of answers.new) }
    ensures stopped { OnErr result (answers.new ≡ answers.old) }
    ensures ready { IfOk result (λ done. AreNamed (C.may_name caller.now lane.new) names.new) }
    ensures well { C.well caller.now lane.new }
{
    let reply = reply_to(alloc, caller, lane, names, &line.request)?;
    note_answer(alloc, answers, losses, line, reply)
}

/// Adds the answer of a line, and its loss, where it has one. Where there was no memory, no answer
/// was added.
fn note_answer(
    alloc: Global,
    answers: &mut Answers,
    losses: &mut Vec<Loss>,
    line: &Line,
    reply: Reply,
) -> Result<(), NoMemory>
    ensures answer { IfOk result (λ done.
        answers.new ≡ answers.old ++ answer_to line.now line.now.request reply ∷ []) }
    ensures losses { losses.old.items ≡ losses_of answers.old
        → IfOk result (λ done. losses.new.items ≡ losses_of answers.new) }
    ensures stopped { OnErr result (answers.new ≡ answers.old) }
{
    note_loss(losses, &line.request, &reply)?;
    answers.push(Answer {
        lane: line.lane,
        line: line.line,
        request: line.request.copy(alloc)?,
        reply,
    })
}

/// Adds the loss of an answered line after those before it, where it has one: the node of a crash
/// that took place, with its epoch. Where there was no memory, the losses are as they were.
pub fn note_loss(losses: &mut Vec<Loss>, request: &Request, reply: &Reply) -> Result<(), NoMemory>
    ensures noted { IfOk result (λ done.
        losses.new.items ≡ losses.old.items ++ cons_option (told_loss request.now reply.now) []) }
    ensures stopped { OnErr result (losses.new.items ≡ losses.old.items) }
{
    if let Some(loss) = told_loss(request, reply) {
        losses.push(loss)?;
    }
    Ok(())
}

/// The loss of an answered line: the node of a crash that took place, with its epoch.
fn told_loss(request: &Request, reply: &Reply) -> Option<Loss>
    ensures { result ≡ told_loss request.now reply.now }
{
    match (request, reply) {
        (Request::Crash { node }, Reply::EpochAt { epoch }) => Some(Loss {
            node: *node,
            epoch: *epoch,
        }),
        _ => None,
    }
}
