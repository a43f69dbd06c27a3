//! A script that is drawn from a seed, answered and summed up.

ghost use Rattle.std.specs.Prelude.{◌≡◌, ◌≢◌, ◌⊎◌, List, String, Ok, Err, IfOk, OnErr};
ghost use Rattle.std.specs.Prelude.{IsErr};
ghost use Rattle.std.specs.declared.alloc.Global.{Global};
ghost use Rattle.std.specs.Prelude.{Option, ℕ};
ghost use Rattle.cb_types.specs.Table.{IsReplyOf};
ghost use Rattle.std.specs.List.{AllByRecursion};
ghost use Rattle.cb_cli.specs.Words.{AskFor, IsPlan};
ghost use Rattle.cb_gen.specs.Summary.{summary};
ghost use Rattle.cb_app.specs.Outcome.{RoseOnWrite, RunEnds};
ghost use Rattle.cb_app.specs.Scripts.{IsSummed};

use crate::commands::answer;
use crate::ending::Ending;
use cb_cli::{Due, Failure, Plan, answers_text, put_all};
use cb_gen::{make_script, summary_text};
use cb_lanes::Side;
use cb_types::{Answers, Bytes, NoMemory, Sink};
use std::alloc::Global;

/// One run that draws a script, answers its lines and tells the summary. It takes nothing of any
/// source.
pub(crate) fn run_drawn<K: Sink>(
    alloc: Global,
    plan: Plan,
    sink: &mut K,
    end: &mut Ending,
) -> Result<Due, Failure>
    requires plan { IsPlan plan }
    ensures ends { (words : List (String Global)) → AskFor words plan
        → (source : Option (List ℕ)) → RunEnds words source source
        (K.held sink.old) (K.held sink.new) end.old end.new result }
    ensures writes { RoseOnWrite result (K.faults sink.old) (K.faults sink.new) }
    ensures due { (result ≡ Ok Due.Done) ⊎ IsErr result }
    ensures no_reading { result ≢ Err Failure.Read }
    ensures memory_puts { result ≡ Err Failure.NoMemory → sink.new ≡ sink.old }
{
    let text = draw_script(alloc, plan, end)?;
    put_all(sink, text.as_slice())?;
    Ok(Due::Done)
}

/// The summary of the answers to the script that the plan draws. The answers and what they led to
/// are left in the ending.
fn draw_script(alloc: Global, plan: Plan, end: &mut Ending) -> Result<Bytes, NoMemory>
    requires plan { IsPlan plan }
    ensures summed { IfOk result (IsSummed plan end.new) }
    ensures kept { OnErr result (end.new ≡ end.old) }
{
    let script = make_script(alloc, u64::from(plan.seed), plan.lines, plan.lanes)?;
    let ended = answer(alloc, Side::Nodes, &script)?;
    let text = summary_of(alloc, plan, &ended.answers)?;
    end.set(ended);
    Ok(text)
}

/// The summary of these answers to the script that the plan draws.
fn summary_of(alloc: Global, plan: Plan, answers: &Answers) -> Result<Bytes, NoMemory>
    requires { AllByRecursion (λ a. IsReplyOf a.request a.reply) answers.now }
    ensures { IfOk result (λ text. text ≡ summary plan.seed plan.lines plan.lanes answers.now) }
{
    let text = answers_text(alloc, answers)?;
    summary_text(
        alloc,
        plan.seed,
        plan.lines,
        plan.lanes,
        answers,
        text.len(),
    )
}
