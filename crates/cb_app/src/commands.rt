//! What each command makes of the bytes that were read.

ghost use Rattle.std.specs.Prelude.{◌≡◌, ℕ, IfOk, OnErr};
ghost use Rattle.cb_script.specs.declared.fault.Reason.{Reason};
ghost use Rattle.cb_script.specs.declared.script.Mode.TheVariants as scripts;
ghost use Rattle.cb_script.specs.Form.{AreInMode, IsScript};
ghost use Rattle.cb_cli.specs.Texts.{fault_text, check_text};
ghost use Rattle.cb_cli.specs.declared.words.Command.TheVariants as commands;
ghost use Rattle.cb_types.specs.Table.{IsReplyOf};
ghost use Rattle.std.specs.List.{AllByRecursion};
ghost use Rattle.cb_app.specs.Modes.{IsVerdict, command_of};
ghost use Rattle.cb_app.specs.Scripts.{IsAnswered, IsChecked, ending_text};
ghost use Rattle.cb_app.specs.Threaded.{IsThreaded};
ghost use Rattle.cb_text.specs.Line.{text_of};

use crate::ending::Ending;
use crate::mapping::map_bytes;
use crate::threads::run_threads;
use cb_cli::{
    Command, Pieces, Verdict, answers_text, script_fault_text, script_ok_text, with_given,
};
use cb_lanes::{Side, run_lines};
use cb_rma_text::rma_bytes;
use cb_script::{Mode, Script, ScriptFault, read_script};
use cb_scrub_text::scrub_bytes;
use cb_types::{Bytes, NoMemory, OpenGate};
use std::alloc::Global;
use std::mem;
use std::sync::Wait;
use std::thread::Threads;

/// What a command makes of bytes. The ending is set where they are done with, and else it stays.
pub fn obey<R: Threads + Wait + Sync>(
    rt: &R,
    alloc: Global,
    command: Command,
    bytes: &[u8],
    end: &mut Ending,
) -> Result<Verdict, NoMemory>
    ensures verdict { IfOk result (IsVerdict command bytes.now end.old end.new) }
    ensures kept { OnErr result (end.new ≡ end.old) }
{
    match command {
        Command::Seq => answer_bytes(alloc, Side::Nodes, bytes, end),
        Command::Threads => thread_bytes(rt, alloc, bytes, end),
        Command::Local => answer_bytes(alloc, Side::Compute, bytes, end),
        Command::Check => check_bytes(alloc, bytes, end),
        Command::Rma => rma_bytes(alloc, bytes),
        Command::Scrub => scrub_bytes(alloc, bytes),
        Command::Map => map_bytes(rt, alloc, bytes, end),
    }
}

/// What the command makes of bytes that answers a script, where this side makes the parities of a
/// compaction.
fn answer_bytes(
    alloc: Global,
    side: Side,
    bytes: &[u8],
    end: &mut Ending,
) -> Result<Verdict, NoMemory>
    ensures verdict { IfOk result (IsVerdict (command_of side) bytes.now end.old end.new) }
    ensures kept { OnErr result (end.new ≡ end.old) }
{
    match read_script(alloc, bytes, Mode::Seq) {
        Ok(script) => {
            let text = answer_script(alloc, side, script, end)?;
            Ok(Verdict::Done(Pieces::one(alloc, text)))
        }
        Err(fault) => refusal(alloc, fault),
    }
}

/// The text that tells the answers to a script. The answers and what they led to are left in the
/// ending. The script's memory is left to the system, which takes it back at once at the end.
fn answer_script(
    alloc: Global,
    side: Side,
    script: Script,
    end: &mut Ending,
) -> Result<Bytes, NoMemory>
    requires script { IsScript script }
    ensures answered { IfOk result (λ text. IsAnswered side script end.new
        × (text ≡ ending_text side end.new)) }
    ensures kept { OnErr result (end.new ≡ end.old) }
{
    let ended = answer(alloc, side, &script)?;
    mem::forget(script);
    leave_ending(alloc, side, ended, end)
}

/// The text that tells an ending, which is put in the place of another. Each reply is one that its
/// line may have.
fn leave_ending(
    alloc: Global,
    side: Side,
    ended: Ending,
    end: &mut Ending,
) -> Result<Bytes, NoMemory>
    requires { AllByRecursion (λ a. IsReplyOf a.request a.reply) ended.answers }
    ensures told { IfOk result (λ text. (end.new ≡ ended) × (text ≡ ending_text side ended)) }
    ensures kept { OnErr result (end.new ≡ end.old) }
{
    let text = ending_text(alloc, side, &ended)?;
    end.set(ended);
    Ok(text)
}

/// What the answers to a script are, and what they led to, where this side makes the parities of a
/// compaction.
pub(crate) fn answer(alloc: Global, side: Side, script: &Script) -> Result<Ending, NoMemory>
    requires script { IsScript script.now }
    ensures { IfOk result (IsAnswered side script.now) }
{
    let told = run_lines(alloc, script, side)?;
    Ok(Ending::answered(script.config, told))
}

/// The text that tells an ending: its answers, and, where the compute side makes the parities, how
/// many rows the nodes gave out. Each reply is one that its line may have.
fn ending_text(alloc: Global, side: Side, end: &Ending) -> Result<Bytes, NoMemory>
    requires { AllByRecursion (λ a. IsReplyOf a.request a.reply) end.now.answers }
    ensures { IfOk result (λ text. text ≡ ending_text side end.now) }
{
    let text = answers_text(alloc, &end.answers)?;
    match side {
        Side::Nodes => Ok(text),
        Side::Compute => with_given(alloc, text, end.given_by_nodes()),
    }
}

/// What `threads` makes of bytes.
fn thread_bytes<R: Threads + Wait + Sync>(
    rt: &R,
    alloc: Global,
    bytes: &[u8],
    end: &mut Ending,
) -> Result<Verdict, NoMemory>
    ensures verdict { IfOk result (IsVerdict commands.Threads bytes.now end.old end.new) }
    ensures kept { OnErr result (end.new ≡ end.old) }
{
    match read_script(alloc, bytes, Mode::Threads) {
        Ok(script) => Ok(Verdict::Done(thread_script(rt, alloc, script, end)?)),
        Err(fault) => refusal(alloc, fault),
    }
}

/// The text that tells the answers of threads to a script. The answers and what they led to are
/// left in the ending, and the script's memory to the system.
fn thread_script<R: Threads + Wait + Sync>(
    rt: &R,
    alloc: Global,
    script: Script,
    end: &mut Ending,
) -> Result<Pieces, NoMemory>
    requires script { IsScript script }
    requires mode { AreInMode scripts.Threads script.lines }
    ensures answered { IfOk result (λ text. IsThreaded script end.new
        × (text ≡ text_of end.new.answers)) }
    ensures kept { OnErr result (end.new ≡ end.old) }
{
    let config = script.config;
    let told = run_threads(rt, alloc, &script, &OpenGate)?;
    mem::forget(script);
    let (ended, text) = Ending::threaded(config, told);
    end.set(ended);
    Ok(text)
}

/// What `check` makes of bytes.
fn check_bytes(alloc: Global, bytes: &[u8], end: &mut Ending) -> Result<Verdict, NoMemory>
    ensures verdict { IfOk result (IsVerdict commands.Check bytes.now end.old end.new) }
    ensures kept { OnErr result (end.new ≡ end.old) }
{
    match read_script(alloc, bytes, Mode::Seq) {
        Ok(script) => {
            let text = check_script(alloc, &script, end)?;
            Ok(Verdict::Done(Pieces::one(alloc, text)))
        }
        Err(fault) => refusal(alloc, fault),
    }
}

/// The text about a script that was read. Its configuration is left in the ending.
fn check_script(alloc: Global, script: &Script, end: &mut Ending) -> Result<Bytes, NoMemory>
    ensures checked { IfOk result (λ text. IsChecked script.now end.new
        × (text ≡ check_text script.now)) }
    ensures kept { OnErr result (end.new ≡ end.old) }
{
    let text = script_ok_text(alloc, script)?;
    end.set(Ending::checked(alloc, script.config));
    Ok(text)
}

/// The refusal of bytes for a fault of the script, unless memory was wanting.
fn refusal(alloc: Global, fault: ScriptFault) -> Result<Verdict, NoMemory>
    ensures told { IfOk result (λ verdict. (line : ℕ) × (reason : Reason)
        × (fault ≡ ScriptFault.Bad line reason)
        × (verdict ≡ Verdict.Refused (fault_text line reason))) }
{
    match fault {
        ScriptFault::Bad { line, reason } => {
            Ok(Verdict::Refused(script_fault_text(alloc, line, reason)?))
        }
        ScriptFault::NoMemory => Err(NoMemory),
    }
}
