//! One run: take the bytes, obey the command, put the text.

ghost use Rattle.std.specs.Prelude.{◌≡◌, ◌≢◌, ◌≤◌, ◌⊎◌, ℕ, List, length, String, Ok, Err, IfOk, IsErr, OnErr};
ghost use Rattle.std.specs.Io.KnownBytes.{Consumes};
ghost use Rattle.std.specs.declared.alloc.Global.{Global};
ghost use Rattle.cb_types.specs.Faults.{Rose};
ghost use Rattle.cb_cli.specs.Taken.{AreBytesTaken};
ghost use Rattle.cb_cli.specs.Words.{AskFor, Name, NameNone};
ghost use Rattle.cb_cli.specs.declared.words.Command.{Command};
ghost use Rattle.cb_cli.specs.declared.words.Plan.{Plan};
ghost use Rattle.cb_app.specs.Modes.{IsVerdict};
ghost use Rattle.cb_app.specs.Outcome.{RunEnds, RoseOnRead, RoseOnWrite, IsDecided};

use crate::commands::obey;
use crate::drawn::run_drawn;
use crate::ending::Ending;
use cb_cli::{
    Asked, Command, Due, Failure, Verdict, WORDS_REFUSED, asked_of, put_all, put_pieces, take_all,
};
use cb_types::{Sink, Source};
use std::alloc::Global;
use std::sync::Wait;
use std::thread::Threads;

/// One run.
pub fn run<R: Threads + Wait + Sync, S: Source, K: Sink>(
    rt: &R,
    alloc: Global,
    words: &[String],
    source: &mut S,
    sink: &mut K,
    end: &mut Ending,
) -> Result<Due, Failure>
    ensures ends { RunEnds words.now (S.left source.old) (S.left source.new)
        (K.held sink.old) (K.held sink.new) end.old end.new result }
    ensures reads { RoseOnRead result (S.faults source.old) (S.faults source.new) }
    ensures writes { RoseOnWrite result (K.faults sink.old) (K.faults sink.new) }
    ensures untaken { result ≡ Ok Due.WordsRefused → source.new ≡ source.old }
    ensures read_puts { result ≡ Err Failure.Read → sink.new ≡ sink.old }
    ensures memory_puts { result ≡ Err Failure.NoMemory → sink.new ≡ sink.old }
    ensures refuses { NameNone words.now → (result ≡ Ok Due.WordsRefused)
        ⊎ ((result ≡ Err Failure.Write) ⊎ (result ≡ Err Failure.NoMemory)) }
    ensures unread { NameNone words.now → source.new ≡ source.old }
    ensures most { (bytes : List ℕ) × Consumes (S.left source.old) (S.left source.new) bytes
        × (length bytes ≤ 1048577) }
    ensures decided { (command : Command) → Name words.now command
        → IsDecided command (S.left source.old) result }
    ensures draws { (plan : Plan) → AskFor words.now plan
        → (source.new ≡ source.old) × ((result ≡ Ok Due.Done) ⊎ IsErr result)
        × (result ≢ Err Failure.Read) }
{
    match asked_of(alloc, words)? {
        Some(Asked::Run(command)) => run_command(rt, alloc, command, source, sink, end),
        Some(Asked::Draw(plan)) => run_drawn(alloc, plan, sink, end),
        None => {
            put_all(sink, WORDS_REFUSED)?;
            Ok(Due::WordsRefused)
        }
    }
}

/// One run of a command.
fn run_command<R: Threads + Wait + Sync, S: Source, K: Sink>(
    rt: &R,
    alloc: Global,
    command: Command,
    source: &mut S,
    sink: &mut K,
    end: &mut Ending,
) -> Result<Due, Failure>
    ensures ends { (words : List (String Global)) → Name words command
        → RunEnds words (S.left source.old) (S.left source.new)
        (K.held sink.old) (K.held sink.new) end.old end.new result }
    ensures reads { RoseOnRead result (S.faults source.old) (S.faults source.new) }
    ensures writes { RoseOnWrite result (K.faults sink.old) (K.faults sink.new) }
    ensures named { result ≢ Ok Due.WordsRefused }
    ensures read_puts { result ≡ Err Failure.Read → sink.new ≡ sink.old }
    ensures memory_puts { result ≡ Err Failure.NoMemory → sink.new ≡ sink.old }
    ensures most { (bytes : List ℕ) × Consumes (S.left source.old) (S.left source.new) bytes
        × (length bytes ≤ 1048577) }
    ensures decided { IsDecided command (S.left source.old) result }
{
    match judge(rt, alloc, command, source, end)? {
        Verdict::Done(text) => {
            put_pieces(sink, &text)?;
            Ok(Due::Done)
        }
        Verdict::Refused(text) => {
            put_all(sink, text.as_slice())?;
            Ok(Due::ScriptRefused)
        }
    }
}

/// Takes the bytes of a source, and gives what the command makes of them.
fn judge<R: Threads + Wait + Sync, S: Source>(
    rt: &R,
    alloc: Global,
    command: Command,
    source: &mut S,
    end: &mut Ending,
) -> Result<Verdict, Failure>
    ensures verdict { IfOk result (λ verdict. (bytes : List ℕ)
        × AreBytesTaken (S.left source.old) (S.left source.new) bytes
        × IsVerdict command bytes end.old end.new verdict) }
    ensures kept { OnErr result (end.new ≡ end.old) }
    ensures fault { result ≡ Err Failure.Read → Rose (S.faults source.old) (S.faults source.new) }
    ensures no_fault { result ≢ Err Failure.Read → S.faults source.new ≡ S.faults source.old }
    ensures no_write { result ≢ Err Failure.Write }
    ensures most { (bytes : List ℕ) × Consumes (S.left source.old) (S.left source.new) bytes
        × (length bytes ≤ 1048577) }
{
    let bytes = take_all(alloc, source)?;
    Ok(obey(rt, alloc, command, bytes.as_slice(), end)?)
}
