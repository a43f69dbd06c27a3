//! The top call of the program, whose contract is the theorem.

ghost use Rattle.std.specs.Prelude.{◌≡◌, ◌≢◌, ◌≤◌, ◌⊎◌, ℕ, List, length, Some};
ghost use Rattle.std.specs.Io.KnownBytes.{Appends, Consumes};
ghost use Rattle.cb_types.specs.Faults.{Rose};
ghost use Rattle.cb_cli.specs.Fronts.{GetsFront};
ghost use Rattle.cb_cli.specs.Taken.{taken_of};
ghost use Rattle.cb_cli.specs.Texts.{words_refused};
ghost use Rattle.cb_cli.specs.Words.{AskFor, Name, NameNone};
ghost use Rattle.cb_cli.specs.declared.words.Command.{Command};
ghost use Rattle.cb_cli.specs.declared.words.Plan.{Plan};
ghost use Rattle.cb_app.specs.Modes.{Accepts, Refuses};
ghost use Rattle.cb_app.specs.TwoTexts.{ThreadsTellAlike};
ghost use Rattle.cb_app.specs.Outcome.{TellsScript, TellsSummary, AreWordsRefused, RefusesScript, IsDue};

use crate::ending::Ending;
use crate::run::run;
use cb_cli::status;
use cb_types::{Sink, Source};
use std::alloc::Global;
use std::sync::Wait;
use std::thread::Threads;

/// Runs the command that the words give, which come after the program's name. It takes bytes from
/// the source, but where it draws a script of its own, puts text into the sink, leaves in `end`
/// what the run was beside its text, and answers the exit status: 0 done, 1 words refused, 2 script
/// refused, 3 reading failed, 4 writing failed, 5 out of memory.
pub fn carbink_run<R: Threads + Wait + Sync, S: Source, K: Sink>(
    rt: &R,
    alloc: Global,
    words: &[String],
    src: &mut S,
    out: &mut K,
    end: &mut Ending,
) -> u8
    ensures statuses { result ≤ 5 }

    // 0: the words name a command, and what is put is what it yields for the bytes taken. Of a
    // script `seq` puts the answers that the plain map gives; `local` too, where the compute side
    // makes the parities of each compaction, and how many rows the nodes gave out; `threads` the
    // answers of calls on a runtime that was closed, lane by lane; and `check` how many lines and
    // lanes it has. Of a schedule `rma` puts what is said to each event, and of commands `map` what
    // is said to each, by calls on a runtime that was closed. Or the words ask `gen` for a drawn
    // script: its lines are answered as `seq` answers them, and what is put is the summary.
    ensures done { result ≡ 0
        → TellsScript words.now (S.left src.old) (S.left src.new)
        (K.held out.old) (K.held out.new) end.old end.new
        ⊎ TellsSummary words.now (S.left src.old) (S.left src.new)
        (K.held out.old) (K.held out.new) end.new }

    // 1: the words name no command and ask for no drawn script, and nothing was taken. Of such
    // words nothing is taken at any status.
    ensures words_refused { result ≡ 1
        → AreWordsRefused words.now (S.left src.old) (S.left src.new) }
    ensures words_text { result ≡ 1 → Appends (K.held out.old) (K.held out.new) words_refused }
    ensures words_end { result ≡ 1 → (src.new ≡ src.old) × (end.new ≡ end.old) }
    ensures refuses { NameNone words.now
        → (src.new ≡ src.old) × ((result ≡ 1) ⊎ (4 ≤ result)) }

    // 2: the command refuses the bytes taken: they spell no script or, with `rma`, no schedule;
    // what is put tells where and why.
    ensures script_refused { result ≡ 2
        → RefusesScript words.now (S.left src.old) (S.left src.new)
        (K.held out.old) (K.held out.new) }
    ensures script_end { result ≡ 2 → end.new ≡ end.old }

    // 3: reading failed in this call, and nothing was put.
    ensures read_fault { result ≡ 3 → Rose (S.faults src.old) (S.faults src.new) }
    ensures no_read_fault { result ≢ 3 → S.faults src.new ≡ S.faults src.old }
    ensures read_end { result ≡ 3 → (out.new ≡ out.old) × (end.new ≡ end.old) }

    // 4: writing failed in this call, and the text that was due is cut short.
    ensures write_fault { result ≡ 4 → Rose (K.faults out.old) (K.faults out.new) }
    ensures no_write_fault { result ≢ 4 → K.faults out.new ≡ K.faults out.old }
    ensures cut { result ≡ 4 → (text : List ℕ)
        × IsDue words.now (S.left src.old) (S.left src.new) end.old end.new text
        × GetsFront (K.held out.old) (K.held out.new) text }

    // 5: there was no memory, and nothing was put.
    ensures memory_end { result ≡ 5 → (out.new ≡ out.old) × (end.new ≡ end.old) }

    // At each status so many bytes are taken at the most.
    ensures most { (bytes : List ℕ) × Consumes (S.left src.old) (S.left src.new) bytes
        × (length bytes ≤ 1048577) }
    // Of the bytes taken, what the command accepts is done with, and what it refuses is refused,
    // where neither reading nor writing fails and there is memory.
    ensures complete { (command : Command) → Name words.now command
        → (bytes : List ℕ) → S.left src.old ≡ Some bytes → Accepts command (taken_of bytes)
        → (result ≡ 0) ⊎ (3 ≤ result) }
    ensures refused { (command : Command) → Name words.now command
        → (bytes text : List ℕ) → S.left src.old ≡ Some bytes
        → Refuses command (taken_of bytes) text → (result ≡ 2) ⊎ (3 ≤ result) }
    // For a drawn script nothing is taken, and it is done with, where writing does not fail and
    // there is memory.
    ensures draws { (plan : Plan) → AskFor words.now plan
        → (src.new ≡ src.old) × ((result ≡ 0) ⊎ (4 ≤ result)) }
    // On a roomy script without steps `threads` tells of each lane's own lines what `seq` tells.
    ensures alike { ThreadsTellAlike }
{
    status(run(rt, alloc, words, src, out, end))
}
