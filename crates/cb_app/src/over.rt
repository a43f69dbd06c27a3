//! The program over any reader and any writer.
ghost use Rattle.std.specs.Prelude.{◌≡◌, ◌≢◌, ◌≤◌, ◌⊎◌, ℕ, List, length, Some};
ghost use Rattle.std.specs.Io.KnownBytes.{Appends, Consumes};
ghost use Rattle.cb_types.specs.Faults.{Rose};
ghost use Rattle.cb_cli.specs.Fronts.{GetsFront};
ghost use Rattle.cb_cli.specs.Taken.{taken_of};
ghost use Rattle.cb_cli.specs.Texts.{words_refused};
ghost use Rattle.cb_cli.specs.Words.{AskFor, Name, NameNone};
ghost use Rattle.cb_cli.specs.declared.words.Command.{Command};
ghost use Rattle.cb_cli.specs.declared.words.Plan.{Plan};
ghost use Rattle.cb_app.specs.Modes.{Accepts, Refuses};
ghost use Rattle.cb_app.specs.Outcome.{TellsScript, TellsSummary, AreWordsRefused, RefusesScript, IsDue};

use crate::ending::Ending;
use crate::top::carbink_run;
use cb_types::{StdSink, StdSource};
use std::alloc::Global;
use std::io::{Read, Write};
use std::sync::Wait;
use std::thread::Threads;

/// Runs the command that the words give over a reader and a writer of std, whichever they are. It is
/// `carbink_run` with the bytes that the reader has left and those that the writer holds: exact
/// wherever the two tell them, as a slice and a `Vec` do. `main` makes this one call, over standard
/// input and output, of which std tells no bytes; so what runs there is what is proved here of every
/// reader and writer.
pub fn carbink_over<R: Threads + Wait + Sync, I: Read, O: Write>(
    rt: &R,
    alloc: Global,
    words: &[String],
    src: &mut StdSource<I>,
    out: &mut StdSink<O>,
    end: &mut Ending,
) -> u8
    ensures statuses { result ≤ 5 }
    ensures done { result ≡ 0
        → TellsScript words.now (I.remaining src.old.reader) (I.remaining src.new.reader)
        (O.contents out.old.writer) (O.contents out.new.writer) end.old end.new
        ⊎ TellsSummary words.now (I.remaining src.old.reader) (I.remaining src.new.reader)
        (O.contents out.old.writer) (O.contents out.new.writer) end.new }
    ensures words_refused { result ≡ 1 → AreWordsRefused words.now
        (I.remaining src.old.reader) (I.remaining src.new.reader) }
    ensures words_text { result ≡ 1
        → Appends (O.contents out.old.writer) (O.contents out.new.writer) words_refused }
    ensures words_end { result ≡ 1 → (src.new ≡ src.old) × (end.new ≡ end.old) }
    ensures refuses { NameNone words.now
        → (src.new ≡ src.old) × ((result ≡ 1) ⊎ (4 ≤ result)) }
    ensures script_refused { result ≡ 2 → RefusesScript words.now
        (I.remaining src.old.reader) (I.remaining src.new.reader)
        (O.contents out.old.writer) (O.contents out.new.writer) }
    ensures script_end { result ≡ 2 → end.new ≡ end.old }
    ensures read_fault { result ≡ 3 → Rose src.old.faults src.new.faults }
    ensures no_read_fault { result ≢ 3 → src.new.faults ≡ src.old.faults }
    ensures read_end { result ≡ 3 → (out.new ≡ out.old) × (end.new ≡ end.old) }
    ensures write_fault { result ≡ 4 → Rose out.old.faults out.new.faults }
    ensures no_write_fault { result ≢ 4 → out.new.faults ≡ out.old.faults }
    ensures cut { result ≡ 4 → (text : List ℕ)
        × IsDue words.now (I.remaining src.old.reader) (I.remaining src.new.reader)
        end.old end.new text
        × GetsFront (O.contents out.old.writer) (O.contents out.new.writer) text }
    ensures memory_end { result ≡ 5 → (out.new ≡ out.old) × (end.new ≡ end.old) }
    ensures most { (bytes : List ℕ)
        × Consumes (I.remaining src.old.reader) (I.remaining src.new.reader) bytes
        × (length bytes ≤ 1048577) }
    ensures complete { (command : Command) → Name words.now command
        → (bytes : List ℕ) → I.remaining src.old.reader ≡ Some bytes
        → Accepts command (taken_of bytes) → (result ≡ 0) ⊎ (3 ≤ result) }
    ensures refused { (command : Command) → Name words.now command
        → (bytes text : List ℕ) → I.remaining src.old.reader ≡ Some bytes
        → Refuses command (taken_of bytes) text → (result ≡ 2) ⊎ (3 ≤ result) }
    ensures draws { (plan : Plan) → AskFor words.now plan
        → (src.new ≡ src.old) × ((result ≡ 0) ⊎ (4 ≤ result)) }
{
    carbink_run(rt, alloc, words, src, out, end)
}
