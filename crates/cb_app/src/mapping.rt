//! Commands on one far array and one far map, on one pass of a shared runtime.
ghost use Rattle.std.specs.Prelude.{◌≡◌, ℕ, ◌≤◌, List, [], length, Some, IfOk, OnErr};
ghost use Rattle.cb_types.specs.Config.{IsAccepted};
ghost use Rattle.cb_cli.specs.declared.words.Command.TheVariants as commands;
ghost use Rattle.cb_map_text.specs.Texts.{refusal_text, said_text};
ghost use Rattle.cb_map_text.specs.declared.command.FarAnswer.{FarAnswer};
ghost use Rattle.cb_shared.specs.Closing.{IsClosedBy};
ghost use Rattle.cb_shared.specs.Passes.{IsPassOf};
ghost use Rattle.cb_app.specs.Mapped.{AreAnswered, IsMapped};
ghost use Rattle.cb_app.specs.Modes.{IsVerdict};

use crate::ending::Ending;
use cb_cli::{Pieces, Verdict};
use cb_farmap::{FarAnswers, run_commands};
use cb_map_text::{FarCommand, FarText, TextFault, line_refused_text, read_commands, saids_text};
use cb_shared::{Pass, Seal, Shared};
use cb_types::{Bytes, Config, NoMemory};
use cb_world::World;
use std::alloc::Global;
use std::mem;
use std::sync::Wait;

/// What commands leave: what was said to each, and the runtime that was closed.
#[derive(Drop)]
pub(crate) struct MapEnd {
    pub(crate) saids: FarAnswers,
    pub(crate) world: World,
    /// Shows that world, and the record of all calls.
    pub(crate) seal: Seal,
}

/// What `map` makes of bytes. The ending is set where they are done with, and else it stays.
pub(crate) fn map_bytes<R: Wait>(
    rt: &R,
    alloc: Global,
    bytes: &[u8],
    end: &mut Ending,
) -> Result<Verdict, NoMemory>
    ensures verdict { IfOk result (IsVerdict commands.Map bytes.now end.old end.new) }
    ensures kept { OnErr result (end.new ≡ end.old) }
{
    match read_commands(alloc, bytes) {
        Ok(text) => {
            let said = answer_commands(rt, alloc, text, end)?;
            Ok(Verdict::Done(Pieces::one(alloc, said)))
        }
        Err(fault) => map_refusal(alloc, fault),
    }
}

/// The text of what is said to commands. The runtime that they led to is left in the ending, and
/// their memory to the system.
fn answer_commands<R: Wait>(
    rt: &R,
    alloc: Global,
    text: FarText,
    end: &mut Ending,
) -> Result<Bytes, NoMemory>
    requires accepted { IsAccepted text.config }
    requires few { length text.commands ≤ 20000 }
    ensures told { IfOk result (λ said. (saids : List FarAnswer)
        × IsMapped text.config text.commands saids end.new × (said ≡ said_text saids)) }
    ensures kept { OnErr result (end.new ≡ end.old) }
{
    let config = text.config;
    let left = run_map(rt, alloc, config, text.commands.as_slice())?;
    mem::forget(text);
    leave_map(alloc, config, left, end)
}

/// The text of what was said, and the ending with the runtime that was closed.
fn leave_map(
    alloc: Global,
    config: Config,
    left: MapEnd,
    end: &mut Ending,
) -> Result<Bytes, NoMemory>
    ensures told { IfOk result (λ said. said ≡ said_text left.saids) }
    ensures left { IfOk result (λ _. end.new ≡ record {
      config = Some config;
      answers = [];
      losses = [];
      world = Some left.world;
      seal = Some left.seal;
    }) }
    ensures kept { OnErr result (end.new ≡ end.old) }
{
    let said = saids_text(alloc, left.saids.as_slice())?;
    let MapEnd { saids, world, seal } = left;
    mem::forget(saids);
    end.set(Ending::mapped(alloc, config, world, seal));
    Ok(said)
}

/// Runs commands on a runtime of this configuration, and closes it.
fn run_map<R: Wait>(
    rt: &R,
    alloc: Global,
    config: Config,
    asks: &[FarCommand],
) -> Result<MapEnd, NoMemory>
    requires accepted { IsAccepted config }
    requires few { length asks.now ≤ 20000 }
    ensures answered { IfOk result (λ left.
        AreAnswered config asks.now left.saids left.world left.seal) }
{
    let (shared, pass) = Shared::new(alloc, config)?;
    let mut pass = pass;
    let saids = run_commands(rt, alloc, &shared, &mut pass, asks)?;
    close_map(alloc, shared, pass, saids)
}

/// Closes the runtime after its commands.
fn close_map(
    alloc: Global,
    shared: Shared,
    pass: Pass,
    saids: FarAnswers,
) -> Result<MapEnd, NoMemory>
    requires of { IsPassOf shared pass }
    ensures saids { IfOk result (λ left. left.saids ≡ saids) }
    ensures closed { IfOk result (λ left. IsClosedBy shared pass left.world left.seal) }
{
    match shared.close(alloc, pass) {
        Ok((world, seal)) => Ok(MapEnd { saids, world, seal }),
        Err(_refused) => Err(NoMemory),
    }
}

/// The refusal of bytes at their first line outside the form, unless memory was wanting.
fn map_refusal(alloc: Global, fault: TextFault) -> Result<Verdict, NoMemory>
    ensures told { IfOk result (λ verdict. (line : ℕ) × (fault ≡ TextFault.Line line)
        × (verdict ≡ Verdict.Refused (refusal_text line))) }
{
    match fault {
        TextFault::Line { line } => Ok(Verdict::Refused(line_refused_text(alloc, line)?)),
        TextFault::NoMemory => Err(NoMemory),
    }
}
