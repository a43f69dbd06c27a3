//! A script is read from bytes.

ghost use Rattle.std.specs.Prelude.{◌≡◌, ◌≤◌, ◌⊎◌, ◌∷◌, ◌++◌, [], ℕ, List, length, IfOk, IfErr, MatchResult, Ok, Err};
ghost use Rattle.cb_script.specs.declared.fault.Reason.{Reason};
ghost use Rattle.cb_script.specs.declared.script.Line.{Line};
ghost use Rattle.cb_script.specs.declared.script.Script.{Script};
ghost use Rattle.cb_script.specs.First.{First};
ghost use Rattle.cb_script.specs.Form.{Spells};
ghost use Rattle.cb_script.specs.Reading.{FaultIs, AreTheLines, HasBadLine, IsLeastLane, fault_at};
ghost use Rattle.cb_script.specs.Spelling.{lines_of};

use crate::cut::first_line;
use crate::fault::{Reason, Refusal, ScriptFault};
use crate::header::header_of;
use crate::known::Names;
use crate::line::line_of;
use crate::request::Limits;
use crate::script::{Lines, Mode, Script};
use cb_types::Lane;
use std::alloc::Global;
use std::collections::BTreeMap;

/// The longest script has so many bytes.
const LONGEST_SCRIPT: usize = 1_048_576;

/// The longest script has so many lines after its header.
const MOST_LINES: usize = 20_000;

/// Reads the script that the bytes spell in this mode, or tells the first bad line with the least
/// reason on it. It takes memory for the script and the names in it alone, and stops at the first
/// bad line.
pub fn read_script(alloc: Global, bytes: &[u8], mode: Mode) -> Result<Script, ScriptFault>
    ensures found { IfOk result (λ script. Spells bytes.now mode script) }
    ensures only { (script : Script) → Spells bytes.now mode script
        → (result ≡ Ok script) ⊎ (result ≡ Err ScriptFault.NoMemory) }
    ensures bad { IfErr result (λ e. FaultIs e (First bytes.now mode)) }
    ensures first { (line : ℕ) (reason : Reason) → First bytes.now mode line reason
        → (result ≡ Err (ScriptFault.Bad line reason)) ⊎ (result ≡ Err ScriptFault.NoMemory) }
{
    script_of(alloc, bytes, mode)
}

fn script_of(alloc: Global, bytes: &[u8], mode: Mode) -> Result<Script, ScriptFault>
    ensures { MatchResult result (Spells bytes.now mode) (λ e. FaultIs e (First bytes.now mode)) }
{
    if bytes.len() > LONGEST_SCRIPT {
        return Err(ScriptFault::Bad {
            line: 0,
            reason: Reason::TooLong,
        });
    }
    if bytes.is_empty() {
        return Err(ScriptFault::Bad {
            line: 1,
            reason: Reason::Header,
        });
    }
    let (header, text) = first_line(bytes);
    match header_of(header) {
        Ok(config) => {
            let limits = Limits {
                mode,
                nodes: config.nodes as u8,
            };
            let lines = read_lines(alloc, limits, text)?;
            Ok(Script { config, lines })
        }
        Err(reason) => Err(ScriptFault::Bad { line: 1, reason }),
    }
}

/// The lines of a text after a header, or the first of them that is bad.
fn read_lines(alloc: Global, limits: Limits, text: &[u8]) -> Result<Lines, ScriptFault>
    requires { length text.now ≤ 1048576 }
    ensures { MatchResult result
        (AreTheLines limits.mode limits.nodes (lines_of text.now))
        (λ e. FaultIs e (HasBadLine limits.mode limits.nodes (lines_of text.now))) }
{
    let mut names: Names = BTreeMap::new(alloc);
    let mut lines = Lines::new(alloc);
    let mut least_lane = 0;
    let mut number = 2;
    let mut rest = text;
    while !rest.is_empty() {
        let (line, behind) = first_line(rest);
        if lines.as_slice().len() >= MOST_LINES {
            return Err(ScriptFault::Bad {
                line: number,
                reason: Reason::Lines,
            });
        }
        match line_of(alloc, &mut names, limits, least_lane, number, line) {
            Ok(line) => {
                least_lane = least_behind(least_lane, line.lane);
                lines.push(line)?;
            }
            Err(refusal) => return Err(fault_at(number, refusal)),
        }
        number += 1;
        rest = behind;
    }
    Ok(lines)
}

/// The least lane that may stand after a line of this lane, where this one was the least.
fn least_behind(least: u8, lane: Lane) -> u8
    ensures { (before : List Line) (l : Line) → IsLeastLane before least → l.lane ≡ lane
        → IsLeastLane (before ++ l ∷ []) result }
{
    if lane.n > 0 {
        return 1;
    }
    least
}

/// Why no script was read, where this line was refused.
fn fault_at(line: u32, refusal: Refusal) -> ScriptFault
    ensures { result ≡ fault_at line refusal }
{
    match refusal {
        Refusal::Broken(reason) => ScriptFault::Bad { line, reason },
        Refusal::NoMemory => ScriptFault::NoMemory,
    }
}
