//! A text of commands is read.

ghost use Rattle.std.specs.Prelude.{◌≡◌, ◌+◌, ◌≤◌, ◌⊎◌, ℕ, List, MatchResult, IfOk, IfErr, Ok, Err};
ghost use Rattle.cb_types.specs.declared.config.Config.{Config};
ghost use Rattle.cb_script.specs.Spelling.{lines_of};
ghost use Rattle.cb_map_text.specs.First.{First};
ghost use Rattle.cb_map_text.specs.Form.{Spells};
ghost use Rattle.cb_map_text.specs.Reading.{AreTheCommands, FaultIs, HasBadLine, IsPushed};
ghost use Rattle.cb_map_text.specs.declared.command.FarCommand.{FarCommand};
ghost use Rattle.cb_map_text.specs.declared.read.FarText.{FarText};
ghost use Rattle.cb_map_text.specs.declared.read.TextFault.TheVariants.{Line, NoMemory as OutOfMemory};

use crate::command::FarCommands;
use crate::line::command_of;
use cb_script::{first_line, header_of};
use cb_types::{Config, NoMemory};
use std::alloc::Global;

/// The longest text has so many bytes.
const LONGEST_TEXT: usize = 1_048_576;

/// The longest text has so many commands after its header.
const MOST_COMMANDS: usize = 20_000;

/// A text of commands that was read.
#[derive(Drop)]
pub struct FarText {
    /// What the header sets.
    pub config: Config,
    /// The commands, in order.
    pub commands: FarCommands,
}

/// Why no commands were read.
#[derive(Clone, Copy)]
pub enum TextFault {
    /// The first line that is outside the form. It is 0 where there are too many bytes, and the
    /// header is line 1.
    Line { line: u32 },
    /// There was no memory for what was read.
    NoMemory,
}

impl From<NoMemory> for TextFault {
    ghost from_gives = { λ _ fault. fault ≡ OutOfMemory };

    fn from(_refused: NoMemory) -> TextFault {
        TextFault::NoMemory
    }
}

/// Reads the commands that the bytes spell after a header, or tells the first line that is outside
/// the form. It takes memory for the commands alone, and stops at the first such line.
pub fn read_commands(alloc: Global, bytes: &[u8]) -> Result<FarText, TextFault>
    ensures found { IfOk result (λ text. Spells bytes.now text.config text.commands) }
    ensures only { (c : Config) (commands : List FarCommand) → Spells bytes.now c commands
        → (result ≡ Ok (record { config = c; commands = commands }))
        ⊎ (result ≡ Err TextFault.NoMemory) }
    ensures bad { IfErr result (λ fault. FaultIs fault (First bytes.now)) }
    ensures first { (line : ℕ) → First bytes.now line
        → (result ≡ Err (TextFault.Line line)) ⊎ (result ≡ Err TextFault.NoMemory) }
{
    text_of(alloc, bytes)
}

fn text_of(alloc: Global, bytes: &[u8]) -> Result<FarText, TextFault>
    ensures { MatchResult result
        (λ text. Spells bytes.now text.config text.commands)
        (λ fault. FaultIs fault (First bytes.now)) }
{
    if bytes.len() > LONGEST_TEXT {
        return Err(TextFault::Line { line: 0 });
    }
    if bytes.is_empty() {
        return Err(TextFault::Line { line: 1 });
    }
    let (header, text) = first_line(bytes);
    match header_of(header) {
        Ok(config) => {
            let commands = commands_of(alloc, text)?;
            Ok(FarText { config, commands })
        }
        Err(_) => Err(TextFault::Line { line: 1 }),
    }
}

/// The commands of a text after a header, or the first line that is none, or is one too many.
fn commands_of(alloc: Global, text: &[u8]) -> Result<FarCommands, TextFault>
    ensures { MatchResult result
        (AreTheCommands (lines_of text.now))
        (λ fault. FaultIs fault (HasBadLine (lines_of text.now))) }
{
    let mut commands = FarCommands::new(alloc);
    let mut rest = text;
    while !rest.is_empty() {
        let (line, behind) = first_line(rest);
        let before = commands.as_slice().len();
        if before >= MOST_COMMANDS {
            return Err(fault_behind(before));
        }
        if !push_command(&mut commands, line)? {
            return Err(fault_behind(before));
        }
        rest = behind;
    }
    Ok(commands)
}

/// That the line after the header and so many commands is outside the form.
fn fault_behind(commands: usize) -> TextFault
    requires { commands ≤ 20000 }
    ensures { result ≡ Line (commands + 2) }
{
    TextFault::Line {
        line: commands as u32 + 2,
    }
}

/// Adds the command that a line of this text is at the end, and tells whether it is one.
fn push_command(commands: &mut FarCommands, text: &[u8]) -> Result<bool, NoMemory>
    ensures { IfOk result (IsPushed commands.old commands.new text.now) }
{
    let Some(command) = command_of(text) else {
        return Ok(false);
    };
    commands.push(command)?;
    Ok(true)
}
