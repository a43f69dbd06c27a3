//! The header of a script.

ghost use Rattle.std.specs.Prelude.{◌≡◌, ◌<◌, ◌^◌, MatchResult, codes};
ghost use Rattle.cb_types.specs.Config.{IsAccepted};
ghost use Rattle.cb_script.specs.Spelling.{header_words, header_line, setting};
ghost use Rattle.cb_script.specs.Cut.{texts};
ghost use Rattle.cb_script.specs.Found.{Finds};
ghost use Rattle.cb_script.specs.Reading.{HeaderFault};
ghost use Rattle.cb_script.specs.Numbers.{AreNumbers};

use crate::cut::words_into;
use crate::fault::Reason;
use crate::number::setting_of;
use cb_types::Config;

/// A header has so many words.
const HEADER_WORDS: usize = 9;

/// The configuration that a header of this text sets, where it is accepted.
pub fn header_of(text: &[u8]) -> Result<Config, Reason>
    ensures { MatchResult result
        (λ c. IsAccepted c × (text.now ≡ header_line c))
        (HeaderFault text.now) }
{
    let mut places = [b"".as_slice(); HEADER_WORDS];
    let Some(count) = words_into(text, &mut places) else {
        return Err(Reason::Header);
    };
    let Some(config) = config_of(&places[..count]) else {
        return Err(Reason::Header);
    };
    match config.check() {
        Ok(()) => Ok(config),
        Err(_) => Err(Reason::Config),
    }
}

/// The sizes of a header that say how rows are coded.
#[derive(Clone, Copy)]
struct CodeSizes {
    k: u32,
    r: u32,
    nodes: u32,
}

/// The sizes of a header that say what is held, and how many turns are made.
#[derive(Clone, Copy)]
struct HeldSizes {
    frames: u32,
    room: u32,
    handles: u32,
    turns: u32,
}

/// The configuration that the words of a header set, whether or not it is accepted.
fn config_of(words: &[&[u8]]) -> Option<Config>
    ensures { Finds result (λ c. AreNumbers c × (texts words.now ≡ header_words c)) }
{
    let [carbink, version, k, r, nodes, frames, room, handles, turns] = words else {
        return None;
    };
    if *carbink != b"carbink".as_slice() || *version != b"1".as_slice() {
        return None;
    }
    let code = code_sizes(k, r, nodes)?;
    let held = held_sizes(frames, room, handles, turns)?;
    Some(Config {
        k: code.k,
        r: code.r,
        nodes: code.nodes,
        frames: held.frames,
        room: held.room,
        handles: held.handles,
        turns: held.turns,
    })
}

/// What these words set, each under its name.
fn code_sizes(k: &[u8], r: &[u8], nodes: &[u8]) -> Option<CodeSizes>
    ensures { Finds result (λ s.
        ((s.k < 10 ^ 9) × (k.now ≡ setting (codes "k") s.k))
        × ((s.r < 10 ^ 9) × (r.now ≡ setting (codes "r") s.r))
        × ((s.nodes < 10 ^ 9) × (nodes.now ≡ setting (codes "nodes") s.nodes))) }
{
    let k = setting_of(k, b"k")?;
    let r = setting_of(r, b"r")?;
    let nodes = setting_of(nodes, b"nodes")?;
    Some(CodeSizes { k, r, nodes })
}

/// What these words set, each under its name.
fn held_sizes(frames: &[u8], room: &[u8], handles: &[u8], turns: &[u8]) -> Option<HeldSizes>
    ensures { Finds result (λ s.
        ((s.frames < 10 ^ 9) × (frames.now ≡ setting (codes "frames") s.frames))
        × ((s.room < 10 ^ 9) × (room.now ≡ setting (codes "room") s.room))
        × ((s.handles < 10 ^ 9) × (handles.now ≡ setting (codes "handles") s.handles))
        × ((s.turns < 10 ^ 9) × (turns.now ≡ setting (codes "turns") s.turns))) }
{
    let frames = setting_of(frames, b"frames")?;
    let room = setting_of(room, b"room")?;
    let handles = setting_of(handles, b"handles")?;
    let turns = setting_of(turns, b"turns")?;
    Some(HeldSizes {
        frames,
        room,
        handles,
        turns,
    })
}
