//! A script that is drawn from a seed.

ghost use Rattle.std.specs.Prelude.{◌≡◌, ◌<◌, ◌≤◌, length, OnOk, IfOk};
ghost use Rattle.cb_script.specs.Form.{IsScript};
ghost use Rattle.cb_script.specs.Roomy.{IsAtEase};
ghost use Rattle.cb_gen.specs.Drawn.{made_script, with_line};
ghost use Rattle.cb_gen.specs.Noted.{AreLengthsNoted};

use crate::draws::Draws;
use crate::lengths::{LaneLengths, length_made};
use crate::request::draw_request;
use cb_script::{Line, Lines, Script};
use cb_types::{Config, Lane, NoMemory};
use std::alloc::Global;

/// The configuration of each script: its nodes 0 and 1 may crash, and no line is refused for want
/// of room, or because an object is lost.
const CONFIG: Config = Config {
    k: 4,
    r: 2,
    nodes: 8,
    frames: 12,
    room: 4096,
    handles: 65_536,
    turns: 0,
};

/// The script that the seed draws: at most 4,000 lines, on lanes 1 to at most 15. The same seed and
/// the same counts draw the same script.
pub fn make_script(alloc: Global, seed: u64, lines: u32, lanes: u32) -> Result<Script, NoMemory>
    requires lines { lines ≤ 4000 }
    requires lanes { (1 ≤ lanes) × (lanes ≤ 15) }
    ensures script { IfOk result (λ script. script ≡ made_script seed lines lanes) }
    ensures form { IfOk result IsScript }
    ensures ease { IfOk result IsAtEase }
{
    let mut draws = Draws { state: seed };
    let mut made = LaneLengths::new(alloc)?;
    let mut drawn = Lines::new(alloc);
    for _line in 0..lines {
        add_line(alloc, lanes, &mut draws, &mut made, &mut drawn)?;
    }
    Ok(Script {
        config: CONFIG,
        lines: drawn,
    })
}

/// Draws one line more.
fn add_line(
    alloc: Global,
    lanes: u32,
    draws: &mut Draws,
    made: &mut LaneLengths,
    lines: &mut Lines,
) -> Result<(), NoMemory>
    requires lanes { (1 ≤ lanes) × (lanes ≤ 15) }
    requires few { length lines.old < 4000 }
    requires noted { AreLengthsNoted made.old lines.old }
    ensures line { OnOk result (record { lines = lines.new; left = draws.new.state }
        ≡ with_line lanes (record { lines = lines.old; left = draws.old.state })) }
    ensures noted { OnOk result (AreLengthsNoted made.new lines.new) }
{
    let lane = 1 + draws.below(lanes) as u8;
    let action = draws.below(16);
    let request = draw_request(alloc, draws, action, lane, made.of(lane))?;
    let len = length_made(&request);
    let line = lines.as_slice().len() as u32 + 2;
    lines.push(Line {
        lane: Lane { n: lane },
        line,
        request,
    })?;
    made.note(lane, len)
}
