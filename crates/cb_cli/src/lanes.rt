//! How many lanes the lines of a script have.

ghost use Rattle.std.specs.Prelude.{◌≡◌};
ghost use Rattle.cb_cli.specs.Lanes.{lane_count};

use cb_script::Line;

/// How many lanes a byte can name.
const NAMED_LANES: usize = 256;

/// How many different lanes the lines have. Takes no memory.
pub fn different_lanes(lines: &[Line]) -> usize
    ensures { result ≡ lane_count lines.now }
{
    let mut seen = [false; NAMED_LANES];
    let mut count = 0;
    for line in lines {
        let lane = usize::from(line.lane.n);
        if !seen[lane] {
            seen[lane] = true;
            count += 1;
        }
    }
    count
}
