//! The words of spans are read into rows.

ghost use Rattle.std.specs.Prelude.{◌≡◌, ◌+◌, ◌*◌, ◌^◌, ◌<◌, ◌≤◌, All, length};
ghost use Rattle.cb_gf256.specs.Rows.{HaveLength};
ghost use Rattle.cb_types.specs.Config.{IsAccepted};
ghost use Rattle.cb_evict.specs.Loading.{LoadsRun, LoadsRuns};

use cb_types::Rows;
use cb_world::{Desk, load_run};

/// Reads the words of the run of so many frames from this one on into a row of 4,096 bytes for each
/// of them, each word once.
pub(crate) fn load_span<D: Desk>(desk: &mut D, frame: u32, pages: u32, into: &mut [u8])
    requires into { length into.old ≡ 4096 * pages }
    requires config { IsAccepted (D.settings desk.old) }
    requires frames { frame + pages ≤ (D.settings desk.old).frames }
    ensures loads { LoadsRun (λ es. D.run desk.old es desk.new) (λ s. D.shows desk.old s) frame
        pages into.new }
    ensures sized { length into.new ≡ 4096 * pages }
{
    load_run(desk, frame, pages, into);
}

/// Reads the words of the runs of so many frames from each of these on, each into the row at its
/// place; rows have 4,096 bytes for each frame.
pub(crate) fn load_spans<D: Desk>(desk: &mut D, frames: &[u32], pages: u32, rows: &mut Rows)
    requires count { length rows.old ≡ length frames.now }
    requires few { length frames.now < 2 ^ 32 }
    requires lengths { HaveLength (4096 * pages) rows.old }
    requires config { IsAccepted (D.settings desk.old) }
    requires frames { All (λ f. f + pages ≤ (D.settings desk.old).frames) frames.now }
    ensures loads { LoadsRuns (λ es. D.run desk.old es desk.new) (λ s. D.shows desk.old s)
        pages frames.now rows.new }
    ensures count { length rows.new ≡ length rows.old }
    ensures lengths { HaveLength (4096 * pages) rows.new }
{
    for (p, frame) in frames.iter().enumerate() {
        load_span(desk, *frame, pages, rows.row_mut(p as u32));
    }
}
