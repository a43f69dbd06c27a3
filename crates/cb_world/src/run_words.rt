//! The words of a run of frames, as a row.

ghost use Rattle.std.specs.Prelude.{◌≡◌, ◌+◌, ◌*◌, ◌^◌, ◌<◌, ◌≤◌, length};
ghost use Rattle.cb_world.specs.declared.shown.Shown.{Shown};
ghost use Rattle.cb_world.specs.FrameWords.{OwnsRun, ReadsRun, stores_from};
ghost use Rattle.cb_world.specs.RowWords.{words_in};

use crate::desk::Desk;

/// The bytes of a page, as many as a frame holds.
const PAGE: usize = 4096;

/// Loads the words of a run of so many frames, from this one on, into a row of 4,096 bytes for each
/// of them: each word once and in order.
pub fn load_run<D: Desk>(desk: &mut D, frame: u32, pages: u32, row: &mut [u8])
    requires frames { frame + pages ≤ (D.settings desk.old).frames }
    requires numbered { frame + pages < 2 ^ 32 }
    requires row { length row.old ≡ 4096 * pages }
    ensures { ReadsRun (λ es. D.run desk.old es desk.new) frame pages row.new }
{
    for page in 0..pages {
        let first = PAGE * page as usize;
        desk.load_frame(frame + page, &mut row[first..first + PAGE]);
    }
}

/// Stores the words of a row of 4,096 bytes for each of so many frames, from this one on, whose
/// words the caller owns: each word once and in order.
pub fn store_run<D: Desk>(desk: &mut D, frame: u32, pages: u32, row: &[u8])
    requires frames { frame + pages ≤ (D.settings desk.old).frames }
    requires numbered { frame + pages < 2 ^ 32 }
    requires row { length row.now ≡ 4096 * pages }
    requires owned { (s : Shown) × D.shows desk.old s × OwnsRun s frame pages }
    ensures { D.run desk.old (stores_from (512 * frame) (words_in row.now)) desk.new }
{
    for page in 0..pages {
        let first = PAGE * page as usize;
        desk.store_frame(frame + page, &row[first..first + PAGE]);
    }
}
