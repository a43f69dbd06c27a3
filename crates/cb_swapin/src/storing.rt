//! The words of a row are stored in frames.

ghost use Rattle.std.specs.Prelude.{◌≡◌, ◌+◌, ◌*◌, ◌^◌, ◌<◌, ◌≤◌, length};
ghost use Rattle.cb_world.specs.declared.shown.Shown.{Shown};
ghost use Rattle.cb_world.specs.Memory.{put};
ghost use Rattle.cb_world.specs.RowWords.{words_in};
ghost use Rattle.cb_swapin.specs.Brings.{StoresIn};
ghost use Rattle.cb_swapin.specs.Waiting.{IsRunVacant};
ghost use Rattle.cb_swapin.specs.BroughtIn.{Brought};

use cb_world::{Desk, store_run};

/// Stores the words of a row in the run of so many frames from this one on, where no object lies:
/// each word once.
pub(crate) fn store_row<D: Desk>(desk: &mut D, frame: u32, pages: u32, row: &[u8])
    requires frames { frame + pages ≤ (D.settings desk.old).frames }
    requires numbered { frame + pages < 2 ^ 32 }
    requires row { length row.now ≡ 4096 * pages }
    requires vacant { (s : Shown) × D.shows desk.old s × IsRunVacant s frame pages }
    ensures { Brought (λ es. D.run desk.old es desk.new)
        (λ s. D.shows desk.old s × IsRunVacant s frame pages)
        (StoresIn frame pages)
        (λ s t. t ≡ record s { memory = put s.memory (512 * frame) (words_in row.now) }) }
{
    store_run(desk, frame, pages, row);
}
