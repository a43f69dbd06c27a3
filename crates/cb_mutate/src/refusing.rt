//! Why a line on an object that is not here is refused.

ghost use Rattle.std.specs.Prelude.{◌≢◌, ◌<◌, List};
ghost use Rattle.cb_ptr.specs.declared.word.State.TheVariants as state;
ghost use Rattle.cb_ptr.specs.Word.{state_of, len_of, place_of};
ghost use Rattle.cb_world.specs.declared.access.Access.{Access};
ghost use Rattle.cb_world.specs.Reads.{AreReads};
ghost use Rattle.cb_world.specs.Touches.{Touches};
ghost use Rattle.cb_mutate.specs.Answered.{AbsentAs};

use cb_ptr::{State, unpack};
use cb_types::{Handle, Reply};
use cb_world::Desk;

/// What is answered of an object that is not here: Unmade, Freed, NotHere or Moving.
pub(crate) fn absent<D: Desk>(desk: &mut D, h: Handle, found: u64) -> Reply
    requires handle { h.n < (D.settings desk.old).handles }
    requires away { state_of found ≢ state.Here }
    ensures { (es : List Access) × D.run desk.old es desk.new × AreReads h.n es
        × Touches h.n (place_of found) (len_of found) es
        × AbsentAs (state_of found) h.n es result }
{
    match unpack(found).state {
        State::Empty => {
            if desk.version(h) == 0 {
                Reply::Unmade
            } else {
                Reply::Freed
            }
        }
        State::Far => Reply::NotHere,
        _ => Reply::Moving,
    }
}
