//! Why an object is not filtered.

ghost use Rattle.std.specs.Prelude.{◌≢◌, ◌<◌, List};
ghost use Rattle.cb_ptr.specs.declared.word.State.TheVariants as state;
ghost use Rattle.cb_ptr.specs.Word.{state_of};
ghost use Rattle.cb_world.specs.declared.access.Access.{Access};
ghost use Rattle.cb_world.specs.Grasped.{IsFree};
ghost use Rattle.cb_world.specs.Reads.{AreReads};
ghost use Rattle.cb_filter.specs.FilterRule.{AbsentToFilter};
ghost use Rattle.cb_filter.specs.Refused.{RefusedAs};

use cb_ptr::{State, unpack};
use cb_types::{Handle, Reply};
use cb_world::Desk;

/// Why an object whose word can't be claimed is not filtered.
pub(crate) fn refuse<D: Desk>(desk: &mut D, h: Handle, word: u64) -> Reply
    requires handle { h.n < (D.settings desk.old).handles }
    requires left { ¬ (IsFree word) }
    ensures { (es : List Access) × D.run desk.old es desk.new × AreReads h.n es
        × RefusedAs (state_of word) h.n word es result }
{
    let fields = unpack(word);
    match fields.state {
        State::Here => Reply::Pinned { count: fields.pins },
        _ => absent_to_filter(desk, h, word),
    }
}

/// What is answered of an object that is not here: Unmade, NotHere or Moving.
fn absent_to_filter<D: Desk>(desk: &mut D, h: Handle, found: u64) -> Reply
    requires handle { h.n < (D.settings desk.old).handles }
    requires away { state_of found ≢ state.Here }
    ensures { (es : List Access) × D.run desk.old es desk.new × AreReads h.n es
        × AbsentToFilter (state_of found) h.n es result }
{
    match unpack(found).state {
        State::Empty => {
            if desk.version(h) == 0 {
                Reply::Unmade
            } else {
                Reply::NotHere
            }
        }
        State::Far => Reply::NotHere,
        _ => Reply::Moving,
    }
}
