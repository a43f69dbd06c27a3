//! A far object is brought in.

ghost use Rattle.std.specs.Prelude.{◌≡◌, ℕ, ◌+◌, ◌*◌, ◌^◌, ◌<◌, ◌≤◌, [], ◌∷◌, IfSome, length};
ghost use Rattle.cb_class.specs.Class.{IsClass, pages_of, slots_of};
ghost use Rattle.cb_types.specs.Config.{IsAccepted};
ghost use Rattle.cb_world.specs.declared.access.Access.TheVariants.{Looked, Settled};
ghost use Rattle.cb_world.specs.declared.shown.Shown.{Shown};
ghost use Rattle.cb_swapin.specs.Named.{AreCleared, IsNamed, NamesApart};
ghost use Rattle.cb_swapin.specs.Brings.{BringsSlots};
ghost use Rattle.cb_swapin.specs.Waiting.{AreStored, AreWaiting, IsReady};
ghost use Rattle.cb_swapin.specs.BroughtIn.{AreBrought, BringsOne, BringsSlot, Brought, IsSpanBrought};

use crate::storing::store_row;
use cb_class::{Class, pages};
use cb_ptr::{PtrWord, State, pack, unpack};
use cb_span::{Span, slot_place};
use cb_types::Handle;
use cb_world::{Desk, Homes};

/// Brings the span of a row into its frames, from this one on, where no object lies: the row's
/// words are stored there, and the objects of the span's slots are here, each at its slot, not hot
/// and without a home. Their version words stay.
pub(crate) fn bring_span<D: Desk>(
    desk: &mut D,
    homes: &mut Homes,
    frame: u32,
    span: &Span,
    row: &[u8],
)
    requires config { IsAccepted (D.settings desk.old) }
    requires frames { frame + pages_of span.now.class ≤ (D.settings desk.old).frames }
    requires row { length row.now ≡ 4096 * pages_of span.now.class }
    requires apart { NamesApart span.now.slots }
    requires homes { (h : ℕ) → IsNamed span.now.slots h → h < length homes.old }
    requires waiting { (s : Shown) × D.shows desk.old s
        × AreWaiting s frame span.now.class span.now.slots row.now }
    ensures homes { AreCleared span.now.slots homes.old homes.new }
    ensures brought { Brought (λ es. D.run desk.old es desk.new)
        (λ s. D.shows desk.old s × AreWaiting s frame span.now.class span.now.slots row.now)
        (BringsSlots span.now.slots frame (pages_of span.now.class))
        (IsSpanBrought span.now.slots span.now.class frame row.now) }
{
    let class = span.class();
    store_row(desk, frame, pages(class), row);
    bring_all(desk, homes, frame, class, span.slots());
}

/// Brings the objects of all slots in, whose words stand in the frames from this one on.
fn bring_all<D: Desk>(
    desk: &mut D,
    homes: &mut Homes,
    frame: u32,
    class: Class,
    slots: &[Option<u32>],
)
    requires config { IsAccepted (D.settings desk.old) }
    requires frames { frame + pages_of class ≤ (D.settings desk.old).frames }
    requires class { IsClass class }
    requires sized { length slots.now ≡ slots_of class }
    requires apart { NamesApart slots.now }
    requires homes { (h : ℕ) → IsNamed slots.now h → h < length homes.old }
    requires stored { (s : Shown) × D.shows desk.old s × AreStored s frame class slots.now }
    ensures homes { AreCleared slots.now homes.old homes.new }
    ensures brought { Brought (λ es. D.run desk.old es desk.new)
        (λ s. D.shows desk.old s × AreStored s frame class slots.now)
        (BringsSlots slots.now frame (pages_of class))
        (AreBrought (length slots.now) slots.now class frame) }
{
    for (slot, handle) in slots.iter().enumerate() {
        bring_slot(desk, homes, slot_place(class, frame, slot as u32), *handle);
    }
}

/// Brings the object of a slot to its place, if it has one, and takes its home away.
fn bring_slot<D: Desk>(desk: &mut D, homes: &mut Homes, place: u32, handle: Option<u32>)
    requires place { place < 2 ^ 24 }
    requires handle { IfSome handle (λ h. (h < (D.settings desk.old).handles)
        × (h < length homes.old) × ((s : Shown) × D.shows desk.old s × IsReady s h place)) }
    ensures { BringsSlot (λ es. D.run desk.old es desk.new) (D.shows desk.old) homes.old homes.new
        place handle }
{
    if let Some(n) = handle {
        bring(desk, Handle { n }, place);
        homes.clear(n);
    }
}

/// Settles a far object at a place where its words stand, not hot.
fn bring<D: Desk>(desk: &mut D, h: Handle, place: u32)
    requires handle { h.n < (D.settings desk.old).handles }
    requires place { place < 2 ^ 24 }
    requires ready { (s : Shown) × D.shows desk.old s × IsReady s h.n place }
    ensures { (w x : ℕ) × D.run desk.old (Looked h.n w ∷ Settled h.n x ∷ []) desk.new
        × ((s : Shown) → D.shows desk.old s → IsReady s h.n place → BringsOne s h.n place w x) }
{
    let fields = unpack(desk.word(h));
    let word = PtrWord {
        state: State::Here,
        hot: false,
        pins: 0,
        len: fields.len,
        place,
    };
    desk.settle(h, pack(&word));
}
