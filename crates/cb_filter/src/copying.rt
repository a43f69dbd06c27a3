//! The words of a claimed object are copied to another place.

ghost use Rattle.std.specs.Prelude.{◌≡◌, ℕ, ◌+◌, ◌*◌, ◌<◌, ◌≤◌, List, ◌∷◌, [], ◌++◌, length};
ghost use Rattle.cb_ptr.specs.Word.{len_of, place_of};
ghost use Rattle.cb_types.specs.Config.{IsAccepted};
ghost use Rattle.cb_world.specs.declared.access.Access.TheVariants.{Settled};
ghost use Rattle.cb_world.specs.declared.shown.Shown.{Shown};
ghost use Rattle.cb_world.specs.Memory.{words_for};
ghost use Rattle.cb_world.specs.Shown.{Owns};
ghost use Rattle.cb_world.specs.Claimed.{IsClaimedAt};
ghost use Rattle.cb_filter.specs.Copies.{IsCoolWord, IsVacant, copied_from};

use cb_ptr::{claimed, settled, unpack};
use cb_types::Handle;
use cb_world::Desk;

/// Copies the words of a claimed object to another place, and settles it there, not hot.
pub(crate) fn carry<D: Desk>(desk: &mut D, h: Handle, word: u64, place: u32)
    requires handle { h.n < (D.settings desk.old).handles }
    requires config { IsAccepted (D.settings desk.old) }
    requires ready { (s : Shown) × D.shows desk.old s × IsVacant s h.n word place
        × ((v : ℕ) × (words : List ℕ) × IsClaimedAt s h.n word v words) }
    ensures { (words : List ℕ) × (n : ℕ) × (length words ≡ words_for (len_of word))
        × IsCoolWord word place n
        × D.run desk.old (copied_from (place_of word) place words ++ Settled h.n n ∷ []) desk.new }
{
    let fields = unpack(word);
    copy_words(desk, fields.place, place, fields.len.div_ceil(8));
    desk.settle(h, settled(claimed(word), place, false));
}

/// Settles a claimed object where it was, not hot.
pub(crate) fn cool<D: Desk>(desk: &mut D, h: Handle, word: u64)
    requires handle { h.n < (D.settings desk.old).handles }
    requires claimed { (s : Shown) × D.shows desk.old s
        × ((v : ℕ) × (words : List ℕ) × IsClaimedAt s h.n word v words) }
    ensures { (n : ℕ) × IsCoolWord word (place_of word) n
        × D.run desk.old (Settled h.n n ∷ []) desk.new }
{
    desk.settle(h, settled(claimed(word), unpack(word).place, false));
}

/// Copies so many words from one place to another, whose words the caller owns.
fn copy_words<D: Desk>(desk: &mut D, from: u32, to: u32, count: u32)
    requires config { IsAccepted (D.settings desk.old) }
    requires read { from + count ≤ 512 * (D.settings desk.old).frames }
    requires stored { to + count ≤ 512 * (D.settings desk.old).frames }
    requires owned { (s : Shown) × D.shows desk.old s
        × ((p : ℕ) → to ≤ p → p < to + count → Owns s p) }
    ensures { (words : List ℕ) × (length words ≡ count)
        × D.run desk.old (copied_from from to words) desk.new }
{
    for i in 0..count {
        let word = desk.load(from + i);
        desk.store(to + i, word);
    }
}
