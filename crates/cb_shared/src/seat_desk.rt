//! The desk of the holder of the far lock, beside whom others step.

ghost use Rattle.std.specs.Prelude.{◌≡◌, true, false, ◌+◌, ◌*◌, ◌≤◌, length, Some};
ghost use Rattle.cb_shared.specs.Rights.{rights};
ghost use Rattle.cb_shared.specs.Seats.{record_at};

use crate::board::{SeatAt, Top};
use crate::frames::{load_words, store_row};
use crate::plays::{Load, LookAt, Settle, Stamp, Store, TakeClaim, Tell};
use byteorder::{ByteOrder, LittleEndian};
use cb_types::{Config, Handle};
use cb_world::{Claim, Desk, FRAME_WORDS};
use std::sync::Wait;

/// The words as the holder of the far lock works at them, while others pin, unpin and write: each
/// call is one atomic step of its seat, and a frame is one step a word. A turn writes one object at
/// most, that of its job; of no other object does the version word change.
pub struct SeatDesk<'a, R: Wait> {
    pub rt: &'a R,
    pub config: Config,
    pub top: &'a Top,
    pub seat: &'a mut SeatAt,
    /// The object that the turn may write, if there is one.
    pub allowed: Option<u32>,
    pub ghost table: { seat.now.table_id ≡ top.now.table_id },
    pub ghost counts: { top.now.table_id.words
        ≡ 1 + config.handles + config.handles + 512 * config.frames },
    pub ghost key: { top.now.key.config ≡ config },
    pub ghost same: { (record_at seat.now).config ≡ config },
    pub ghost live: { 1 ≤ (record_at seat.now).share },
    pub ghost may: { 1 ≤ rights allowed (record_at seat.now).known (record_at seat.now) },
    pub ghost holder: { (record_at seat.now).holds ≡ true },
    pub ghost objects: { length (record_at seat.now).known.objects ≡ config.handles },
    pub ghost hots: { length (record_at seat.now).known.hots ≡ config.handles },
    pub ghost versions: { length (record_at seat.now).known.versions ≡ config.handles },
    pub ghost memory: { length (record_at seat.now).known.memory ≡ 512 * config.frames },
}

impl<'a, R: Wait> Desk for SeatDesk<'a, R> {
    ghost use Rattle.std.proofs.Common.{refl, ap, ◌∙◌};
    ghost use Rattle.cb_shared.specs.SeatLaws.{Runs, runs_more, runs_follows};

    ghost settings = { λ d. d.config };

    ghost shows = { λ d s. s ≡ (record_at d.seat.now).known };

    ghost run = { λ d es e. Runs d.seat.now es e.seat.now × (e.top.now ≡ d.top.now)
        × (e.config ≡ d.config) × (e.seat.ghost_name ≡ d.seat.ghost_name) };

    fn config(&self) -> Config {
        self.config
    }

    fn word(&mut self, h: Handle) -> u64 {
        self.top.load::<LookAt>(self.seat, 1 + h.n as usize)
    }

    fn version(&mut self, h: Handle) -> u64 {
        let handles = self.config.handles as usize;
        self.top.load::<Tell>(self.seat, 1 + handles + h.n as usize)
    }

    fn load(&mut self, place: u32) -> u64 {
        let handles = self.config.handles as usize;
        self.top
            .load::<Load>(self.seat, 1 + handles + handles + place as usize)
    }

    fn load_frame(&mut self, frame: u32, row: &mut [u8]) {
        let mut words = [0u64; FRAME_WORDS];
        load_words(self.top, self.seat, &self.config, frame, &mut words);
        LittleEndian::write_u64_into(&words, row);
    }

    fn claim(&mut self, h: Handle, saw: u64) -> Claim {
        let claimed = cb_ptr::claimed(saw);
        let found = self
            .top
            .compare_exchange::<TakeClaim>(self.seat, 1 + h.n as usize, saw, claimed);
        if found == saw {
            Claim::Claimed
        } else {
            Claim::Raced { found }
        }
    }

    fn store(&mut self, place: u32, word: u64) {
        let handles = self.config.handles as usize;
        self.top
            .store::<Store>(self.seat, 1 + handles + handles + place as usize, word);
    }

    fn store_frame(&mut self, frame: u32, row: &[u8]) {
        store_row(self.top, self.seat, &self.config, frame, row);
    }

    fn store_version(&mut self, h: Handle, version: u64) {
        stay_within(self.rt, self.allowed, h.n);
        let handles = self.config.handles as usize;
        self.top
            .store::<Stamp>(self.seat, 1 + handles + h.n as usize, version);
    }

    fn settle(&mut self, h: Handle, word: u64) {
        self.top.store::<Settle>(self.seat, 1 + h.n as usize, word);
    }

    ghost none = { λ d. (((refl, refl, refl), tt, tt, tt), refl, refl, refl) };

    ghost more = { λ d e f es fs a b. (
      runs_more d.seat.now e.seat.now f.seat.now es fs a.0 b.0,
      b.1 ∙ a.1,
      b.2 ∙ a.2,
      b.3 ∙ a.3,
    ) };

    ghost stays = { λ d e es a. a.2 };

    ghost follows = { λ d e es s a b. runs_follows d.seat.now e.seat.now es s a.0 b };

    ghost sized = { λ d s a. (
      ap (λ t. length t.objects) a ∙ d.objects,
      ap (λ t. length t.hots) a ∙ d.hots,
      ap (λ t. length t.versions) a ∙ d.versions,
      ap (λ t. length t.memory) a ∙ d.memory,
    ) };
}

/// Goes on where the object is the one that the turn may write. No turn stores the version word of
/// another, but the desk can't tell that of the calls that are made at it; and what a pass reads of
/// its own objects rests on it that no other pass writes them. So a turn that came here with
/// another object would stop for good, and write nothing.
fn stay_within<R: Wait>(rt: &R, allowed: Option<u32>, h: u32)
    ensures { allowed ≡ Some h }
{
    for _ in rt.forever() {
        if is_allowed(allowed, h) {
            return;
        }
    }
    unreachable!()
}

/// Whether the object is the one that may be written.
fn is_allowed(allowed: Option<u32>, h: u32) -> bool
    ensures yes { result ≡ true → allowed ≡ Some h }
    ensures no { result ≡ false → allowed ≡ Some h → ⊥ }
{
    match allowed {
        Some(n) => n == h,
        None => false,
    }
}
