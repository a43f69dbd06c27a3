//! A pass of the runtime, and its pins.

ghost use Rattle.std.specs.Prelude.{◌≡◌, []};
ghost use Rattle.crossbeam_utils.specs.Padded.{padded_value};
ghost use Rattle.cb_shared.specs.Handles.{handles_of};
ghost use Rattle.cb_shared.specs.Seats.{record_at};
ghost use Rattle.cb_shared.specs.Trying.{again_in, tries_of};

use crate::board::SeatAt;
use crate::handles::Pins;
use cb_types::Handle;

/// A pin: while its pass has it, the object stays where it is, at this version.
#[derive(Drop)]
pub struct Pin {
    pub(crate) handle: Handle,
    pub(crate) version: u64,
    pub(crate) len: u32,
    pub(crate) place: u32,
}

impl Default for Pin {
    ghost is_default = { λ p. p
        ≡ record { handle = record { n = 0 }; version = 0; len = 0; place = 0 } };

    /// A pin of no version, which no pass has: it fills the free places of arrays.
    fn default() -> Pin {
        Pin {
            handle: Handle { n: 0 },
            version: 0,
            len: 0,
            place: 0,
        }
    }
}

impl Pin {
    /// The object.
    pub fn handle(&self) -> Handle
        ensures { result ≡ self.now.handle }
    {
        self.handle
    }

    /// The version that it has.
    pub fn version(&self) -> u64
        ensures { result ≡ self.now.version }
    {
        self.version
    }

    /// Its length in bytes.
    pub fn len(&self) -> u32
        ensures { result ≡ self.now.len }
    {
        self.len
    }
}

/// What one caller has of the shared runtime: a seat, whose view has all that the caller wrote,
/// read and pinned, its share, its pins, which stand on cache lines of their own, and whether its
/// newest turn is made again.
#[derive(Drop)]
pub struct Pass {
    pub(crate) seat: SeatAt,
    pub(crate) share: u32,
    pub(crate) pins: Pins,
    pub(crate) tries: Option<bool>,
    ghost shares: { share ≡ (record_at seat).share },
    ghost carries: { seat.me.1 ≡ [] },
    ghost pinned: { (padded_value pins).items ≡ handles_of (record_at seat).pins },
    ghost tried: { tries ≡ tries_of (record_at seat) },
}

impl Pass {
    ghost use Rattle.cb_shared.specs.Passes.{record_of};

    /// The part of the whole, of 64 shares, that the pass has.
    pub fn share(&self) -> u32
        ensures { result ≡ (record_of self.now).share }
    {
        self.share
    }

    /// Whether the newest turn of the pass's record was answered NoRoom with fewer than k loose
    /// spans, and with so many frames that more may come loose: the calls that try again make a
    /// turn again then. The frames are 2k + 360 at the least, and 28k + 2,600 where the span that
    /// the turn needed frames for, or one in local memory, had more than one page; k is that of the
    /// code in force. False where the record has no turn. Where the pass took another one in that
    /// had made turns, the newest turn is that one's. Takes no memory and waits for nobody.
    pub fn again(&self) -> bool
        ensures { result ≡ again_in (record_of self.now).turns }
    {
        self.tries.unwrap_or(false)
    }
}
