//! Seats, with their pins and open writes.

ghost use Rattle.std.specs.Prelude.{◌≡◌, ◌<◌, ◌≤◌, ◌+◌, ◌^◌, true, false, List, [], ◌++◌, ◌∷◌, length, replicate, Option, Some, None, IfSome, IfNone, IfOk, OnOk, OnErr, slice_get, slice_set};
ghost use Rattle.std.specs.List.{remove};
ghost use Rattle.cb_world.specs.declared.seats.SeatPin.{SeatPin};
ghost use Rattle.cb_world.specs.OpenWrites.{stores_left, touched};
ghost use Rattle.cb_world.specs.OpenSteps.{IsClaimOn, NoClaimOn, NoneHolds, stored_once};
ghost use Rattle.cb_world.specs.Seats.{SeatState, OpenWriteState, Holds, IsNewestOf, NoneOn, claims_of_seat, idle_seat, pins_of_seat, seat_at, order_of, with_claims, with_holds, with_order, with_pins};

use arrayvec::ArrayVec;
use cb_member::NoMemory;
use cb_types::{Bytes, Kept};
use std::alloc::Global;
use std::marker::Model;

/// How many seats there are.
pub const SEATS: usize = 64;

/// The most pins that a seat may have.
pub const MOST_PINS: usize = 16;

/// A pin: the object stays where it is, at this version, until the pin is given back.
#[derive(Clone, Copy, Default)]
pub struct SeatPin {
    pub handle: u32,
    pub version: u64,
}

/// A write that is open: its object's handle and length in bytes, the version and the words that
/// the object had when it was claimed, the bytes that are written from the byte number `at` on, and
/// how many of the words that the write touches are stored, the version word being the last of
/// them.
#[derive(Drop)]
pub struct OpenWrite {
    pub handle: u32,
    pub len: u32,
    pub version: u64,
    pub words: Vec<u64>,
    pub at: u32,
    pub bytes: Bytes,
    pub stored: u32,
}

impl Model for OpenWrite {
    ghost use Rattle.cb_world.specs.Seats.{OpenWriteState};

    ghost Value = { OpenWriteState };

    ghost view = { λ a. record {
      handle = a.handle;
      len = a.len;
      version = a.version;
      words = a.words.items;
      at = a.at;
      bytes = a.bytes;
      stored = a.stored;
    } };
}

impl OpenWrite {
    /// How many words the write still has to store: memory words that it touches, and the version
    /// word.
    pub fn left(&self) -> u32
        requires end { self.now.at + length self.now.bytes < 2 ^ 31 }
        requires few { self.now.stored ≤ touched self.now.at (length self.now.bytes) + 1 }
        ensures { result ≡ stores_left self.now }
    {
        touched(self.at, self.bytes.len() as u32) + 1 - self.stored
    }
}

/// How many memory words a write of so many bytes from the byte number `at` on touches.
fn touched(at: u32, count: u32) -> u32
    requires { at + count < 2 ^ 31 }
    ensures { result ≡ touched at count }
{
    if count == 0 {
        return 0;
    }
    (at + count).div_ceil(8) - at / 8
}

/// What a seat has: its pins, the newest one last, its open writes, whether it holds the far lock,
/// and the order that it keeps.
#[derive(Drop)]
pub struct Seat {
    pins: ArrayVec<SeatPin, MOST_PINS>,
    claims: Vec<OpenWrite>,
    holds: bool,
    order: Option<Kept>,
}

impl Model for Seat {
    ghost use Rattle.cb_world.specs.Seats.{SeatState};

    ghost Value = { SeatState };

    ghost view = { λ a. record {
      pins = a.pins.items;
      claims = a.claims.items;
      holds = a.holds;
      order = a.order;
    } };
}

/// The 64 seats, from which callers act. While the mark is unset no seat holds the far lock, so who
/// asks then looks at no seat.
#[derive(Drop)]
pub struct Seats {
    seats: Vec<Seat>,
    marked: bool,
}

impl Model for Seats {
    ghost use Rattle.std.specs.Prelude.{◌≡◌, List, false};
    ghost use Rattle.cb_world.specs.OpenSteps.{NoneHolds};
    ghost use Rattle.cb_world.specs.Seats.{SeatState};

    ghost Value = { List SeatState };

    ghost view = { λ a. a.seats.items };

    ghost invariant = { λ a. a.marked ≡ false → NoneHolds a.seats.items };
}

impl Seats {
    /// All seats idle: no pin, no claim, no order, and none holds the far lock.
    pub fn new(alloc: Global) -> Result<Seats, NoMemory>
        ensures idle { IfOk result (λ seats. seats ≡ replicate 64 idle_seat) }
    {
        let mut seats = Vec::with_capacity(alloc, SEATS)?;
        for _ in 0..SEATS {
            seats.push(Seat {
                pins: ArrayVec::new(),
                claims: Vec::new(alloc),
                holds: false,
                order: None,
            })?;
        }
        Ok(Seats {
            seats,
            marked: false,
        })
    }

    /// The pins of a seat, the newest one last.
    pub fn pins(&self, seat: u32) -> &[SeatPin]
        requires { seat < length self.now }
        ensures pins { result.now ≡ pins_of_seat self.now seat }
        ensures few { length result.now ≤ 16 }
    {
        self.seats[seat as usize].pins.as_slice()
    }

    /// The place of the seat's newest pin on an object, None exactly where it has none.
    pub fn newest(&self, seat: u32, handle: u32) -> Option<u32>
        requires { seat < length self.now }
        ensures found { IfSome result (λ at. IsNewestOf (pins_of_seat self.now seat) handle at) }
        ensures none { IfNone result (NoneOn (pins_of_seat self.now seat) handle) }
    {
        let pins = self.pins(seat);
        newest_among(pins, handle)
    }

    /// Adds a pin to a seat that has room for one more.
    pub fn add(&mut self, seat: u32, pin: SeatPin)
        requires seat { seat < length self.old }
        requires room { length (pins_of_seat self.old seat) < 16 }
        ensures added { self.new
            ≡ with_pins self.old seat (pins_of_seat self.old seat ++ pin ∷ []) }
    {
        self.seats[seat as usize].pins.push(pin);
    }

    /// Takes the pin at a place out of a seat.
    pub fn remove(&mut self, seat: u32, at: u32) -> SeatPin
        requires seat { seat < length self.old }
        requires at { at < length (pins_of_seat self.old seat) }
        ensures pin { slice_get (pins_of_seat self.old seat) at ≡ Some result }
        ensures removed { self.new
            ≡ with_pins self.old seat (remove (pins_of_seat self.old seat) at) }
    {
        self.seats[seat as usize].pins.remove(at as usize)
    }

    /// The place of the seat's open write on an object, None exactly where it has none.
    pub fn claim_on(&self, seat: u32, handle: u32) -> Option<usize>
        requires { seat < length self.now }
        ensures found { IfSome result (λ at. IsClaimOn (claims_of_seat self.now seat) handle at) }
        ensures within { IfSome result (λ at. at < length (claims_of_seat self.now seat)) }
        ensures none { IfNone result (NoClaimOn (claims_of_seat self.now seat) handle) }
    {
        let claims = self.seats[seat as usize].claims.as_slice();
        claim_among(claims, handle)
    }

    /// The open write at a place of a seat.
    pub fn claim(&self, seat: u32, at: usize) -> &OpenWrite
        requires seat { seat < length self.now }
        requires at { at < length (claims_of_seat self.now seat) }
        ensures { slice_get (claims_of_seat self.now seat) at ≡ Some result.now }
    {
        &self.seats[seat as usize].claims[at]
    }

    /// Opens a write of a seat, after its others. Takes the memory of its place; where there is
    /// none, nothing is changed.
    pub fn open(&mut self, seat: u32, write: OpenWrite) -> Result<(), NoMemory>
        requires seat { seat < length self.old }
        ensures opened { OnOk result (self.new
            ≡ with_claims self.old seat (claims_of_seat self.old seat ++ write ∷ [])) }
        ensures error { OnErr result (self.new ≡ self.old) }
    {
        self.seats[seat as usize].claims.push(write)?;
        Ok(())
    }

    /// Counts one stored word more of the open write at a place of a seat.
    pub fn count_stored(&mut self, seat: u32, at: usize)
        requires seat { seat < length self.old }
        requires few { (c : OpenWriteState) → slice_get (claims_of_seat self.old seat) at ≡ Some c
            → c.stored < 2 ^ 31 }
        requires at { at < length (claims_of_seat self.old seat) }
        ensures { (c : OpenWriteState) → slice_get (claims_of_seat self.old seat) at ≡ Some c
            → self.new ≡ with_claims self.old seat
            (slice_set (claims_of_seat self.old seat) at (stored_once c)) }
    {
        let write = &mut self.seats[seat as usize].claims[at];
        write.stored += 1;
    }

    /// Closes the open write at a place of a seat.
    pub fn close(&mut self, seat: u32, at: usize)
        requires seat { seat < length self.old }
        requires at { at < length (claims_of_seat self.old seat) }
        ensures { self.new
            ≡ with_claims self.old seat (remove (claims_of_seat self.old seat) at) }
    {
        self.seats[seat as usize].claims.remove(at);
    }

    /// The seat that holds the far lock, the first one in order, None exactly where none holds it.
    pub fn holder(&self) -> Option<u32>
        requires { length self.now ≡ 64 }
        ensures found { IfSome result (λ seat. Holds self.now seat) }
        ensures none { IfNone result (NoneHolds self.now) }
    {
        if !self.marked {
            return None;
        }
        holder_among(self.seats.as_slice())
    }

    /// Whether a seat holds the far lock.
    pub fn holds(&self, seat: u32) -> bool
        requires { seat < length self.now }
        ensures { result ≡ (seat_at self.now seat).holds }
    {
        let seat = &self.seats[seat as usize];
        seat.holds
    }

    /// Lets a seat hold the far lock.
    pub fn take_lock(&mut self, seat: u32)
        requires { seat < length self.old }
        ensures { self.new ≡ with_holds self.old seat true }
    {
        self.marked = true;
        self.seats[seat as usize].holds = true;
    }

    /// Lets a seat no longer hold the far lock.
    pub fn give_lock(&mut self, seat: u32)
        requires { seat < length self.old }
        ensures { self.new ≡ with_holds self.old seat false }
    {
        self.seats[seat as usize].holds = false;
        self.marked = any_holds(self.seats.as_slice());
    }

    /// Takes the order that a seat keeps out of it, if it keeps one.
    pub fn take_order(&mut self, seat: u32) -> Option<Kept>
        requires { seat < length self.old }
        ensures order { result ≡ order_of self.old seat }
        ensures taken { self.new ≡ with_order self.old seat None }
    {
        self.seats[seat as usize].order.take()
    }

    /// Lets a seat keep this order, or none, in place of the one that it keeps.
    pub fn keep_order(&mut self, seat: u32, order: Option<Kept>)
        requires { seat < length self.old }
        ensures { self.new ≡ with_order self.old seat order }
    {
        self.seats[seat as usize].order = order;
    }
}

/// The first of these seats that holds the far lock, None exactly where none holds it.
fn holder_among(seats: &[Seat]) -> Option<u32>
    requires { length seats.now ≡ 64 }
    ensures found { IfSome result (λ seat. Holds seats.now seat) }
    ensures none { IfNone result (NoneHolds seats.now) }
{
    for at in 0..seats.len() {
        let seat = &seats[at];
        if seat.holds {
            return Some(at as u32);
        }
    }
    None
}

/// Whether one of these seats holds the far lock.
fn any_holds(seats: &[Seat]) -> bool
    ensures { result ≡ false → NoneHolds seats.now }
{
    for at in 0..seats.len() {
        let seat = &seats[at];
        if seat.holds {
            return true;
        }
    }
    false
}

/// The place of the first of these open writes on an object, None exactly where none is on it.
fn claim_among(claims: &[OpenWrite], handle: u32) -> Option<usize>
    ensures found { IfSome result (λ at. IsClaimOn claims.now handle at) }
    ensures within { IfSome result (λ at. at < length claims.now) }
    ensures none { IfNone result (NoClaimOn claims.now handle) }
{
    for at in 0..claims.len() {
        let claim = &claims[at];
        if claim.handle == handle {
            return Some(at);
        }
    }
    None
}

/// The place of the last of these pins on an object, None exactly where none is on it.
fn newest_among(pins: &[SeatPin], handle: u32) -> Option<u32>
    requires { length pins.now ≤ 16 }
    ensures found { IfSome result (λ at. IsNewestOf pins.now handle at) }
    ensures none { IfNone result (NoneOn pins.now handle) }
{
    let mut left = pins.len() as u32;
    while left > 0 {
        left -= 1;
        if pins[left as usize].handle == handle {
            return Some(left);
        }
    }
    None
}
