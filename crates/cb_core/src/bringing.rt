//! Room for an object, by evictions, and far objects brought in.

ghost use Rattle.std.specs.Prelude.{◌≡◌, ℕ, ◌^◌, ◌+◌, ◌<◌, ◌≤◌, length, true, false, Some, IfOk, OnErr};
ghost use Rattle.cb_types.specs.Config.{IsAccepted, most_bytes};
ghost use Rattle.cb_types.specs.declared.reply.Reply.TheVariants as answer;
ghost use Rattle.cb_world.specs.declared.homes.Home.{Home};
ghost use Rattle.cb_world.specs.declared.shown.Shown.{Shown};
ghost use Rattle.cb_world.specs.Desks.{IsReadyDesk};
ghost use Rattle.cb_world.specs.Homes.{home_at};
ghost use Rattle.cb_world.specs.Orders.{KeepsOrder};
ghost use Rattle.cb_world.specs.Sound.{Sound};
ghost use Rattle.cb_world.specs.World.{IsConfigured};
ghost use Rattle.cb_swapin.specs.LandRule.{done_order};
ghost use Rattle.cb_core.specs.Ordered.{Lands, NothingDone};
ghost use Rattle.cb_core.specs.Parts.{CallStops, NeverLacks, RoomStops, WhereItIs, WithRoom, most_evictions};
ghost use Rattle.cb_core.specs.Turned.{BringLacks, Brings, Declines, EvictLacks, MakeLacks, Makes, TriesRoom, WinsRoom, WritesObject, ComeLacks, ComesIn};

use crate::declining::{decline, find};
use cb_evict::{Eviction, evict_counted};
use cb_mutate::{make, write};
use cb_orders::DecodeDone;
use cb_swapin::{land, swap_in};
use cb_types::{Config, Handle, NoMemory, Reply, SetId};
use cb_world::{Desk, Far};

/// The most evictions by which room is won for one object: each takes a span out of local memory,
/// and that has at most as many as frames.
const MOST_EVICTIONS: u32 = 4096;

/// Makes an object of these bytes, 1 to 4,096. Where there is no frame for it, evictions make room,
/// one after another, and it is made then. Where an eviction is refused there is no room: NoRoom
/// tells how many frames there are, and how many spans are loose and how many nodes have room, as
/// that last eviction found them. The evictions before it stay.
pub(crate) fn make_with_room<D: Desk>(
    desk: &mut D,
    far: &mut Far,
    bytes: &[u8],
) -> Result<Reply, NoMemory>
    requires some_byte { 1 ≤ length bytes.now }
    requires fits { length bytes.now ≤ most_bytes }
    requires config { IsAccepted (D.settings desk.old) }
    requires configured { IsConfigured (D.settings desk.old) far.old }
    requires counts { (far.old.counts.sets + 2 ^ 18 < 2 ^ 62)
        × (far.old.counts.keys + 2 ^ 18 < 2 ^ 62) }
    requires sound { IsReadyDesk D.shows desk.old far.old }
    ensures makes { IfOk result (λ reply. WithRoom (D.settings desk.old).frames
        (Makes D.run D.shows (D.settings desk.old) bytes.now)
        (WinsRoom D.run D.shows (D.settings desk.old))
        most_evictions
        (record { desk = desk.old; far = far.old }) reply
        (record { desk = desk.new; far = far.new })) }
    ensures error { OnErr result (RoomStops
        (Makes D.run D.shows (D.settings desk.old) bytes.now)
        (MakeLacks D.run (D.settings desk.old) bytes.now)
        (WinsRoom D.run D.shows (D.settings desk.old))
        (EvictLacks D.run D.shows) most_evictions
        (record { desk = desk.old; far = far.old }) (record { desk = desk.new; far = far.new })) }
{
    for _ in 0..MOST_EVICTIONS + 1 {
        let reply = make(desk, far, bytes)?;
        if !is_no_frame(&reply) {
            return Ok(reply);
        }
        if let Some(refusal) = win_room(desk, far)? {
            return Ok(refusal);
        }
    }
    unreachable!()
}

/// Evicts to make room. Where the eviction is refused the answer is that there is no room, with the
/// counts that it found; where spans left there is none yet.
fn win_room<D: Desk>(desk: &mut D, far: &mut Far) -> Result<Option<Reply>, NoMemory>
    requires config { IsAccepted (D.settings desk.old) }
    requires configured { IsConfigured (D.settings desk.old) far.old }
    requires counts { (far.old.counts.sets < 2 ^ 62) × (far.old.counts.keys < 2 ^ 62) }
    requires sound { IsReadyDesk D.shows desk.old far.old }
    ensures tries { IfOk result (λ refusal. TriesRoom D.run D.shows
        (D.settings desk.old) (record { desk = desk.old; far = far.old }) refusal
        (record { desk = desk.new; far = far.new })) }
    ensures error { OnErr result (EvictLacks D.run D.shows
        (record { desk = desk.old; far = far.old }) (record { desk = desk.new; far = far.new })) }
{
    let room = evict_counted(desk, far)?;
    match room {
        Eviction::Refused { loose, nodes, .. } => Ok(Some(no_room(desk.config(), loose, nodes))),
        Eviction::Set { .. } => Ok(None),
    }
}

/// Brings a far object in, with the span in which it left. Where no frame is free, evictions make
/// room, one after another, and the span is swapped in then; NoRoom is answered only where an
/// eviction is refused. Answers Unavailable where its set has lost more shards than it has
/// parities.
fn bring<D: Desk>(desk: &mut D, far: &mut Far, h: Handle) -> Result<Reply, NoMemory>
    requires handle { h.n < (D.settings desk.old).handles }
    requires config { IsAccepted (D.settings desk.old) }
    requires configured { IsConfigured (D.settings desk.old) far.old }
    requires counts { (far.old.counts.sets + 2 ^ 18 < 2 ^ 62)
        × (far.old.counts.keys + 2 ^ 18 < 2 ^ 62) }
    requires given { far.old.nodes.given + 16 < 2 ^ 64 }
    requires home { (home : Home) × (home_at far.old.homes h.n ≡ Some home) }
    requires sound { IsReadyDesk D.shows desk.old far.old }
    ensures brings { IfOk result (λ reply. Brings
        D.run D.shows (D.settings desk.old) h.n
        (record { desk = desk.old; far = far.old }) reply
        (record { desk = desk.new; far = far.new })) }
    ensures error { OnErr result (BringLacks
        D.run D.shows (D.settings desk.old) h.n
        (record { desk = desk.old; far = far.old }) (record { desk = desk.new; far = far.new })) }
    ensures settings { D.settings desk.new ≡ D.settings desk.old }
    ensures sound { IfOk result (λ reply. (s : Shown) × D.shows desk.new s × Sound s far.new) }
{
    let home = far.homes.at(h.n).unwrap();
    let id = SetId { n: home.set };
    for _ in 0..MOST_EVICTIONS + 1 {
        let swapped = swap_in(desk, far, id, home.position)?;
        if !is_no_frame(&swapped) {
            return Ok(swapped);
        }
        if let Some(refusal) = win_room(desk, far)? {
            return Ok(refusal);
        }
    }
    unreachable!()
}

/// Brings a position in with the row that an order made, if there is one. Where no frame is free,
/// evictions make room, one after another, and it lands then; NoRoom is answered only where an
/// eviction is refused. The order is kept across them.
pub(crate) fn land_with_room<D: Desk>(
    desk: &mut D,
    far: &mut Far,
    done: Option<&DecodeDone>,
) -> Result<Reply, NoMemory>
    requires config { IsAccepted (D.settings desk.old) }
    requires configured { IsConfigured (D.settings desk.old) far.old }
    requires counts { (far.old.counts.sets + 2 ^ 18 < 2 ^ 62)
        × (far.old.counts.keys + 2 ^ 18 < 2 ^ 62) }
    requires kept { (s : Shown) × D.shows desk.old s × Sound s far.old
        × KeepsOrder s far.old (done_order done) }
    ensures lands { IfOk result (λ reply. WithRoom (D.settings desk.old).frames
        (Lands D.run D.shows (done_order done.entry))
        (WinsRoom D.run D.shows (D.settings desk.old))
        most_evictions
        (record { desk = desk.old; far = far.old }) reply
        (record { desk = desk.new; far = far.new })) }
    ensures error { OnErr result (RoomStops
        (Lands D.run D.shows (done_order done.entry))
        (NothingDone D.run)
        (WinsRoom D.run D.shows (D.settings desk.old))
        (EvictLacks D.run D.shows) most_evictions
        (record { desk = desk.old; far = far.old }) (record { desk = desk.new; far = far.new })) }
{
    for _ in 0..MOST_EVICTIONS + 1 {
        let landed = land(desk, far, done)?;
        if !is_no_frame(&landed) {
            return Ok(landed);
        }
        if let Some(refusal) = win_room(desk, far)? {
            return Ok(refusal);
        }
    }
    unreachable!()
}

/// Writes over a part of an object wherever it is: a far one is brought in first, but where the
/// write would be declined by the object's length or version, which are looked at. Where it can't
/// be brought in the answer is why.
pub(crate) fn write_anywhere<D: Desk>(
    desk: &mut D,
    far: &mut Far,
    h: Handle,
    at: u32,
    bytes: &[u8],
) -> Result<Reply, NoMemory>
    requires handle { h.n < (D.settings desk.old).handles }
    requires config { IsAccepted (D.settings desk.old) }
    requires configured { IsConfigured (D.settings desk.old) far.old }
    requires counts { (far.old.counts.sets + 2 ^ 18 < 2 ^ 62)
        × (far.old.counts.keys + 2 ^ 18 < 2 ^ 62) }
    requires given { far.old.nodes.given + 16 < 2 ^ 64 }
    requires sound { IsReadyDesk D.shows desk.old far.old }
    ensures writes { IfOk result (λ reply. WhereItIs
        (WritesObject D.run D.shows h.n at bytes.now)
        (Declines D.run D.shows h.n at (length bytes.now))
        (Brings D.run D.shows (D.settings desk.old) h.n)
        (record { desk = desk.old; far = far.old }) reply
        (record { desk = desk.new; far = far.new })) }
    ensures error { OnErr result (CallStops
        (WritesObject D.run D.shows h.n at bytes.now)
        NeverLacks
        (Declines D.run D.shows h.n at (length bytes.now))
        (Brings D.run D.shows (D.settings desk.old) h.n)
        (BringLacks D.run D.shows (D.settings desk.old) h.n)
        (record { desk = desk.old; far = far.old }) (record { desk = desk.new; far = far.new })) }
{
    let reply = write(desk, far, h, at, bytes)?;
    if !is_not_here(&reply) {
        return Ok(reply);
    }
    if let Some(refusal) = decline(desk, far, h, at, bytes) {
        return Ok(refusal);
    }
    let came = bring(desk, far, h)?;
    if !is_swapped(&came) {
        return Ok(came);
    }
    write(desk, far, h, at, bytes)
}

/// Brings an object in where it is far. Of one that is not far the answer is where it is: Unmade,
/// Freed, Moving, or Stays where it is here.
pub(crate) fn swap_object<D: Desk>(
    desk: &mut D,
    far: &mut Far,
    h: Handle,
) -> Result<Reply, NoMemory>
    requires handle { h.n < (D.settings desk.old).handles }
    requires config { IsAccepted (D.settings desk.old) }
    requires configured { IsConfigured (D.settings desk.old) far.old }
    requires counts { (far.old.counts.sets + 2 ^ 18 < 2 ^ 62)
        × (far.old.counts.keys + 2 ^ 18 < 2 ^ 62) }
    requires given { far.old.nodes.given + 16 < 2 ^ 64 }
    requires sound { IsReadyDesk D.shows desk.old far.old }
    ensures comes { IfOk result (λ reply. ComesIn D.run D.shows
        (D.settings desk.old) h.n (record { desk = desk.old; far = far.old }) reply
        (record { desk = desk.new; far = far.new })) }
    ensures error { OnErr result (ComeLacks D.run D.shows
        (D.settings desk.old) h.n (record { desk = desk.old; far = far.old })
        (record { desk = desk.new; far = far.new })) }
    ensures settings { D.settings desk.new ≡ D.settings desk.old }
    ensures sound { IfOk result (λ reply. (s : Shown) × D.shows desk.new s × Sound s far.new) }
{
    let place = find(desk, far, h);
    if !is_not_here(&place) {
        return Ok(place);
    }
    bring(desk, far, h)
}

/// Whether a reply is that there is no frame.
fn is_no_frame(reply: &Reply) -> bool
    ensures yes { result ≡ true → reply.now ≡ answer.NoFrame }
    ensures other { result ≡ false → reply.now ≡ answer.NoFrame → ⊥ }
{
    matches!(reply, Reply::NoFrame)
}

/// There is no room: so many spans are loose, and so many nodes have room.
fn no_room(config: Config, loose: u32, nodes: u32) -> Reply
    ensures { result ≡ answer.NoRoom config.frames loose nodes }
{
    Reply::NoRoom {
        frames: config.frames,
        loose,
        nodes,
    }
}

/// Whether a reply is that the object is far.
pub(crate) fn is_not_here(reply: &Reply) -> bool
    ensures yes { result ≡ true → reply.now ≡ answer.NotHere }
    ensures other { result ≡ false → reply.now ≡ answer.NotHere → ⊥ }
{
    matches!(reply, Reply::NotHere)
}

/// Whether a reply is that a span was swapped in.
fn is_swapped(reply: &Reply) -> bool
    ensures yes { result ≡ true → (f : ℕ) × (reply.now ≡ answer.Swapped f) }
    ensures other { result ≡ false → (f : ℕ) → reply.now ≡ answer.Swapped f → ⊥ }
{
    matches!(reply, Reply::Swapped { .. })
}
