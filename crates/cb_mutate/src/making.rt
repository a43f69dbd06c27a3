//! A make.

ghost use Rattle.std.specs.Prelude.{◌≡◌, ℕ, ◌+◌, ◌*◌, ◌^◌, ◌<◌, ◌≤◌, List, length, IfOk, OnErr};
ghost use Rattle.cb_types.specs.Config.{IsAccepted, most_bytes};
ghost use Rattle.cb_world.specs.declared.shown.Shown.{Shown};
ghost use Rattle.cb_world.specs.Desks.{IsReadyDesk, Operates};
ghost use Rattle.cb_world.specs.Memory.{words_for};
ghost use Rattle.cb_world.specs.Claimed.{OwnsAll};
ghost use Rattle.cb_mutate.specs.Stores.{stores_from};
ghost use Rattle.cb_mutate.specs.WordsOf.{AreWordsOf, IsWordAt};
ghost use Rattle.cb_mutate.specs.MakeEnds.{IsNewAt, StoresNew};
ghost use Rattle.cb_mutate.specs.MakeRule.{MakeRule, MakeEffect, NeedsNewSpan};

use byteorder::{ByteOrder, LittleEndian};
use cb_class::class_of;
use cb_ptr::{PtrWord, State, pack};
use cb_span::Temp;
use cb_types::{Handle, NoMemory, Reply};
use cb_world::{Desk, Far, place_object};

/// How many bytes a word has.
const WORD_BYTES: usize = 8;

/// Makes an object of these bytes, 1 to 4,096, in local memory: its handle is the count of handles
/// made before, and its version the far state's first. It goes into the least empty slot of the
/// least frame that holds a hot span of its class with one and is not leaving, else into a new span
/// in the least run of free frames that it fits. Its word is not hot. Takes the memory of a new
/// span alone; where there is none, nothing has changed.
///
/// Refuses with Full where all handles were made, and then with NoFrame where there is neither a
/// slot nor a run of free frames for a new span.
pub fn make<D: Desk>(desk: &mut D, far: &mut Far, bytes: &[u8]) -> Result<Reply, NoMemory>
    requires some_byte { 1 ≤ length bytes.now }
    requires fits { length bytes.now ≤ most_bytes }
    requires config { IsAccepted (D.settings desk.old) }
    requires sound { IsReadyDesk D.shows desk.old far.old }
    ensures make { IfOk result (λ reply. Operates D.run D.shows desk.old far.old desk.new far.new
        (MakeRule (D.settings desk.old).handles bytes.now far.old far.new reply)
        (MakeEffect bytes.now far.old far.new reply)) }
    ensures error { OnErr result ((desk.new ≡ desk.old) × (far.new ≡ far.old)
        × NeedsNewSpan (D.settings desk.old).handles (length bytes.now) far.old) }
{
    let handles = desk.config().handles;
    if far.made == handles {
        return Ok(Reply::Full { handles });
    }
    let h = Handle { n: far.made };
    let version = far.first;
    let class = class_of(bytes.len() as u32);
    let Some(place) = place_object(far, h.n, class, Temp::Hot)? else {
        return Ok(Reply::NoFrame);
    };
    write_new(desk, h, version, place, bytes);
    far.made += 1;
    Ok(Reply::Made { handle: h, version })
}

/// Writes a new object at its place: its words, its version word, and at last its pointer word.
fn write_new<D: Desk>(desk: &mut D, h: Handle, version: u64, place: u32, bytes: &[u8])
    requires handle { h.n < (D.settings desk.old).handles }
    requires some_byte { 1 ≤ length bytes.now }
    requires fits { length bytes.now ≤ most_bytes }
    requires config { IsAccepted (D.settings desk.old) }
    requires new { (s : Shown) × D.shows desk.old s
        × IsNewAt s h.n version place (length bytes.now) }
    ensures { StoresNew (λ es. D.run desk.old es desk.new) h.n version place bytes.now }
{
    store_bytes(desk, place, bytes);
    desk.store_version(h, version);
    let word = pack(&PtrWord {
        state: State::Here,
        hot: false,
        pins: 0,
        len: bytes.len() as u32,
        place,
    });
    desk.settle(h, word);
}

/// Stores the bytes in the words from a place on, each word once.
fn store_bytes<D: Desk>(desk: &mut D, place: u32, bytes: &[u8])
    requires fits { length bytes.now ≤ most_bytes }
    requires memory { place + words_for (length bytes.now) ≤ 512 * (D.settings desk.old).frames }
    requires config { IsAccepted (D.settings desk.old) }
    requires owned { (s : Shown) × D.shows desk.old s × OwnsAll s place (length bytes.now) }
    ensures { (words : List ℕ) × AreWordsOf bytes.now words
        × D.run desk.old (stores_from place words) desk.new }
{
    let count = bytes.len().div_ceil(WORD_BYTES);
    for i in 0..count {
        desk.store(place + i as u32, word_at(bytes, i));
    }
}

/// The word that has the bytes from the byte number 8 * i on, the first one lowest, and zeros past
/// the last one.
fn word_at(bytes: &[u8], i: usize) -> u64
    requires { 8 * i < length bytes.now }
    ensures { IsWordAt bytes.now i result }
{
    let from = WORD_BYTES * i;
    let until = bytes.len().min(from + WORD_BYTES);
    LittleEndian::read_uint(&bytes[from..until], until - from)
}
