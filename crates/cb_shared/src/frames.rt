//! The words of a frame, one atomic step each.
ghost use Rattle.std.specs.Prelude.{◌≡◌, ◌+◌, ◌*◌, ◌^◌, ◌<◌, length, All};
ghost use Rattle.cb_world.specs.FrameWords.{OwnsWords, loads_from, stores_from};
ghost use Rattle.cb_world.specs.RowWords.{words_in};
ghost use Rattle.cb_shared.specs.SeatLaws.{Runs};
ghost use Rattle.cb_shared.specs.Seats.{HoldsLock, record_at};

use crate::board::{SeatAt, Top};
use crate::plays::{Load, Store};
use byteorder::{ByteOrder, LittleEndian};
use cb_types::Config;
use cb_world::FRAME_WORDS;

/// Loads the words of a frame, in order.
pub(crate) fn load_words(
    top: &Top,
    seat: &mut SeatAt,
    config: &Config,
    frame: u32,
    words: &mut [u64; FRAME_WORDS],
)
    requires holds { HoldsLock top.now.table_id top.now.key config.now seat.old }
    requires frame { frame < config.now.frames }
    ensures ran { Runs seat.old (loads_from (512 * frame) words.new) seat.new }
    ensures still { HoldsLock top.now.table_id top.now.key config.now seat.new }
    ensures len { length words.new ≡ 512 }
    ensures small { All (λ w. w < 2 ^ 64) words.new }
{
    let handles = config.handles as usize;
    let first = FRAME_WORDS * frame as usize;
    for i in 0..FRAME_WORDS {
        words[i] = top.load::<Load>(seat, 1 + handles + handles + (first + i));
    }
}

/// Stores the words of a row of 4,096 bytes in a frame that the holder owns, in order.
pub(crate) fn store_row(top: &Top, seat: &mut SeatAt, config: &Config, frame: u32, row: &[u8])
    requires holds { HoldsLock top.now.table_id top.now.key config.now seat.old }
    requires frame { frame < config.now.frames }
    requires row { length row.now ≡ 4096 }
    requires owned { OwnsWords (record_at seat.old).known frame }
    ensures ran { Runs seat.old (stores_from (512 * frame) (words_in row.now)) seat.new }
    ensures still { HoldsLock top.now.table_id top.now.key config.now seat.new }
{
    let mut words = [0u64; FRAME_WORDS];
    LittleEndian::read_u64_into(row, &mut words);
    let handles = config.handles as usize;
    let first = FRAME_WORDS * frame as usize;
    for i in 0..FRAME_WORDS {
        top.store::<Store>(seat, 1 + handles + handles + (first + i), words[i]);
    }
}
