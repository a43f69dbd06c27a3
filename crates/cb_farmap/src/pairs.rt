//! The pairs of an object, and the bytes of a pair.
ghost use Rattle.std.specs.Prelude.{◌≡◌, ◌<◌, ◌≤◌, ◌++◌, length, take, drop};
ghost use Rattle.cb_farmap.specs.Numbers.{pair_at, pairs};
ghost use Rattle.cb_farmap.specs.PairBytes.{object_bytes, pair_bytes};
ghost use Rattle.cb_farmap.specs.Pairs.{IsSought};

use crate::array::number_of;
use byteorder::{ByteOrder, LittleEndian};

/// The pair with this index, its key and its value, among the bytes of an object.
pub(crate) fn pair_of(bytes: &[u8], i: usize) -> (u64, u64)
    requires long { length bytes.now ≡ 1024 }
    requires within { i < 64 }
    ensures { result ≡ pair_at bytes.now i }
{
    (number_of(bytes, 2 * i), number_of(bytes, 2 * i + 1))
}

/// The bytes of a pair.
pub(crate) fn pair_bytes(pair: (u64, u64)) -> [u8; 16]
    ensures { result ≡ pair_bytes pair }
{
    let mut bytes = [0u8; 16];
    put_pair(&mut bytes, pair);
    bytes
}

/// The bytes of an object with this pair alone.
pub(crate) fn object_bytes(pair: (u64, u64)) -> [u8; 1024]
    ensures { result ≡ object_bytes pair }
{
    let mut bytes = [0u8; 1024];
    put_pair(&mut bytes, pair);
    bytes
}

/// Puts a pair in front.
fn put_pair(bytes: &mut [u8], pair: (u64, u64))
    requires room { 16 ≤ length bytes.old }
    ensures { bytes.new ≡ pair_bytes pair ++ drop 16 bytes.old }
{
    LittleEndian::write_u64(bytes, pair.0);
    LittleEndian::write_u64(&mut bytes[8..], pair.1);
}

/// The index of the first of so many pairs of an object that has the key.
pub(crate) fn seek(bytes: &[u8], few: usize, key: u64) -> Option<usize>
    requires long { length bytes.now ≡ 1024 }
    requires few { few ≤ 64 }
    ensures { IsSought key (take few (pairs bytes.now)) result }
{
    for i in 0..few {
        if number_of(bytes, 2 * i) == key {
            return Some(i);
        }
    }
    None
}
