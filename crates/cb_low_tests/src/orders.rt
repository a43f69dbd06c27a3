//! Orders to encode and to decode, over the words of an independent implementation.
ghost use Rattle.std.specs.Prelude.{◌≡◌, ◌+◌, ◌<◌, length};
ghost use Rattle.cb_gf256.specs.InRange.{IsInRange};
ghost use Rattle.cb_gf256.specs.Positions.{ArePositions};

use crate::codes::{are_rows_of, column_of, expect_positions, expect_range};
use crate::vectors::{SOLUTIONS, WORDS};
use cb_gf256::NoMemory;
use cb_orders::{run_decode, run_encode};
use cb_types::{DecodeOrder, EncodeOrder, Positions};
use std::alloc::Global;
use std::process::Abort;

/// Whether an order for these data is answered with these parities.
fn encodes_to(
    alloc: Global,
    k: u32,
    r: u32,
    first: &[u8],
    parities: &[u8],
) -> Result<bool, NoMemory>
    requires in_range { IsInRange k r }
    requires first { length first.now ≡ k }
{
    let rows = column_of(alloc, first)?;
    match run_encode(alloc, EncodeOrder { set: 7, k, r, rows }) {
        Ok(done) => Ok(are_rows_of(done.parities(), parities)),
        Err(_) => Err(NoMemory),
    }
}

/// How many records of a table of words there are; the data of each encode to its parities.
fn expect_encoded(rt: &impl Abort, alloc: Global, table: &[u8]) -> u32 {
    let mut rest = table;
    for count in 0..1000 {
        if rest.len() < 2 {
            return count;
        }
        let (k, r) = (u32::from(rest[0]), u32::from(rest[1]));
        expect_range(rt, k, r);
        let begin = 2 + k as usize;
        let end = begin + r as usize;
        assert!(rt; end <= rest.len());
        let (first, parities) = (&rest[2..begin], &rest[begin..end]);
        assert!(rt;
            matches!(encodes_to(alloc, k, r, first, parities), Ok(true)),
            "{first:?}"
        );
        rest = &rest[end..];
    }
    1000
}

#[test]
fn orders_to_encode_make_the_parities_of_others(rt: HostRuntime) {
    assert!(rt; expect_encoded(&rt, rt.alloc(), WORDS) == 28);
}

/// Whether an order for the row at a position is answered with this byte 64 times.
fn decodes_to(
    alloc: Global,
    k: u32,
    r: u32,
    present: &[u8],
    shown: &[u8],
    position: u32,
    byte: u8,
) -> Result<bool, NoMemory>
    requires in_range { IsInRange k r }
    requires positions { ArePositions (k + r) k present.now }
    requires shown { length shown.now ≡ k }
    requires wanted { position < k + r }
{
    let rows = column_of(alloc, shown)?;
    let present = Positions::copy_of(present);
    match run_decode(
        alloc,
        DecodeOrder {
            set: 7,
            position,
            k,
            r,
            present,
            rows,
        },
    ) {
        Ok(done) => Ok(done.row() == [byte; 64].as_slice()),
        Err(_) => Err(NoMemory),
    }
}

/// The bytes of a word at the present positions, one after another.
fn shown_bytes(rt: &impl Abort, word: &[u8], present: &[u8]) -> [u8; 16] {
    let mut bytes = [0; 16];
    for (i, position) in present.iter().take(16).enumerate() {
        assert!(rt; usize::from(*position) < word.len());
        bytes[i] = word[usize::from(*position)];
    }
    bytes
}

/// Whether the rows at the present positions give each row of the word.
fn decodes_all(
    alloc: Global,
    k: u32,
    r: u32,
    present: &[u8],
    shown: &[u8],
    word: &[u8],
) -> Result<bool, NoMemory>
    requires in_range { IsInRange k r }
    requires positions { ArePositions (k + r) k present.now }
    requires shown { length shown.now ≡ k }
    requires word { length word.now ≡ k + r }
{
    let mut found = true;
    for (position, byte) in word.iter().enumerate() {
        found &= decodes_to(alloc, k, r, present, shown, position as u32, *byte)?;
    }
    Ok(found)
}

/// How many records of a table of solutions there are; the present positions of each give each row
/// of its word.
fn expect_decoded(rt: &impl Abort, alloc: Global, table: &[u8]) -> u32 {
    let mut rest = table;
    for count in 0..1000 {
        if rest.len() < 2 {
            return count;
        }
        let (k, r) = (u32::from(rest[0]), u32::from(rest[1]));
        expect_range(rt, k, r);
        let begin = 2 + k as usize;
        let end = begin + (k + r) as usize;
        assert!(rt; end <= rest.len());
        let (present, word) = (&rest[2..begin], &rest[begin..end]);
        expect_positions(rt, k + r, k, present);
        let shown = shown_bytes(rt, word, present);
        assert!(rt;
            matches!(
                decodes_all(alloc, k, r, present, &shown[..k as usize], word),
                Ok(true)
            ),
            "{word:?}"
        );
        rest = &rest[end..];
    }
    1000
}

#[test]
fn orders_to_decode_make_the_rows_of_others(rt: HostRuntime) {
    assert!(rt; expect_decoded(&rt, rt.alloc(), SOLUTIONS) == 40);
}
