//! The code against worked words.

ghost use Rattle.std.specs.Prelude.{◌≡◌, ◌+◌, ◌^◌, ◌<◌, ◌≤◌, length, IfOk};
ghost use Rattle.cb_gf256.specs.Rows.{HaveLength};
ghost use Rattle.cb_gf256.specs.InRange.{IsInRange};
ghost use Rattle.cb_gf256.specs.Positions.{ArePositions};

use crate::vectors::{BLOCKS, CHANGED, COEFFICIENTS, SOLUTIONS, WORDS};
use cb_code::{coefficients, encode, syndromes_zero};
use cb_erase::solve;
use cb_gf256::{NoMemory, Rows, xor_row};
use std::alloc::Global;
use std::process::Abort;

/// Rows of 64 bytes each, all the same: a pair of blocks, and no rest.
#[tactic(auto, using(cb_gf256::proofs::PublicLaws::written_rows))]
pub(crate) fn column_of(alloc: Global, bytes: &[u8]) -> Result<Rows, NoMemory>
    requires { length bytes.now < 2 ^ 32 }
    ensures count { IfOk result (λ rows. length rows ≡ length bytes.now) }
    ensures lengths { IfOk result (λ rows. HaveLength 64 rows) }
{
    let mut rows = Rows::new(alloc, bytes.len() as u32, 64)?;
    for (i, byte) in bytes.iter().enumerate() {
        xor_row(rows.row_mut(i as u32), &[*byte; 64]);
    }
    Ok(rows)
}

pub(crate) fn expect_range(rt: &impl Abort, k: u32, r: u32)
    ensures { IsInRange k r }
{
    assert!(rt; 1 <= k);
    assert!(rt; k <= 16);
    assert!(rt; 1 <= r);
    assert!(rt; r <= 4);
}

pub(crate) fn expect_positions(rt: &impl Abort, n: u32, k: u32, positions: &[u8])
    ensures { ArePositions n k positions.now }
{
    assert!(rt; positions.len() == k as usize);
    for (i, p) in positions.iter().enumerate() {
        assert!(rt; u32::from(*p) < n);
        assert!(rt; i == 0 || positions[i - 1] < *p);
    }
}

/// Whether the rows are these bytes, each 64 times.
pub(crate) fn are_rows_of(rows: &Rows, bytes: &[u8]) -> bool {
    if rows.count() as usize != bytes.len() {
        return false;
    }
    for (p, byte) in bytes.iter().enumerate() {
        if rows.row(p as u32) != [*byte; 64].as_slice() {
            return false;
        }
    }
    true
}

/// Whether these data encode to these parities.
fn encodes_to(
    alloc: Global,
    k: u32,
    r: u32,
    first: &[u8],
    parities: &[u8],
) -> Result<bool, NoMemory>
    requires in_range { IsInRange k r }
    requires first { length first.now ≡ k }
{
    let rows = column_of(alloc, first)?;
    let encoded = encode(alloc, &coefficients(k, r), &rows)?;
    Ok(are_rows_of(&encoded, parities))
}

/// Whether the whole has no syndrome.
fn has_no_syndrome(alloc: Global, k: u32, r: u32, word: &[u8]) -> Result<bool, NoMemory>
    requires in_range { IsInRange k r }
    requires whole { length word.now ≡ k + r }
{
    let rows = column_of(alloc, word)?;
    Ok(syndromes_zero(r, &rows))
}

/// Whether the data of the word encode to its parities and the whole has no syndrome, or, where it
/// is no word, whether the whole has one.
fn is_as_told(alloc: Global, k: u32, r: u32, word: &[u8], is_word: bool) -> Result<bool, NoMemory>
    requires in_range { IsInRange k r }
    requires whole { length word.now ≡ k + r }
{
    let (first, parities) = word.split_at(k as usize);
    Ok(
        has_no_syndrome(alloc, k, r, word)? == is_word
            && (!is_word || encodes_to(alloc, k, r, first, parities)?),
    )
}

/// How many records of a table of words are words, or are none, as told.
fn expect_words(rt: &impl Abort, alloc: Global, table: &[u8], is_word: bool) -> u32 {
    let mut rest = table;
    for count in 0..1000 {
        if rest.len() < 2 {
            return count;
        }
        let (k, r) = (u32::from(rest[0]), u32::from(rest[1]));
        expect_range(rt, k, r);
        let end = 2 + (k + r) as usize;
        assert!(rt; end <= rest.len());
        let word = &rest[2..end];
        assert!(rt;
            matches!(is_as_told(alloc, k, r, word, is_word), Ok(true)),
            "{word:?}"
        );
        rest = &rest[end..];
    }
    1000
}

#[test]
fn words_are_those_of_others(rt: HostRuntime) {
    assert!(rt; expect_words(&rt, rt.alloc(), WORDS, true) == 28);
    assert!(rt; expect_words(&rt, rt.alloc(), CHANGED, false) == 18);
}

#[test]
fn coefficients_are_those_of_others(rt: HostRuntime) {
    for (k, r, parity, position, value) in COEFFICIENTS {
        assert!(rt;
            coefficients(k, r).at(parity, position) == value,
            "k={k} r={r}"
        );
    }
}

/// The bytes of a word at the present positions, and wrong ones at the others.
fn with_wrong_bytes(word: &[u8], present: &[u8]) -> [u8; 20] {
    let mut bytes = [0; 20];
    for (p, byte) in word.iter().take(20).enumerate() {
        bytes[p] = if present.contains(&(p as u8)) {
            *byte
        } else {
            !*byte
        };
    }
    bytes
}

/// Whether the rows at the present positions give back the word, whatever stands at the others.
fn gives_word(alloc: Global, k: u32, r: u32, present: &[u8], word: &[u8]) -> Result<bool, NoMemory>
    requires in_range { IsInRange k r }
    requires positions { ArePositions (k + r) k present.now }
    requires count { length word.now ≡ k + r }
{
    let rows = column_of(alloc, &with_wrong_bytes(word, present)[..word.len()])?;
    let solved = solve(alloc, k, r, &rows, present)?;
    Ok(are_rows_of(&solved, word))
}

/// How many records of a table of solutions there are; the present positions of each give back its
/// word.
fn expect_solutions(rt: &impl Abort, alloc: Global, table: &[u8]) -> u32 {
    let mut rest = table;
    for count in 0..1000 {
        if rest.len() < 2 {
            return count;
        }
        let (k, r) = (u32::from(rest[0]), u32::from(rest[1]));
        expect_range(rt, k, r);
        let begin = 2 + k as usize;
        let end = begin + (k + r) as usize;
        assert!(rt; end <= rest.len());
        let (present, word) = (&rest[2..begin], &rest[begin..end]);
        expect_positions(rt, k + r, k, present);
        assert!(rt;
            matches!(gives_word(alloc, k, r, present, word), Ok(true)),
            "{word:?}"
        );
        rest = &rest[end..];
    }
    1000
}

#[test]
fn solutions_are_those_of_others(rt: HostRuntime) {
    assert!(rt; expect_solutions(&rt, rt.alloc(), SOLUTIONS) == 40);
}

/// The rows of a word at the present positions, and zeros at the others.
#[tactic(auto, using(cb_gf256::proofs::PublicLaws::written_rows))]
fn present_rows(
    rt: &impl Abort,
    alloc: Global,
    word: &[&[u8]],
    present: &[u8],
) -> Result<Rows, NoMemory>
    requires below { ArePositions (length word.now) (length present.now) present.now }
    requires few { length word.now ≤ 20 }
    ensures count { IfOk result (λ rows. length rows ≡ length word.now) }
    ensures lengths { IfOk result (λ rows. HaveLength 94 rows) }
{
    let mut rows = Rows::new(alloc, word.len() as u32, 94)?;
    for p in present {
        let row = word[*p as usize];
        assert!(rt; row.len() == 94);
        xor_row(rows.row_mut(u32::from(*p)), row);
    }
    Ok(rows)
}

/// Whether the rows of a word are those of several blocks.
fn are_block_rows(word: &Rows) -> bool {
    if word.count() != 6 {
        return false;
    }
    for (p, row) in BLOCKS.iter().enumerate() {
        if word.row(p as u32) != *row {
            return false;
        }
    }
    true
}

/// Whether the rows at the present positions give back the word of several blocks.
fn gives_blocks(rt: &impl Abort, alloc: Global, present: &[u8]) -> Result<bool, NoMemory> {
    expect_range(rt, 4, 2);
    expect_positions(rt, 6, 4, present);
    let rows = present_rows(rt, alloc, &BLOCKS, present)?;
    let word = solve(alloc, 4, 2, &rows, present)?;
    Ok(are_block_rows(&word))
}

/// Positions that are present of the six of the word of several blocks.
static PRESENT: [[u8; 4]; 6] = [
    [0, 1, 2, 3],
    [0, 2, 3, 4],
    [0, 3, 4, 5],
    [1, 2, 4, 5],
    [2, 3, 4, 5],
    [0, 1, 3, 5],
];

#[test]
fn several_blocks_are_given_back(rt: HostRuntime) {
    for present in PRESENT.iter() {
        let given = gives_blocks(&rt, rt.alloc(), present);
        assert!(rt; matches!(given, Ok(true)), "{present:?}");
    }
}
