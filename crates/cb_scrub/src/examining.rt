//! Rows are examined: a code word, one wrong row, or more.

ghost use Rattle.std.specs.Prelude.{◌≡◌, ℕ, ◌^◌, ◌<◌, ◌≤◌, IfNone, IfSome, List, length};
ghost use Rattle.cb_gf256.specs.Product.{◌⊗◌};
ghost use Rattle.cb_gf256.specs.Power.{power};
ghost use Rattle.cb_gf256.specs.Rows.{HaveLength};
ghost use Rattle.cb_scrub.specs.declared.found.Found.{Found};
ghost use Rattle.cb_scrub.specs.Wrong.{HaveParities, IsFirstWrong, IsOneWrong, IsWordBut};
ghost use Rattle.cb_scrub.specs.Finds.{IsFinding, IsMended};

use crate::finding::first_wrong_column;
use crate::fitting::fits;
use crate::found::Found;
use cb_code::syndrome_at;
use cb_gf256::{BLOCK, Rows, inv, logarithm, mul};

/// What the rows are, of which the last `r` are the parities: a code word, or one but for one row,
/// or neither. One pass over the rows: the syndromes of each block of columns stand in registers;
/// the first two of the first wrong column tell the position by a logarithm, and each further
/// column is held against it. Takes no memory.
pub fn examine(r: u32, rows: &Rows) -> Found
    requires parities { (1 ≤ r) × (r ≤ 4) }
    requires rows { (r < length rows.now) × (length rows.now ≤ 20) }
    ensures found { IsFinding r rows.now result }
    ensures only { (other : Found) → IsFinding r rows.now other → other ≡ result }
    ensures near { (position : ℕ) (word : List (List ℕ)) → 2 ≤ r
        → IsWordBut r rows.now position word → IsMended rows.now position word result }
{
    let len = rows.row_len();
    match first_wrong_column(r, rows, len as usize) {
        None => Found::Clean,
        Some(column) => examine_from(r, rows, column, len as usize),
    }
}

/// What the rows are, where this is the first column with a syndrome that is not 0.
fn examine_from(r: u32, rows: &Rows, column: usize, len: usize) -> Found
    requires rows { HaveParities r rows.now }
    requires lengths { HaveLength len rows.now }
    requires first { IsFirstWrong r rows.now 0 column len }
    requires few { len < 2 ^ 32 }
    ensures { IsFinding r rows.now result }
{
    match only_wrong(r, rows, column, len) {
        Some(position) => Found::One { position },
        None => first_sum(r, rows, column, len),
    }
}

/// The position of the one row that is wrong, where no more are.
fn only_wrong(r: u32, rows: &Rows, column: usize, len: usize) -> Option<u32>
    requires rows { HaveParities r rows.now }
    requires lengths { HaveLength len rows.now }
    requires first { IsFirstWrong r rows.now 0 column len }
    ensures one { IfSome result (λ position. IsOneWrong r rows.now position) }
    ensures none { IfNone result ((position : ℕ) → ¬ (IsOneWrong r rows.now position)) }
{
    if r < 2 {
        return None;
    }
    let sum = syndrome_at(0, rows, column, len);
    let next = syndrome_at(1, rows, column, len);
    let Some(position) = told_position(sum, next, rows.count()) else {
        return None;
    };
    if fits(r, rows, position, column / BLOCK, len) {
        return Some(position);
    }
    None
}

/// The position, of so many, whose power of 2 is the quotient of two syndromes. The first syndrome
/// is not 0 there.
fn told_position(sum: u8, next: u8, count: u32) -> Option<u32>
    requires { count ≤ 255 }
    ensures some { IfSome result (λ position. (position < count) × (0 < sum)
        × (next ≡ power 2 position ⊗ sum)) }
    ensures none { IfNone result ((position : ℕ) → position < count
        → next ≡ power 2 position ⊗ sum → sum ≡ 0) }
{
    if sum == 0 {
        return None;
    }
    if next == 0 {
        return None;
    }
    let position = logarithm(mul(next, inv(sum))) as u32;
    if position < count {
        return Some(position);
    }
    None
}

/// The first syndrome that is not 0, where this is the first column that has one and no one row is
/// wrong alone.
fn first_sum(r: u32, rows: &Rows, column: usize, len: usize) -> Found
    requires rows { HaveParities r rows.now }
    requires lengths { HaveLength len rows.now }
    requires first { IsFirstWrong r rows.now 0 column len }
    requires many { (position : ℕ) → ¬ (IsOneWrong r rows.now position) }
    requires short { len < 2 ^ 32 }
    ensures { IsFinding r rows.now result }
{
    for power in 0..r {
        let sum = syndrome_at(power, rows, column, len);
        if sum != 0 {
            return Found::Many {
                power,
                column: column as u32,
                sum,
            };
        }
    }
    unreachable!()
}
