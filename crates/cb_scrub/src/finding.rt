//! The first column in which a syndrome is not 0.
ghost use Rattle.std.specs.Prelude.{◌<◌, ◌≤◌, IfNone, IfSome, length};
ghost use Rattle.cb_gf256.specs.Rows.{HaveLength};
ghost use Rattle.cb_scrub.specs.Wrong.{AreZero, IsFirstWrong};

use cb_code::{block_is_zero, column_is_zero, powers_of_two};
use cb_gf256::{BLOCK, Rows};

/// The first column in which a syndrome of the powers below `r` is not 0. Whole blocks are looked
/// at over lanes, up to the first one that has such a column.
pub(crate) fn first_wrong_column(r: u32, rows: &Rows, len: usize) -> Option<usize>
    requires few { r ≤ 4 }
    requires positions { length rows.now ≤ 20 }
    requires lengths { HaveLength len rows.now }
    requires some { 0 < length rows.now }
    ensures wrong { IfSome result (λ column. IsFirstWrong r rows.now 0 column len) }
    ensures none { IfNone result (AreZero r rows.now 0 len) }
{
    let from = zero_front(r, rows, len);
    first_wrong_from(r, rows, from, len)
}

/// Where the first whole block with a syndrome that is not 0 begins, or the columns after the whole
/// blocks.
fn zero_front(r: u32, rows: &Rows, len: usize) -> usize
    requires few { r ≤ 4 }
    requires positions { length rows.now ≤ 20 }
    requires lengths { HaveLength len rows.now }
    requires some { 0 < length rows.now }
    ensures { AreZero r rows.now 0 result }
{
    let powers = powers_of_two();
    for block in 0..len / BLOCK {
        if !block_is_zero(r, &powers, rows, block * BLOCK, len) {
            return block * BLOCK;
        }
    }
    len / BLOCK * BLOCK
}

/// The first such column from one on.
fn first_wrong_from(r: u32, rows: &Rows, from: usize, len: usize) -> Option<usize>
    requires few { r ≤ 4 }
    requires positions { length rows.now ≤ 20 }
    requires lengths { HaveLength len rows.now }
    requires some { 0 < length rows.now }
    ensures wrong { IfSome result (λ column. IsFirstWrong r rows.now from column len) }
    ensures none { IfNone result (AreZero r rows.now from len) }
{
    for column in from..len {
        if !column_is_zero(r, rows, column, len) {
            return Some(column);
        }
    }
    None
}
