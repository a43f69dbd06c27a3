//! One wrong row is made again.

ghost use Rattle.std.specs.Prelude.{◌≡◌, ℕ, ◌<◌, ◌==◌, if◌then◌else◌, List, length};
ghost use Rattle.cb_gf256.specs.Rows.{byte_at, HaveLength};
ghost use Rattle.cb_scrub.specs.Wrong.{HaveParities, IsOneWrong, IsWordBut};
ghost use Rattle.cb_scrub.specs.Mended.{mended, sum_of_others};

use cb_gf256::{Rows, add};

/// Replaces the row at the position by the sum of all others. Where that row alone is wrong, the
/// rows are a code word then, the only one that agrees with all others. Takes no memory.
pub fn mend(rows: &mut Rows, position: u32)
    requires { position < length rows.old }
    ensures sum { rows.new ≡ mended rows.old position }
    ensures count { length rows.new ≡ length rows.old }
    ensures word { (r : ℕ) → HaveParities r rows.old → IsOneWrong r rows.old position
        → IsWordBut r rows.old position rows.new }
    ensures only { (r other : ℕ) (word : List (List ℕ)) → HaveParities r rows.old
        → IsOneWrong r rows.old position → IsWordBut r rows.old other word → word ≡ rows.new }
{
    let len = rows.row_len() as usize;
    for column in 0..len {
        let sum = sum_of_others(rows, position, column, len);
        rows.row_mut(position)[column] = sum;
    }
}

/// The byte at a column of the sum of all rows but the one at the position.
fn sum_of_others(rows: &Rows, position: u32, column: usize, len: usize) -> u8
    requires lengths { HaveLength len rows.now }
    requires inside { column < len }
    ensures { result ≡ sum_of_others rows.now position column }
{
    let mut sum = 0;
    for i in 0..rows.count() {
        sum = add(sum, other_byte(rows, position, i, column, len));
    }
    sum
}

/// The byte at a column of row `i`, and 0 for the row at the position.
fn other_byte(rows: &Rows, position: u32, i: u32, column: usize, len: usize) -> u8
    requires row { i < length rows.now }
    requires lengths { HaveLength len rows.now }
    requires inside { column < len }
    ensures { result ≡ (if i == position then 0 else byte_at rows.now i column) }
{
    if i == position {
        return 0;
    }
    rows.row(i)[column]
}
