//! The parities of data rows.

ghost use Rattle.std.specs.Prelude.{◌≡◌, ℕ, ◌*◌, ◌<◌, ◌≤◌, List, ◌++◌, length, IfOk, slice_index};
ghost use Rattle.cb_gf256.specs.Block.{cut_rows};
ghost use Rattle.cb_gf256.specs.Rows.{row_at, HaveLength, HoldBytes};
ghost use Rattle.cb_gf256.specs.CodeWord.{IsCodeWord};
ghost use Rattle.cb_gf256.specs.Combination.{AreCombinations};

use crate::Coeffs;
use cb_gf256::{NoMemory, Rows, RowsRef, set_sums_in};
use std::alloc::Global;

/// The parities of these data rows, as many as the code has. The only error is out of memory.
pub fn encode(alloc: Global, c: &Coeffs, rows: &Rows) -> Result<Rows, NoMemory>
    requires { HaveLength (length rows.now) c.now }
    ensures sums { IfOk result (λ parities. AreCombinations c.now rows.now parities) }
    ensures word { IfOk result (λ parities. IsCodeWord (length rows.now) (length c.now)
        (rows.now ++ parities)) }
    ensures only { IfOk result (λ parities. (others : List (List ℕ)) → HoldBytes others
        → IsCodeWord (length rows.now) (length c.now) (rows.now ++ others) → others ≡ parities) }
{
    let borrowed = rows.borrowed();
    encode_borrowed(alloc, c, &borrowed)
}

/// The same of data rows that somebody else has.
pub fn encode_borrowed(alloc: Global, c: &Coeffs, rows: &RowsRef<'_>) -> Result<Rows, NoMemory>
    requires { HaveLength (length rows.now) c.now }
    ensures sums { IfOk result (λ parities. AreCombinations c.now rows.now parities) }
    ensures word { IfOk result (λ parities. IsCodeWord (length rows.now) (length c.now)
        (rows.now ++ parities)) }
    ensures only { IfOk result (λ parities. (others : List (List ℕ)) → HoldBytes others
        → IsCodeWord (length rows.now) (length c.now) (rows.now ++ others) → others ≡ parities) }
{
    let r = c.parities();
    let mut parities = Rows::new(alloc, r, rows.row_len())?;
    set_parities(c, rows, &mut parities);
    Ok(parities)
}

/// The same in rows that are there already, whatever these hold. It takes no memory.
pub fn encode_rows(c: &Coeffs, rows: &Rows, parities: &mut Rows)
    requires width { HaveLength (length rows.now) c.now }
    requires count { length parities.old ≡ length c.now }
    requires lengths { HaveLength (length (row_at rows.now 0)) parities.old }
    ensures count { length parities.new ≡ length c.now }
    ensures lengths { HaveLength (length (row_at rows.now 0)) parities.new }
    ensures sums { AreCombinations c.now rows.now parities.new }
    ensures word { IsCodeWord (length rows.now) (length c.now) (rows.now ++ parities.new) }
    ensures only { (others : List (List ℕ)) → HoldBytes others
        → IsCodeWord (length rows.now) (length c.now) (rows.now ++ others)
        → others ≡ parities.new }
{
    let borrowed = rows.borrowed();
    set_parities(c, &borrowed, parities);
}

/// Makes rows the parities of these data rows.
fn set_parities(c: &Coeffs, rows: &RowsRef<'_>, parities: &mut Rows)
    requires width { HaveLength (length rows.now) c.now }
    requires count { length parities.old ≡ length c.now }
    requires lengths { HaveLength (length (row_at rows.now 0)) parities.old }
    ensures count { length parities.new ≡ length c.now }
    ensures lengths { HaveLength (length (row_at rows.now 0)) parities.new }
    ensures sums { AreCombinations c.now rows.now parities.new }
    ensures word { IsCodeWord (length rows.now) (length c.now) (rows.now ++ parities.new) }
    ensures only { (others : List (List ℕ)) → HoldBytes others
        → IsCodeWord (length rows.now) (length c.now) (rows.now ++ others)
        → others ≡ parities.new }
{
    let k = rows.count() as usize;
    let r = c.parities();
    let _ = rows.row_len();
    parities.set_sums(
        first_positions(r as usize),
        c.factors(),
        rows,
        first_positions(k),
    );
}

/// The same in a block of just their size, one after another. It takes no memory.
pub fn encode_into(c: &Coeffs, rows: &RowsRef<'_>, block: &mut [u8])
    requires width { HaveLength (length rows.now) c.now }
    requires size { length block.old ≡ length c.now * length (row_at rows.now 0) }
    ensures sums { AreCombinations c.now rows.now
        (cut_rows (length c.now) (length (row_at rows.now 0)) block.new) }
    ensures word { IsCodeWord (length rows.now) (length c.now)
        (rows.now ++ cut_rows (length c.now) (length (row_at rows.now 0)) block.new) }
    ensures only { (others : List (List ℕ)) → HoldBytes others
        → IsCodeWord (length rows.now) (length c.now) (rows.now ++ others)
        → others ≡ cut_rows (length c.now) (length (row_at rows.now 0)) block.new }
{
    let k = rows.count() as usize;
    let r = c.parities();
    let _ = rows.row_len();
    set_sums_in(
        block,
        r,
        first_positions(r as usize),
        c.factors(),
        rows,
        first_positions(k),
    );
}

/// The first positions, one after another.
static POSITIONS: [u8; 16] = [0, 1, 2, 3, 4, 5, 6, 7, 8, 9, 10, 11, 12, 13, 14, 15];

/// The first `n` positions.
fn first_positions(n: usize) -> &'static [u8]
    requires { n ≤ 16 }
    ensures count { length result.now ≡ n }
    ensures positions { (i : ℕ) → i < n → slice_index result.now i ≡ i }
{
    &POSITIONS[..n]
}
