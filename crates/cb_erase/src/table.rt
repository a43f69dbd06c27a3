//! The factors of present rows in every row of the word.

ghost use Rattle.std.specs.Prelude.{◌≡◌, ◌<◌, ◌≤◌, length};
ghost use Rattle.cb_gf256.specs.Corner.{corner};
ghost use Rattle.cb_gf256.specs.Rows.{row_at, byte_at};

use std::marker::Model;

/// The factors of a word's present rows: the row at position p is the sum over i of `at(p, i)`
/// times the present row i.
#[derive(Drop)]
pub struct Weights {
    table: [[u8; 16]; 20],
    k: u32,
    n: u32,
}

impl Model for Weights {
    ghost use Rattle.std.specs.Prelude.{ℕ, ◌≤◌, List};
    ghost use Rattle.cb_gf256.specs.Corner.{corner};

    ghost Value = { List (List ℕ) };

    ghost view = { λ w. corner w.k w.n w.table };

    ghost invariant = { λ w. (w.k ≤ 16) × (w.n ≤ 20) };
}

impl Weights {
    /// The first `k` places of the first `n` rows of this table.
    pub(crate) fn of_table(table: [[u8; 16]; 20], k: u32, n: u32) -> Weights
        requires places { k ≤ 16 }
        requires rows { n ≤ 20 }
        ensures { result ≡ corner k n table }
    {
        Weights { table, k, n }
    }

    /// The factor of the present row `i` in the row at this position.
    pub fn at(&self, position: u32, i: u32) -> u8
        requires position { position < length self.now }
        requires index { i < length (row_at self.now position) }
        ensures { result ≡ byte_at self.now position i }
    {
        self.table[position as usize][i as usize]
    }
}
