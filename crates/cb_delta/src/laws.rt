//! The law of patched parities, as a clause of a function that does nothing.

ghost use Rattle.std.specs.Prelude.{◌≡◌, ℕ, ◌<◌, List, length};
ghost use Rattle.cb_gf256.specs.Rows.{row_at};
ghost use Rattle.cb_gf256.specs.Combination.{AreCombinations};
ghost use Rattle.cb_delta.specs.Parity.{IsParity};

/// What a parity is: row j of what `encode` gives, and nothing else.
pub fn parity_laws()
    ensures sums_are_parities { (table rows sums : List (List ℕ)) (j : ℕ)
        → AreCombinations table rows sums
        → j < length table → IsParity (row_at table j) rows (row_at sums j) }
    ensures one_parity { (factors : List ℕ) (rows : List (List ℕ)) (a b : List ℕ)
        → IsParity factors rows a
        → IsParity factors rows b → length a ≡ length b → a ≡ b }
{}
