//! The laws of polynomials and of code words. Each is a clause of a function that does nothing.
ghost use Rattle.std.specs.Prelude.{◌≡◌, ◌≢◌, ℕ, ◌+◌, ◌<◌, ◌≤◌};
ghost use Rattle.std.specs.Prelude.{List, length, slice_index, take, All, AllPairs};
ghost use Rattle.std.specs.List.Sorted.{IsStrictlyIncreasing};
ghost use Rattle.cb_gf256.specs.Sum.{sum_over};
ghost use Rattle.cb_gf256.specs.Product.{◌⊗◌};
ghost use Rattle.cb_gf256.specs.Polynomial.{evaluated};
ghost use Rattle.cb_gf256.specs.Rows.{row_at, byte_at, HaveLength, HoldBytes, AreRows};
ghost use Rattle.cb_gf256.specs.CodeWord.{IsCodeWord};
ghost use Rattle.cb_gf256.specs.Positions.{ArePositions};
ghost use Rattle.cb_gf256.specs.Split.{Splits};
ghost use Rattle.cb_gf256.specs.Corner.{corner};
ghost use Rattle.cb_gf256.specs.Lagrange.{AreFactors};
ghost use Rattle.cb_gf256.specs.Combination.{AreCombinations};

/// A polynomial with as many distinct roots as coefficients is zero.
pub fn polynomial_laws()
    ensures roots_make_zero { (coefficients roots : List ℕ) → length coefficients ≡ length roots
        → All (λ a. a < 256) coefficients → All (λ x. x < 256) roots
        → AllPairs (λ x y. x ≢ y) roots
        → All (λ x. evaluated coefficients x ≡ 0) roots → All (λ a. a ≡ 0) coefficients }
{}

/// Two code words that agree on k positions are equal.
pub fn code_laws()
    ensures agreeing_words_are_equal { (k r : ℕ) (a b : List (List ℕ)) (positions : List ℕ)
        → k + r ≤ 255 → 0 < k
        → ArePositions (k + r) k positions → IsCodeWord k r a → HoldBytes a → IsCodeWord k r b
        → HoldBytes b
        → All (λ p. row_at a p ≡ row_at b p) positions → a ≡ b }

    // The same over a split of the positions.
    ensures words_that_agree { (k r : ℕ) (a b : List (List ℕ)) (present lost : ℕ → ℕ)
        → k + r ≤ 255 → 0 < k
        → Splits (k + r) k r present lost → IsCodeWord k r a → HoldBytes a → IsCodeWord k r b
        → HoldBytes b
        → ((i : ℕ) → i < k → row_at a (present i) ≡ row_at b (present i)) → a ≡ b }
{}

/// The lost rows of a code word are sums of the present rows, each times Lagrange's factor, and
/// such rows make a code word.
pub fn restoring_laws()
    ensures lost_rows_are_sums { (k r : ℕ) (word : List (List ℕ)) (present lost : ℕ → ℕ)
        (w : ℕ → ℕ → ℕ)
        → k + r ≤ 255
        → Splits (k + r) k r present lost → AreFactors k r present lost w → IsCodeWord k r word
        → HoldBytes word
        → (e column : ℕ) → e < r → column < length (row_at word 0)
        → byte_at word (lost e) column ≡ sum_over k (λ i. w e i ⊗ byte_at word
        (present i) column) }
    ensures sums_make_a_word { (k r len : ℕ) (word : List (List ℕ)) (present lost : ℕ → ℕ)
        (w : ℕ → ℕ → ℕ)
        → k + r ≤ 255 → 0 < k
        → Splits (k + r) k r present lost → AreFactors k r present lost w → length word ≡ k + r
        → HaveLength len word
        → ((i column : ℕ) → i < k → column < len → byte_at word (present i) column < 256)
        → ((e column : ℕ) → e < r → column < len
        → byte_at word (lost e) column ≡ sum_over k (λ i. w e i ⊗ byte_at word (present i) column))
        → IsCodeWord k r word }
    ensures sums_are_bytes { (table rows sums : List (List ℕ)) → HoldBytes table
        → HaveLength (length rows) table → AreRows rows
        → AreCombinations table rows sums → HoldBytes sums }
{}

/// How the positions split into present and lost ones, one position after another.
pub fn split_laws()
    ensures split_of_none { (present lost : ℕ → ℕ) → Splits 0 0 0 present lost }
    ensures split_with_present { (n k r : ℕ) (present lost : ℕ → ℕ) → Splits n k r present lost
        → present k ≡ n
        → Splits (n + 1) (k + 1) r present lost }
    ensures split_with_lost { (n k r : ℕ) (present lost : ℕ → ℕ) → Splits n k r present lost
        → lost r ≡ n
        → Splits (n + 1) k (r + 1) present lost }
    ensures split_of_same { (n k r : ℕ) (present lost other : ℕ → ℕ) → Splits n k r present lost
        → ((e : ℕ) → e < r → other e ≡ lost e) → Splits n k r present other }
    ensures parities_split { (k r : ℕ) → Splits (k + r) k r (λ i. i) (λ e. k + e) }
    ensures position_is_at_most { (n k : ℕ) (positions : List ℕ) → ArePositions n k positions
        → (i : ℕ) → i < k
        → slice_index positions i + k ≤ n + i }
    ensures ascending_apart { (xs : List ℕ) → IsStrictlyIncreasing xs → (i j : ℕ) → i < j
        → j < length xs
        → slice_index xs i < slice_index xs j }
{}

/// The corner of a table that is wider and higher than what is used of it.
pub fn corner_laws()
    ensures corner_count { (k n : ℕ) (table : List (List ℕ)) → n ≤ length table
        → length (corner k n table) ≡ n }
    ensures corner_row { (k n : ℕ) (table : List (List ℕ)) (j : ℕ) → j < length (corner k n table)
        → row_at (corner k n table) j ≡ take k (row_at table j) }
    ensures corner_width { (k n : ℕ) (table : List (List ℕ)) (j i : ℕ)
        → j < length (corner k n table)
        → i < length (row_at (corner k n table) j) → i < k }
    ensures corner_byte { (k n : ℕ) (table : List (List ℕ)) (j i : ℕ)
        → j < length (corner k n table) → i < k
        → byte_at (corner k n table) j i ≡ byte_at table j i }
    ensures corner_lengths { (k n width : ℕ) (table : List (List ℕ)) → k ≤ width
        → n ≤ length table → HaveLength width table
        → HaveLength k (corner k n table) }
    ensures corner_bytes { (k n width : ℕ) (table : List (List ℕ)) → k ≤ width → n ≤ length table
        → HaveLength width table
        → ((j i : ℕ) → j < n → i < k → byte_at table j i < 256) → HoldBytes (corner k n table) }
{}
