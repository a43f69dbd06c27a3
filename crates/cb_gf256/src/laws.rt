//! The laws of the field, of powers, of sums and of rows. Each is a clause of a function that
//! does nothing.
ghost use Rattle.std.specs.Prelude.{◌≡◌, ◌≢◌, ℕ, ◌+◌, ◌*◌, ◌%◌, ◌<◌};
ghost use Rattle.std.specs.Prelude.{List, length, fold, slice_index, IsPermutation};
ghost use Rattle.std.specs.Prelude.{slice_set, replicate};
ghost use Rattle.cb_gf256.specs.Sum.{◌⊕◌, sum_over};
ghost use Rattle.cb_gf256.specs.Product.{◌⊗◌};
ghost use Rattle.cb_gf256.specs.Power.{power};
ghost use Rattle.cb_gf256.specs.Row.{row_sum, scaled_row};
ghost use Rattle.cb_gf256.specs.Rows.{HaveLength};
ghost use Rattle.cb_gf256.specs.Block.{with_row};

/// Bytes with their sum and their product are a field, in which each element is its own negative.
pub fn field_laws()
    ensures sum_is_byte { (a b : ℕ) → a < 256 → b < 256 → a ⊕ b < 256 }
    ensures sum_commutes { (a b : ℕ) → a ⊕ b ≡ b ⊕ a }
    ensures sum_associates { (a b c : ℕ) → (a ⊕ b) ⊕ c ≡ a ⊕ (b ⊕ c) }
    ensures sum_with_zero { (a : ℕ) → a ⊕ 0 ≡ a }
    ensures sum_with_itself { (a : ℕ) → a ⊕ a ≡ 0 }
    ensures same_from_zero_sum { (a b : ℕ) → a ⊕ b ≡ 0 → a ≡ b }

    ensures product_is_byte { (a b : ℕ) → a < 256 → b < 256 → a ⊗ b < 256 }
    ensures product_commutes { (a b : ℕ) → a < 256 → b < 256 → a ⊗ b ≡ b ⊗ a }
    ensures product_associates { (a b c : ℕ) → a < 256 → b < 256 → c < 256
        → (a ⊗ b) ⊗ c ≡ a ⊗ (b ⊗ c) }
    ensures product_with_one { (a : ℕ) → a < 256 → a ⊗ 1 ≡ a }
    ensures one_with_product { (a : ℕ) → a < 256 → 1 ⊗ a ≡ a }
    ensures product_with_zero { (a : ℕ) → a ⊗ 0 ≡ 0 }
    ensures zero_with_product { (a : ℕ) → 0 ⊗ a ≡ 0 }
    ensures product_distributes { (a b c : ℕ) → a ⊗ (b ⊕ c) ≡ (a ⊗ b) ⊕ (a ⊗ c) }
    ensures product_distributes_right { (a b c : ℕ) → (a ⊕ b) ⊗ c ≡ (a ⊗ c) ⊕ (b ⊗ c) }

    ensures inverse_exists { (a : ℕ) → 0 < a → a < 256 → (b : ℕ) × (b < 256) × (a ⊗ b ≡ 1) }
    ensures product_is_nonzero { (a b : ℕ) → 0 < a → a < 256 → 0 < b → b < 256 → 0 < a ⊗ b }
    ensures factor_cancels { (a b c : ℕ) → 0 < a → a < 256 → b < 256 → c < 256
        → a ⊗ b ≡ a ⊗ c → b ≡ c }
{}

/// The element 2 generates every nonzero element: its powers below 255 are all different, and
/// there are no others.
pub fn powers_of_two()
    ensures powers_of_two_differ { (i j : ℕ) → i < 255 → j < 255 → power 2 i ≡ power 2 j → i ≡ j }
    ensures powers_of_two_generate { (a : ℕ) → 0 < a → a < 256
        → (i : ℕ) × (i < 255) × (power 2 i ≡ a) }
    ensures powers_of_two_return { power 2 255 ≡ 1 }
    ensures powers_of_two_repeat { (n : ℕ) → power 2 n ≡ power 2 (n % 255) }
{}

/// Powers of bytes.
pub fn power_laws()
    ensures power_is_byte { (a n : ℕ) → a < 256 → power a n < 256 }
    ensures power_of_none { (a : ℕ) → power a 0 ≡ 1 }
    ensures power_of_one_more { (a n : ℕ) → power a (n + 1) ≡ a ⊗ power a n }
    ensures power_of_one { (n : ℕ) → power 1 n ≡ 1 }
    ensures power_of_zero { (n : ℕ) → 0 < n → power 0 n ≡ 0 }
    ensures power_at_sum { (a m n : ℕ) → a < 256 → power a (m + n) ≡ power a m ⊗ power a n }
    ensures power_at_product { (a m n : ℕ) → a < 256 → power a (m * n) ≡ power (power a m) n }
    ensures power_of_product { (a b n : ℕ) → a < 256 → b < 256
        → power (a ⊗ b) n ≡ power a n ⊗ power b n }
    ensures power_of_nonzero { (a n : ℕ) → 0 < a → a < 256 → 0 < power a n }
{}

/// Sums over the positions below a number.
pub fn sum_laws()
    ensures sum_over_is_byte { (n : ℕ) (f : ℕ → ℕ) → ((i : ℕ) → i < n → f i < 256)
        → sum_over n f < 256 }
    ensures sum_over_same { (n : ℕ) (f g : ℕ → ℕ) → ((i : ℕ) → i < n → f i ≡ g i)
        → sum_over n f ≡ sum_over n g }
    ensures sum_over_zeros { (n : ℕ) (f : ℕ → ℕ) → ((i : ℕ) → i < n → f i ≡ 0) → sum_over n f ≡ 0 }
    ensures sum_over_one_term { (n i : ℕ) (f : ℕ → ℕ) → i < n → ((j : ℕ) → j < n → j ≢ i → f j ≡ 0)
        → sum_over n f ≡ f i }
    ensures sum_over_sums { (n : ℕ) (f g : ℕ → ℕ)
        → sum_over n (λ i. f i ⊕ g i) ≡ sum_over n f ⊕ sum_over n g }
    ensures sum_over_splits { (m n : ℕ) (f : ℕ → ℕ)
        → sum_over (m + n) f ≡ sum_over m f ⊕ sum_over n (λ i. f (m + i)) }
    ensures product_with_sum_over { (a n : ℕ) (f : ℕ → ℕ)
        → a ⊗ sum_over n f ≡ sum_over n (λ i. a ⊗ f i) }
    ensures sum_over_with_product { (n : ℕ) (f : ℕ → ℕ) (b : ℕ)
        → sum_over n f ⊗ b ≡ sum_over n (λ i. f i ⊗ b) }
    ensures sum_over_swaps { (m n : ℕ) (f : ℕ → ℕ → ℕ)
        → sum_over m (λ i. sum_over n (λ j. f i j)) ≡ sum_over n (λ j. sum_over m (λ i. f i j)) }
{}

/// Sums of rows of equal length.
pub fn row_laws()
    ensures row_sum_length { (xs ys : List ℕ) → length xs ≡ length ys
        → length (row_sum xs ys) ≡ length xs }
    ensures row_sum_by_byte { (xs ys : List ℕ) (i : ℕ) → length xs ≡ length ys
        → slice_index (row_sum xs ys) i ≡ slice_index xs i ⊕ slice_index ys i }
    ensures row_sum_commutes { (xs ys : List ℕ) → row_sum xs ys ≡ row_sum ys xs }
    ensures row_sum_associates { (xs ys zs : List ℕ)
        → row_sum (row_sum xs ys) zs ≡ row_sum xs (row_sum ys zs) }
    ensures row_sum_with_zeros { (xs : List ℕ) → row_sum xs (replicate (length xs) 0) ≡ xs }
    ensures row_added_twice_is_gone { (xs ys : List ℕ) → length xs ≡ length ys
        → row_sum (row_sum xs ys) ys ≡ xs }

    ensures rows_sum_in_any_order { (len : ℕ) (start : List ℕ) (rows shuffled : List (List ℕ))
        → length start ≡ len → HaveLength len rows → IsPermutation rows shuffled
        → fold row_sum start shuffled ≡ fold row_sum start rows }

    ensures scaled_row_length { (c : ℕ) (xs : List ℕ) → length (scaled_row c xs) ≡ length xs }
    ensures scaled_row_by_byte { (c : ℕ) (xs : List ℕ) (i : ℕ)
        → slice_index (scaled_row c xs) i ≡ c ⊗ slice_index xs i }
    ensures scaled_row_of_sum { (c : ℕ) (xs ys : List ℕ)
        → scaled_row c (row_sum xs ys) ≡ row_sum (scaled_row c xs) (scaled_row c ys) }

    ensures written_count { (rows : List (List ℕ)) (i : ℕ) (bytes : List ℕ)
        → length (with_row rows i bytes) ≡ length rows }
    ensures written_row { (rows : List (List ℕ)) (i : ℕ) (bytes : List ℕ)
        → HaveLength (length bytes) rows → i < length rows
        → with_row rows i bytes ≡ slice_set rows i bytes }
    ensures written_lengths { (len : ℕ) (rows : List (List ℕ)) (i : ℕ) (bytes : List ℕ)
        → HaveLength len rows → length bytes ≡ len → i < length rows
        → HaveLength len (with_row rows i bytes) }
{}
