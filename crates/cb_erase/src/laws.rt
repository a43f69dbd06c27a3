//! The law of weights, as a clause of a function that does nothing.

ghost use Rattle.std.specs.Prelude.{◌≡◌, ℕ, ◌+◌, List};
ghost use Rattle.cb_gf256.specs.InRange.{IsInRange};
ghost use Rattle.cb_gf256.specs.Positions.{ArePositions};
ghost use Rattle.cb_erase.specs.Weights.{AreWeights};

/// The weights for some present positions are one table.
pub fn weight_laws()
    ensures one_table { (k r : ℕ) (present : List ℕ) (a b : List (List ℕ)) → IsInRange k r
        → ArePositions (k + r) k present → AreWeights k r present a → AreWeights k r present b
        → a ≡ b }
{}
