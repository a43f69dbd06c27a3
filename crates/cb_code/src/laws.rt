//! The laws of the coefficients, as clauses of a function that does nothing.

ghost use Rattle.std.specs.Prelude.{◌≡◌, ℕ, List};
ghost use Rattle.cb_gf256.specs.InRange.{IsInRange};
ghost use Rattle.cb_code.specs.Coefficients.{AreCoefficients};

/// The coefficients of a code are one table.
pub fn coefficient_laws()
    ensures one_table { (k r : ℕ) (a b : List (List ℕ)) → IsInRange k r
        → AreCoefficients k r a → AreCoefficients k r b → a ≡ b }
{}
