//! The law of these texts, as a clause of a function that does nothing.

ghost use Rattle.std.specs.Prelude.{◌≡◌, ℕ, List};
ghost use Rattle.cb_rma.specs.declared.step.Step.{Step};
ghost use Rattle.cb_rma_text.specs.First.{First};
ghost use Rattle.cb_rma_text.specs.Form.{Spells};

/// The same bytes spell one schedule at the most, have one first line outside the form at the most,
/// and never both.
pub fn rma_laws()
    ensures one_schedule { (bytes : List ℕ) (window other : ℕ) (events others : List Step)
        → Spells bytes window events → Spells bytes other others
        → (window ≡ other) × (events ≡ others) }
    ensures one_fault { (bytes : List ℕ) (line other : ℕ) → First bytes line → First bytes other
        → line ≡ other }
    ensures never_both { (bytes : List ℕ) (window line : ℕ) (events : List Step)
        → Spells bytes window events → First bytes line → ⊥ }
{}
