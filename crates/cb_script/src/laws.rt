//! The laws of scripts as text, as clauses of a function that does nothing.

ghost use Rattle.std.specs.Prelude.{◌≡◌, ◌≤◌, ◌↔◌, ℕ, List, length};
ghost use Rattle.cb_script.specs.declared.fault.Reason.{Reason};
ghost use Rattle.cb_script.specs.declared.script.Mode.{Mode};
ghost use Rattle.cb_script.specs.declared.script.Script.{Script};
ghost use Rattle.cb_script.specs.First.{First};
ghost use Rattle.cb_script.specs.Form.{Spells};
ghost use Rattle.cb_script.specs.Spelling.{with_feed};

/// The same bytes spell one script at the most, have one first fault at the most, and never both.
/// An input and the same with a line feed at its end spell the same script or have the same first
/// fault, where both are short enough.
pub fn script_laws()
    ensures one_script { (bytes : List ℕ) (mode : Mode) (s t : Script)
        → Spells bytes mode s → Spells bytes mode t → s ≡ t }
    ensures one_fault { (bytes : List ℕ) (mode : Mode) (line other : ℕ) (reason another : Reason)
        → First bytes mode line reason → First bytes mode other another
        → (line ≡ other) × (reason ≡ another) }
    ensures never_both { (bytes : List ℕ) (mode : Mode) (s : Script) (line : ℕ) (reason : Reason)
        → Spells bytes mode s → First bytes mode line reason → ⊥ }
    ensures same_script { (bytes : List ℕ) (mode : Mode) (s : Script)
        → length (with_feed bytes) ≤ 1048576
        → (Spells bytes mode s ↔ Spells (with_feed bytes) mode s) }
    ensures same_fault { (bytes : List ℕ) (mode : Mode) (line : ℕ) (reason : Reason)
        → length (with_feed bytes) ≤ 1048576
        → (First bytes mode line reason ↔ First (with_feed bytes) mode line reason) }
{}
