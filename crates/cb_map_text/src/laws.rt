//! The laws of these texts, as clauses of functions that do nothing.

ghost use Rattle.std.specs.Prelude.{◌≡◌, ◌+◌, ℕ, List, if◌then◌else◌};
ghost use Rattle.cb_types.specs.declared.config.Config.{Config};
ghost use Rattle.cb_map_text.specs.First.{First};
ghost use Rattle.cb_map_text.specs.Form.{Spells};
ghost use Rattle.cb_map_text.specs.Plain.{Plain, after_all, fresh, needs_object, objects, plain_after, plain_said};
ghost use Rattle.cb_map_text.specs.Tallied.{IsCounted, IsTallied};
ghost use Rattle.cb_map_text.specs.declared.command.FarAnswer.{FarAnswer};
ghost use Rattle.cb_map_text.specs.declared.command.FarAnswer.TheVariants.{Number};
ghost use Rattle.cb_map_text.specs.declared.command.FarCommand.{FarCommand};
ghost use Rattle.cb_map_text.specs.declared.command.FarCommand.TheVariants.{Put, Look};

/// The same bytes spell one list of commands at the most, have one first line outside the form at
/// the most, and never both.
pub fn text_laws()
    ensures one_text { (bytes : List ℕ) (c d : Config) (commands others : List FarCommand)
        → Spells bytes c commands → Spells bytes d others → (c ≡ d) × (commands ≡ others) }
    ensures one_fault { (bytes : List ℕ) (line other : ℕ) → First bytes line → First bytes other
        → line ≡ other }
    ensures never_both { (bytes : List ℕ) (c : Config) (line : ℕ) (commands : List FarCommand)
        → Spells bytes c commands → First bytes line → ⊥ }
{}

/// A look tells what was put under its key last, and a put what a look would have told. The objects
/// are counted right: each command makes one exactly where it needs one. The count of each bucket
/// is how many keys of the map belong into it.
pub fn plain_laws()
    ensures look_tells_the_put { (s : Plain) (key x : ℕ)
        → plain_said (plain_after s (Put key x)) (Look key) ≡ Number x }
    ensures put_tells_the_old { (s : Plain) (key x : ℕ)
        → plain_said s (Put key x) ≡ plain_said s (Look key) }
    ensures none_made { objects fresh ≡ 0 }
    ensures one_where_needed { (s : Plain) (command : FarCommand) → IsTallied s
        → objects (plain_after s command)
        ≡ objects s + (if needs_object s command then 1 else 0) }
    ensures fresh_tallied { IsTallied fresh }
    ensures stays_tallied { (s : Plain) (command : FarCommand) → IsTallied s
        → IsTallied (plain_after s command) }
    ensures counted { (commands : List FarCommand) (saids : List FarAnswer)
        → IsCounted (after_all fresh commands saids) }
{}
