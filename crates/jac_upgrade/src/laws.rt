ghost use Rattle.std.specs.Prelude.{◌≡◌, ◌≤◌, ℕ, Bool, None, List, length};
ghost use Rattle.jac_lang.specs.Syntax.{Entity};
ghost use Rattle.jac_rows.specs.declared.plain.PlainState.{PlainState};
ghost use Rattle.jac_upgrade.specs.Extends.{models_lack};
ghost use Rattle.jac_upgrade.specs.Upgraded.{upgraded_state};

/// A law: an application extends itself.
pub fn extends_itself()
    ensures { (models : List Entity) → models_lack 0 models models ≡ None }
{}

/// A law: if an application is upgraded to itself, a state with a table for each model stays as it
/// is.
pub fn upgraded_to_itself()
    ensures { (w : ℕ → Bool) (models : List Entity) (t : PlainState)
        → length models ≤ length t.tables → upgraded_state w models models t ≡ t }
{}
