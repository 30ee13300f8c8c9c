ghost use Rattle.std.specs.Prelude.{◌≡◌, ◌↔◌, ℕ, Bool, true, [], List, Option, length};
ghost use Rattle.std.specs.List.{list_all};
ghost use Rattle.jac_value.specs.Ids.{record_of_label};
ghost use Rattle.jac_lang.specs.Syntax.{Application, Expression};
ghost use Rattle.jac_rows.specs.Good.{IsSound};
ghost use Rattle.jac_rows.specs.Project.{project_at};
ghost use Rattle.jac_rows.specs.declared.state.State.{State};
ghost use Rattle.jac_keep.specs.declared.alteration.Alteration.{Alteration};
ghost use Rattle.jac_keep.specs.Alterations.{AreApart, ArePlaced};
ghost use Rattle.jac_plain.specs.Policies.{is_allowed, IsLiveLabel};
ghost use Rattle.jac_policy_deps.specs.Altered.{state_over, is_outside, rows_altered, is_spared};
ghost use Rattle.jac_plain.specs.World.{World};
ghost use Rattle.jac_plain.specs.Expressions.{mean};
ghost use Rattle.jac_policy_deps.specs.declared.dependency.Dependency.{Dependency as One};
ghost use Rattle.jac_policy_deps.specs.Dependencies.{dependencies};
ghost use Rattle.jac_policy_deps.specs.Cleared.{cleared_world, IsTest};

/// A law: an expression has the same value in a world without some records if a test says, of each
/// dependency of the expression, that none of them is in it.
pub fn same_answers()
    ensures { (stays : ℕ → Bool) (test : One → Bool) (w : World) (e : Expression)
        → IsTest stays test w →
        list_all test (dependencies w.models e) ≡ true → mean (cleared_world stays w) e [] ≡ mean w
        e [] }
{}

/// A law: if a label's record isn't replaced and its policy depends on no replaced record, the
/// replacement doesn't change whether the label is allowed.
pub fn spared_are_allowed()
    ensures { (app : Application) (s : State) (over : List Alteration) (viewer : Option ℕ) (k : ℕ)
        → IsSound s → AreApart over → ArePlaced over (length s.tables) →
        is_spared app over (rows_altered s.tables over) viewer k ≡ true → (w : ℕ → Bool) →
        is_allowed app (project_at w (state_over over s)) viewer k
        ≡ is_allowed app (project_at w s) viewer k }
{}

/// A law: if a label's record isn't replaced, the label is live after the replacement if and only
/// if it was live before.
pub fn others_are_live()
    ensures { (app : Application) (s : State) (over : List Alteration) (k : ℕ) → IsSound s
        → AreApart over → ArePlaced over (length s.tables) →
        is_outside over (record_of_label k) ≡ true →
        IsLiveLabel app (λ w. project_at w s) k
        ↔ IsLiveLabel app (λ w. project_at w (state_over over s)) k }
{}
