ghost use Rattle.std.specs.Prelude.{◌≡◌, ◌↔◌, ℕ, Bool, true, List, Option};
ghost use Rattle.jac_world.specs.World.{shown_by, IsAscending};
ghost use Rattle.jac_lang.specs.declared.bindings.Binding.{Binding};
ghost use Rattle.jac_lang.specs.Syntax.{Application, Expression};
ghost use Rattle.jac_rows.specs.Project.{project_at};
ghost use Rattle.jac_rows.specs.declared.plain.PlainState.{PlainState};
ghost use Rattle.jac_rows.specs.declared.state.State.{State};
ghost use Rattle.jac_plain.specs.Expressions.{mean};
ghost use Rattle.jac_plain.specs.Policies.{is_allowed, IsSettled};
ghost use Rattle.jac_plain.specs.Requests.{Visit, Worlds, after};
ghost use Rattle.jac_open_app_laws.specs.Open.{is_open, is_open_app, AreAlike, AreEven, IsEven, IsGranted, nothing};
ghost use Rattle.jac_open_app_laws.specs.Allowed.{allowed_labels};
ghost use Rattle.jac_open_app_laws.specs.Owned.{DependOnOwn, HideNothing, is_stored_openly};

/// A law: an expression that reads no guarded field has the same value in two states that are equal
/// except for the cells of guarded fields.
pub fn alike_meanings()
    ensures { (app : Application) (t u : PlainState) (this viewer : Option ℕ) (e : Expression) →
        (env : List Binding) → is_open app.models e ≡ true → AreAlike app t u →
        mean (record { models = app.models; this = this; viewer = viewer; tables = t.tables }) e env
        ≡ mean (record { models = app.models; this = this; viewer = viewer; tables = u.tables })
        e env }
{}

/// A law: in an open application, the same labels are allowed in states that are equal except for
/// the cells of guarded fields.
pub fn alike_policies()
    ensures { (app : Application) (t u : PlainState) (viewer : Option ℕ) (k : ℕ) →
        is_open_app app ≡ true → AreAlike app t u →
        is_allowed app t viewer k ≡ is_allowed app u viewer k }
{}

/// A law: in an open application and an even state, whether a label is allowed doesn't depend on
/// the assignment.
pub fn even_policies()
    ensures { (app : Application) (s : State) (viewer : Option ℕ) (k : ℕ) (v w : ℕ → Bool) →
        is_open_app app ≡ true → IsEven app s →
        is_allowed app (project_at v s) viewer k ≡ is_allowed app (project_at w s) viewer k }
{}

/// A law: in an open application and even worlds, the settled labels of a viewer are the live
/// labels with true policies.
pub fn open_settled()
    ensures { (app : Application) (worlds : Worlds) (viewer : Option ℕ) (labels : List ℕ) →
        is_open_app app ≡ true → AreEven app worlds → IsAscending labels →
        (IsSettled app worlds viewer labels
        ↔ ((k : ℕ) → (shown_by labels k ≡ true ↔ IsGranted app worlds viewer k))) }
{}

/// A law: in an open application and even worlds, exactly one list of labels is settled for a
/// viewer: the labels that are allowed if nothing is shown.
pub fn one_is_settled()
    ensures { (app : Application) (worlds : Worlds) (viewer : Option ℕ) (labels : List ℕ) →
        is_open_app app ≡ true → AreEven app worlds →
        (IsSettled app worlds viewer labels
        ↔ (labels ≡ allowed_labels app (worlds nothing) viewer)) }
{}

/// A law: if two families of even worlds of an open application are alike under the assignment that
/// shows nothing, the same labels are settled for a viewer in both.
pub fn same_settled()
    ensures { (app : Application) (worlds others : Worlds) (viewer : Option ℕ) (labels : List ℕ) →
        is_open_app app ≡ true → AreEven app worlds → AreEven app others →
        AreAlike app (worlds nothing) (others nothing) →
        (IsSettled app worlds viewer labels ↔ IsSettled app others viewer labels) }
{}

/// A law: if two even states of an open application are alike under the assignment that shows
/// nothing, the labels that are settled for a viewer are the same in both.
pub fn same_shown()
    ensures { (app : Application) (s t : State) (viewer : Option ℕ) (labels others : List ℕ) →
        is_open_app app ≡ true → IsEven app s → IsEven app t →
        AreAlike app (project_at nothing s) (project_at nothing t) →
        IsSettled app (λ w. project_at w s) viewer labels →
        IsSettled app (λ w. project_at w t) viewer others → labels ≡ others }
{}

/// A law: assume that what each record holds depends on its own labels alone, and that no group
/// hides records. Every state that is the same under each assignment is like this. After a request
/// this still holds, whatever the request writes, if it is a `GET`, or if its view reads no field
/// that a group guards. That is: which records there are and what their unguarded cells hold
/// depends on no label, and what a guarded cell holds depends only on labels of its own record.
///
/// A view that reads a guarded field may store a record because of what the field holds. Then the
/// stored record depends on the label of another record.
pub fn open_requests_keep_own()
    ensures start { (app : Application) (t : PlainState) → DependOnOwn app (λ w. t) }
    ensures step { (app : Application) (worlds : Worlds) (visit : Visit) → HideNothing app.models →
        is_stored_openly app visit.view ≡ true → DependOnOwn app worlds →
        DependOnOwn app (λ w. after w app (worlds w) visit) }
{}
