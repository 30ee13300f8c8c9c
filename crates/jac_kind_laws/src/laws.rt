ghost use Rattle.std.specs.Prelude.{◌≡◌, ℕ, Bool, true, List, [], Option, Some, slice_get, IsTrue};
ghost use Rattle.jac_value.specs.Ids.{is_id_of, record_of_label};
ghost use Rattle.jac_value.specs.declared.value.Kind.{Kind};
ghost use Rattle.jac_value.specs.declared.value.Value.{Value};
ghost use Rattle.jac_lang.specs.declared.bindings.Binding.{Binding};
ghost use Rattle.jac_lang.specs.declared.field_kinds.Field.{Field};
ghost use Rattle.jac_lang.specs.declared.pages.Verb.{Verb};
ghost use Rattle.jac_lang.specs.Lookup.{fields_at};
ghost use Rattle.jac_lang.specs.Syntax.{Entity, Expression, FieldGroup, Page, Application};
ghost use Rattle.jac_rows.specs.Good.{IsGoodPlain, have_kinds};
ghost use Rattle.jac_rows.specs.declared.plain.PlainState.{PlainState};
ghost use Rattle.jac_plain.specs.Models.{shapes_of, kinds_of_fields};
ghost use Rattle.jac_plain.specs.Policies.{has_record, labelled_group, policy_world};
ghost use Rattle.jac_plain.specs.Requests.{Visit, method_in, setting_of, run_of};
ghost use Rattle.jac_plain.specs.World.{World};
ghost use Rattle.jac_route.specs.declared.pairs.Pair.{Pair};
ghost use Rattle.jac_route.specs.Parameters.{parameters, viewer_of};
ghost use Rattle.jac_check.specs.Scope.{Scope, named_fields};
ghost use Rattle.jac_check.specs.Kinds.{kind_of};
ghost use Rattle.jac_check.specs.Well.{is_well};
ghost use Rattle.jac_kind_laws.specs.Fits.{AreBound, IsIn, IsViewer};
ghost use Rattle.jac_kind_laws.specs.Operands.{IsOfKind};
ghost use Rattle.jac_kind_laws.specs.Publics.{PublicsFit};
ghost use Rattle.jac_kind_laws.specs.Runs.{StatementsFit, IsVisit, begun};

/// A law: if the tables are good, and bindings, `this` and `viewer` have the kinds that the scope
/// gives them, the value of an expression has the kind that the checker finds, and each operand has
/// a kind that its operator accepts.
pub fn kinds_hold()
    ensures { (s : Scope) (w : World) (env : List Binding) (e : Expression) (k : Kind) →
        IsIn s w env → kind_of s e ≡ Some k → IsOfKind w env k e }
{}

/// A law: a GET view of a well-formed application leaves the tables unchanged, under every
/// assignment.
pub fn get_leaves_tables()
    ensures { (w : ℕ → Bool) (app : Application) (t : PlainState) (visit : Visit) →
        IsTrue (is_well app) → method_in (slice_get app.views visit.view) ≡ Verb.Get →
        (run_of w app t visit).tables ≡ t.tables }
{}

/// A law: no statement that a visit of a view of a well-formed application reaches meets a wrong
/// kind, under any assignment.
pub fn visits_fit()
    ensures { (w : ℕ → Bool) (app : Application) (t : PlainState) (visit : Visit) (v : Page) →
        IsTrue (is_well app) → IsVisit app t visit v →
        StatementsFit (setting_of w app t visit) v.body (begun t visit) }
{}

/// A law: in a well-formed application, the policy of a label is a truth value if it is evaluated
/// over a good state that has the label's record. Each of its operands has a kind that its operator
/// accepts.
pub fn policies_fit()
    ensures { (app : Application) (t : PlainState) (viewer : Option ℕ) (label : ℕ) (g : FieldGroup)
        →
        IsTrue (is_well app) → IsGoodPlain (shapes_of app) t → IsViewer app.models app.viewer viewer
        →
        has_record t label ≡ true → labelled_group app label ≡ Some g →
        IsOfKind (policy_world app t viewer (record_of_label label)) [] Kind.Bool g.policy }
{}

/// A law: over a record of a well-formed application, whose cells have the kinds of its model's
/// fields, each public expression of the model has its field's kind. Each operand has a kind that
/// its operator accepts.
pub fn publics_fit()
    ensures { (app : Application) (m id : ℕ) (cells : List Value) →
        IsTrue (is_well app) → is_id_of id m ≡ true →
        have_kinds (kinds_of_fields app.models (fields_at app.models m)) cells ≡ true
        → PublicsFit app.models m id cells }
{}

/// A law: a request binds each parameter of a view to a value of its kind.
pub fn parameters_fit()
    ensures { (models : List Entity) (params : List Field) (pairs : List Pair) →
        AreBound (named_fields models params) (parameters models params pairs) }
{}

/// A law: the viewer with this number is a record of the viewer model, or nobody.
pub fn viewers_fit()
    ensures { (app : Application) (number : ℕ)
        → IsViewer app.models app.viewer (viewer_of app number) }
{}
