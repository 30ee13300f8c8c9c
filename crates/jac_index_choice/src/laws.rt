ghost use Rattle.std.specs.Prelude.{◌≡◌, ℕ, Bool, true, not, List, [], ◌∷◌, ◌++◌, map, Some};
ghost use Rattle.jac_lang.specs.Lookup.{model_place, fields_at, field_place};
ghost use Rattle.jac_lang.specs.Syntax.{Expression};
ghost use Rattle.jac_rows.specs.declared.row.Row.{Row};
ghost use Rattle.jac_rows.specs.Project.{rows_at};
ghost use Rattle.jac_index_choice.specs.Fixed.{has_binder, EqualityPredicate, AsksFor};
ghost use Rattle.jac_index_choice.specs.Found.{crossed_by, found_for};
ghost use Rattle.jac_lang.specs.declared.bindings.Binding.{Binding};
ghost use Rattle.jac_lang.specs.declared.queries.Binder.{Binder};
ghost use Rattle.jac_plain.specs.World.{World};
ghost use Rattle.jac_plain.specs.Expressions.{kept_by, tuples_from, mean};
ghost use Rattle.jac_value.specs.declared.value.Value.{Value as Seen};
ghost use Rattle.jac_index_choice.specs.Cut.{tuples_where, Covers};

/// A law: if each record of a tuple for which the condition is true passes the test, a query over
/// the records that pass has the same tuples.
pub fn narrower()
    ensures { (w : World) (bs : List Binder) (cond : List Binding → Seen) (env : List Binding)
        (test : List ℕ → ℕ → Bool) → Covers w bs cond env test
        → kept_by bs cond env (tuples_where w test bs ([] ∷ [])) ≡ kept_by bs cond env
        (tuples_from w bs ([] ∷ [])) }
{}

/// A law: a query has the same tuples if one of its binders is given only the records that the
/// predicate finds for the tuple before it.
pub fn found_at()
    ensures { (w : World) (u : ℕ → Bool) (tables : List (List Row)) (done : List Binder)
        (b : Binder) (later : List Binder) (c : Expression) (q : EqualityPredicate)
        (env : List Binding)
        (m f : ℕ) → w.tables ≡ map (rows_at u) tables → model_place w.models b.model ≡ Some m
        → field_place (fields_at w.models m) q.field ≡ Some f → not (has_binder later b.name) ≡ true
        → AsksFor b.model b.name (b ∷ later) q c → kept_by (done ++ (b ∷ later)) (mean w c) env
        (tuples_from w later (crossed_by (found_for w u tables m f done q env)
        (tuples_from w done ([] ∷ [])))) ≡ kept_by (done ++ (b ∷ later)) (mean w c) env
        (tuples_from w (done ++ (b ∷ later)) ([] ∷ [])) }
{}
