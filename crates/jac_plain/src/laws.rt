ghost use Rattle.std.specs.Prelude.{◌≡◌, ◌<◌, ◌≤◌, ◌^◌, ℕ, Bool, List, true, false, length, slice_get};
ghost use Rattle.jac_lang.specs.Loops.{Loops, are_placed};
ghost use Rattle.jac_lang.specs.Syntax.{Application, Entity, Statements};
ghost use Rattle.jac_lang.specs.Written.{sites};
ghost use Rattle.jac_plain.specs.Making.{are_apart, AreAbsent, AreMadeBefore, MayRunAll};
ghost use Rattle.jac_plain.specs.Models.{shapes_of, are_sited, are_without_groups, AreFlat, HaveRisingIds};
ghost use Rattle.jac_plain.specs.Reading.{are_reading};
ghost use Rattle.jac_plain.specs.Requests.{Visit, body_in, run_of, after};
ghost use Rattle.jac_plain.specs.Statements.{Setting, Run, leaves_all};
ghost use Rattle.jac_rows.specs.Good.{IsGoodPlain};
ghost use Rattle.jac_rows.specs.declared.plain.PlainRow.{PlainRow};
ghost use Rattle.jac_rows.specs.declared.plain.PlainState.{PlainState};

/// A law: statements without a create, an update or a delete don't change the tables.
pub fn reading_leaves_tables()
    ensures { (k : Setting) (s : Statements) (r : Run) → are_reading s ≡ true
        → (leaves_all k s r).tables ≡ r.tables }
{}

/// A law: if no field is guarded, a run is the same under all assignments.
pub fn same_run_without_groups()
    ensures { (app : Application) (t : PlainState) (visit : Visit) (w v : ℕ → Bool)
        → are_without_groups app.models ≡ true → run_of w app t visit ≡ run_of v app t visit }
{}

/// A law: a good state is good after a request. The conditions: the next number is below 2^40.
/// There are at most 64 models. The creates of the view have sites below 64. Records of nested
/// models are created in exactly one loop, over one binder of a model that isn't nested, other
/// records outside of loops.
pub fn good_after_request()
    ensures { (w : ℕ → Bool) (app : Application) (t : PlainState) (visit : Visit)
        → IsGoodPlain (shapes_of app) t → t.number < 2 ^ 40 → length app.models ≤ 64
        → are_sited (body_in (slice_get app.views visit.view)) ≡ true
        → are_placed app.models Loops.none (body_in (slice_get app.views visit.view)) ≡ true
        → IsGoodPlain (shapes_of app) (after w app t visit) }
{}

/// A law: under the same conditions, whatever the kinds of the cells, ids that are wide exactly in
/// nested models are so after a request. The ids in each table must rise.
pub fn flat_after_request()
    ensures { (w : ℕ → Bool) (app : Application) (t : PlainState) (visit : Visit) → 0 < t.number
        → t.number < 2 ^ 40 → length app.models ≤ 64
        → are_sited (body_in (slice_get app.views visit.view)) ≡ true
        → are_placed app.models Loops.none (body_in (slice_get app.views visit.view)) ≡ true
        → HaveRisingIds t.tables → AreFlat app.models t.tables
        → AreFlat app.models (after w app t visit).tables }
{}

/// A law: statements create new records only. The conditions: their sites are pairwise different
/// and below 64. Records of nested models are created in exactly one loop, over one binder of a
/// model that isn't nested, other records outside of loops. In each table the ids rise, and they
/// are wide exactly in nested models. Before the run, no record has an id that this request makes
/// at one of the sites.
pub fn creates_are_new()
    ensures { (next : ℕ) (k : Setting) (s : Statements) (r : Run) → 0 < k.number → k.number < 2 ^ 40
        → k.number < next → length k.models ≤ 64 → are_sited s ≡ true → are_apart (sites s) ≡ true
        → are_placed k.models Loops.none s ≡ true → HaveRisingIds r.tables
        → AreFlat k.models r.tables
        → AreAbsent k.models k.number (sites s) r.tables → MayRunAll next k s r }
{}

/// A law: if all records were made by requests before this one, no record has an id that this
/// request makes.
pub fn made_before_are_absent()
    ensures { (models : List Entity) (number : ℕ) (sites : List ℕ) (tables : List (List PlainRow))
        → 0 < number → number < 2 ^ 40 → AreMadeBefore number tables
        → AreAbsent models number sites tables }
{}
