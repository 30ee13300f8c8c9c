//! Drafts of a record: its cells before the labels of its groups split them.
ghost use Rattle.std.specs.Prelude.{◌≡◌, ◌<◌, ◌∷◌, [], ℕ, Bool, length, map, if◌then◌else◌, All, IfOk};
ghost use Rattle.jac_facet.specs.Shape.{Shape, at};
ghost use Rattle.jac_expr.specs.Tupled.{all_at};
ghost use Rattle.jac_lang.specs.Lookup.{fields_at, kind_at};
ghost use Rattle.jac_plain.specs.Records.{fitting};
ghost use Rattle.jac_rows.specs.declared.row.Row.{Row as Seen};
ghost use Rattle.jac_value.specs.declared.value.Value.{Value as Plain};
ghost use Rattle.jac_world.specs.World.{holds};
ghost use Rattle.jac_write.specs.Drafts.{with_cell};
ghost use Rattle.jac_write.specs.Writes.{cells_at, fitted_from, put_in, sets_at, models_for};

use crate::alternatives::put_row;
use crate::cells::{Spot, with_facet};
use crate::fit::fitted;
use crate::schema::field_count;
use crate::subject::Subject;
use jac_facet::Facet;
use jac_lang::kind_of;
use jac_rows::Row;
use jac_value::{Cells, Id, Kind, Memory, Value};
use jac_world::{Guard, Steps};
use std::alloc::Global;
use std::sync::ledger::Ledger;

/// A record without cells, under the guard.
pub(crate) fn without_cells(alloc: Global, id: Id, guard: &Guard) -> Result<Vec<Row>, Memory>
    ensures own { IfOk result (λ v. All (λ (r : Seen). r.id ≡ id) v.items) }
    ensures shown { IfOk result (λ v. (w : ℕ → Bool) → cells_at w v.items ≡ (if holds w guard.now
        then [] ∷ [] else [])) }
{
    let guard = guard.copy(alloc)?;
    let mut rows = Vec::new(alloc);
    put_row(id, guard, Cells::empty(alloc), &mut rows)?;
    Ok(rows)
}

fn fitted_copy(alloc: Global, kind: &Kind, value: &Value) -> Result<Value, Memory>
    ensures { IfOk result (λ v. v ≡ fitting kind.now value.now) }
{
    let value = value.copy(alloc)?;
    Ok(fitted(alloc, kind, value))
}

// What the facet shows. A value of another kind becomes the default of the kind.
fn fitted_facet<L: Ledger>(
    alloc: Global,
    kind: Kind,
    facet: &Facet<Value>,
    splits: &mut Steps<L>,
) -> Result<Facet<Value>, Memory>
    ensures { IfOk result (λ f. (w : ℕ → Bool) → at w f ≡ fitting kind (at w facet.now)) }
{
    let fitted = facet.map(alloc, |value| fitted_copy(alloc, &kind, value), splits)?;
    Ok(fitted)
}

// The alternatives with what the facet shows in this spot, as the field stores it.
fn with_field<L: Ledger>(
    alloc: Global,
    subject: &Subject<'_>,
    field: u8,
    rows: &[Row],
    spot: Spot,
    facet: &Facet<Value>,
    splits: &mut Steps<L>,
) -> Result<Vec<Row>, Memory>
    requires model { subject.now.model < length subject.now.app.now.models }
    requires field { field < length (fields_at (models_for subject.now) subject.now.model) }
    ensures own { IfOk result (λ v. All (λ (r : Seen). r.id ≡ subject.now.id) v.items) }
    ensures shown { let models = models_for subject.now in IfOk result (λ v. (w : ℕ → Bool)
        → cells_at w v.items
        ≡ map (with_cell spot (fitting (kind_at models (fields_at models subject.now.model) field)
        (at w facet.now))) (cells_at w rows.now)) }
{
    let facet = fitted_facet(
        alloc,
        kind_of(subject.app, subject.model, field),
        facet,
        splits,
    )?;
    let rows = with_facet(alloc, subject.id, rows, spot, &facet)?;
    Ok(rows)
}

/// The cells of a new record under the guard. Each field has what its facet shows.
pub(crate) fn new_drafts<L: Ledger>(
    alloc: Global,
    subject: &Subject<'_>,
    guard: &Guard,
    cells: &[Facet<Value>],
    splits: &mut Steps<L>,
) -> Result<Vec<Row>, Memory>
    requires model { subject.now.model < length subject.now.app.now.models }
    requires each_field { length cells.now ≡ length (fields_at (models_for subject.now)
        subject.now.model) }
    ensures own { IfOk result (λ v. All (λ (r : Seen). r.id ≡ subject.now.id) v.items) }
    ensures shown { let models = models_for subject.now in IfOk result (λ v. (w : ℕ → Bool)
        → cells_at w v.items ≡ (if holds w guard.now
        then fitted_from models (fields_at models subject.now.model) 0 (all_at w cells.now) ∷ []
        else [])) }
{
    let mut drafts = without_cells(alloc, subject.id, guard)?;
    'fields: for field in 0..field_count(subject.app, subject.model) {
        let facet = &cells[usize::from(field)];
        let rows = drafts.as_slice();
        drafts = with_field(alloc, subject, field, rows, Spot::Behind, facet, splits)?;
    }
    Ok(drafts)
}

/// The alternatives after the sets, one after another.
pub(crate) fn with_sets<L: Ledger>(
    alloc: Global,
    subject: &Subject<'_>,
    sets: &[(u8, Facet<Value>)],
    rows: Vec<Row>,
    splits: &mut Steps<L>,
) -> Result<Vec<Row>, Memory>
    requires model { subject.now.model < length subject.now.app.now.models }
    requires fields { All (λ (s : ℕ × Shape Plain). s.0
        < length (fields_at (models_for subject.now) subject.now.model)) sets.now }
    requires own { All (λ (r : Seen). r.id ≡ subject.now.id) rows.items }
    ensures own { IfOk result (λ v. All (λ (r : Seen). r.id ≡ subject.now.id) v.items) }
    ensures shown { let models = models_for subject.now in IfOk result (λ v. (w : ℕ → Bool)
        → cells_at w v.items ≡ map (put_in models (fields_at models subject.now.model)
        (sets_at w sets.now)) (cells_at w rows.items)) }
{
    let mut drafts = rows;
    'sets: for set in sets {
        let field = set.0;
        let rows = drafts.as_slice();
        drafts = with_field(alloc, subject, field, rows, Spot::At(field), &set.1, splits)?;
    }
    Ok(drafts)
}
