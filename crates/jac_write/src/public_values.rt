//! The public values of fields, for where their groups are hidden.
ghost use Rattle.std.specs.Prelude.{◌≡◌, ◌<◌, ◌+◌, [], ℕ, Bool, true, length, slice_get, unwrap_or, Some, None, IfOk, IsTrue};
ghost use Rattle.jac_value.specs.Ids.{is_id_of, number_of_id};
ghost use Rattle.jac_value.specs.Values.{default_value};
ghost use Rattle.jac_lang.specs.Lookup.{fields_at, kind_at};
ghost use Rattle.jac_lang.specs.Mirror.{application_of, expression_of};
ghost use Rattle.jac_world.specs.World.{shown_by};
ghost use Rattle.jac_rows.specs.Good.{IsSound};
ghost use Rattle.jac_rows.specs.Project.{project_at};
ghost use Rattle.jac_plain.specs.Expressions.{mean};
ghost use Rattle.jac_plain.specs.Records.{alone, plain_row, public_cell, value_over};
ghost use Rattle.jac_write.specs.Writes.{only};

use crate::fit::fitted;
use crate::schema::expression_of_field;
use jac_expr::{Ctx, Env, FacetedContext, eval};
use jac_io::Calls;
use jac_keep::{MemoryKeeper, Stop, Work};
use jac_lang::{App, Expr, kind_of};
use jac_rows::{Row, State, Table, Tables};
use jac_value::{Cells, Id, Memory, Value, default_of};
use jac_world::{Assignment, Guard, Steps};
use std::alloc::Global;
use std::sync::ledger::Ledger;

// The cell of the field. If the record has none, the default.
fn cell_at(alloc: Global, app: &App, model: u8, cells: &Cells, field: u8) -> Result<Value, Memory>
    requires model { model < length app.now.models }
    requires field { field < length (fields_at (application_of app.now).models model) }
    ensures { let models = (application_of app.now).models
        in IfOk result (λ v. v ≡ unwrap_or (slice_get cells.now field)
        (default_value (kind_at models (fields_at models model) field))) }
{
    match cells.as_slice().get(usize::from(field)) {
        Some(cell) => {
            let cell = cell.copy(alloc)?;
            Ok(cell)
        }
        None => Ok(default_of(alloc, &kind_of(app, model, field))),
    }
}

// The tables with this row of the model, and no other.
fn tables_alone(alloc: Global, model: u8, row: Row) -> Result<Tables, Memory>
    ensures { IfOk result (λ ts. ts ≡ only model row) }
{
    let mut tables = Vec::new(alloc);
    let mut left = model;
    'models: while left > 0 {
        tables.push(Table::empty(alloc))?;
        left -= 1;
    }
    let mut rows = Vec::new(alloc);
    rows.push(row)?;
    tables.push(Table::from_vec(rows))?;
    Ok(Tables::from_vec(tables))
}

// A wide id modulo this number is a narrow id.
const NARROW_IDS_END: u128 = 1 << 52;

// The number of the request that made the record, plus 1.
fn next_number(id: Id, model: u8) -> u64
    requires { is_id_of id model ≡ true }
    ensures { result ≡ number_of_id id + 1 }
{
    let _ = model;
    (id.0 % NARROW_IDS_END / 4096) as u64 + 1
}

// The state with this record only, without guards.
fn state_alone(alloc: Global, model: u8, id: Id, cells: &Cells) -> Result<State, Memory>
    requires { is_id_of id model ≡ true }
    ensures sound { IfOk result IsSound }
    ensures shown { IfOk result (λ s. (w : ℕ → Bool) → (project_at w s).tables ≡ alone model
        (plain_row id cells.now)) }
{
    let cells = cells.copy(alloc)?;
    let row = Row {
        id,
        guard: Guard::empty(alloc),
        cells,
    };
    let tables = tables_alone(alloc, model, row)?;
    Ok(State {
        tables,
        number: next_number(id, model),
    })
}

// The context of a public expression: the record is `this`, and there is no viewer.
fn asked_of(id: Id) -> Ctx
    ensures { result ≡ record { viewer = None; this = Some id; number = 0; around = None } }
{
    Ctx {
        viewer: None,
        this: Some(id),
        number: 0,
        around: None,
    }
}

// The value of an expression over the keeper's state, if no label is shown.
fn value_in<L: Ledger>(
    alloc: Global,
    keeper: &mut MemoryKeeper,
    app: &App,
    id: Id,
    e: &Expr,
    splits: &mut Steps<L>,
) -> Result<Value, Stop>
    requires { IsTrue keeper.old.store.attached }
    ensures { IfOk result (λ v. v ≡ mean (record {
      models = (application_of app.now).models;
      this = Some id;
      viewer = None;
      tables = (project_at (shown_by []) keeper.old.state).tables;
    })
        (expression_of e.now) []) }
{
    let mut work = Work::new(alloc, keeper);
    let ctx = asked_of(id);
    let env = Env::empty(alloc);
    let everywhere = Guard::empty(alloc);
    let here = FacetedContext {
        app,
        ctx: &ctx,
        pc: &everywhere,
    };
    let facet = eval(&mut work, &here, &env, e, splits)?;
    let nothing = Assignment::empty(alloc);
    let value = facet.at(&nothing).copy(alloc)?;
    Ok(value)
}

// The value of an expression over a state with this record only.
fn value_alone<L: Ledger>(
    alloc: Global,
    app: &App,
    model: u8,
    id: Id,
    cells: &Cells,
    e: &Expr,
    splits: &mut Steps<L>,
) -> Result<Value, Memory>
    requires { is_id_of id model ≡ true }
    ensures { IfOk result (λ v. v ≡ value_over (application_of app.now).models model id cells.now
        (expression_of e.now)) }
{
    let state = state_alone(alloc, model, id, cells)?;
    let mut keeper = MemoryKeeper::attached(state, Calls::empty(alloc), Calls::empty(alloc));
    match value_in(alloc, &mut keeper, app, id, e, splits) {
        Ok(value) => Ok(value),
        // No call of this keeper is listed to fail. So it was out of memory.
        Err(_) => Err(Memory),
    }
}

/// The public value of the field: the value of its public expression over these cells. If no group
/// guards the field, its cell.
pub fn public_value<L: Ledger>(
    alloc: Global,
    app: &App,
    model: u8,
    id: Id,
    cells: &Cells,
    field: u8,
    splits: &mut Steps<L>,
) -> Result<Value, Memory>
    requires model { model < length app.now.models }
    requires field { field < length (fields_at (application_of app.now).models model) }
    requires id { is_id_of id model ≡ true }
    ensures { let models = (application_of app.now).models
        in IfOk result (λ v. v ≡ public_cell models model id cells.now field
        (unwrap_or (slice_get cells.now field)
        (default_value (kind_at models (fields_at models model) field)))) }
{
    match expression_of_field(app, model, field) {
        Some(e) => {
            let value = value_alone(alloc, app, model, id, cells, e, splits)?;
            Ok(fitted(alloc, &kind_of(app, model, field), value))
        }
        None => {
            let cell = cell_at(alloc, app, model, cells, field)?;
            Ok(cell)
        }
    }
}
