//! What an assignment shows of a state, and copies of states.
ghost use Rattle.std.specs.Prelude.{◌≡◌, [], ◌∷◌, IfOk};
ghost use Rattle.jac_rows.specs.declared.row.Row.{Row as Kept};

use jac_rows::{
    Flags, KindLists, PlainRow, PlainState, PlainTable, PlainTables, Row, Shape, State, Table,
    Tables, project,
};
use jac_value::{Cells, Id, Kinds, Memory, Value};
use jac_world::{Assignment, Guard, Label};
use std::alloc::Global;
use std::test::Fail;

fn cells(alloc: Global, number: i64) -> Result<Cells, Memory> {
    let mut cells = Vec::new(alloc);
    cells.push(Value::Int(number))?;
    Ok(Cells::from_vec(cells))
}

pub(crate) fn guard_of(alloc: Global, label: u128, sign: bool) -> Result<Guard, Memory>
    ensures { IfOk result (λ g. g ≡ (label, sign) ∷ []) }
{
    match Guard::one(alloc, Label(label), sign) {
        Ok(guard) => Ok(guard),
        Err(_) => Err(Memory),
    }
}

fn row(alloc: Global, id: u128, sign: bool, number: i64) -> Result<Row, Memory>
    ensures { IfOk result (λ (r : Kept). (r.id ≡ id) × (r.guard ≡ (98312, sign) ∷ [])) }
{
    let guard = guard_of(alloc, 98312, sign)?;
    let cells = cells(alloc, number)?;
    Ok(Row {
        id: Id(id),
        guard,
        cells,
    })
}

// A record with a real and a public alternative.
fn alternatives(alloc: Global) -> Result<Table, Memory> {
    let real = row(alloc, 12289, true, 1)?;
    let public = row(alloc, 12289, false, 2)?;
    let mut rows = Vec::new(alloc);
    rows.push(real)?;
    rows.push(public)?;
    let table = Table::from_vec(rows);
    Ok(table)
}

// Two models, and a record of the second one.
fn state(alloc: Global) -> Result<State, Memory> {
    let table = alternatives(alloc)?;
    let mut tables = Vec::new(alloc);
    tables.push(Table::empty(alloc))?;
    tables.push(table)?;
    Ok(State {
        tables: Tables::from_vec(tables),
        number: 4,
    })
}

fn is_row(rows: &[PlainRow], number: i64) -> bool {
    match rows {
        [row] => { row.id == Id(12289) && row.cells.as_slice() == [Value::Int(number)].as_slice() }
        _ => false,
    }
}

#[test]
fn an_assignment_shows_one_alternative(rt: HostRuntime) -> Result<(), Fail> {
    let alloc = rt.alloc();
    let state = state(alloc)?.copy(alloc)?;
    let hidden = project(alloc, &state, &Assignment::empty(alloc))?;
    assert!(rt; is_row(hidden.tables.rows(1), 2));
    let label = Assignment::empty(alloc).with(alloc, Label(98312))?;
    let shown = project(alloc, &state, &label)?.copy(alloc)?;
    assert!(rt; is_row(shown.tables.rows(1), 1));
    Ok(())
}

#[test]
fn plain_tables_are_taken_apart(rt: HostRuntime) -> Result<(), Fail> {
    let alloc = rt.alloc();
    let table = PlainTable::from_vec(PlainTable::empty(alloc).into_vec());
    assert_eq!(rt; table.as_slice().len(), 0);
    let tables = PlainTables::from_vec(PlainTables::empty(alloc).into_vec());
    let state = PlainState { tables, number: 1 };
    assert_eq!(rt; state.tables.as_slice().len(), 0);
    Ok(())
}

#[test]
fn a_shape_is_copied(rt: HostRuntime) -> Result<(), Fail> {
    let alloc = rt.alloc();
    let mut kinds = KindLists::empty(alloc).into_vec();
    kinds.push(Kinds::empty(alloc))?;
    let mut nested = Flags::empty(alloc).into_vec();
    nested.push(false)?;
    let shape = Shape {
        kinds: KindLists::from_vec(kinds),
        nested: Flags::from_vec(nested),
    };
    let again = shape.copy(alloc)?;
    assert_eq!(rt; again.kinds.as_slice().len(), 1);
    assert_eq!(rt; again.nested.as_slice(), [false].as_slice());
    Ok(())
}
