//! The calendar after its first three requests, in memory, and a keeper over it that reads no whole
//! table.
ghost use Rattle.std.specs.Prelude.{◌≡◌, ◌≤◌, [], ◌∷◌, false, IfOk, IsTrue};
ghost use Rattle.jac_io.specs.Faults.{Rose};
ghost use Rattle.jac_rows.specs.Good.{IsSound};
ghost use Rattle.jac_rows.specs.declared.row.Row.{Row as Kept};

use crate::rows::guard_of;
use jac_io::Calls;
use jac_keep::{Change, Keeper, MemoryKeeper, Stop};
use jac_rows::{Row, Rows, State, Table, Tables};
use jac_value::{Cells, Id, Memory, Txt, Value};
use jac_world::Guard;
use std::alloc::Global;

/// A keeper whose contents aren't known. It reads no whole table and takes no change. It passes
/// every other call on to the inner keeper.
#[derive(Drop)]
pub(crate) struct Finder {
    pub within: MemoryKeeper,
    pub faults: u64,
}

impl Finder {
    fn refuse(&mut self)
        ensures later { self.old.faults ≤ self.new.faults }
        ensures rose { Rose self.old.faults self.new.faults }
        ensures within { self.new.within ≡ self.old.within }
    {
        self.faults = self.faults.saturating_add(1);
    }
}

impl Keeper for Finder {
    ghost use Rattle.jac_keep.specs.KeeperSeen.{KeeperSeen};

    ghost seen = { λ k. record { tells = false; state = k.within.state; faults = k.faults; store = k.within.store } };

    fn number(&mut self) -> Result<u64, Stop> {
        match self.within.number() {
            Ok(number) => Ok(number),
            Err(Stop::Memory) => Err(Stop::Memory),
            Err(Stop::Keeper) => {
                self.refuse();
                Err(Stop::Keeper)
            }
        }
    }

    fn rows(&mut self, _alloc: Global, _model: u8) -> Result<Rows, Stop> {
        self.refuse();
        Err(Stop::Keeper)
    }

    fn one(&mut self, alloc: Global, id: Id) -> Result<Rows, Stop> {
        match self.within.one(alloc, id) {
            Ok(rows) => Ok(rows),
            Err(Stop::Memory) => Err(Stop::Memory),
            Err(Stop::Keeper) => {
                self.refuse();
                Err(Stop::Keeper)
            }
        }
    }

    fn rows_with(
        &mut self,
        alloc: Global,
        model: u8,
        field: u8,
        value: &Value,
    ) -> Result<Rows, Stop> {
        match self.within.rows_with(alloc, model, field, value) {
            Ok(rows) => Ok(rows),
            Err(Stop::Memory) => Err(Stop::Memory),
            Err(Stop::Keeper) => {
                self.refuse();
                Err(Stop::Keeper)
            }
        }
    }

    fn apply(&mut self, _alloc: Global, _change: &Change) -> Result<(), Stop> {
        self.refuse();
        Err(Stop::Keeper)
    }
}

fn user(alloc: Global, id: u128, name: &str) -> Result<Row, Memory>
    ensures { IfOk result (λ (r : Kept). (r.id ≡ id) × (r.guard ≡ [])) }
{
    let name = Txt::from_str(alloc, name)?;
    let mut cells = Vec::new(alloc);
    cells.push(Value::Text(name))?;
    Ok(Row {
        id: Id(id),
        guard: Guard::empty(alloc),
        cells: Cells::from_vec(cells),
    })
}

fn users(alloc: Global) -> Result<Table, Memory>
    ensures { IfOk result (λ t. IsSound (record { tables = t ∷ []; number = 4 })) }
{
    let ann = user(alloc, 4096, "Ann")?;
    let bob = user(alloc, 8192, "Bob")?;
    let mut rows = Vec::new(alloc);
    rows.push(ann)?;
    rows.push(bob)?;
    let table = Table::from_vec(rows);
    Ok(table)
}

fn event(alloc: Global, sign: bool, title: &str) -> Result<Row, Memory>
    ensures { IfOk result (λ (r : Kept). (r.id ≡ 12289) × (r.guard ≡ (98312, sign) ∷ [])) }
{
    let guard = guard_of(alloc, 98312, sign)?;
    let title = Txt::from_str(alloc, title)?;
    let mut cells = Vec::new(alloc);
    cells.push(Value::Text(title))?;
    cells.push(Value::Ref(Some(Id(4096))))?;
    cells.push(Value::Bool(false))?;
    Ok(Row {
        id: Id(12289),
        guard,
        cells: Cells::from_vec(cells),
    })
}

fn events(alloc: Global) -> Result<Table, Memory>
    ensures { IfOk result (λ t. IsSound (record { tables = [] ∷ (t ∷ []); number = 4 })) }
{
    let real = event(alloc, true, "raid")?;
    let public = event(alloc, false, "private")?;
    let mut rows = Vec::new(alloc);
    rows.push(real)?;
    rows.push(public)?;
    let table = Table::from_vec(rows);
    Ok(table)
}

fn state(alloc: Global) -> Result<State, Memory>
    ensures { IfOk result IsSound }
{
    let users = users(alloc)?;
    let events = events(alloc)?;
    let mut tables = Vec::new(alloc);
    tables.push(users)?;
    tables.push(events)?;
    Ok(State {
        tables: Tables::from_vec(tables),
        number: 4,
    })
}

pub(crate) fn memory(alloc: Global) -> Result<MemoryKeeper, Memory>
    ensures { IfOk result (λ k. IsTrue k.store.attached) }
{
    let state = state(alloc)?;
    Ok(MemoryKeeper::attached(state, Calls::empty(alloc), Calls::empty(alloc)))
}

pub(crate) fn new_finder(alloc: Global) -> Result<Finder, Memory>
    ensures { IfOk result (λ k. IsTrue k.within.store.attached) }
{
    let within = memory(alloc)?;
    Ok(Finder { within, faults: 0 })
}
