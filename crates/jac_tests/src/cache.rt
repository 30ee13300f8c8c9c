//! A table that was read is cached. The second read of the inner keeper fails, so later answers
//! come from the cache.
ghost use Rattle.std.specs.Prelude.{IfOk, IsTrue};

use jac_io::Calls;
use jac_keep::{Keeper, MemoryKeeper};
use jac_rows::{State, Tables};
use jac_table_cache::CachedKeeper;
use jac_value::{Id, Memory, Value};
use std::alloc::Global;
use std::test::Fail;

// A keeper without records. Only its first read succeeds.
fn read_once(alloc: Global) -> Result<CachedKeeper<MemoryKeeper>, Memory>
    ensures { IfOk result (λ k. IsTrue k.store.attached) }
{
    let state = State {
        tables: Tables::empty(alloc),
        number: 1,
    };
    let mut second = Vec::new(alloc);
    second.push(2)?;
    let memory = MemoryKeeper::attached(state, Calls::from_vec(second), Calls::empty(alloc));
    Ok(CachedKeeper::new(alloc, memory))
}

fn has_rows(alloc: Global, keeper: &mut CachedKeeper<MemoryKeeper>, model: u8) -> bool
    requires { IsTrue keeper.old.store.attached }
    ensures { IsTrue keeper.new.store.attached }
{
    keeper.rows(alloc, model).is_ok()
}

fn has_one(alloc: Global, keeper: &mut CachedKeeper<MemoryKeeper>, id: Id) -> bool
    requires { IsTrue keeper.old.store.attached }
    ensures { IsTrue keeper.new.store.attached }
{
    keeper.one(alloc, id).is_ok()
}

fn finds(alloc: Global, keeper: &mut CachedKeeper<MemoryKeeper>, model: u8) -> bool
    requires { IsTrue keeper.old.store.attached }
    ensures { IsTrue keeper.new.store.attached }
{
    let value = Value::Bool(true);
    keeper.rows_with(alloc, model, 0, &value).is_ok()
}

#[test]
fn a_table_that_was_read_is_held(rt: HostRuntime) -> Result<(), Fail> {
    let alloc = rt.alloc();
    let mut keeper = read_once(alloc)?;
    assert!(rt; has_rows(alloc, &mut keeper, 0));
    assert!(rt; has_rows(alloc, &mut keeper, 0));
    assert!(rt; has_one(alloc, &mut keeper, Id(4096)));
    assert!(rt; !has_rows(alloc, &mut keeper, 1));
    Ok(())
}

#[test]
fn a_table_in_which_records_were_found_is_held(rt: HostRuntime) -> Result<(), Fail> {
    let alloc = rt.alloc();
    let mut keeper = read_once(alloc)?;
    assert!(rt; finds(alloc, &mut keeper, 0));
    assert!(rt; has_rows(alloc, &mut keeper, 0));
    assert!(rt; finds(alloc, &mut keeper, 0));
    assert!(rt; !finds(alloc, &mut keeper, 1));
    Ok(())
}
