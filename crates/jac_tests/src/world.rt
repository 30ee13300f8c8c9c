//! Guards are made of pairs and compared. Then labels are cut from a guard.
use jac_world::{Guard, Label};
use std::test::Fail;

#[test]
fn guards_are_compared(rt: HostRuntime) -> Result<(), Fail> {
    let alloc = rt.alloc();
    let mut pairs = Vec::new(alloc);
    pairs.push((Label(1), true))?;
    let stored = Guard::from_pairs(pairs);
    assert!(rt; Guard::one(alloc, Label(1), true)?.is_same(&stored));
    assert!(rt; !Guard::one(alloc, Label(1), false)?.is_same(&stored));
    Ok(())
}
