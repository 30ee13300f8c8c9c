//! The lists of each crate are made, copied and taken apart, if no command does it.
use jac_facet::{Facet, Facets, Leaves};
use jac_forms::Path;
use jac_io::{Calls, Links, NamedFiles, Pieces};
use jac_keep::Alterations;
use jac_lang::{Fields, Groups, Models};
use jac_query::{Tuple, Tuples};
use jac_route::{Pair, Pairs};
use jac_rows::Rows;
use jac_shown_rows::Support;
use jac_stmt::Out;
use jac_value::{Bytes, Id, Ids, Kind, Kinds, Txt};
use jac_world::{Assignment, Guard, Guards, Label};
use jac_write::Sets;
use std::alloc::Global;
use std::test::Fail;

#[test]
fn lists_of_values(rt: HostRuntime) -> Result<(), Fail> {
    let alloc = rt.alloc();
    let bytes = Bytes::from_slice(alloc, b"ab")?;
    assert_eq!(rt; bytes.copy(alloc)?.into_vec().len(), 2);
    let mut kinds = Kinds::empty(alloc).into_vec();
    kinds.push(Kind::Bool)?;
    let again = Kinds::from_vec(kinds).copy(alloc)?;
    assert_eq!(rt; again.as_slice(), [Kind::Bool].as_slice());
    Ok(())
}

#[test]
fn lists_of_labels(rt: HostRuntime) -> Result<(), Fail> {
    let alloc = rt.alloc();
    let shown = Assignment::empty(alloc).with(alloc, Label(5))?;
    assert_eq!(rt; shown.copy(alloc)?.as_slice(), [Label(5)].as_slice());
    let mut guards = Guards::empty(alloc).into_vec();
    guards.push(Guard::empty(alloc))?;
    assert_eq!(rt; Guards::from_vec(guards).copy(alloc)?.as_slice().len(), 1);
    assert_eq!(rt; Support::empty(alloc).as_slice().len(), 0);
    Ok(())
}

#[test]
fn lists_of_facets(rt: HostRuntime) -> Result<(), Fail> {
    let alloc = rt.alloc();
    let mut facets = Facets::empty(alloc).into_vec();
    facets.push(Facet::leaf(true))?;
    assert_eq!(rt; Facets::from_vec(facets).copy(alloc)?.as_slice().len(), 1);
    let leaves: Leaves<bool> = Leaves::empty(alloc);
    assert_eq!(rt; leaves.as_slice().len(), 0);
    assert_eq!(rt; Sets::empty(alloc).as_slice().len(), 0);
    assert_eq!(rt;
        Out::from_vec(Out::empty(alloc).into_vec()).as_slice().len(),
        0
    );
    Ok(())
}

fn tuple(alloc: Global) -> Result<Tuple, Fail> {
    let ids = vec![in alloc; Id(4096)]?;
    Ok(Tuple {
        guard: Guard::empty(alloc),
        ids: Ids::from_vec(ids),
    })
}

#[test]
fn lists_of_tuples(rt: HostRuntime) -> Result<(), Fail> {
    let alloc = rt.alloc();
    let mut tuples = Tuples::empty(alloc).into_vec();
    tuples.push(tuple(alloc)?)?;
    let again = Tuples::from_vec(tuples).copy(alloc)?;
    assert_eq!(rt; again.as_slice().len(), 1);
    assert_eq!(rt; again.as_slice()[0].ids.as_slice(), [Id(4096)].as_slice());
    Ok(())
}

#[test]
fn lists_of_changes(rt: HostRuntime) -> Result<(), Fail> {
    let alloc = rt.alloc();
    let mut changed = Alterations::empty(alloc);
    changed.put(Id(4096), Rows::empty(alloc))?;
    let again = Alterations::from_vec(changed.copy(alloc)?.into_vec());
    assert_eq!(rt; again.as_slice().len(), 1);
    Ok(())
}

#[test]
fn lists_of_pairs(rt: HostRuntime) -> Result<(), Fail> {
    let alloc = rt.alloc();
    let mut pairs = Pairs::empty(alloc).into_vec();
    pairs.push(Pair {
        name: Txt::from_str(alloc, "a")?,
        value: Txt::empty(alloc),
    })?;
    let again = Pairs::from_vec(pairs).copy(alloc)?;
    assert_eq!(rt; again.as_slice().len(), 1);
    assert_eq!(rt; again.as_slice()[0].name.as_str(), "a");
    Ok(())
}

#[test]
fn lists_of_an_application(rt: HostRuntime) -> Result<(), Fail> {
    let alloc = rt.alloc();
    assert_eq!(rt; Fields::empty(alloc).into_vec().len(), 0);
    assert_eq!(rt; Groups::empty(alloc).into_vec().len(), 0);
    assert_eq!(rt; Models::empty(alloc).into_vec().len(), 0);
    assert_eq!(rt; Path::empty(alloc).into_vec().len(), 0);
    Ok(())
}

#[test]
fn lists_of_the_outside(rt: HostRuntime) -> Result<(), Fail> {
    let alloc = rt.alloc();
    let mut calls = Calls::empty(alloc).into_vec();
    calls.push(2)?;
    let again = Calls::from_vec(calls).copy(alloc)?;
    assert_eq!(rt; again.as_slice(), [2].as_slice());
    assert_eq!(rt; NamedFiles::empty(alloc).as_slice().len(), 0);
    assert_eq!(rt; NamedFiles::empty(alloc).into_vec().len(), 0);
    assert_eq!(rt; Pieces::from_vec(Vec::new(alloc)).into_vec().len(), 0);
    assert_eq!(rt; Links::from_vec(Vec::new(alloc)).into_vec().len(), 0);
    Ok(())
}
