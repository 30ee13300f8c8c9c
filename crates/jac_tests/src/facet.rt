//! A facet without the labels of a guard.
ghost use Rattle.std.specs.Prelude.{◌≡◌, ℕ, ◌<◌};
ghost use Rattle.jac_facet.specs.Shape.{Above};

use jac_facet::Facet;
use jac_value::Value;
use jac_world::{Assignment, Guard, Label, Steps};
use std::alloc::Global;
use std::marker::Brand;
use std::process::Abort;
use std::sync::ledger::{Blank, Ledger};
use std::test::Fail;

fn int(number: i64) -> Facet<Value>
    ensures { (k : ℕ) → Above k result }
{
    Facet::leaf(Value::Int(number))
}

fn run_prune<L: Ledger>(rt: &impl Abort, alloc: Global, blank: Blank) -> Result<(), Fail>
    requires name { blank.name ≡ L.name }
    requires parts { blank.parts ≡ L.parts }
    requires some { 0 < blank.parts }
{
    let mut steps: Steps<L> = Steps::new(blank);
    let facet = Facet::split(alloc, Label(1), int(5), int(6), &mut steps)?;
    let cut = Guard::one(alloc, Label(1), true)?;
    let pruned = facet.prune(alloc, &cut, &mut steps)?;
    assert_eq!(rt; *pruned.at(&Assignment::empty(alloc)), Value::Int(5));
    Ok(())
}

#[test]
fn a_label_is_pruned(rt: HostRuntime) -> Result<(), Fail> {
    run_prune::<Brand>(&rt, rt.alloc(), Blank::new(1))
}
