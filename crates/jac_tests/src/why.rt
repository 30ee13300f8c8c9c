//! Why a label is hidden if the shown labels aren't settled, and a reason that belongs to another
//! label.
ghost use Rattle.std.specs.Prelude.{◌≡◌, ◌<◌, ◌≤◌, ◌*◌, ◌∷◌, [], IfOk, IsTrue};
ghost use Rattle.std.specs.List.{AllByRecursion};
ghost use Rattle.jac_rows.specs.declared.row.Row.{Row as Kept};
ghost use Rattle.jac_rows.specs.Good.{IsSound, IsMade};

use crate::rows::guard_of;
use jac_forms::app_of;
use jac_io::Calls;
use jac_keep::{MemoryKeeper, Work};
use jac_lang::App;
use jac_rows::{Row, State, Table, Tables};
use jac_tree::read_tree;
use jac_value::{Cells, Id, Memory, Txt, Value};
use jac_why::{Reason, ViewerContext, check_reason, why};
use jac_world::{Assignment, Label, Steps};
use std::alloc::Global;
use std::marker::Brand;
use std::process::Abort;
use std::sync::ledger::{Blank, Ledger};
use std::test::Fail;

// A note is shown if some note reads as `key`.
const KEY: &str = "(app (model Note (fields (body text)) (group (guards (body \"locked\")) \
    (policy (some (from ((n Note)) (eq (get Note body n) \"key\") key))))))";

// A note is shown if it says `b`, or if it is the only one that can be read.
const ONE: &str = "(app (model Note (fields (body text)) (group (guards (body \"locked\")) \
    (policy (or (eq (get Note body this) \"b\") \
    (eq (count (from ((n Note)) (not (eq (get Note body n) \"locked\")) key)) 1))))))";

// The alternative of a note for this sign of its label.
fn note(alloc: Global, id: u128, sign: bool, body: &str) -> Result<Row, Memory>
    requires { id ≤ 8192 }
    ensures { IfOk result (λ (r : Kept). (r.id ≡ id) × (r.guard ≡ (id * 8, sign) ∷ [])) }
{
    let guard = guard_of(alloc, id * 8, sign)?;
    let mut cells = Vec::new(alloc);
    cells.push(Value::Text(Txt::from_str(alloc, body)?))?;
    Ok(Row {
        id: Id(id),
        guard,
        cells: Cells::from_vec(cells),
    })
}

fn notes(alloc: Global) -> Result<Table, Memory>
    ensures { IfOk result (λ t. AllByRecursion (λ (r : Kept). IsMade 0 3 r.id) t) }
{
    let first = note(alloc, 4096, true, "key")?;
    let first_hidden = note(alloc, 4096, false, "locked")?;
    let second = note(alloc, 8192, true, "b")?;
    let second_hidden = note(alloc, 8192, false, "locked")?;
    let mut rows = Vec::new(alloc);
    rows.push(first)?;
    rows.push(first_hidden)?;
    rows.push(second)?;
    rows.push(second_hidden)?;
    Ok(Table::from_vec(rows))
}

fn keeper(alloc: Global) -> Result<MemoryKeeper, Memory>
    ensures { IfOk result (λ k. IsTrue k.store.attached) }
{
    let notes = notes(alloc)?;
    let mut tables = Vec::new(alloc);
    tables.push(notes)?;
    let state = State {
        tables: Tables::from_vec(tables),
        number: 3,
    };
    Ok(MemoryKeeper::attached(state, Calls::empty(alloc), Calls::empty(alloc)))
}

fn app(alloc: Global, text: &str) -> Option<App> {
    let tree = read_tree(alloc, text.as_bytes()).ok()?;
    app_of(alloc, &tree).ok()
}

// The reason against showing the label, if there is one.
fn found<L: Ledger>(
    alloc: Global,
    text: &str,
    labels: &Assignment,
    hidden: Label,
    evaluations: &mut Steps<L>,
) -> Option<Option<Reason>> {
    let app = app(alloc, text)?;
    let mut keeper = keeper(alloc).ok()?;
    let mut work = Work::new(alloc, &mut keeper);
    let context = ViewerContext {
        app: &app,
        viewer: None,
        labels,
    };
    why(&mut work, &context, hidden, evaluations).ok()
}

// Whether the reason holds for the second note.
fn stands<L: Ledger>(
    alloc: Global,
    labels: &Assignment,
    reason: &Reason,
    evaluations: &mut Steps<L>,
) -> Option<bool> {
    let app = app(alloc, ONE)?;
    let mut keeper = keeper(alloc).ok()?;
    let mut work = Work::new(alloc, &mut keeper);
    let context = ViewerContext {
        app: &app,
        viewer: None,
        labels,
    };
    check_reason(&mut work, &context, Label(65536), reason, evaluations).ok()
}

fn is_none(found: Option<Option<Reason>>) -> bool {
    found.is_some_and(|reason| reason.is_none())
}

fn run_may_be_added<L: Ledger>(rt: &impl Abort, alloc: Global, blank: Blank) -> Result<(), Fail>
    requires name { blank.name ≡ L.name }
    requires parts { blank.parts ≡ L.parts }
    requires some { 0 < blank.parts }
{
    let mut evaluations: Steps<L> = Steps::new(blank);
    let nothing = Assignment::empty(alloc);
    assert!(rt; is_none(found(alloc, KEY, &nothing, Label(32768), &mut evaluations)));
    Ok(())
}

#[test]
fn nothing_stands_against_what_may_be_added(rt: HostRuntime) -> Result<(), Fail> {
    run_may_be_added::<Brand>(&rt, rt.alloc(), Blank::new(1))
}

fn run_stands<L: Ledger>(rt: &impl Abort, alloc: Global, blank: Blank) -> Result<(), Fail>
    requires name { blank.name ≡ L.name }
    requires parts { blank.parts ≡ L.parts }
    requires some { 0 < blank.parts }
{
    let mut evaluations: Steps<L> = Steps::new(blank);
    let first = Assignment::empty(alloc).with(alloc, Label(32768))?;
    let reason = Reason::of(Label(32768));
    assert!(rt; found(alloc, ONE, &first, Label(65536), &mut evaluations) == Some(Some(reason)));
    assert!(rt; stands(alloc, &first, &reason, &mut evaluations) == Some(true));
    let own = Reason::of(Label(65536));
    assert!(rt; stands(alloc, &first, &own, &mut evaluations) == Some(false));
    Ok(())
}

#[test]
fn the_label_that_is_shown_stands_against_another(rt: HostRuntime) -> Result<(), Fail> {
    run_stands::<Brand>(&rt, rt.alloc(), Blank::new(1))
}

fn run_misnamed<L: Ledger>(rt: &impl Abort, alloc: Global, blank: Blank) -> Result<(), Fail>
    requires name { blank.name ≡ L.name }
    requires parts { blank.parts ≡ L.parts }
    requires some { 0 < blank.parts }
{
    let mut evaluations: Steps<L> = Steps::new(blank);
    let first = Assignment::empty(alloc).with(alloc, Label(32768))?;
    let another = Reason {
        label: Label(32768),
        model: 0,
        group: 1,
    };
    assert!(rt; stands(alloc, &first, &another, &mut evaluations) == Some(false));
    Ok(())
}

#[test]
fn a_reason_of_another_group_does_not_stand(rt: HostRuntime) -> Result<(), Fail> {
    run_misnamed::<Brand>(&rt, rt.alloc(), Blank::new(1))
}
