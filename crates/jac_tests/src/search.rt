//! What the keeper in memory and a work find by a value. A query for a value, under all
//! assignments, reads no whole table.
ghost use Rattle.std.specs.Prelude.{◌≡◌, ◌<◌, IsTrue};

use crate::finder::{Finder, memory, new_finder};
use crate::texts::{CALENDAR, app};
use jac_expr::{Ctx, Env, FacetedContext, tuples};
use jac_forms::query_of;
use jac_keep::{Keeper, MemoryKeeper, Stop, Work};
use jac_lang::{App, Query};
use jac_query::Tuples;
use jac_rows::Rows;
use jac_tree::read_tree;
use jac_value::{Id, Txt, Value};
use jac_world::{Guard, Label, Steps};
use std::alloc::Global;
use std::marker::Brand;
use std::process::Abort;
use std::sync::ledger::{Blank, Ledger};
use std::test::Fail;

// How many alternatives the events with this title have.
fn found(alloc: Global, keeper: &mut MemoryKeeper, title: &str) -> Result<usize, Stop>
    requires { IsTrue keeper.old.store.attached }
    ensures { IsTrue keeper.new.store.attached }
{
    let title = Value::Text(Txt::from_str(alloc, title)?);
    let rows = keeper.rows_with(alloc, 1, 0, &title)?;
    Ok(rows.as_slice().len())
}

#[test]
fn a_keeper_finds_all_alternatives_of_a_record(rt: HostRuntime) -> Result<(), Fail> {
    let alloc = rt.alloc();
    let mut keeper = memory(alloc)?;
    assert!(rt; found(alloc, &mut keeper, "raid").is_ok_and(|rows| rows == 2));
    assert!(rt; found(alloc, &mut keeper, "private").is_ok_and(|rows| rows == 2));
    assert!(rt; found(alloc, &mut keeper, "").is_ok_and(|rows| rows == 0));
    Ok(())
}

// How many rows with this title a work has, before and after the event is deleted in it.
fn found_in_work(alloc: Global, keeper: &mut Finder) -> Result<(usize, usize), Stop>
    requires { IsTrue keeper.old.within.store.attached }
{
    let title = Value::Text(Txt::from_str(alloc, "raid")?);
    let mut work = Work::new(alloc, keeper);
    let before = work.rows_with(1, 0, &title)?;
    work.replace(Id(12289), Rows::empty(alloc))?;
    let after = work.rows_with(1, 0, &title)?;
    Ok((before.as_slice().len(), after.as_slice().len()))
}

#[test]
fn a_work_finds_what_was_replaced_no_more(rt: HostRuntime) -> Result<(), Fail> {
    let alloc = rt.alloc();
    let mut keeper = new_finder(alloc)?;
    assert!(rt; found_in_work(alloc, &mut keeper).is_ok_and(|rows| rows == (2, 0)));
    Ok(())
}

fn query(alloc: Global, text: &str) -> Option<Query> {
    let tree = read_tree(alloc, text.as_bytes()).ok()?;
    query_of(alloc, &tree).ok()
}

const BY_TITLE: &str = "(from ((e Event)) (eq (get Event title e) \"raid\") key)";

const BY_LATER_OPERAND: &str = "(from ((e Event)) \
    (and (eq (get Event open e) false) (eq (get Event title e) \"raid\")) key)";

const BY_EITHER: &str = "(from ((e Event)) \
    (or (eq (get Event title e) \"raid\") (eq (get Event title e) \"play\")) key)";

fn nobody() -> Ctx {
    Ctx {
        viewer: None,
        this: None,
        number: 4,
        around: None,
    }
}

// The answers of this query in the calendar, under the empty path condition.
fn answers<L: Ledger>(
    alloc: Global,
    text: &str,
    splits: &mut Steps<L>,
) -> Option<Result<Tuples, Stop>> {
    let app = app(alloc, CALENDAR)?;
    let query = query(alloc, text)?;
    let mut keeper = new_finder(alloc).ok()?;
    Some(answers_over(alloc, &mut keeper, &app, &query, splits))
}

fn answers_over<L: Ledger>(
    alloc: Global,
    keeper: &mut Finder,
    app: &App,
    query: &Query,
    splits: &mut Steps<L>,
) -> Result<Tuples, Stop>
    requires { IsTrue keeper.old.within.store.attached }
{
    let mut work = Work::new(alloc, keeper);
    let env = Env::empty(alloc);
    let pc = Guard::empty(alloc);
    let ctx = nobody();
    let here = FacetedContext {
        app,
        ctx: &ctx,
        pc: &pc,
    };
    let answers = tuples(&mut work, &here, &env, query, splits)?;
    Ok(answers)
}

// Whether the event is the only answer, with the guard that its title is shown.
fn finds_raid<L: Ledger>(alloc: Global, text: &str, splits: &mut Steps<L>) -> bool {
    match answers(alloc, text, splits) {
        Some(Ok(answers)) => is_raid(&answers),
        _ => false,
    }
}

fn is_raid(answers: &Tuples) -> bool {
    match answers.as_slice() {
        [tuple] => {
            tuple.ids.as_slice() == [Id(12289)].as_slice()
                && tuple.guard.pairs() == [(Label(98312), true)].as_slice()
        }
        _ => false,
    }
}

fn reads_a_table<L: Ledger>(alloc: Global, text: &str, splits: &mut Steps<L>) -> bool {
    match answers(alloc, text, splits) {
        Some(Err(stop)) => stop == Stop::Keeper,
        _ => false,
    }
}

fn run_search<L: Ledger>(rt: &impl Abort, alloc: Global, blank: Blank) -> Result<(), Fail>
    requires name { blank.name ≡ L.name }
    requires parts { blank.parts ≡ L.parts }
    requires some { 0 < blank.parts }
{
    let mut splits: Steps<L> = Steps::new(blank);
    assert!(rt; finds_raid(alloc, BY_TITLE, &mut splits));
    assert!(rt; finds_raid(alloc, BY_LATER_OPERAND, &mut splits));
    assert!(rt; reads_a_table(alloc, BY_EITHER, &mut splits));
    Ok(())
}

#[test]
fn a_query_by_a_value_reads_no_table(rt: HostRuntime) -> Result<(), Fail> {
    run_search::<Brand>(&rt, rt.alloc(), Blank::new(1))
}
