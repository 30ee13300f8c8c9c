//! In one world a query for a value reads no whole table.
use crate::finder::new_finder;
use crate::texts::{CALENDAR, app};
use jac_forms::expr_of;
use jac_keep::Work;
use jac_lang::{Expr, PlainEnv};
use jac_plain::Ctx;
use jac_pruned::eval_at;
use jac_shown_rows::{Support, WorldContext};
use jac_tree::read_tree;
use jac_value::{Id, Value};
use jac_world::{Assignment, Label};
use std::alloc::Global;
use std::test::Fail;

fn expression(alloc: Global, text: &str) -> Option<Expr> {
    let tree = read_tree(alloc, text.as_bytes()).ok()?;
    expr_of(alloc, &tree).ok()
}

// The expression's value for Bob, with the raid as `this`.
fn value_at(alloc: Global, a: &Assignment, text: &str) -> Option<Value> {
    let app = app(alloc, CALENDAR)?;
    let e = expression(alloc, text)?;
    let ctx = Ctx {
        viewer: Some(Id(8192)),
        this: Some(Id(12289)),
        number: 4,
        around: None,
    };
    let mut keeper = new_finder(alloc).ok()?;
    let mut work = Work::new(alloc, &mut keeper);
    let mut support = Support::empty(alloc);
    let env = PlainEnv::empty(alloc);
    let at = WorldContext {
        app: &app,
        ctx: &ctx,
        assignment: a,
    };
    eval_at(&mut work, &at, &env, &e, &mut support).ok()
}

fn is_number(found: Option<Value>, number: i64) -> bool {
    found.is_some_and(|found| found == Value::Int(number))
}

#[test]
fn a_title_is_counted_without_the_table(rt: HostRuntime) -> Result<(), Fail> {
    let alloc = rt.alloc();
    let a = Assignment::empty(alloc).with(alloc, Label(98312))?;
    let query = "(count (from ((e Event)) (eq (get Event title e) \"raid\") key))";
    assert!(rt; is_number(value_at(alloc, &a, query), 1));
    Ok(())
}

// For others the title has another value.
#[test]
fn a_hidden_title_is_found_and_not_counted(rt: HostRuntime) -> Result<(), Fail> {
    let alloc = rt.alloc();
    let a = Assignment::empty(alloc);
    let query = "(count (from ((e Event)) (eq (get Event title e) \"raid\") key))";
    assert!(rt; is_number(value_at(alloc, &a, query), 0));
    Ok(())
}

#[test]
fn what_is_asked_may_be_read_of_the_record(rt: HostRuntime) -> Result<(), Fail> {
    let alloc = rt.alloc();
    let a = Assignment::empty(alloc);
    let query = "(count (from ((e Event)) (and (not (get Event open e)) \
        (and (eq (get Event title e) \"private\") \
        (eq (get Event host e) (get Event host this)))) key))";
    assert!(rt; is_number(value_at(alloc, &a, query), 1));
    Ok(())
}

#[test]
fn an_operand_of_or_reads_the_table(rt: HostRuntime) -> Result<(), Fail> {
    let alloc = rt.alloc();
    let a = Assignment::empty(alloc);
    let query = "(count (from ((e Event)) (or (eq (get Event title e) \"raid\") false) key))";
    assert!(rt; value_at(alloc, &a, query).is_none());
    Ok(())
}

// A row without the cell reads as the default, so the whole table is read.
#[test]
fn the_default_reads_the_table(rt: HostRuntime) -> Result<(), Fail> {
    let alloc = rt.alloc();
    let a = Assignment::empty(alloc);
    let query = "(count (from ((e Event)) (eq (get Event title e) \"\") key))";
    assert!(rt; value_at(alloc, &a, query).is_none());
    Ok(())
}
