//! Statements, run under a path condition. `execute` only looks at the form, and each form has a
//! function of its own.
ghost use Rattle.std.specs.Prelude.{◌≡◌, ◌<◌, ◌≤◌, ◌^◌, ◌&&◌, length, None, IfSome, OnOk, IsTrue, Some, ℕ, Bool, List};
ghost use Rattle.jac_facet.specs.Leaves.{leaves_seen};
ghost use Rattle.jac_facet.specs.Shape.{at};
ghost use Rattle.jac_keep.specs.WorkState.{state_of, IsTold, WritesWork};
ghost use Rattle.jac_lang.specs.Lookup.{model_place};
ghost use Rattle.jac_lang.specs.Mirror.{application_of, assigned_of, binders_of, expression_of, question_of, statement_of, statements_of};
ghost use Rattle.jac_lang.specs.Syntax.{Statement};
ghost use Rattle.jac_plain.specs.declared.page.Piece.{Piece};
ghost use Rattle.jac_plain.specs.Making.{MayCreate, MayRunAll};
ghost use Rattle.jac_plain.specs.Statements.{create_run, leaves_all};
ghost use Rattle.jac_world.specs.World.{holds};
ghost use Rattle.jac_write.specs.Writes.{StaysTold};
ghost use Rattle.jac_stmt.specs.Runs.{faceted_run, run_over, setting_here, ExecutesHere, ExecutesAllHere, RunsFaceted, RunsEach, IsRunnable, AreRunnable, bound_at, MayBindAt, chosen_at, MayChooseAt, named_at, MayNameAt, live_under};

use crate::Frame;
use crate::assignments::assign;
use crate::drafts::{new_cells, read_sets};
use crate::loops::{looped, new_id};
use crate::pieces::{add_missing, add_value};
use jac_expr::{Ctx, Env, FacetedContext, bind_tuple, eval, is_true, tuples};
use jac_facet::Facet;
use jac_keep::{Keeper, Stop, Work};
use jac_lang::{App, Binders, Expr, Publics, Query, Stmt, Stmts, model_of};
use jac_plain::Form;
use jac_query::Tuple;
use jac_value::{Ids, Txt, Value};
use jac_world::{Guard, Steps};
use jac_write::{create, delete, update};
use std::sync::ledger::Ledger;

/// A statement that creates a record.
#[derive(Clone, Copy)]
struct Creation<'s> {
    name: &'s Txt,
    model: &'s Txt,
    site: u8,
    cells: &'s Publics,
    body: &'s Stmts,
}

/// Runs the statements, one after another, wherever the path condition holds. Elsewhere nothing
/// changes. `this` of the context isn't used, because a statement has none. `around` is the record
/// of the loop around the statements. It is `None` outside of loops. After a refusal the names and
/// the pieces may hold a part of what was run.
pub fn exec<K: Keeper, L: Ledger>(
    work: &mut Work<'_, K>,
    here: &FacetedContext<'_>,
    frame: &mut Frame,
    stmts: &Stmts,
    splits: &mut Steps<L>,
) -> Result<(), Stop>
    requires attached { IsTrue (K.seen work.old.keeper.now).store.attached }
    requires tables { IsTrue (K.seen work.old.keeper.now).tells
        → length here.now.app.now.models ≤ length (K.seen work.old.keeper.now).state.tables }
    requires runnable { AreRunnable here.now.ctx.now.number (statements_of stmts.now) }
    ensures left { IsTold K.seen work.new
        → OnOk result (ExecutesAllHere here.now (statements_of stmts.now)
        (run_over (state_of K.seen work.old) frame.old)
        (run_over (state_of K.seen work.new) frame.new)) }
    ensures told { OnOk result (StaysTold K.seen work.old work.new) }
    ensures keeps { WritesWork K.seen work.old work.new result }
{
    // A statement has no record of its own, because it isn't in a policy.
    let ctx = Ctx {
        this: None,
        ..*here.ctx
    };
    let here = FacetedContext { ctx: &ctx, ..*here };
    execute_all(work, &here, frame, stmts, splits)?;
    Ok(())
}

// Runs the statements, one after another.
#[cycle(exec)]
fn execute_all<K: Keeper, L: Ledger>(
    work: &mut Work<'_, K>,
    here: &FacetedContext<'_>,
    frame: &mut Frame,
    stmts: &Stmts,
    splits: &mut Steps<L>,
) -> Result<(), Stop>
    requires attached { IsTrue (K.seen work.old.keeper.now).store.attached }
    requires tables { IsTrue (K.seen work.old.keeper.now).tells
        → length here.now.app.now.models ≤ length (K.seen work.old.keeper.now).state.tables }
    requires no_record { here.now.ctx.now.this ≡ None }
    requires runnable { AreRunnable here.now.ctx.now.number (statements_of stmts.now) }
    ensures left { IsTold K.seen work.new
        → OnOk result (ExecutesAllHere here.now (statements_of stmts.now)
        (run_over (state_of K.seen work.old) frame.old)
        (run_over (state_of K.seen work.new) frame.new)) }
    ensures told { OnOk result (StaysTold K.seen work.old work.new) }
    ensures keeps { WritesWork K.seen work.old work.new result }
{
    let mut left = stmts;
    'body: while let Stmts::More(first, rest) = left {
        execute(work, here, frame, first, splits)?;
        left = rest;
    }
    Ok(())
}

// Runs a statement.
#[cycle(exec)]
fn execute<K: Keeper, L: Ledger>(
    work: &mut Work<'_, K>,
    here: &FacetedContext<'_>,
    frame: &mut Frame,
    stmt: &Stmt,
    splits: &mut Steps<L>,
) -> Result<(), Stop>
    requires attached { IsTrue (K.seen work.old.keeper.now).store.attached }
    requires tables { IsTrue (K.seen work.old.keeper.now).tells
        → length here.now.app.now.models ≤ length (K.seen work.old.keeper.now).state.tables }
    requires no_record { here.now.ctx.now.this ≡ None }
    requires runnable { IsRunnable here.now.ctx.now.number (statement_of stmt.now) }
    ensures left { IsTold K.seen work.new
        → OnOk result (ExecutesHere here.now (statement_of stmt.now)
        (run_over (state_of K.seen work.old) frame.old)
        (run_over (state_of K.seen work.new) frame.new)) }
    ensures told { OnOk result (StaysTold K.seen work.old work.new) }
    ensures keeps { WritesWork K.seen work.old work.new result }
{
    match stmt {
        Stmt::Put(e) => execute_put(work, here, frame, e, splits),
        Stmt::Esc(e) => execute_escape(work, here, frame, e, splits),
        Stmt::Let(name, e, body) => { execute_let(work, here, frame, name, e, body, splits) }
        Stmt::Assign(name, e) => { execute_assign(work, here, frame, name, e, splits) }
        Stmt::If(c, first, second) => { execute_if(work, here, frame, c, first, second, splits) }
        Stmt::For(query, body) => { execute_for(work, here, frame, query, body, splits) }
        Stmt::Create {
            name,
            model,
            site,
            cells,
            body,
        } => {
            let creation = Creation {
                name,
                model,
                site: *site,
                cells,
                body,
            };
            execute_create(work, here, frame, &creation, splits)
        }
        Stmt::Update(model, e, cells) => {
            execute_update(work, here, &frame.env, model, e, cells, splits)?;
            Ok(())
        }
        Stmt::Delete(model, e) => {
            execute_delete(work, here, &frame.env, model, e, splits)?;
            Ok(())
        }
        Stmt::Missing => execute_missing(work, here, frame, splits),
        Stmt::Redirect(e) => execute_redirect(work, here, frame, e, splits),
        Stmt::Template(_) => unreachable!(),
        Stmt::Block(body) => execute_all(work, here, frame, body, splits),
    }
}

// Adds the text of the value to the page.
fn execute_put<K: Keeper, L: Ledger>(
    work: &mut Work<'_, K>,
    here: &FacetedContext<'_>,
    frame: &mut Frame,
    e: &Expr,
    splits: &mut Steps<L>,
) -> Result<(), Stop>
    requires attached { IsTrue (K.seen work.old.keeper.now).store.attached }
    requires no_record { here.now.ctx.now.this ≡ None }
    ensures left { IsTold K.seen work.new
        → OnOk result (ExecutesHere here.now (Statement.put (expression_of e.now))
        (run_over (state_of K.seen work.old) frame.old)
        (run_over (state_of K.seen work.new) frame.new)) }
    ensures told { OnOk result (StaysTold K.seen work.old work.new) }
    ensures keeps { WritesWork K.seen work.old work.new result }
{
    let value = eval(work, here, &frame.env, e, splits)?;
    add_value(work.alloc, &mut frame.out, here.pc, &value, Form::Text)?;
    Ok(())
}

// Adds the HTML escape of the value's text.
fn execute_escape<K: Keeper, L: Ledger>(
    work: &mut Work<'_, K>,
    here: &FacetedContext<'_>,
    frame: &mut Frame,
    e: &Expr,
    splits: &mut Steps<L>,
) -> Result<(), Stop>
    requires attached { IsTrue (K.seen work.old.keeper.now).store.attached }
    requires no_record { here.now.ctx.now.this ≡ None }
    ensures left { IsTold K.seen work.new
        → OnOk result (ExecutesHere here.now (Statement.escape (expression_of e.now))
        (run_over (state_of K.seen work.old) frame.old)
        (run_over (state_of K.seen work.new) frame.new)) }
    ensures told { OnOk result (StaysTold K.seen work.old work.new) }
    ensures keeps { WritesWork K.seen work.old work.new result }
{
    let value = eval(work, here, &frame.env, e, splits)?;
    add_value(work.alloc, &mut frame.out, here.pc, &value, Form::Escaped)?;
    Ok(())
}

// Redirects to the value's text.
fn execute_redirect<K: Keeper, L: Ledger>(
    work: &mut Work<'_, K>,
    here: &FacetedContext<'_>,
    frame: &mut Frame,
    e: &Expr,
    splits: &mut Steps<L>,
) -> Result<(), Stop>
    requires attached { IsTrue (K.seen work.old.keeper.now).store.attached }
    requires no_record { here.now.ctx.now.this ≡ None }
    ensures left { IsTold K.seen work.new
        → OnOk result (ExecutesHere here.now (Statement.redirect (expression_of e.now))
        (run_over (state_of K.seen work.old) frame.old)
        (run_over (state_of K.seen work.new) frame.new)) }
    ensures told { OnOk result (StaysTold K.seen work.old work.new) }
    ensures keeps { WritesWork K.seen work.old work.new result }
{
    let value = eval(work, here, &frame.env, e, splits)?;
    add_value(work.alloc, &mut frame.out, here.pc, &value, Form::Location)?;
    Ok(())
}

// Makes the page a missing one.
fn execute_missing<K: Keeper, L: Ledger>(
    work: &mut Work<'_, K>,
    here: &FacetedContext<'_>,
    frame: &mut Frame,
    splits: &mut Steps<L>,
) -> Result<(), Stop>
    ensures left { IsTold K.seen work.new
        → OnOk result (ExecutesHere here.now Statement.missing
        (run_over (state_of K.seen work.old) frame.old)
        (run_over (state_of K.seen work.new) frame.new)) }
    ensures told { OnOk result (StaysTold K.seen work.old work.new) }
    ensures keeps { WritesWork K.seen work.old work.new result }
{
    let _ = work;
    add_missing(work.alloc, &mut frame.out, here.pc)?;
    Ok(())
}

// Changes the innermost binding of the name.
fn execute_assign<K: Keeper, L: Ledger>(
    work: &mut Work<'_, K>,
    here: &FacetedContext<'_>,
    frame: &mut Frame,
    name: &Txt,
    e: &Expr,
    splits: &mut Steps<L>,
) -> Result<(), Stop>
    requires attached { IsTrue (K.seen work.old.keeper.now).store.attached }
    requires no_record { here.now.ctx.now.this ≡ None }
    ensures left { IsTold K.seen work.new
        → OnOk result (ExecutesHere here.now (Statement.assign name.now (expression_of e.now))
        (run_over (state_of K.seen work.old) frame.old)
        (run_over (state_of K.seen work.new) frame.new)) }
    ensures told { OnOk result (StaysTold K.seen work.old work.new) }
    ensures keeps { WritesWork K.seen work.old work.new result }
{
    let value = eval(work, here, &frame.env, e, splits)?;
    assign(work.alloc, &mut frame.env, here.pc, name, &value, splits)?;
    Ok(())
}

// Runs the body with the name bound to the value.
#[cycle(exec)]
fn execute_let<K: Keeper, L: Ledger>(
    work: &mut Work<'_, K>,
    here: &FacetedContext<'_>,
    frame: &mut Frame,
    name: &Txt,
    e: &Expr,
    body: &Stmts,
    splits: &mut Steps<L>,
) -> Result<(), Stop>
    requires attached { IsTrue (K.seen work.old.keeper.now).store.attached }
    requires tables { IsTrue (K.seen work.old.keeper.now).tells
        → length here.now.app.now.models ≤ length (K.seen work.old.keeper.now).state.tables }
    requires no_record { here.now.ctx.now.this ≡ None }
    requires runnable { AreRunnable here.now.ctx.now.number (statements_of body.now) }
    ensures left { IsTold K.seen work.new
        → OnOk result (ExecutesHere here.now (Statement.bind name.now (expression_of e.now)
        (statements_of body.now)) (run_over (state_of K.seen work.old) frame.old)
        (run_over (state_of K.seen work.new) frame.new)) }
    ensures told { OnOk result (StaysTold K.seen work.old work.new) }
    ensures keeps { WritesWork K.seen work.old work.new result }
{
    let value = eval(work, here, &frame.env, e, splits)?;
    execute_named(work, here, frame, name, value, body, splits)?;
    Ok(())
}

// Runs the body with the name bound to this value.
#[cycle(exec)]
fn execute_named<K: Keeper, L: Ledger>(
    work: &mut Work<'_, K>,
    here: &FacetedContext<'_>,
    frame: &mut Frame,
    name: &Txt,
    value: Facet<Value>,
    body: &Stmts,
    splits: &mut Steps<L>,
) -> Result<(), Stop>
    requires attached { IsTrue (K.seen work.old.keeper.now).store.attached }
    requires tables { IsTrue (K.seen work.old.keeper.now).tells
        → length here.now.app.now.models ≤ length (K.seen work.old.keeper.now).state.tables }
    requires no_record { here.now.ctx.now.this ≡ None }
    requires runnable { AreRunnable here.now.ctx.now.number (statements_of body.now) }
    ensures left { IsTold K.seen work.new
        → OnOk result (RunsFaceted (named_at here.now.app.now here.now.ctx.now name.now
        (λ w. at w value)
        (statements_of body.now)) (MayNameAt here.now.app.now here.now.ctx.now name.now
        (λ w. at w value) (statements_of body.now)) (λ w. holds w here.now.pc.now)
        (run_over (state_of K.seen work.old) frame.old)
        (run_over (state_of K.seen work.new) frame.new)) }
    ensures told { OnOk result (StaysTold K.seen work.old work.new) }
    ensures keeps { WritesWork K.seen work.old work.new result }
{
    let outer = frame.env.as_slice().len();
    let name = name.copy(work.alloc)?;
    frame.env.push(name, value)?;
    execute_all(work, here, frame, body, splits)?;
    frame.env.cut(outer);
    Ok(())
}

// Runs the one body or the other, once for each value that the condition can have, under the guard
// of that value.
#[cycle(exec)]
fn execute_if<K: Keeper, L: Ledger>(
    work: &mut Work<'_, K>,
    here: &FacetedContext<'_>,
    frame: &mut Frame,
    c: &Expr,
    first: &Stmts,
    second: &Stmts,
    splits: &mut Steps<L>,
) -> Result<(), Stop>
    requires attached { IsTrue (K.seen work.old.keeper.now).store.attached }
    requires tables { IsTrue (K.seen work.old.keeper.now).tells
        → length here.now.app.now.models ≤ length (K.seen work.old.keeper.now).state.tables }
    requires no_record { here.now.ctx.now.this ≡ None }
    requires first { AreRunnable here.now.ctx.now.number (statements_of first.now) }
    requires second { AreRunnable here.now.ctx.now.number (statements_of second.now) }
    ensures left { IsTold K.seen work.new
        → OnOk result (ExecutesHere here.now (Statement.branch (expression_of c.now)
        (statements_of first.now) (statements_of second.now))
        (run_over (state_of K.seen work.old) frame.old)
        (run_over (state_of K.seen work.new) frame.new)) }
    ensures told { OnOk result (StaysTold K.seen work.old work.new) }
    ensures keeps { WritesWork K.seen work.old work.new result }
{
    let condition = eval(work, here, &frame.env, c, splits)?;
    let leaves = condition.leaves_under(work.alloc, here.pc)?;
    let leaves = leaves.as_slice();
    execute_leaves(work, here, frame, leaves, first, second, splits)?;
    Ok(())
}

// Runs a body for each of the values.
#[cycle(exec)]
fn execute_leaves<K: Keeper, L: Ledger>(
    work: &mut Work<'_, K>,
    here: &FacetedContext<'_>,
    frame: &mut Frame,
    leaves: &[(Guard, Value)],
    first: &Stmts,
    second: &Stmts,
    splits: &mut Steps<L>,
) -> Result<(), Stop>
    requires attached { IsTrue (K.seen work.old.keeper.now).store.attached }
    requires tables { IsTrue (K.seen work.old.keeper.now).tells
        → length here.now.app.now.models ≤ length (K.seen work.old.keeper.now).state.tables }
    requires no_record { here.now.ctx.now.this ≡ None }
    requires first { AreRunnable here.now.ctx.now.number (statements_of first.now) }
    requires second { AreRunnable here.now.ctx.now.number (statements_of second.now) }
    ensures left { IsTold K.seen work.new
        → OnOk result (RunsEach (chosen_at here.now.app.now here.now.ctx.now
        (statements_of first.now) (statements_of second.now))
        (MayChooseAt here.now.app.now here.now.ctx.now (statements_of first.now)
        (statements_of second.now)) (λ w. leaves_seen w leaves.now)
        (run_over (state_of K.seen work.old) frame.old)
        (run_over (state_of K.seen work.new) frame.new)) }
    ensures told { OnOk result (StaysTold K.seen work.old work.new) }
    ensures keeps { WritesWork K.seen work.old work.new result }
{
    'leaves: for leaf in leaves {
        let inside = FacetedContext {
            pc: &leaf.0,
            ..*here
        };
        execute_leaf(work, &inside, frame, &leaf.1, first, second, splits)?;
    }
    Ok(())
}

// Runs the body for this value of the condition.
#[cycle(exec)]
fn execute_leaf<K: Keeper, L: Ledger>(
    work: &mut Work<'_, K>,
    here: &FacetedContext<'_>,
    frame: &mut Frame,
    value: &Value,
    first: &Stmts,
    second: &Stmts,
    splits: &mut Steps<L>,
) -> Result<(), Stop>
    requires attached { IsTrue (K.seen work.old.keeper.now).store.attached }
    requires tables { IsTrue (K.seen work.old.keeper.now).tells
        → length here.now.app.now.models ≤ length (K.seen work.old.keeper.now).state.tables }
    requires no_record { here.now.ctx.now.this ≡ None }
    requires first { AreRunnable here.now.ctx.now.number (statements_of first.now) }
    requires second { AreRunnable here.now.ctx.now.number (statements_of second.now) }
    ensures left { IsTold K.seen work.new
        → OnOk result (RunsFaceted (λ w. chosen_at here.now.app.now here.now.ctx.now
        (statements_of first.now) (statements_of second.now) w value.now)
        (λ n w. MayChooseAt here.now.app.now here.now.ctx.now (statements_of first.now)
        (statements_of second.now) n w value.now) (λ w. holds w here.now.pc.now)
        (run_over (state_of K.seen work.old) frame.old)
        (run_over (state_of K.seen work.new) frame.new)) }
    ensures told { OnOk result (StaysTold K.seen work.old work.new) }
    ensures keeps { WritesWork K.seen work.old work.new result }
{
    if is_true(value) {
        execute_all(work, here, frame, first, splits)?;
        return Ok(());
    }
    execute_all(work, here, frame, second, splits)?;
    Ok(())
}

// Runs the body for each tuple of the query, which is evaluated once.
#[cycle(exec)]
fn execute_for<K: Keeper, L: Ledger>(
    work: &mut Work<'_, K>,
    here: &FacetedContext<'_>,
    frame: &mut Frame,
    query: &Query,
    body: &Stmts,
    splits: &mut Steps<L>,
) -> Result<(), Stop>
    requires attached { IsTrue (K.seen work.old.keeper.now).store.attached }
    requires tables { IsTrue (K.seen work.old.keeper.now).tells
        → length here.now.app.now.models ≤ length (K.seen work.old.keeper.now).state.tables }
    requires no_record { here.now.ctx.now.this ≡ None }
    requires runnable { AreRunnable here.now.ctx.now.number (statements_of body.now) }
    ensures left { IsTold K.seen work.new
        → OnOk result (ExecutesHere here.now (Statement.each (question_of query.now)
        (statements_of body.now)) (run_over (state_of K.seen work.old) frame.old)
        (run_over (state_of K.seen work.new) frame.new)) }
    ensures told { OnOk result (StaysTold K.seen work.old work.new) }
    ensures keeps { WritesWork K.seen work.old work.new result }
{
    let answers = tuples(work, here, &frame.env, query, splits)?;
    let binders = &query.binders;
    let answers = answers.as_slice();
    execute_tuples(work, here, frame, binders, answers, body, splits)?;
    Ok(())
}

// Runs the body for each of the tuples.
#[cycle(exec)]
fn execute_tuples<K: Keeper, L: Ledger>(
    work: &mut Work<'_, K>,
    here: &FacetedContext<'_>,
    frame: &mut Frame,
    binders: &Binders,
    tuples: &[Tuple],
    body: &Stmts,
    splits: &mut Steps<L>,
) -> Result<(), Stop>
    requires attached { IsTrue (K.seen work.old.keeper.now).store.attached }
    requires tables { IsTrue (K.seen work.old.keeper.now).tells
        → length here.now.app.now.models ≤ length (K.seen work.old.keeper.now).state.tables }
    requires no_record { here.now.ctx.now.this ≡ None }
    requires runnable { AreRunnable here.now.ctx.now.number (statements_of body.now) }
    ensures left { IsTold K.seen work.new
        → OnOk result (RunsEach (bound_at here.now.app.now here.now.ctx.now (binders_of binders.now)
        (statements_of body.now)) (MayBindAt here.now.app.now here.now.ctx.now
        (binders_of binders.now) (statements_of body.now)) (live_under here.now.pc.now tuples.now)
        (run_over (state_of K.seen work.old) frame.old)
        (run_over (state_of K.seen work.new) frame.new)) }
    ensures told { OnOk result (StaysTold K.seen work.old work.new) }
    ensures keeps { WritesWork K.seen work.old work.new result }
{
    'tuples: for tuple in tuples {
        execute_tuple(work, here, frame, binders, tuple, body, splits)?;
    }
    Ok(())
}

// Runs the body with the binders bound to the tuple, wherever the tuple's guard holds too.
#[cycle(exec)]
fn execute_tuple<K: Keeper, L: Ledger>(
    work: &mut Work<'_, K>,
    here: &FacetedContext<'_>,
    frame: &mut Frame,
    binders: &Binders,
    tuple: &Tuple,
    body: &Stmts,
    splits: &mut Steps<L>,
) -> Result<(), Stop>
    requires attached { IsTrue (K.seen work.old.keeper.now).store.attached }
    requires tables { IsTrue (K.seen work.old.keeper.now).tells
        → length here.now.app.now.models ≤ length (K.seen work.old.keeper.now).state.tables }
    requires no_record { here.now.ctx.now.this ≡ None }
    requires runnable { AreRunnable here.now.ctx.now.number (statements_of body.now) }
    ensures left { IsTold K.seen work.new
        → OnOk result (RunsFaceted (λ w. bound_at here.now.app.now here.now.ctx.now
        (binders_of binders.now) (statements_of body.now) w tuple.now.ids)
        (λ n w. MayBindAt here.now.app.now here.now.ctx.now (binders_of binders.now)
        (statements_of body.now) n w tuple.now.ids) (λ w. holds w here.now.pc.now && holds w
        tuple.now.guard) (run_over (state_of K.seen work.old) frame.old)
        (run_over (state_of K.seen work.new) frame.new)) }
    ensures told { OnOk result (StaysTold K.seen work.old work.new) }
    ensures keeps { WritesWork K.seen work.old work.new result }
{
    match here.pc.meet(work.alloc, &tuple.guard)? {
        None => Ok(()),
        Some(within) => {
            let inside = FacetedContext {
                pc: &within,
                ..*here
            };
            let ids = &tuple.ids;
            execute_bound(work, &inside, frame, binders, ids, body, splits)?;
            Ok(())
        }
    }
}

// Runs the body with the binders bound to these records, in the loop around them.
#[cycle(exec)]
fn execute_bound<K: Keeper, L: Ledger>(
    work: &mut Work<'_, K>,
    here: &FacetedContext<'_>,
    frame: &mut Frame,
    binders: &Binders,
    ids: &Ids,
    body: &Stmts,
    splits: &mut Steps<L>,
) -> Result<(), Stop>
    requires attached { IsTrue (K.seen work.old.keeper.now).store.attached }
    requires tables { IsTrue (K.seen work.old.keeper.now).tells
        → length here.now.app.now.models ≤ length (K.seen work.old.keeper.now).state.tables }
    requires no_record { here.now.ctx.now.this ≡ None }
    requires runnable { AreRunnable here.now.ctx.now.number (statements_of body.now) }
    ensures left { IsTold K.seen work.new
        → OnOk result (RunsFaceted (λ w. bound_at here.now.app.now here.now.ctx.now
        (binders_of binders.now) (statements_of body.now) w ids.now)
        (λ n w. MayBindAt here.now.app.now here.now.ctx.now (binders_of binders.now)
        (statements_of body.now) n w ids.now) (λ w. holds w here.now.pc.now)
        (run_over (state_of K.seen work.old) frame.old)
        (run_over (state_of K.seen work.new) frame.new)) }
    ensures told { OnOk result (StaysTold K.seen work.old work.new) }
    ensures keeps { WritesWork K.seen work.old work.new result }
{
    let outer = frame.env.as_slice().len();
    let ctx = looped(here.ctx, ids);
    bind_tuple(work.alloc, &mut frame.env, binders, ids)?;
    let inside = FacetedContext { ctx: &ctx, ..*here };
    execute_all(work, &inside, frame, body, splits)?;
    frame.env.cut(outer);
    Ok(())
}

// Creates a record, and runs the body with the name bound to it. Does nothing if no model has the
// name.
#[cycle(exec)]
fn execute_create<K: Keeper, L: Ledger>(
    work: &mut Work<'_, K>,
    here: &FacetedContext<'_>,
    frame: &mut Frame,
    creation: &Creation<'_>,
    splits: &mut Steps<L>,
) -> Result<(), Stop>
    requires attached { IsTrue (K.seen work.old.keeper.now).store.attached }
    requires tables { IsTrue (K.seen work.old.keeper.now).tells
        → length here.now.app.now.models ≤ length (K.seen work.old.keeper.now).state.tables }
    requires no_record { here.now.ctx.now.this ≡ None }
    requires numbered { 0 < here.now.ctx.now.number }
    requires in_range { here.now.ctx.now.number < 2 ^ 40 }
    requires site { creation.now.site < 64 }
    requires runnable { AreRunnable here.now.ctx.now.number (statements_of creation.now.body.now) }
    ensures left { IsTold K.seen work.new
        → OnOk result (ExecutesHere here.now (Statement.create creation.now.name.now
        creation.now.model.now creation.now.site (assigned_of creation.now.cells.now)
        (statements_of creation.now.body.now)) (run_over (state_of K.seen work.old) frame.old)
        (run_over (state_of K.seen work.new) frame.new)) }
    ensures told { OnOk result (StaysTold K.seen work.old work.new) }
    ensures keeps { WritesWork K.seen work.old work.new result }
{
    let Some(model) = model_number(here.app, creation.model) else {
        return Ok(());
    };
    execute_made(work, here, frame, creation, model, splits)?;
    Ok(())
}

// Creates a record of this model, and runs the body with the name bound to it.
#[cycle(exec)]
fn execute_made<K: Keeper, L: Ledger>(
    work: &mut Work<'_, K>,
    here: &FacetedContext<'_>,
    frame: &mut Frame,
    creation: &Creation<'_>,
    model: u8,
    splits: &mut Steps<L>,
) -> Result<(), Stop>
    requires attached { IsTrue (K.seen work.old.keeper.now).store.attached }
    requires tables { IsTrue (K.seen work.old.keeper.now).tells
        → length here.now.app.now.models ≤ length (K.seen work.old.keeper.now).state.tables }
    requires no_record { here.now.ctx.now.this ≡ None }
    requires numbered { 0 < here.now.ctx.now.number }
    requires in_range { here.now.ctx.now.number < 2 ^ 40 }
    requires site { creation.now.site < 64 }
    requires model { model < length here.now.app.now.models }
    requires few { model < 64 }
    requires runnable { AreRunnable here.now.ctx.now.number (statements_of creation.now.body.now) }
    ensures left { IsTold K.seen work.new
        → OnOk result (RunsFaceted (λ w. create_run (setting_here here.now w) creation.now.name.now
        (Some model) creation.now.site (assigned_of creation.now.cells.now)
        (leaves_all (setting_here here.now w) (statements_of creation.now.body.now)))
        (λ n w. MayCreate n (setting_here here.now w) creation.now.name.now (Some model)
        creation.now.site (assigned_of creation.now.cells.now)
        (MayRunAll n (setting_here here.now w) (statements_of creation.now.body.now)))
        (λ w. holds w here.now.pc.now) (run_over (state_of K.seen work.old) frame.old)
        (run_over (state_of K.seen work.new) frame.new)) }
    ensures told { OnOk result (StaysTold K.seen work.old work.new) }
    ensures keeps { WritesWork K.seen work.old work.new result }
{
    let _pairs = here.pc.pairs();
    let cells = new_cells(work, here, &frame.env, model, creation.cells, splits)?;
    let id = new_id(here.app, here.ctx, model, creation.site);
    create(work, here.app, here.pc, id, &cells, splits)?;
    let made = Facet::leaf(Value::Ref(Some(id)));
    execute_named(
        work,
        here,
        frame,
        creation.name,
        made,
        creation.body,
        splits,
    )?;
    Ok(())
}

// Updates the record that the value refers to. Does nothing if no model has the name.
fn execute_update<K: Keeper, L: Ledger>(
    work: &mut Work<'_, K>,
    here: &FacetedContext<'_>,
    env: &Env,
    model: &Txt,
    e: &Expr,
    cells: &Publics,
    splits: &mut Steps<L>,
) -> Result<(), Stop>
    requires attached { IsTrue (K.seen work.old.keeper.now).store.attached }
    requires tables { IsTrue (K.seen work.old.keeper.now).tells
        → length here.now.app.now.models ≤ length (K.seen work.old.keeper.now).state.tables }
    requires no_record { here.now.ctx.now.this ≡ None }
    ensures left { IsTold K.seen work.new → OnOk result ((out : List (List (ℕ × Bool) × Piece))
        → ExecutesHere here.now (Statement.update model.now (expression_of e.now)
        (assigned_of cells.now)) (faceted_run (state_of K.seen work.old) env.now out)
        (faceted_run (state_of K.seen work.new) env.now out)) }
    ensures told { OnOk result (StaysTold K.seen work.old work.new) }
    ensures keeps { WritesWork K.seen work.old work.new result }
{
    let Some(model) = model_number(here.app, model) else {
        return Ok(());
    };
    let target = eval(work, here, env, e, splits)?;
    let sets = read_sets(work, here, env, model, cells, splits)?;
    update(work, here.app, here.pc, model, &target, &sets, splits)?;
    Ok(())
}

// Deletes the record that the value refers to. Does nothing if no model has the name.
fn execute_delete<K: Keeper, L: Ledger>(
    work: &mut Work<'_, K>,
    here: &FacetedContext<'_>,
    env: &Env,
    model: &Txt,
    e: &Expr,
    splits: &mut Steps<L>,
) -> Result<(), Stop>
    requires attached { IsTrue (K.seen work.old.keeper.now).store.attached }
    requires tables { IsTrue (K.seen work.old.keeper.now).tells
        → length here.now.app.now.models ≤ length (K.seen work.old.keeper.now).state.tables }
    requires no_record { here.now.ctx.now.this ≡ None }
    ensures left { IsTold K.seen work.new → OnOk result ((out : List (List (ℕ × Bool) × Piece))
        → ExecutesHere here.now (Statement.delete model.now (expression_of e.now)) (faceted_run
        (state_of K.seen work.old) env.now out) (faceted_run
        (state_of K.seen work.new) env.now out)) }
    ensures told { OnOk result (StaysTold K.seen work.old work.new) }
    ensures keeps { WritesWork K.seen work.old work.new result }
{
    let Some(model) = model_number(here.app, model) else {
        return Ok(());
    };
    let target = eval(work, here, env, e, splits)?;
    delete(work, here.pc, model, &target)?;
    Ok(())
}

// The number of the model with this name.
fn model_number(app: &App, name: &Txt) -> Option<u8>
    ensures place { result ≡ model_place (application_of app.now).models name.now }
    ensures within { IfSome result (λ m. m < length app.now.models) }
    ensures few { length app.now.models ≤ 64 }
{
    let _models = app.models.as_slice();
    model_of(app, name)
}
