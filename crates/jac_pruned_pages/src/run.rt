//! The run of statements that write nothing, in the world that an assignment shows, and its page.
//! `execute` only inspects the form. Each form is executed by a function of its own.
ghost use Rattle.std.specs.Prelude.{◌≡◌, ◌∷◌, [], ℕ, Bool, true, None, IfOk, OnOk, IsTrue};
ghost use Rattle.jac_world.specs.World.{shown_by};
ghost use Rattle.jac_keep.specs.WorkState.{state_of, IsTold, ReadsWork};
ghost use Rattle.jac_lang.specs.Mirror.{binders_of, expression_of, question_of, statement_of, statements_of};
ghost use Rattle.jac_lang.specs.Syntax.{Expression, Statement};
ghost use Rattle.jac_plain.specs.Expressions.{bound};
ghost use Rattle.jac_plain.specs.Reading.{are_reading};
ghost use Rattle.jac_plain.specs.Statements.{for_each, leaves, leaves_all, scoped_run, value_in, with_binding, with_piece};
ghost use Rattle.jac_plain.specs.Pieces.{piece_of};
ghost use Rattle.jac_shown_rows.specs.Consulted.{Agrees, Grows};
ghost use Rattle.jac_pruned.specs.OneSorted.{SortsBinder};
ghost use Rattle.jac_shown_rows.specs.RecordIds.{lengthened_tuples};
ghost use Rattle.jac_pruned_pages.specs.Runs.{page_ran, IsPageMade, RunsShown, IsReadingStatement, AreReading};
ghost use Rattle.jac_plain.specs.Shown.{setting_around, setting_at};

use crate::assignments::assign;
use crate::kept_names::{rebind, rebind_tuple, unbind};
use crate::page_buffer::PageBuffer;
use crate::page_cells::{PageCell, add_got};
use crate::progress::Progress;
use jac_keep::{Keeper, Stop, Work};
use jac_lang::{Binder, Binders, Expr, PlainEnv, Query, Stmt, Stmts};
use jac_plain::{Ctx, Form, Page, is_true};
use jac_pruned::{answering_ids, answers_at, bind_value, binder_alone, eval, loop_of};
use jac_shown_rows::{Support, WorldContext, bound_value, text_at_hand};
use jac_value::{Id, Ids, Txt, Value};

/// The page of statements that write nothing, run from these bindings in the world that the
/// assignment shows. The labels that were consulted are added to the support. Under each assignment
/// that agrees on the support, the page is the same. `this` of the context isn't used, because a
/// statement has none.
pub fn run_body_at<K: Keeper>(
    work: &mut Work<'_, K>,
    at: &WorldContext<'_>,
    body: &Stmts,
    env: PlainEnv,
    support: &mut Support,
) -> Result<Page, Stop>
    requires attached { IsTrue (K.seen work.old.keeper.now).store.attached }
    requires reading { are_reading (statements_of body.now) ≡ true }
    ensures page { IsTold K.seen work.new → IfOk result (λ p. (w : ℕ → Bool)
        → Agrees support.new (shown_by at.now.assignment.now) w
        → p ≡ page_ran at.now.app.now at.now.ctx.now w (state_of K.seen work.old) env
        (statements_of body.now)) }
    ensures made { IfOk result IsPageMade }
    ensures reads { ReadsWork K.seen work.old work.new result }
    ensures grows { Grows support.old support.new }
{
    // A statement has no record whose policy is evaluated.
    let ctx = Ctx {
        this: None,
        ..*at.ctx
    };
    let outside = WorldContext { ctx: &ctx, ..*at };
    let mut run = Progress {
        env: env.into_vec(),
        kept: Vec::new(work.alloc),
        page: PageBuffer::empty(work.alloc),
    };
    execute_all(work, &outside, &mut run, body, support)?;
    let Progress {
        env: _,
        kept: _,
        page,
    } = run;
    let page = page.into_page(work.alloc)?;
    Ok(page)
}

// Runs the statements, one after another.
#[cycle(run)]
fn execute_all<K: Keeper>(
    work: &mut Work<'_, K>,
    at: &WorldContext<'_>,
    run: &mut Progress,
    stmts: &Stmts,
    support: &mut Support,
) -> Result<(), Stop>
    requires attached { IsTrue (K.seen work.old.keeper.now).store.attached }
    requires no_record { at.now.ctx.now.this ≡ None }
    requires reading { AreReading (statements_of stmts.now) }
    ensures left { IsTold K.seen work.new
        → OnOk result (RunsShown support.new at.now
        (λ w. leaves_all (setting_at at.now.app.now at.now.ctx.now w) (statements_of stmts.now))
        (state_of K.seen work.old) run.old run.new) }
    ensures reads { ReadsWork K.seen work.old work.new result }
    ensures grows { Grows support.old support.new }
{
    let mut left = stmts;
    'body: while let Stmts::More(first, rest) = left {
        execute(work, at, run, first, support)?;
        left = rest;
    }
    Ok(())
}

// Runs a statement.
#[cycle(run)]
fn execute<K: Keeper>(
    work: &mut Work<'_, K>,
    at: &WorldContext<'_>,
    run: &mut Progress,
    stmt: &Stmt,
    support: &mut Support,
) -> Result<(), Stop>
    requires attached { IsTrue (K.seen work.old.keeper.now).store.attached }
    requires no_record { at.now.ctx.now.this ≡ None }
    requires reading { IsReadingStatement (statement_of stmt.now) }
    ensures left { IsTold K.seen work.new
        → OnOk result (RunsShown support.new at.now
        (λ w. leaves (setting_at at.now.app.now at.now.ctx.now w) (statement_of stmt.now))
        (state_of K.seen work.old) run.old run.new) }
    ensures reads { ReadsWork K.seen work.old work.new result }
    ensures grows { Grows support.old support.new }
{
    match stmt {
        Stmt::Put(e) => execute_put(work, at, run, e, support),
        Stmt::Esc(e) => execute_escape(work, at, run, e, support),
        Stmt::Let(name, e, body) => execute_let(work, at, run, name, e, body, support),
        Stmt::Assign(name, e) => execute_assign(work, at, run, name, e, support),
        Stmt::If(c, first, second) => execute_if(work, at, run, c, first, second, support),
        Stmt::For(query, body) => execute_for(work, at, run, query, body, support),
        Stmt::Create { .. } => unreachable!(),
        Stmt::Update(_, _, _) => unreachable!(),
        Stmt::Delete(_, _) => unreachable!(),
        Stmt::Missing => {
            run.page.set_missing();
            Ok(())
        }
        Stmt::Redirect(e) => execute_redirect(work, at, run, e, support),
        // A template was expanded to a block before.
        Stmt::Template(_) => Ok(()),
        Stmt::Block(body) => execute_all(work, at, run, body, support),
    }
}

// Adds the text of the value to the page. If the value is in memory, it isn't copied first.
fn execute_put<K: Keeper>(
    work: &mut Work<'_, K>,
    at: &WorldContext<'_>,
    run: &mut Progress,
    e: &Expr,
    support: &mut Support,
) -> Result<(), Stop>
    requires attached { IsTrue (K.seen work.old.keeper.now).store.attached }
    requires no_record { at.now.ctx.now.this ≡ None }
    ensures left { IsTold K.seen work.new
        → OnOk result (RunsShown support.new at.now
        (λ w. leaves (setting_at at.now.app.now at.now.ctx.now w)
        (Statement.put (expression_of e.now))) (state_of K.seen work.old) run.old run.new) }
    ensures reads { ReadsWork K.seen work.old work.new result }
    ensures grows { Grows support.old support.new }
{
    match text_at_hand(run.env.as_slice(), e) {
        Some(text) => {
            run.page.add_bytes(text)?;
            Ok(())
        }
        None => put_other(work, at, run, e, support),
    }
}

// Adds the text of a field, from where it is lent, or the text of another value.
fn put_other<K: Keeper>(
    work: &mut Work<'_, K>,
    at: &WorldContext<'_>,
    run: &mut Progress,
    e: &Expr,
    support: &mut Support,
) -> Result<(), Stop>
    requires attached { IsTrue (K.seen work.old.keeper.now).store.attached }
    requires no_record { at.now.ctx.now.this ≡ None }
    ensures left { IsTold K.seen work.new
        → OnOk result (RunsShown support.new at.now
        (λ w. leaves (setting_at at.now.app.now at.now.ctx.now w)
        (Statement.put (expression_of e.now))) (state_of K.seen work.old) run.old run.new) }
    ensures reads { ReadsWork K.seen work.old work.new result }
    ensures grows { Grows support.old support.new }
{
    match e {
        Expr::Get(model, field, of) => {
            let form = Form::Text;
            let cell = PageCell { form, model, field };
            show_cell(work, at, run, &cell, of, support)
        }
        _ => put_value(work, at, run, e, support),
    }
}

// Adds the field of the record that the expression refers to.
fn show_cell<K: Keeper>(
    work: &mut Work<'_, K>,
    at: &WorldContext<'_>,
    run: &mut Progress,
    cell: &PageCell<'_>,
    of: &Expr,
    support: &mut Support,
) -> Result<(), Stop>
    requires attached { IsTrue (K.seen work.old.keeper.now).store.attached }
    requires no_record { at.now.ctx.now.this ≡ None }
    ensures left { IsTold K.seen work.new
        → OnOk result (RunsShown support.new at.now
        (λ w r. with_piece (piece_of cell.now.form (value_in (setting_at at.now.app.now
        at.now.ctx.now w) (Expression.get cell.now.model.now cell.now.field.now
        (expression_of of.now)) r)) r) (state_of K.seen work.old) run.old run.new) }
    ensures reads { ReadsWork K.seen work.old work.new result }
    ensures grows { Grows support.old support.new }
{
    match bound_value(run.env.as_slice(), of) {
        Some(value) => {
            add_got(work, at, cell, value, &mut run.page, support)?;
            Ok(())
        }
        None => show_evaluated(work, at, run, cell, of, support),
    }
}

// The same, with the reference evaluated first.
fn show_evaluated<K: Keeper>(
    work: &mut Work<'_, K>,
    at: &WorldContext<'_>,
    run: &mut Progress,
    cell: &PageCell<'_>,
    of: &Expr,
    support: &mut Support,
) -> Result<(), Stop>
    requires attached { IsTrue (K.seen work.old.keeper.now).store.attached }
    requires no_record { at.now.ctx.now.this ≡ None }
    ensures left { IsTold K.seen work.new
        → OnOk result (RunsShown support.new at.now
        (λ w r. with_piece (piece_of cell.now.form (value_in (setting_at at.now.app.now
        at.now.ctx.now w) (Expression.get cell.now.model.now cell.now.field.now
        (expression_of of.now)) r)) r) (state_of K.seen work.old) run.old run.new) }
    ensures reads { ReadsWork K.seen work.old work.new result }
    ensures grows { Grows support.old support.new }
{
    let value = eval(work, at, run.env.as_slice(), of, support)?;
    add_got(work, at, cell, &value, &mut run.page, support)?;
    Ok(())
}

// Adds the text of a value that is evaluated first.
fn put_value<K: Keeper>(
    work: &mut Work<'_, K>,
    at: &WorldContext<'_>,
    run: &mut Progress,
    e: &Expr,
    support: &mut Support,
) -> Result<(), Stop>
    requires attached { IsTrue (K.seen work.old.keeper.now).store.attached }
    requires no_record { at.now.ctx.now.this ≡ None }
    ensures left { IsTold K.seen work.new
        → OnOk result (RunsShown support.new at.now
        (λ w. leaves (setting_at at.now.app.now at.now.ctx.now w)
        (Statement.put (expression_of e.now))) (state_of K.seen work.old) run.old run.new) }
    ensures reads { ReadsWork K.seen work.old work.new result }
    ensures grows { Grows support.old support.new }
{
    let value = eval(work, at, run.env.as_slice(), e, support)?;
    run.page.add_text(work.alloc, &value)?;
    Ok(())
}

// Adds the HTML escape of the text of a field, from where it is lent, or of another value.
fn execute_escape<K: Keeper>(
    work: &mut Work<'_, K>,
    at: &WorldContext<'_>,
    run: &mut Progress,
    e: &Expr,
    support: &mut Support,
) -> Result<(), Stop>
    requires attached { IsTrue (K.seen work.old.keeper.now).store.attached }
    requires no_record { at.now.ctx.now.this ≡ None }
    ensures left { IsTold K.seen work.new
        → OnOk result (RunsShown support.new at.now
        (λ w. leaves (setting_at at.now.app.now at.now.ctx.now w)
        (Statement.escape (expression_of e.now))) (state_of K.seen work.old) run.old run.new) }
    ensures reads { ReadsWork K.seen work.old work.new result }
    ensures grows { Grows support.old support.new }
{
    match e {
        Expr::Get(model, field, of) => {
            let form = Form::Escaped;
            let cell = PageCell { form, model, field };
            show_cell(work, at, run, &cell, of, support)
        }
        _ => escape_value(work, at, run, e, support),
    }
}

// Adds the HTML escape of the text of a value, which is lent if it is in memory.
fn escape_value<K: Keeper>(
    work: &mut Work<'_, K>,
    at: &WorldContext<'_>,
    run: &mut Progress,
    e: &Expr,
    support: &mut Support,
) -> Result<(), Stop>
    requires attached { IsTrue (K.seen work.old.keeper.now).store.attached }
    requires no_record { at.now.ctx.now.this ≡ None }
    ensures left { IsTold K.seen work.new
        → OnOk result (RunsShown support.new at.now
        (λ w. leaves (setting_at at.now.app.now at.now.ctx.now w)
        (Statement.escape (expression_of e.now))) (state_of K.seen work.old) run.old run.new) }
    ensures reads { ReadsWork K.seen work.old work.new result }
    ensures grows { Grows support.old support.new }
{
    match bound_value(run.env.as_slice(), e) {
        Some(value) => {
            run.page.add_escaped(work.alloc, value)?;
            Ok(())
        }
        None => escape_evaluated(work, at, run, e, support),
    }
}

// The same for a value that is evaluated first.
fn escape_evaluated<K: Keeper>(
    work: &mut Work<'_, K>,
    at: &WorldContext<'_>,
    run: &mut Progress,
    e: &Expr,
    support: &mut Support,
) -> Result<(), Stop>
    requires attached { IsTrue (K.seen work.old.keeper.now).store.attached }
    requires no_record { at.now.ctx.now.this ≡ None }
    ensures left { IsTold K.seen work.new
        → OnOk result (RunsShown support.new at.now
        (λ w. leaves (setting_at at.now.app.now at.now.ctx.now w)
        (Statement.escape (expression_of e.now))) (state_of K.seen work.old) run.old run.new) }
    ensures reads { ReadsWork K.seen work.old work.new result }
    ensures grows { Grows support.old support.new }
{
    let value = eval(work, at, run.env.as_slice(), e, support)?;
    run.page.add_escaped(work.alloc, &value)?;
    Ok(())
}

// Redirects to the value's text.
fn execute_redirect<K: Keeper>(
    work: &mut Work<'_, K>,
    at: &WorldContext<'_>,
    run: &mut Progress,
    e: &Expr,
    support: &mut Support,
) -> Result<(), Stop>
    requires attached { IsTrue (K.seen work.old.keeper.now).store.attached }
    requires no_record { at.now.ctx.now.this ≡ None }
    ensures left { IsTold K.seen work.new
        → OnOk result (RunsShown support.new at.now
        (λ w. leaves (setting_at at.now.app.now at.now.ctx.now w)
        (Statement.redirect (expression_of e.now))) (state_of K.seen work.old) run.old run.new) }
    ensures reads { ReadsWork K.seen work.old work.new result }
    ensures grows { Grows support.old support.new }
{
    let value = eval(work, at, run.env.as_slice(), e, support)?;
    run.page.lead_to(work.alloc, value);
    Ok(())
}

// Changes the innermost binding of the name.
fn execute_assign<K: Keeper>(
    work: &mut Work<'_, K>,
    at: &WorldContext<'_>,
    run: &mut Progress,
    name: &Txt,
    e: &Expr,
    support: &mut Support,
) -> Result<(), Stop>
    requires attached { IsTrue (K.seen work.old.keeper.now).store.attached }
    requires no_record { at.now.ctx.now.this ≡ None }
    ensures left { IsTold K.seen work.new
        → OnOk result (RunsShown support.new at.now
        (λ w. leaves (setting_at at.now.app.now at.now.ctx.now w) (Statement.assign name.now
        (expression_of e.now))) (state_of K.seen work.old) run.old run.new) }
    ensures reads { ReadsWork K.seen work.old work.new result }
    ensures grows { Grows support.old support.new }
{
    let value = eval(work, at, run.env.as_slice(), e, support)?;
    assign(&mut run.env, name, value);
    Ok(())
}

// Runs the body with the name bound to the value of the expression.
#[cycle(run)]
fn execute_let<K: Keeper>(
    work: &mut Work<'_, K>,
    at: &WorldContext<'_>,
    run: &mut Progress,
    name: &Txt,
    e: &Expr,
    body: &Stmts,
    support: &mut Support,
) -> Result<(), Stop>
    requires attached { IsTrue (K.seen work.old.keeper.now).store.attached }
    requires no_record { at.now.ctx.now.this ≡ None }
    requires reading { AreReading (statements_of body.now) }
    ensures left { IsTold K.seen work.new
        → OnOk result (RunsShown support.new at.now
        (λ w. leaves (setting_at at.now.app.now at.now.ctx.now w) (Statement.bind name.now
        (expression_of e.now) (statements_of body.now))) (state_of K.seen work.old) run.old
        run.new) }
    ensures reads { ReadsWork K.seen work.old work.new result }
    ensures grows { Grows support.old support.new }
{
    let value = eval(work, at, run.env.as_slice(), e, support)?;
    execute_named(work, at, run, name, value, body, support)?;
    Ok(())
}

// Runs the body with the name bound to this value.
#[cycle(run)]
fn execute_named<K: Keeper>(
    work: &mut Work<'_, K>,
    at: &WorldContext<'_>,
    run: &mut Progress,
    name: &Txt,
    value: Value,
    body: &Stmts,
    support: &mut Support,
) -> Result<(), Stop>
    requires attached { IsTrue (K.seen work.old.keeper.now).store.attached }
    requires no_record { at.now.ctx.now.this ≡ None }
    requires reading { AreReading (statements_of body.now) }
    ensures left { IsTold K.seen work.new
        → OnOk result (RunsShown support.new at.now (λ w. with_binding name.now value
        (leaves_all (setting_at at.now.app.now at.now.ctx.now w) (statements_of body.now)))
        (state_of K.seen work.old) run.old run.new) }
    ensures reads { ReadsWork K.seen work.old work.new result }
    ensures grows { Grows support.old support.new }
{
    let outer = run.env.len();
    bind_value(work.alloc, &mut run.env, name, value)?;
    execute_all(work, at, run, body, support)?;
    run.env.truncate(outer);
    Ok(())
}

// Runs one body or the other.
#[cycle(run)]
fn execute_if<K: Keeper>(
    work: &mut Work<'_, K>,
    at: &WorldContext<'_>,
    run: &mut Progress,
    c: &Expr,
    first: &Stmts,
    second: &Stmts,
    support: &mut Support,
) -> Result<(), Stop>
    requires attached { IsTrue (K.seen work.old.keeper.now).store.attached }
    requires no_record { at.now.ctx.now.this ≡ None }
    requires first { AreReading (statements_of first.now) }
    requires second { AreReading (statements_of second.now) }
    ensures left { IsTold K.seen work.new
        → OnOk result (RunsShown support.new at.now
        (λ w. leaves (setting_at at.now.app.now at.now.ctx.now w)
        (Statement.branch (expression_of c.now) (statements_of first.now)
        (statements_of second.now))) (state_of K.seen work.old) run.old run.new) }
    ensures reads { ReadsWork K.seen work.old work.new result }
    ensures grows { Grows support.old support.new }
{
    let condition = eval(work, at, run.env.as_slice(), c, support)?;
    if is_true(&condition) {
        execute_all(work, at, run, first, support)?;
        return Ok(());
    }
    execute_all(work, at, run, second, support)?;
    Ok(())
}

// Runs the body for each answer of the query, which is evaluated once.
#[cycle(run)]
fn execute_for<K: Keeper>(
    work: &mut Work<'_, K>,
    at: &WorldContext<'_>,
    run: &mut Progress,
    query: &Query,
    body: &Stmts,
    support: &mut Support,
) -> Result<(), Stop>
    requires attached { IsTrue (K.seen work.old.keeper.now).store.attached }
    requires no_record { at.now.ctx.now.this ≡ None }
    requires reading { AreReading (statements_of body.now) }
    ensures left { IsTold K.seen work.new
        → OnOk result (RunsShown support.new at.now
        (λ w. leaves (setting_at at.now.app.now at.now.ctx.now w)
        (Statement.each (question_of query.now) (statements_of body.now)))
        (state_of K.seen work.old) run.old run.new) }
    ensures reads { ReadsWork K.seen work.old work.new result }
    ensures grows { Grows support.old support.new }
{
    match binder_alone(query) {
        Some(binder) => execute_alone(work, at, run, binder, query, body, support),
        None => execute_answers(work, at, run, query, body, support),
    }
}

// The same for a query with only one binder, if the answers are sorted by one of its fields or not
// at all.
#[cycle(run)]
fn execute_alone<K: Keeper>(
    work: &mut Work<'_, K>,
    at: &WorldContext<'_>,
    run: &mut Progress,
    binder: &Binder,
    query: &Query,
    body: &Stmts,
    support: &mut Support,
) -> Result<(), Stop>
    requires attached { IsTrue (K.seen work.old.keeper.now).store.attached }
    requires no_record { at.now.ctx.now.this ≡ None }
    requires reading { AreReading (statements_of body.now) }
    requires alone { binders_of query.now.binders ≡ binder.now ∷ [] }
    requires order { SortsBinder binder.now query.now.order }
    ensures left { IsTold K.seen work.new
        → OnOk result (RunsShown support.new at.now
        (λ w. leaves (setting_at at.now.app.now at.now.ctx.now w)
        (Statement.each (question_of query.now) (statements_of body.now)))
        (state_of K.seen work.old) run.old run.new) }
    ensures reads { ReadsWork K.seen work.old work.new result }
    ensures grows { Grows support.old support.new }
{
    let ids = answering_ids(work, at, run.env.as_slice(), binder, query, support)?;
    let ids = ids.as_slice();
    execute_records(work, at, run, binder, ids, body, support)?;
    Ok(())
}

// Runs the body for each of the records of a binder.
#[cycle(run)]
fn execute_records<K: Keeper>(
    work: &mut Work<'_, K>,
    at: &WorldContext<'_>,
    run: &mut Progress,
    binder: &Binder,
    ids: &[Id],
    body: &Stmts,
    support: &mut Support,
) -> Result<(), Stop>
    requires attached { IsTrue (K.seen work.old.keeper.now).store.attached }
    requires no_record { at.now.ctx.now.this ≡ None }
    requires reading { AreReading (statements_of body.now) }
    ensures left { IsTold K.seen work.new
        → OnOk result (RunsShown support.new at.now (λ w. for_each (binder.now ∷ [])
        (λ ids. leaves_all (setting_around at.now.app.now at.now.ctx.now ids w)
        (statements_of body.now)) (lengthened_tuples [] ids.now)) (state_of K.seen work.old)
        run.old run.new) }
    ensures reads { ReadsWork K.seen work.old work.new result }
    ensures grows { Grows support.old support.new }
{
    'ids: for id in ids {
        execute_record(work, at, run, binder, *id, body, support)?;
    }
    Ok(())
}

// Runs the body with the binder bound to the record.
#[cycle(run)]
fn execute_record<K: Keeper>(
    work: &mut Work<'_, K>,
    at: &WorldContext<'_>,
    run: &mut Progress,
    binder: &Binder,
    id: Id,
    body: &Stmts,
    support: &mut Support,
) -> Result<(), Stop>
    requires attached { IsTrue (K.seen work.old.keeper.now).store.attached }
    requires no_record { at.now.ctx.now.this ≡ None }
    requires reading { AreReading (statements_of body.now) }
    ensures left { IsTold K.seen work.new
        → OnOk result (RunsShown support.new at.now
        (λ w r. scoped_run (bound (binder.now ∷ []) (id ∷ []) r.env)
        (leaves_all (setting_around at.now.app.now at.now.ctx.now (id ∷ []) w)
        (statements_of body.now)) r) (state_of K.seen work.old) run.old run.new) }
    ensures reads { ReadsWork K.seen work.old work.new result }
    ensures grows { Grows support.old support.new }
{
    let ctx = Ctx {
        around: Some(id),
        ..*at.ctx
    };
    let inside = WorldContext { ctx: &ctx, ..*at };
    let outer = run.env.len();
    rebind(work.alloc, &mut run.env, &mut run.kept, &binder.name, id)?;
    execute_all(work, &inside, run, body, support)?;
    unbind(&mut run.env, &mut run.kept, outer)?;
    Ok(())
}

// The same for any query.
#[cycle(run)]
fn execute_answers<K: Keeper>(
    work: &mut Work<'_, K>,
    at: &WorldContext<'_>,
    run: &mut Progress,
    query: &Query,
    body: &Stmts,
    support: &mut Support,
) -> Result<(), Stop>
    requires attached { IsTrue (K.seen work.old.keeper.now).store.attached }
    requires no_record { at.now.ctx.now.this ≡ None }
    requires reading { AreReading (statements_of body.now) }
    ensures left { IsTold K.seen work.new
        → OnOk result (RunsShown support.new at.now
        (λ w. leaves (setting_at at.now.app.now at.now.ctx.now w)
        (Statement.each (question_of query.now) (statements_of body.now)))
        (state_of K.seen work.old) run.old run.new) }
    ensures reads { ReadsWork K.seen work.old work.new result }
    ensures grows { Grows support.old support.new }
{
    let answers = answers_at(work, at, run.env.as_slice(), query, support)?;
    let binders = &query.binders;
    let answers = answers.as_slice();
    execute_tuples(work, at, run, binders, answers, body, support)?;
    Ok(())
}

// Runs the body for each of the tuples.
#[cycle(run)]
fn execute_tuples<K: Keeper>(
    work: &mut Work<'_, K>,
    at: &WorldContext<'_>,
    run: &mut Progress,
    binders: &Binders,
    tuples: &[Ids],
    body: &Stmts,
    support: &mut Support,
) -> Result<(), Stop>
    requires attached { IsTrue (K.seen work.old.keeper.now).store.attached }
    requires no_record { at.now.ctx.now.this ≡ None }
    requires reading { AreReading (statements_of body.now) }
    ensures left { IsTold K.seen work.new
        → OnOk result (RunsShown support.new at.now (λ w. for_each (binders_of binders.now)
        (λ ids. leaves_all (setting_around at.now.app.now at.now.ctx.now ids w)
        (statements_of body.now)) tuples.now) (state_of K.seen work.old) run.old run.new) }
    ensures reads { ReadsWork K.seen work.old work.new result }
    ensures grows { Grows support.old support.new }
{
    'tuples: for ids in tuples {
        execute_bound(work, at, run, binders, ids, body, support)?;
    }
    Ok(())
}

// Runs the body with the binders bound to the tuple.
#[cycle(run)]
fn execute_bound<K: Keeper>(
    work: &mut Work<'_, K>,
    at: &WorldContext<'_>,
    run: &mut Progress,
    binders: &Binders,
    ids: &Ids,
    body: &Stmts,
    support: &mut Support,
) -> Result<(), Stop>
    requires attached { IsTrue (K.seen work.old.keeper.now).store.attached }
    requires no_record { at.now.ctx.now.this ≡ None }
    requires reading { AreReading (statements_of body.now) }
    ensures left { IsTold K.seen work.new
        → OnOk result (RunsShown support.new at.now
        (λ w r. scoped_run (bound (binders_of binders.now) ids.now r.env)
        (leaves_all (setting_around at.now.app.now at.now.ctx.now ids.now w)
        (statements_of body.now)) r) (state_of K.seen work.old) run.old run.new) }
    ensures reads { ReadsWork K.seen work.old work.new result }
    ensures grows { Grows support.old support.new }
{
    let ctx = Ctx {
        around: loop_of(ids),
        ..*at.ctx
    };
    let inside = WorldContext { ctx: &ctx, ..*at };
    let outer = run.env.len();
    rebind_tuple(work.alloc, &mut run.env, &mut run.kept, binders, ids)?;
    execute_all(work, &inside, run, body, support)?;
    unbind(&mut run.env, &mut run.kept, outer)?;
    Ok(())
}
