//! The page of a view that writes nothing, and the labels that it consults.
ghost use Rattle.std.specs.Prelude.{◌≡◌, ◌<◌, ◌≤◌, ◌^◌, ℕ, Bool, true, None, length, slice_get, IfOk, IsTrue};
ghost use Rattle.jac_world.specs.World.{IsAscending};
ghost use Rattle.jac_lang.specs.Mirror.{application_of, statements_of};
ghost use Rattle.jac_keep.specs.WorkState.{state_of, IsTold, ReadsWork};
ghost use Rattle.jac_plain.specs.Reading.{are_reading};
ghost use Rattle.jac_plain.specs.Requests.{body_in};
ghost use Rattle.jac_shown_rows.specs.Consulted.{Grows};
ghost use Rattle.jac_pruned_pages.specs.Runs.{IsPageMade};
ghost use Rattle.jac_lazy.specs.Steady.{IsPageOf, IsSteady};
ghost use Rattle.jac_plain.specs.Shown.{worlds_of};

use crate::consulted::assignment_of;
use jac_keep::{Keeper, Stop, Work};
use jac_lang::{App, Binding, PlainEnv, Stmts};
use jac_plain::{Ctx, Page};
use jac_policy_cache::PolicyMemo;
use jac_pruned_pages::run_body_at;
use jac_resolve::{add_consulted, live_of, settle_among};
use jac_shown_rows::{Support, WorldContext};
use jac_value::Memory;
use jac_world::{Assignment, Label, Steps};
use std::alloc::Global;
use std::sync::ledger::Ledger;

/// A page, the labels that were consulted for it, and the labels among them under which it was
/// made.
#[derive(Drop)]
pub struct LazyPage {
    pub page: Page,
    pub shown: Assignment,
    pub consulted: Assignment,
}

// A page, and the labels under which it was made.
#[derive(Drop)]
struct MadePage {
    page: Page,
    shown: Assignment,
}

// What a page is made from.
#[derive(Clone, Copy)]
struct PageSource<'a> {
    app: &'a App,
    ctx: &'a Ctx,
    view: u32,
    env: &'a PlainEnv,
}

/// The page of a view that writes nothing. Only the labels are resolved that the page and their
/// policies consult. At first nothing is consulted, and the page is run under no labels. Then the
/// live labels that were consulted are settled, and the page is run under them, unless it was run
/// under the same labels before. The labels that the policies and the page consult are added, until
/// there are no others. Results of policies are cached from run to run.
pub fn page_lazily<K: Keeper, M: Ledger>(
    work: &mut Work<'_, K>,
    app: &App,
    ctx: &Ctx,
    view: u32,
    env: &PlainEnv,
    evaluations: &mut Steps<M>,
) -> Result<LazyPage, Stop>
    requires attached { IsTrue (K.seen work.old.keeper.now).store.attached }
    requires there { view < length app.now.views }
    requires reading { are_reading
        (body_in (slice_get (application_of app.now).views view)) ≡ true }
    requires number { IsTold K.seen work.old → ctx.now.number ≡ (state_of K.seen work.old).number }
    ensures steady { IsTold K.seen work.new →
        IfOk result (λ it. IsSteady (application_of app.now) (worlds_of (state_of K.seen work.old))
        ctx.now.viewer it.consulted it.shown) }
    ensures page { IsTold K.seen work.new →
        IfOk result (λ it. IsPageOf (application_of app.now) (worlds_of (state_of K.seen work.old))
        it.consulted it.shown (record { view = view; env = env.now; viewer = ctx.now.viewer })
        it.page) }
    ensures made { IfOk result (λ it. IsPageMade it.page) }
    ensures later { evaluations.old ≤ evaluations.new }
    ensures reads { ReadsWork K.seen work.old work.new result }
{
    let source = PageSource {
        app,
        ctx,
        view,
        env,
    };
    let mut consulted = Support::empty(work.alloc);
    let mut answers = PolicyMemo::empty(work.alloc);
    let nothing = Assignment::empty(work.alloc);
    let mut made = run_page(work, &source, nothing, &mut consulted)?;
    'runs: loop {
        let before = count_of(&consulted);
        let tried = live_of(work, app, consulted.as_slice())?;
        let shown = settle_among(
            work,
            app,
            &ctx.viewer,
            tried.as_slice(),
            &mut answers,
            evaluations,
        )?;
        add_consulted(&answers, &mut consulted)?;
        let next = page_under(work, &source, made, shown, &mut consulted)?;
        let after = count_of(&consulted);
        if after == before {
            let consulted = assignment_of(work.alloc, &consulted)?;
            let MadePage { page, shown } = next;
            return Ok(LazyPage {
                page,
                shown,
                consulted,
            });
        }
        made = next;
    }
}

// The page under the labels. A page that was made under the same labels isn't run again.
fn page_under<K: Keeper>(
    work: &mut Work<'_, K>,
    source: &PageSource<'_>,
    earlier: MadePage,
    shown: Assignment,
    consulted: &mut Support,
) -> Result<MadePage, Stop>
    requires attached { IsTrue (K.seen work.old.keeper.now).store.attached }
    requires there { source.now.view < length source.now.app.now.views }
    requires reading { are_reading (body_in
        (slice_get (application_of source.now.app.now).views source.now.view)) ≡ true }
    requires number { IsTold K.seen work.old → source.now.ctx.now.number
        ≡ (state_of K.seen work.old).number }
    requires made { IsPageMade earlier.page }
    requires earlier { IsTold K.seen work.old → IsPageOf (application_of source.now.app.now)
        (worlds_of (state_of K.seen work.old)) consulted.old earlier.shown
        (record {
          view = source.now.view;
          env = source.now.env.now;
          viewer = source.now.ctx.now.viewer;
        }) earlier.page }
    ensures page { IsTold K.seen work.new → IfOk result (λ it. IsPageOf
        (application_of source.now.app.now) (worlds_of (state_of K.seen work.old)) consulted.new
        it.shown (record {
          view = source.now.view;
          env = source.now.env.now;
          viewer = source.now.ctx.now.viewer;
        }) it.page) }
    ensures shown { IfOk result (λ it. it.shown ≡ shown) }
    ensures ascending { IfOk result (λ it. IsAscending it.shown) }
    ensures made { IfOk result (λ it. IsPageMade it.page) }
    ensures grows { Grows consulted.old consulted.new }
    ensures reads { ReadsWork K.seen work.old work.new result }
{
    if are_same(earlier.shown.as_slice(), shown.as_slice()) {
        return Ok(earlier);
    }
    let made = run_page(work, source, shown, consulted)?;
    Ok(made)
}

// Runs the page under the labels.
fn run_page<K: Keeper>(
    work: &mut Work<'_, K>,
    source: &PageSource<'_>,
    shown: Assignment,
    consulted: &mut Support,
) -> Result<MadePage, Stop>
    requires attached { IsTrue (K.seen work.old.keeper.now).store.attached }
    requires there { source.now.view < length source.now.app.now.views }
    requires reading { are_reading (body_in
        (slice_get (application_of source.now.app.now).views source.now.view)) ≡ true }
    requires number { IsTold K.seen work.old → source.now.ctx.now.number
        ≡ (state_of K.seen work.old).number }
    ensures page { IsTold K.seen work.new → IfOk result (λ it. IsPageOf
        (application_of source.now.app.now) (worlds_of (state_of K.seen work.old)) consulted.new
        it.shown (record {
          view = source.now.view;
          env = source.now.env.now;
          viewer = source.now.ctx.now.viewer;
        }) it.page) }
    ensures shown { IfOk result (λ it. it.shown ≡ shown) }
    ensures made { IfOk result (λ it. IsPageMade it.page) }
    ensures grows { Grows consulted.old consulted.new }
    ensures reads { ReadsWork K.seen work.old work.new result }
{
    let body = body_at(source.app, source.view);
    let outside = in_no_loop(source.ctx);
    let bindings = copied(work.alloc, source.env)?;
    let at = WorldContext {
        app: source.app,
        ctx: &outside,
        assignment: &shown,
    };
    let page = run_body_at(work, &at, body, bindings, consulted)?;
    Ok(MadePage { page, shown })
}

fn are_same(one: &[Label], other: &[Label]) -> bool
    ensures { result ≡ true → one.now ≡ other.now }
{
    one == other
}

// The number of labels that were consulted.
fn count_of(consulted: &Support) -> usize
    ensures count { result ≡ length consulted.now }
    ensures few { result < 2 ^ 64 }
    ensures ascending { IsAscending consulted.now }
{
    consulted.as_slice().len()
}

// The statements of the view.
fn body_at(app: &App, view: u32) -> &Stmts
    requires { view < length app.now.views }
    ensures { statements_of result.now ≡ body_in (slice_get (application_of app.now).views view) }
{
    &app.views.as_slice()[view as usize].body
}

// The view's statements aren't in a loop.
fn in_no_loop(ctx: &Ctx) -> Ctx
    ensures { result ≡ record ctx.now { around = None } }
{
    Ctx {
        around: None,
        ..*ctx
    }
}

fn copied(alloc: Global, env: &PlainEnv) -> Result<PlainEnv, Memory>
    ensures { IfOk result (λ e. e ≡ env.now) }
{
    let mut bindings = Vec::new(alloc);
    'bindings: for one in env.as_slice() {
        let copy = copy_binding(alloc, one)?;
        bindings.push(copy)?;
    }
    Ok(PlainEnv::from_vec(bindings))
}

fn copy_binding(alloc: Global, binding: &Binding) -> Result<Binding, Memory>
    ensures { IfOk result (λ b. b ≡ binding.now) }
{
    let name = binding.name.copy(alloc)?;
    let bound_to = binding.bound_to.copy(alloc)?;
    Ok(Binding { name, bound_to })
}
