//! Which policy keeps a label hidden.
ghost use Rattle.std.specs.Prelude.{◌≡◌, ◌≤◌, ◌++◌, [], IfOk, OnOk, IsTrue};
ghost use Rattle.std.specs.Option.{option_map};
ghost use Rattle.jac_world.specs.World.{shown_by, with_number};
ghost use Rattle.jac_lang.specs.Mirror.{application_of};
ghost use Rattle.jac_keep.specs.WorkState.{state_of, IsTold, ReadsWork};
ghost use Rattle.jac_plain.specs.Policies.{is_allowed, AreAllowed};
ghost use Rattle.jac_why.specs.Named.{as_reason};
ghost use Rattle.jac_why.specs.Context.{context_on};
ghost use Rattle.jac_why.specs.Watched.{IsWatching, AreWatching};
ghost use Rattle.jac_why.specs.Whys.{first_forbidden, why_hidden, stands_against, why_of, why_at, all_whys};
ghost use Rattle.jac_plain.specs.Shown.{worlds_of};

use crate::watch::Watchers;
use crate::{Explanation, Reason, ViewerContext};
use jac_keep::{Keeper, Stop, Work};
use jac_lang::App;
use jac_resolve::allowed;
use jac_value::{Id, Memory};
use jac_world::{Assignment, Label, Steps};
use std::alloc::Global;
use std::sync::ledger::Ledger;

/// What keeps a label hidden: among the labels that are shown and this one, the least that isn't
/// allowed if they are all shown. There is none if and only if all are allowed.
pub fn why<K: Keeper, M: Ledger>(
    work: &mut Work<'_, K>,
    context: &ViewerContext<'_>,
    hidden: Label,
    evaluations: &mut Steps<M>,
) -> Result<Option<Reason>, Stop>
    requires { IsTrue (K.seen work.old.keeper.now).store.attached }
    ensures reason { IsTold K.seen work.new → IfOk result
        (λ r. r ≡ why_hidden (context_on (state_of K.seen work.old) context.now) hidden) }
    ensures later { evaluations.old ≤ evaluations.new }
    ensures reads { ReadsWork K.seen work.old work.new result }
{
    let beside = with_label(work.alloc, context.labels, hidden)?;
    let labels = beside.as_slice();
    let app = context.app;
    let viewer = &context.viewer;
    let first = find_forbidden(work, app, viewer, &beside, labels, evaluations)?;
    Ok(as_reason(first))
}

/// Whether the reason keeps the label hidden. Its label must be shown or be this one, its model and
/// group must be those of its label, and its label must not be allowed if this one is shown too.
pub fn check_reason<K: Keeper, M: Ledger>(
    work: &mut Work<'_, K>,
    context: &ViewerContext<'_>,
    hidden: Label,
    reason: &Reason,
    evaluations: &mut Steps<M>,
) -> Result<bool, Stop>
    requires { IsTrue (K.seen work.old.keeper.now).store.attached }
    ensures stands { IsTold K.seen work.new → IfOk result (λ b.
        b ≡ stands_against (context_on (state_of K.seen work.old) context.now) hidden reason.now) }
    ensures later { evaluations.old ≤ evaluations.new }
    ensures reads { ReadsWork K.seen work.old work.new result }
{
    let beside = with_label(work.alloc, context.labels, hidden)?;
    if !beside.shows(reason.label) {
        return Ok(false);
    }
    if !reason.names_its_label() {
        return Ok(false);
    }
    let app = context.app;
    let holds = ask(
        work,
        app,
        context.viewer,
        &beside,
        reason.label,
        evaluations,
    )?;
    Ok(!holds)
}

/// The live labels that aren't shown, in their order, with what keeps each hidden. If all shown
/// labels are allowed, a label takes no more evaluations than its own and those of the labels that
/// consulted it.
pub fn whys<K: Keeper, M: Ledger>(
    work: &mut Work<'_, K>,
    context: &ViewerContext<'_>,
    live: &[Label],
    evaluations: &mut Steps<M>,
) -> Result<Vec<Explanation>, Stop>
    requires { IsTrue (K.seen work.old.keeper.now).store.attached }
    ensures whys { IsTold K.seen work.new
        → AreAllowed (application_of context.now.app.now) (worlds_of (state_of K.seen work.old))
        context.now.viewer context.now.labels.now
        → IfOk result
        (λ v. v.items ≡ all_whys (context_on (state_of K.seen work.old) context.now) live.now) }
    ensures later { evaluations.old ≤ evaluations.new }
    ensures reads { ReadsWork K.seen work.old work.new result }
{
    let watchers = watchers(work, context, evaluations)?;
    let whys = watched_whys(work, context, live, &watchers, evaluations)?;
    Ok(whys)
}

// The same, with the watchers of each label.
fn watched_whys<K: Keeper, M: Ledger>(
    work: &mut Work<'_, K>,
    context: &ViewerContext<'_>,
    live: &[Label],
    watchers: &Watchers,
    evaluations: &mut Steps<M>,
) -> Result<Vec<Explanation>, Stop>
    requires { IsTrue (K.seen work.old.keeper.now).store.attached }
    ensures whys { IsTold K.seen work.new
        → AreAllowed (application_of context.now.app.now) (worlds_of (state_of K.seen work.old))
        context.now.viewer context.now.labels.now
        → AreWatching (context_on (state_of K.seen work.old) context.now) [] watchers.now
        → IfOk result
        (λ v. v.items ≡ all_whys (context_on (state_of K.seen work.old) context.now) live.now) }
    ensures later { evaluations.old ≤ evaluations.new }
    ensures reads { ReadsWork K.seen work.old work.new result }
{
    let mut whys = Vec::new(work.alloc);
    'labels: for label in live {
        add_why(work, context, *label, watchers, &mut whys, evaluations)?;
    }
    Ok(whys)
}

// Adds what keeps the label hidden, unless it is shown.
fn add_why<K: Keeper, M: Ledger>(
    work: &mut Work<'_, K>,
    context: &ViewerContext<'_>,
    label: Label,
    watchers: &Watchers,
    whys: &mut Vec<Explanation>,
    evaluations: &mut Steps<M>,
) -> Result<(), Stop>
    requires { IsTrue (K.seen work.old.keeper.now).store.attached }
    ensures added { IsTold K.seen work.new
        → AreAllowed (application_of context.now.app.now) (worlds_of (state_of K.seen work.old))
        context.now.viewer context.now.labels.now
        → AreWatching (context_on (state_of K.seen work.old) context.now) [] watchers.now
        → OnOk result (whys.new.items
        ≡ whys.old.items ++ why_at (context_on (state_of K.seen work.old) context.now) label) }
    ensures later { evaluations.old ≤ evaluations.new }
    ensures reads { ReadsWork K.seen work.old work.new result }
{
    if context.labels.shows(label) {
        return Ok(());
    }
    let reason = watched_why(work, context, label, watchers, evaluations)?;
    push_why(whys, label, reason)?;
    Ok(())
}

// What keeps a label hidden. Only its policy and those of its watchers are evaluated.
fn watched_why<K: Keeper, M: Ledger>(
    work: &mut Work<'_, K>,
    context: &ViewerContext<'_>,
    label: Label,
    watchers: &Watchers,
    evaluations: &mut Steps<M>,
) -> Result<Option<Reason>, Stop>
    requires { IsTrue (K.seen work.old.keeper.now).store.attached }
    ensures reason { IsTold K.seen work.new
        → AreAllowed (application_of context.now.app.now) (worlds_of (state_of K.seen work.old))
        context.now.viewer context.now.labels.now
        → AreWatching (context_on (state_of K.seen work.old) context.now) [] watchers.now
        → IfOk result
        (λ r. r ≡ why_hidden (context_on (state_of K.seen work.old) context.now) label) }
    ensures later { evaluations.old ≤ evaluations.new }
    ensures reads { ReadsWork K.seen work.old work.new result }
{
    let beside = with_label(work.alloc, context.labels, label)?;
    let asked = watchers.asked(work.alloc, label)?;
    let labels = asked.as_slice();
    let app = context.app;
    let viewer = &context.viewer;
    let first = find_forbidden(work, app, viewer, &beside, labels, evaluations)?;
    // Reading the labels shows that they ascend.
    let _ = context.labels.as_slice();
    Ok(as_reason(first))
}

// For each label, those of the shown labels that consulted it.
fn watchers<K: Keeper, M: Ledger>(
    work: &mut Work<'_, K>,
    context: &ViewerContext<'_>,
    evaluations: &mut Steps<M>,
) -> Result<Watchers, Stop>
    requires { IsTrue (K.seen work.old.keeper.now).store.attached }
    ensures watching { IsTold K.seen work.new
        → IfOk result (AreWatching (context_on (state_of K.seen work.old) context.now) []) }
    ensures later { evaluations.old ≤ evaluations.new }
    ensures reads { ReadsWork K.seen work.old work.new result }
{
    let mut watchers = Watchers::empty(work.alloc);
    'labels: for label in context.labels.as_slice() {
        add_watcher(work, context, *label, &mut watchers, evaluations)?;
    }
    Ok(watchers)
}

// Makes the label a watcher of all labels that its policy consults.
fn add_watcher<K: Keeper, M: Ledger>(
    work: &mut Work<'_, K>,
    context: &ViewerContext<'_>,
    label: Label,
    watchers: &mut Watchers,
    evaluations: &mut Steps<M>,
) -> Result<(), Stop>
    requires { IsTrue (K.seen work.old.keeper.now).store.attached }
    ensures watching { IsTold K.seen work.new → OnOk result (IsWatching
        (context_on (state_of K.seen work.old) context.now) label watchers.old watchers.new) }
    ensures later { evaluations.old ≤ evaluations.new }
    ensures reads { ReadsWork K.seen work.old work.new result }
{
    let shown = context.labels;
    let (_, consulted) = allowed(work, context.app, context.viewer, shown, label, evaluations)?;
    watchers.watch(work.alloc, label, consulted.as_slice())?;
    Ok(())
}

fn push_why(
    whys: &mut Vec<Explanation>,
    hidden: Label,
    reason: Option<Reason>,
) -> Result<(), Memory>
    ensures { OnOk result (whys.new.items ≡ whys.old.items ++ why_of hidden reason) }
{
    if let Some(reason) = reason {
        whys.push(Explanation { hidden, reason })?;
    }
    Ok(())
}

// The first of the labels that isn't allowed under the assignment.
fn find_forbidden<K: Keeper, M: Ledger>(
    work: &mut Work<'_, K>,
    app: &App,
    viewer: &Option<Id>,
    a: &Assignment,
    labels: &[Label],
    evaluations: &mut Steps<M>,
) -> Result<Option<Label>, Stop>
    requires { IsTrue (K.seen work.old.keeper.now).store.attached }
    ensures first { IsTold K.seen work.new → IfOk result (λ r.
        r ≡ first_forbidden (application_of app.now)
        (worlds_of (state_of K.seen work.old) (shown_by a.now)) viewer.now labels.now) }
    ensures later { evaluations.old ≤ evaluations.new }
    ensures reads { ReadsWork K.seen work.old work.new result }
{
    'labels: for label in labels {
        let holds = ask(work, app, *viewer, a, *label, evaluations)?;
        if !holds {
            return Ok(Some(*label));
        }
    }
    Ok(None)
}

// Whether the label is allowed under the assignment.
fn ask<K: Keeper, M: Ledger>(
    work: &mut Work<'_, K>,
    app: &App,
    viewer: Option<Id>,
    a: &Assignment,
    label: Label,
    evaluations: &mut Steps<M>,
) -> Result<bool, Stop>
    requires { IsTrue (K.seen work.old.keeper.now).store.attached }
    ensures answer { IsTold K.seen work.new → IfOk result (λ b.
        b ≡ is_allowed (application_of app.now)
        (worlds_of (state_of K.seen work.old) (shown_by a.now)) viewer label) }
    ensures later { evaluations.old ≤ evaluations.new }
    ensures reads { ReadsWork K.seen work.old work.new result }
{
    let (holds, _) = allowed(work, app, viewer, a, label, evaluations)?;
    Ok(holds)
}

// The labels that are shown, and this one.
fn with_label(alloc: Global, shown: &Assignment, label: Label) -> Result<Assignment, Memory>
    ensures { IfOk result (λ a. a ≡ with_number label shown.now) }
{
    let beside = shown.with(alloc, label)?;
    // Reading the labels shows that they ascend.
    let _ = shown.as_slice();
    let _ = beside.as_slice();
    Ok(beside)
}

// The label as a reason.
fn as_reason(label: Option<Label>) -> Option<Reason>
    ensures { result ≡ option_map as_reason label }
{
    match label {
        Some(label) => Some(Reason::of(label)),
        None => None,
    }
}
