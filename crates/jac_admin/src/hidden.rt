//! What a viewer isn't shown of a store, and which policy keeps it hidden.
ghost use Rattle.std.specs.Prelude.{◌≡◌, ◌≤◌, ◌++◌, false, true, slice_get, IfOk, IsOk, IsErrOf, IsTrue, OnOk, codes, decimal};
ghost use Rattle.std.specs.List.{list_all};
ghost use Rattle.jac_io.specs.Faults.{Rose};
ghost use Rattle.jac_lang.specs.Mirror.{application_of, entities_of};
ghost use Rattle.jac_check.specs.Causes.{entity_name};
ghost use Rattle.jac_keep.specs.KeeperSeen.{IsLeft};
ghost use Rattle.jac_keep.specs.WorkState.{state_of, IsTold, ReadsWork};
ghost use Rattle.jac_keep.specs.declared.stop.Stop.TheVariants.{Keeper as Failing};
ghost use Rattle.jac_plain.specs.Policies.{AreAllowed};
ghost use Rattle.jac_resolve.specs.Rounds.{HasSoundTables};
ghost use Rattle.jac_replies.specs.Spelled.{labels_text, more_labels};
ghost use Rattle.jac_cli.specs.declared.words.Command.TheVariants as commands;
ghost use Rattle.jac_serve_events.specs.Outside.{IsPut, WentAimed, span, sinks};
ghost use Rattle.jac_why.specs.Context.{context_on};
ghost use Rattle.jac_why.specs.Whys.{all_whys, is_standing};
ghost use Rattle.jac_command_base.specs.Files.{AsksForFiles, files_of, sight};
ghost use Rattle.jac_command_base.specs.ExitReason.{Closed};
ghost use Rattle.jac_admin.specs.Explain.{asker_of, shown_line, reason_text, why_line, why_lines, whys_text, context_with, IsExplanation, EndsExplained, EndsExplain};
ghost use Rattle.jac_plain.specs.Shown.{worlds_of};

use itoa::Buffer;
use jac_cli::WhyArgs;
use jac_command_base::{ExitReason, StoreCommand, open_store};
use jac_io::{AuditSink, Failed, Files, Sink};
use jac_keep::{Keeper, Stop, Vault, Work};
use jac_lang::{App, ModelDef};
use jac_resolve::{live_labels, resolve};
use jac_route::viewer_id;
use jac_serve_events::put;
use jac_value::{Bytes, Id, Memory};
use jac_why::{Explanation, Reason, ViewerContext, check_reason, whys};
use jac_world::{Assignment, Label, Steps};
use std::alloc::Global;
use std::sync::ledger::Ledger;

/// The steps of a `why`. They read the application, attach the store, and write the labels that the
/// viewer is shown, and a line for each other live label with what keeps it hidden. Each of these
/// explanations is tested once more before its line is made.
pub fn explain<F: Files, O: Sink, U: AuditSink, K: Vault, M: Ledger>(
    alloc: Global,
    command: &WhyArgs,
    files: &mut F,
    out: &mut O,
    audit: &mut U,
    vault: &mut K,
    evaluations: &mut Steps<M>,
) -> Result<(), ExitReason>
    requires first { (K.seen vault.old).store.called ≡ false }
    ensures asks { AsksForFiles (span (F.seen files.old) (F.seen files.new))
        (files_of (commands.Why command.now)) (IsOk result) }
    ensures ends { WentAimed
        (sinks (O.seen out.old) (O.seen out.new) (U.seen audit.old) (U.seen audit.new))
        (EndsExplain
        (sight (F.seen files.old) (F.seen files.new) (O.seen out.old) (O.seen out.new)
        (U.seen audit.old) (U.seen audit.new) (K.seen vault.old) (K.seen vault.new))
        (commands.Why command.now) result) }
{
    let opened = match open_store(alloc, StoreCommand::Why(command), files, audit, vault) {
        Ok(opened) => opened,
        Err(exit_reason) => return Err(exit_reason),
    };
    explain_attached(
        alloc,
        opened.service.app(),
        command.viewer,
        out,
        vault,
        evaluations,
    )
}

// The viewer: nobody if the number is no id of the viewer's model.
fn asker_of(app: &App, number: Option<u128>) -> Option<Id>
    ensures { result ≡ asker_of (application_of app.now) number }
{
    match number {
        Some(number) => viewer_id(number, app),
        None => None,
    }
}

// Reads the store, and puts the lines.
fn explain_attached<O: Sink, K: Vault, M: Ledger>(
    alloc: Global,
    app: &App,
    number: Option<u128>,
    out: &mut O,
    vault: &mut K,
    evaluations: &mut Steps<M>,
) -> Result<(), ExitReason>
    requires attached { IsTrue (K.seen vault.old).store.attached }
    requires sound { IsTrue (K.seen vault.old).tells → HasSoundTables (K.seen vault.old).state }
    ensures left { IsLeft (K.seen vault.old) (K.seen vault.new) }
    ensures ends { Closed (span (O.seen out.old) (O.seen out.new))
        (EndsExplained (application_of app.now) (asker_of (application_of app.now) number)
        (span (O.seen out.old) (O.seen out.new)) (span (K.seen vault.old) (K.seen vault.new))
        result) }
{
    match store_text(alloc, app, number, vault, evaluations) {
        Ok(text) => match put_text(out, &text) {
            Ok(()) => Ok(()),
            Err(Failed) => Err(ExitReason::WriteFault),
        },
        Err(Stop::Keeper) => Err(ExitReason::StoreFault),
        Err(Stop::Memory) => Err(ExitReason::Memory),
    }
}

fn put_text<O: Sink>(out: &mut O, text: &Bytes) -> Result<(), Failed>
    ensures { IsPut (span (O.seen out.old) (O.seen out.new)) text.now result }
{
    put(out, text.as_slice())
}

// The lines for a store.
fn store_text<K: Vault, M: Ledger>(
    alloc: Global,
    app: &App,
    number: Option<u128>,
    vault: &mut K,
    evaluations: &mut Steps<M>,
) -> Result<Bytes, Stop>
    requires attached { IsTrue (K.seen vault.old).store.attached }
    requires sound { IsTrue (K.seen vault.old).tells → HasSoundTables (K.seen vault.old).state }
    ensures text { IsTrue (K.seen vault.new).tells → IfOk result (IsExplanation
        (application_of app.now) (asker_of (application_of app.now) number)
        (K.seen vault.new).state) }
    ensures left { IsLeft (K.seen vault.old) (K.seen vault.new) }
    ensures rose { IsErrOf result Failing
        → Rose (K.seen vault.old).faults (K.seen vault.new).faults }
{
    let viewer = asker_of(app, number);
    let mut work = Work::new(alloc, vault);
    let text = state_lines(&mut work, app, &viewer, evaluations)?;
    Ok(text)
}

// The lines for a state: what is shown, and what prevents each other live label.
fn state_lines<K: Keeper, M: Ledger>(
    work: &mut Work<'_, K>,
    app: &App,
    viewer: &Option<Id>,
    evaluations: &mut Steps<M>,
) -> Result<Bytes, Stop>
    requires attached { IsTrue (K.seen work.old.keeper.now).store.attached }
    requires sound { IsTold K.seen work.old → HasSoundTables (state_of K.seen work.old) }
    ensures text { IsTold K.seen work.new → IfOk result
        (IsExplanation (application_of app.now) viewer.now (state_of K.seen work.old)) }
    ensures reads { ReadsWork K.seen work.old work.new result }
{
    let live = live_labels(work, app)?;
    let shown = resolve(work, app, *viewer, evaluations)?;
    let labels = live.as_slice();
    let text = shown_lines(work, app, viewer, &shown, labels, evaluations)?;
    Ok(text)
}

// What is shown, and what prevents each other one of the labels.
fn shown_lines<K: Keeper, M: Ledger>(
    work: &mut Work<'_, K>,
    app: &App,
    viewer: &Option<Id>,
    shown: &Assignment,
    live: &[Label],
    evaluations: &mut Steps<M>,
) -> Result<Bytes, Stop>
    requires attached { IsTrue (K.seen work.old.keeper.now).store.attached }
    ensures text { IsTold K.seen work.new
        → AreAllowed (application_of app.now) (worlds_of (state_of K.seen work.old))
        viewer.now shown.now
        → IfOk result (λ t. t ≡ whys_text (application_of app.now).models shown.now (all_whys
        (context_with (application_of app.now) viewer.now (state_of K.seen work.old) shown.now)
        live.now)) }
    ensures reads { ReadsWork K.seen work.old work.new result }
{
    let context = ViewerContext {
        app,
        viewer: *viewer,
        labels: shown,
    };
    let found = whys(work, &context, live, evaluations)?;
    let text = checked_lines(work, &context, found.as_slice(), evaluations)?;
    Ok(text)
}

// A line for each explanation that passes the test.
fn checked_lines<K: Keeper, M: Ledger>(
    work: &mut Work<'_, K>,
    context: &ViewerContext<'_>,
    whys: &[Explanation],
    evaluations: &mut Steps<M>,
) -> Result<Bytes, Stop>
    requires attached { IsTrue (K.seen work.old.keeper.now).store.attached }
    ensures text { IsTold K.seen work.new
        → list_all (is_standing (context_on (state_of K.seen work.old) context.now)) whys.now ≡ true
        → IfOk result (λ t. t ≡ whys_text (application_of context.now.app.now).models
        context.now.labels.now whys.now) }
    ensures reads { ReadsWork K.seen work.old work.new result }
{
    let mut text = Vec::new(work.alloc);
    push_shown(&mut text, context.labels)?;
    push_checked(work, context, whys, &mut text, evaluations)?;
    Ok(Bytes::from_vec(text))
}

fn push_checked<K: Keeper, M: Ledger>(
    work: &mut Work<'_, K>,
    context: &ViewerContext<'_>,
    whys: &[Explanation],
    text: &mut Vec<u8>,
    evaluations: &mut Steps<M>,
) -> Result<(), Stop>
    requires attached { IsTrue (K.seen work.old.keeper.now).store.attached }
    ensures text { IsTold K.seen work.new
        → list_all (is_standing (context_on (state_of K.seen work.old) context.now)) whys.now ≡ true
        → OnOk result (text.new.items ≡ text.old.items
        ++ why_lines (application_of context.now.app.now).models whys.now) }
    ensures reads { ReadsWork K.seen work.old work.new result }
{
    'whys: for why in whys {
        push_if_standing(work, context, why, text, evaluations)?;
    }
    Ok(())
}

// Appends the line of an explanation, if it passes the test.
fn push_if_standing<K: Keeper, M: Ledger>(
    work: &mut Work<'_, K>,
    context: &ViewerContext<'_>,
    why: &Explanation,
    text: &mut Vec<u8>,
    evaluations: &mut Steps<M>,
) -> Result<(), Stop>
    requires attached { IsTrue (K.seen work.old.keeper.now).store.attached }
    ensures text { IsTold K.seen work.new
        → is_standing (context_on (state_of K.seen work.old) context.now) why.now ≡ true
        → OnOk result (text.new.items ≡ text.old.items
        ++ why_line (application_of context.now.app.now).models why.now) }
    ensures reads { ReadsWork K.seen work.old work.new result }
{
    let stands = check_reason(work, context, why.hidden, &why.reason, evaluations)?;
    if !stands {
        return Ok(());
    }
    push_why(text, context.app.models.as_slice(), why)?;
    Ok(())
}

fn push_shown(text: &mut Vec<u8>, shown: &Assignment) -> Result<(), Memory>
    ensures { OnOk result (text.new.items ≡ text.old.items ++ shown_line shown.now) }
{
    text.extend_from_slice(b"shown ")?;
    push_labels(text, shown.as_slice())?;
    text.extend_from_slice(b"\n")?;
    Ok(())
}

// Appends the labels, joined by commas, or `-` if there are none.
fn push_labels(text: &mut Vec<u8>, labels: &[Label]) -> Result<(), Memory>
    ensures { OnOk result (text.new.items ≡ text.old.items ++ labels_text labels.now) }
{
    match labels.split_first() {
        None => text.extend_from_slice(b"-")?,
        Some((first, rest)) => {
            push_number(text, first.0)?;
            push_more(text, rest)?;
        }
    }
    Ok(())
}

fn push_more(text: &mut Vec<u8>, labels: &[Label]) -> Result<(), Memory>
    ensures { OnOk result (text.new.items ≡ text.old.items ++ more_labels labels.now) }
{
    'labels: for label in labels {
        text.push(b',')?;
        push_number(text, label.0)?;
    }
    Ok(())
}

// Appends `LABEL MODEL ID GROUP because LABEL MODEL ID GROUP` and a line feed.
fn push_why(text: &mut Vec<u8>, models: &[ModelDef], why: &Explanation) -> Result<(), Memory>
    ensures { OnOk result
        (text.new.items ≡ text.old.items ++ why_line (entities_of models.now) why.now) }
{
    let hidden = Reason::of(why.hidden);
    push_reason(text, models, &hidden)?;
    text.extend_from_slice(b" because ")?;
    push_reason(text, models, &why.reason)?;
    text.extend_from_slice(b"\n")?;
    Ok(())
}

// Appends `LABEL MODEL ID GROUP`.
fn push_reason(text: &mut Vec<u8>, models: &[ModelDef], reason: &Reason) -> Result<(), Memory>
    ensures { OnOk result
        (text.new.items ≡ text.old.items ++ reason_text (entities_of models.now) reason.now) }
{
    push_number(text, reason.label.0)?;
    text.extend_from_slice(b" ")?;
    text.extend_from_slice(model_name(models, reason.model).as_bytes())?;
    text.extend_from_slice(b" ")?;
    push_number(text, reason.label.0 / 8)?;
    text.extend_from_slice(b" ")?;
    push_number(text, u128::from(reason.group))?;
    Ok(())
}

fn push_number(text: &mut Vec<u8>, number: u128) -> Result<(), Memory>
    ensures { OnOk result (text.new.items ≡ text.old.items ++ decimal number) }
{
    let mut buffer = Buffer::new();
    text.extend_from_slice(buffer.format(number).as_bytes())?;
    Ok(())
}

// The name of the model at this place.
#[tactic(auto, using(jac_check::proofs::NameAt::name_found, jac_check::proofs::NameAt::name_missing))]
fn model_name(models: &[ModelDef], model: u8) -> &str
    ensures { result.now ≡ entity_name (slice_get (entities_of models.now) model) }
{
    let place = usize::from(model);
    if place < models.len() {
        models[place].name.as_str()
    } else {
        ""
    }
}
