//! Upgrades a store from one application to the next.
ghost use Rattle.std.specs.Prelude.{◌≡◌, ◌⊎◌, ◌++◌, ◌∷◌, [], None, Some, slice_get, IfOk, IsOk, IsErrOf, IsTrue, OnErr, codes, decimal, false};
ghost use Rattle.jac_io.specs.Faults.{Rose};
ghost use Rattle.jac_lang.specs.Lookup.{fields_at};
ghost use Rattle.jac_lang.specs.Mirror.{application_of, entities_of};
ghost use Rattle.jac_check.specs.Causes.{entity_name};
ghost use Rattle.jac_check.specs.Well.{is_well};
ghost use Rattle.jac_plain.specs.Models.{shapes_of};
ghost use Rattle.jac_plain.specs.Records.{name_in as field_name_in};
ghost use Rattle.jac_keep.specs.KeeperSeen.{IsLeft};
ghost use Rattle.jac_keep.specs.Schema.{IsFit};
ghost use Rattle.jac_keep.specs.declared.stop.Stop.TheVariants.{Keeper as Failing};
ghost use Rattle.jac_cli.specs.declared.words.Command.TheVariants as commands;
ghost use Rattle.jac_serve_events.specs.Outside.{IsPut, WentAimed, span, sinks};
ghost use Rattle.jac_upgrade.specs.Extends.{models_lack};
ghost use Rattle.jac_command_base.specs.Files.{AsksForFiles, files_of, sight};
ghost use Rattle.jac_command_base.specs.ExitReason.{Closed};
ghost use Rattle.jac_admin.specs.Upgrade.{lack_line, upgraded_line, IsUpgraded, EndsReshaping, EndsMoving, EndsUpgrading, EndsUpgrade};

use itoa::Buffer;
use jac_app_load::Service;
use jac_cli::{Role, UpgradeArgs};
use jac_command_base::{ExitReason, attach, open_next, read_app, read_file};
use jac_io::{AuditSink, Failed, Files, Sink};
use jac_keep::{Stop, Vault};
use jac_lang::{App, Field, ModelDef};
use jac_serve_events::put_three;
use jac_upgrade::{UpgradeFault, extends};
use jac_value::{Memory, Txt};
use jac_world::Steps;
use std::alloc::Global;
use std::sync::ledger::Ledger;

/// The steps of an upgrade. They read both applications, check whether the second extends the
/// first, attach the store, upgrade its records to the second, and write how many they are.
pub fn upgrade<F: Files, O: Sink, U: AuditSink, K: Vault, L: Ledger>(
    alloc: Global,
    command: &UpgradeArgs,
    files: &mut F,
    out: &mut O,
    audit: &mut U,
    vault: &mut K,
    splits: &mut Steps<L>,
) -> Result<(), ExitReason>
    requires first { (K.seen vault.old).store.called ≡ false }
    ensures asks { AsksForFiles (span (F.seen files.old) (F.seen files.new))
        (files_of (commands.Upgrade command.now)) (IsOk result) }
    ensures ends { WentAimed
        (sinks (O.seen out.old) (O.seen out.new) (U.seen audit.old) (U.seen audit.new))
        (EndsUpgrade
        (sight (F.seen files.old) (F.seen files.new) (O.seen out.old) (O.seen out.new)
        (U.seen audit.old) (U.seen audit.new) (K.seen vault.old) (K.seen vault.new))
        (commands.Upgrade command.now) result) }
{
    let old = match read_app(alloc, files, &command.app) {
        Ok(service) => service,
        Err(exit_reason) => return Err(exit_reason),
    };
    let next = match read_file(alloc, files, &command.next, Role::New) {
        Ok(next) => next,
        Err(exit_reason) => return Err(exit_reason),
    };
    let new = match open_next(alloc, next.as_slice()) {
        Ok(service) => service,
        Err(exit_reason) => return Err(exit_reason),
    };
    upgrade_store(alloc, &old, &new, &command.db, out, vault, splits)
}

// Upgrades the store to the second application, if that extends the first.
fn upgrade_store<O: Sink, K: Vault, L: Ledger>(
    alloc: Global,
    old: &Service,
    new: &Service,
    db: &Txt,
    out: &mut O,
    vault: &mut K,
    splits: &mut Steps<L>,
) -> Result<(), ExitReason>
    requires first { (K.seen vault.old).store.called ≡ false }
    requires well { IsTrue (is_well (application_of old.now)) }
    ensures { Closed (span (O.seen out.old) (O.seen out.new))
        (EndsUpgrading (Some db.now) (application_of old.now) (application_of new.now)
        (span (O.seen out.old) (O.seen out.new))
        (span (K.seen vault.old) (K.seen vault.new)) result) }
{
    match extends(old.app(), new.app()) {
        Ok(()) => move_store(alloc, old, new, db, out, vault, splits),
        Err(fault) => Err(lacking(alloc, old.app(), fault)),
    }
}

// Why the second application doesn't extend the first.
fn lacking(alloc: Global, old: &App, fault: UpgradeFault) -> ExitReason
    ensures { (result ≡ ExitReason.UpgradeRefused (lack_line (application_of old.now).models fault))
        ⊎ (result ≡ ExitReason.Memory) }
{
    match lack_line(alloc, old.models.as_slice(), fault) {
        Ok(line) => ExitReason::UpgradeRefused(line),
        Err(Memory) => ExitReason::Memory,
    }
}

fn lack_line(alloc: Global, models: &[ModelDef], fault: UpgradeFault) -> Result<Txt, Memory>
    ensures { IfOk result (λ line. line ≡ lack_line (entities_of models.now) fault) }
{
    match fault {
        UpgradeFault::Model(model) => model_line(alloc, model_name(models, model)),
        UpgradeFault::Field { model, field } => {
            let name = field_name(fields_of(models, model), field);
            field_line(alloc, model_name(models, model), name)
        }
        UpgradeFault::Group { model, group } => {
            group_line(alloc, model_name(models, model), group)
        }
    }
}

fn model_line(alloc: Global, model: &str) -> Result<Txt, Memory>
    ensures { IfOk result (λ line. line ≡ codes "upgrade: model " ++ (model.now ++ 10 ∷ [])) }
{
    let line = format!(in alloc; "upgrade: model {model}\n")?;
    Ok(Txt::from_string(line))
}

fn field_line(alloc: Global, model: &str, field: &str) -> Result<Txt, Memory>
    ensures { IfOk result (λ line. line ≡ codes "upgrade: field "
        ++ (model.now ++ (codes " " ++ (field.now ++ 10 ∷ [])))) }
{
    let line = format!(in alloc; "upgrade: field {model} {field}\n")?;
    Ok(Txt::from_string(line))
}

fn group_line(alloc: Global, model: &str, group: u8) -> Result<Txt, Memory>
    ensures { IfOk result (λ line. line ≡ codes "upgrade: group "
        ++ (model.now ++ (codes " " ++ (decimal group ++ 10 ∷ [])))) }
{
    let line = format!(in alloc; "upgrade: group {model} {group}\n")?;
    Ok(Txt::from_string(line))
}

// The name of the model at this place.
#[tactic(auto, using(jac_check::proofs::NameAt::name_found, jac_check::proofs::NameAt::name_missing))]
fn model_name(models: &[ModelDef], model: u8) -> &str
    ensures { result.now ≡ entity_name (slice_get (entities_of models.now) model) }
{
    let place = usize::from(model);
    if place < models.len() {
        models[place].name.as_str()
    } else {
        ""
    }
}

// The fields of the model at this place.
#[tactic(auto, using(crate::proofs::UpgradeLemmas::fields_found, crate::proofs::UpgradeLemmas::fields_missing))]
fn fields_of(models: &[ModelDef], model: u8) -> &[Field]
    ensures { result.now ≡ fields_at (entities_of models.now) model }
{
    let place = usize::from(model);
    if place < models.len() {
        models[place].fields.as_slice()
    } else {
        &[]
    }
}

// The name of the field at this place.
#[tactic(auto, using(crate::proofs::UpgradeLemmas::field_found, crate::proofs::UpgradeLemmas::field_missing))]
fn field_name(fields: &[Field], field: u8) -> &str
    ensures { result.now ≡ field_name_in (slice_get fields.now field) }
{
    let place = usize::from(field);
    if place < fields.len() {
        fields[place].name.as_str()
    } else {
        ""
    }
}

// Attaches the store for the first application, and upgrades it to the second.
fn move_store<O: Sink, K: Vault, L: Ledger>(
    alloc: Global,
    old: &Service,
    new: &Service,
    db: &Txt,
    out: &mut O,
    vault: &mut K,
    splits: &mut Steps<L>,
) -> Result<(), ExitReason>
    requires first { (K.seen vault.old).store.called ≡ false }
    requires well { IsTrue (is_well (application_of old.now)) }
    requires extends { models_lack 0 (application_of old.now).models (application_of new.now).models
        ≡ None }
    ensures { Closed (span (O.seen out.old) (O.seen out.new))
        (EndsMoving (Some db.now) (application_of old.now) (application_of new.now)
        (span (O.seen out.old) (O.seen out.new))
        (span (K.seen vault.old) (K.seen vault.new)) result) }
{
    let schema = match old.schema(alloc) {
        Ok(schema) => schema,
        Err(Memory) => return Err(ExitReason::Memory),
    };
    match attach(alloc, old, Some(db), schema, vault) {
        Ok(()) => move_attached(alloc, old, new, out, vault, splits),
        Err(exit_reason) => Err(exit_reason),
    }
}

// Upgrades the attached store to the second application, and puts the number of its records.
fn move_attached<O: Sink, K: Vault, L: Ledger>(
    alloc: Global,
    old: &Service,
    new: &Service,
    out: &mut O,
    vault: &mut K,
    splits: &mut Steps<L>,
) -> Result<(), ExitReason>
    requires attached { IsTrue (K.seen vault.old).store.attached }
    requires fit { IsTrue (K.seen vault.old).tells →
        IsFit (shapes_of (application_of old.now)) (K.seen vault.old).state }
    requires well { IsTrue (is_well (application_of old.now)) }
    requires extends { models_lack 0 (application_of old.now).models (application_of new.now).models
        ≡ None }
    ensures { Closed (span (O.seen out.old) (O.seen out.new))
        (EndsReshaping (application_of old.now) (application_of new.now)
        (span (O.seen out.old) (O.seen out.new))
        (span (K.seen vault.old) (K.seen vault.new)) result) }
{
    match move_records(alloc, old, new, vault, splits) {
        Ok(count) => match put_upgraded(out, count) {
            Ok(()) => Ok(()),
            Err(Failed) => Err(ExitReason::WriteFault),
        },
        Err(Stop::Keeper) => Err(ExitReason::StoreFault),
        Err(Stop::Memory) => Err(ExitReason::Memory),
    }
}

// Puts the number of records. It needs no memory.
fn put_upgraded<O: Sink>(out: &mut O, count: usize) -> Result<(), Failed>
    ensures { IsPut (span (O.seen out.old) (O.seen out.new)) (upgraded_line count) result }
{
    let mut buffer = Buffer::new();
    let digits = buffer.format(count);
    put_three(out, b"upgraded ", digits.as_bytes(), b" records\n")
}

// Makes the change that upgrades each record to the second application, and applies it under the
// new schema.
fn move_records<K: Vault, L: Ledger>(
    alloc: Global,
    old: &Service,
    new: &Service,
    vault: &mut K,
    splits: &mut Steps<L>,
) -> Result<usize, Stop>
    requires attached { IsTrue (K.seen vault.old).store.attached }
    requires fit { IsTrue (K.seen vault.old).tells →
        IsFit (shapes_of (application_of old.now)) (K.seen vault.old).state }
    requires well { IsTrue (is_well (application_of old.now)) }
    requires extends { models_lack 0 (application_of old.now).models (application_of new.now).models
        ≡ None }
    ensures upgraded { IfOk result (IsUpgraded (application_of old.now) (application_of new.now)
        (span (K.seen vault.old) (K.seen vault.new))) }
    ensures left { OnErr result (IsLeft (K.seen vault.old) (K.seen vault.new)) }
    ensures rose { IsErrOf result Failing →
        Rose (K.seen vault.old).faults (K.seen vault.new).faults }
{
    let change = jac_upgrade::upgrade(alloc, vault, old.app(), new.app(), splits)?;
    let schema = new.schema(alloc)?;
    let count = change.changed.as_slice().len();
    vault.reshape(alloc, &change, &schema)?;
    Ok(count)
}
