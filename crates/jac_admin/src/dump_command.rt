//! Prints the tables of a store, as they look if some labels are shown.
ghost use Rattle.std.specs.Prelude.{◌≡◌, ◌≤◌, ◌+◌, ◌++◌, [], length, map, if◌then◌else◌, IfOk, IsOk, OnOk, IsErrOf, IsTrue, codes, false};
ghost use Rattle.jac_io.specs.Faults.{Rose};
ghost use Rattle.jac_world.specs.World.{shown_by, holds};
ghost use Rattle.jac_lang.specs.Mirror.{application_of, entities_of, entity_of};
ghost use Rattle.jac_rows.specs.Project.{rows_at, project_at};
ghost use Rattle.jac_rows.specs.Tables.{rows_of};
ghost use Rattle.jac_keep.specs.KeeperSeen.{IsLeft};
ghost use Rattle.jac_keep.specs.declared.stop.Stop.TheVariants.{Keeper as Failing};
ghost use Rattle.jac_cli.specs.declared.words.Command.TheVariants as commands;
ghost use Rattle.jac_serve_events.specs.Outside.{WentAimed, span, sinks};
ghost use Rattle.jac_command_base.specs.Files.{AsksForFiles, files_of, sight};
ghost use Rattle.jac_command_base.specs.ExitReason.{Closed};
ghost use Rattle.jac_admin.specs.Dump.{cell_text, cells_text, record_line, table_text, tables_text, number_line, dump_text, EndsRead, EndsDump};

use itoa::Buffer;
use jac_app_load::Service;
use jac_cli::DumpArgs;
use jac_command_base::{ExitReason, StoreCommand, open_store};
use jac_io::{AuditSink, Failed, Files, Sink};
use jac_keep::{Stop, Vault};
use jac_lang::{App, Field, ModelDef};
use jac_rows::Row;
use jac_serve_events::put;
use jac_value::{Bytes, Memory, Value, escape_line};
use jac_world::Assignment;
use std::alloc::Global;

/// The steps of a dump. They read the application, attach the store, and write a line for each
/// record that is visible if these labels are shown.
pub fn dump<F: Files, O: Sink, U: AuditSink, K: Vault>(
    alloc: Global,
    command: &DumpArgs,
    files: &mut F,
    out: &mut O,
    audit: &mut U,
    vault: &mut K,
) -> Result<(), ExitReason>
    requires first { (K.seen vault.old).store.called ≡ false }
    ensures asks { AsksForFiles (span (F.seen files.old) (F.seen files.new))
        (files_of (commands.Dump command.now)) (IsOk result) }
    ensures ends { WentAimed (sinks (O.seen out.old) (O.seen out.new) (U.seen audit.old)
        (U.seen audit.new))
        (EndsDump (sight (F.seen files.old) (F.seen files.new) (O.seen out.old) (O.seen out.new)
        (U.seen audit.old) (U.seen audit.new) (K.seen vault.old) (K.seen vault.new))
        (commands.Dump command.now) result) }
{
    let assignment = match command.labels.assignment(alloc) {
        Ok(assignment) => assignment,
        Err(Memory) => return Err(ExitReason::Memory),
    };
    let opened = match open_store(alloc, StoreCommand::Dump(command), files, audit, vault) {
        Ok(opened) => opened,
        Err(exit_reason) => return Err(exit_reason),
    };
    dump_attached(alloc, &opened.service, &assignment, out, vault)
}

// Reads the store, and puts its text.
fn dump_attached<O: Sink, K: Vault>(
    alloc: Global,
    service: &Service,
    assignment: &Assignment,
    out: &mut O,
    vault: &mut K,
) -> Result<(), ExitReason>
    requires attached { IsTrue (K.seen vault.old).store.attached }
    ensures left { IsLeft (K.seen vault.old) (K.seen vault.new) }
    ensures ends { Closed (span (O.seen out.old) (O.seen out.new))
        (EndsRead (application_of service.now) (shown_by assignment.now)
        (span (O.seen out.old) (O.seen out.new)) (span (K.seen vault.old) (K.seen vault.new))
        result) }
{
    match state_text(alloc, service.app(), assignment, vault) {
        Ok(text) => match put(out, text.as_slice()) {
            Ok(()) => Ok(()),
            Err(Failed) => Err(ExitReason::WriteFault),
        },
        Err(Stop::Keeper) => Err(ExitReason::StoreFault),
        Err(Stop::Memory) => Err(ExitReason::Memory),
    }
}

fn state_text<K: Vault>(
    alloc: Global,
    app: &App,
    assignment: &Assignment,
    vault: &mut K,
) -> Result<Bytes, Stop>
    requires attached { IsTrue (K.seen vault.old).store.attached }
    ensures text { IsTrue (K.seen vault.new).tells
        → IfOk result (λ text. text ≡ dump_text (application_of app.now)
        (project_at (shown_by assignment.now) (K.seen vault.new).state)) }
    ensures left { IsLeft (K.seen vault.old) (K.seen vault.new) }
    ensures rose { IsErrOf result Failing
        → Rose (K.seen vault.old).faults (K.seen vault.new).faults }
{
    let mut text = Vec::new(alloc);
    push_tables(alloc, &mut text, app.models.as_slice(), assignment, vault)?;
    let number = vault.number()?;
    push_number(&mut text, number)?;
    Ok(Bytes::from_vec(text))
}

fn push_number(text: &mut Vec<u8>, number: u64) -> Result<(), Memory>
    ensures { OnOk result (text.new.items ≡ text.old.items ++ number_line number) }
{
    let mut buffer = Buffer::new();
    let digits = buffer.format(number);
    text.extend_from_slice(b"number ")?;
    text.extend_from_slice(digits.as_bytes())?;
    text.extend_from_slice(b"\n")?;
    Ok(())
}

// Appends the tables of all models, one after another.
fn push_tables<K: Vault>(
    alloc: Global,
    text: &mut Vec<u8>,
    models: &[ModelDef],
    assignment: &Assignment,
    vault: &mut K,
) -> Result<(), Stop>
    requires few { length models.now ≤ 64 }
    requires attached { IsTrue (K.seen vault.old).store.attached }
    ensures text { IsTrue (K.seen vault.new).tells
        → OnOk result (text.new.items ≡ text.old.items ++ tables_text (entities_of models.now) 0
        (map (rows_at (shown_by assignment.now)) (K.seen vault.old).state.tables)) }
    ensures left { IsLeft (K.seen vault.old) (K.seen vault.new) }
    ensures rose { IsErrOf result Failing
        → Rose (K.seen vault.old).faults (K.seen vault.new).faults }
{
    let mut place = 0;
    let mut left = models;
    'models: while let Some((model, rest)) = left.split_first() {
        push_model(alloc, text, place, model, assignment, vault)?;
        place += 1;
        left = rest;
    }
    Ok(())
}

// Appends the table of the model at this place.
fn push_model<K: Vault>(
    alloc: Global,
    text: &mut Vec<u8>,
    place: u8,
    model: &ModelDef,
    assignment: &Assignment,
    vault: &mut K,
) -> Result<(), Stop>
    requires attached { IsTrue (K.seen vault.old).store.attached }
    ensures text { IsTrue (K.seen vault.new).tells
        → OnOk result (text.new.items ≡ text.old.items ++ table_text (entity_of model.now)
        (rows_at (shown_by assignment.now) (rows_of (K.seen vault.old).state.tables place))) }
    ensures left { IsLeft (K.seen vault.old) (K.seen vault.new) }
    ensures rose { IsErrOf result Failing
        → Rose (K.seen vault.old).faults (K.seen vault.new).faults }
{
    let rows = vault.rows(alloc, place)?;
    push_rows(alloc, text, model, rows.as_slice(), assignment)?;
    Ok(())
}

// Appends the rows whose guard holds.
fn push_rows(
    alloc: Global,
    text: &mut Vec<u8>,
    model: &ModelDef,
    rows: &[Row],
    assignment: &Assignment,
) -> Result<(), Memory>
    ensures { OnOk result (text.new.items ≡ text.old.items ++ table_text (entity_of model.now)
        (rows_at (shown_by assignment.now) rows.now)) }
{
    'rows: for row in rows {
        push_row(alloc, text, model, row, assignment)?;
    }
    Ok(())
}

// Appends the row, if its guard holds.
fn push_row(
    alloc: Global,
    text: &mut Vec<u8>,
    model: &ModelDef,
    row: &Row,
    assignment: &Assignment,
) -> Result<(), Memory>
    ensures { OnOk result (text.new.items ≡ text.old.items
        ++ (if holds (shown_by assignment.now) row.now.guard then record_line (entity_of model.now)
        (record { id = row.now.id; cells = row.now.cells }) else [])) }
{
    if row.guard.holds(assignment) {
        push_record(alloc, text, model, row)?;
    }
    Ok(())
}

fn push_record(alloc: Global, text: &mut Vec<u8>, model: &ModelDef, row: &Row) -> Result<(), Memory>
    ensures { OnOk result (text.new.items ≡ text.old.items ++ record_line (entity_of model.now)
        (record { id = row.now.id; cells = row.now.cells })) }
{
    let mut buffer = Buffer::new();
    let digits = buffer.format(row.id.0);
    text.extend_from_slice(model.name.as_bytes())?;
    text.extend_from_slice(b" ")?;
    text.extend_from_slice(digits.as_bytes())?;
    push_cells(alloc, text, model.fields.as_slice(), row.cells.as_slice())?;
    text.extend_from_slice(b"\n")?;
    Ok(())
}

// Appends each field with its value.
fn push_cells(
    alloc: Global,
    text: &mut Vec<u8>,
    fields: &[Field],
    values: &[Value],
) -> Result<(), Memory>
    ensures { OnOk result (text.new.items ≡ text.old.items ++ cells_text fields.now values.now) }
{
    let mut fields = fields;
    let mut values = values;
    'cells: while let (Some((field, more_fields)), Some((value, more_values))) = (
        fields.split_first(),
        values.split_first(),
    ) {
        push_field(alloc, text, field, value)?;
        fields = more_fields;
        values = more_values;
    }
    Ok(())
}

fn push_field(alloc: Global, text: &mut Vec<u8>, field: &Field, value: &Value) -> Result<(), Memory>
    ensures { OnOk result (text.new.items ≡ text.old.items
        ++ (codes " " ++ (field.now.name ++ (codes "=" ++ cell_text value.now)))) }
{
    text.extend_from_slice(b" ")?;
    text.extend_from_slice(field.name.as_bytes())?;
    text.extend_from_slice(b"=")?;
    push_value(alloc, text, value)?;
    Ok(())
}

fn push_value(alloc: Global, text: &mut Vec<u8>, value: &Value) -> Result<(), Memory>
    ensures { OnOk result (text.new.items ≡ text.old.items ++ cell_text value.now) }
{
    let mut buffer = Buffer::new();
    match value {
        Value::Int(number) => text.extend_from_slice(buffer.format(*number).as_bytes())?,
        Value::Text(words) => {
            let quoted = escape_line(alloc, words.as_bytes())?;
            text.extend_from_slice(quoted.as_bytes())?;
        }
        Value::Bool(true) => text.extend_from_slice(b"true")?,
        Value::Bool(false) => text.extend_from_slice(b"false")?,
        Value::Ref(None) => text.extend_from_slice(b"none")?,
        Value::Ref(Some(id)) => text.extend_from_slice(buffer.format(id.0).as_bytes())?,
    }
    Ok(())
}
