ghost use Rattle.std.specs.Prelude.{◌≡◌, length, IfOk, IsOk};
ghost use Rattle.jac_cli.specs.declared.words.Command.TheVariants as commands;
ghost use Rattle.jac_lang.specs.Mirror.{application_of};
ghost use Rattle.jac_serve_events.specs.Outside.{IsPut, WentAimed, span, sinks};
ghost use Rattle.jac_command_base.specs.Files.{AsksForFiles, files_of, sight};
ghost use Rattle.jac_app.specs.Check.{EndsCheck, checked_text};

use itoa::Buffer;
use jac_app_load::Service;
use jac_command_base::{ExitReason, read_app};
use jac_io::{AuditSink, Failed, Files, Sink};
use jac_keep::Keeper;
use jac_lang::App;
use jac_serve_events::put_five;
use jac_value::Txt;
use std::alloc::Global;

/// The steps of a check. They read the application, and put its counts.
pub fn check<F: Files, O: Sink, U: AuditSink, K: Keeper>(
    alloc: Global,
    name: &Txt,
    files: &mut F,
    out: &mut O,
    audit: &mut U,
    vault: &mut K,
) -> Result<(), ExitReason>
    ensures asks { AsksForFiles (span (F.seen files.old) (F.seen files.new))
        (files_of (commands.Check name.now)) (IsOk result) }
    ensures ends { WentAimed (sinks (O.seen out.old) (O.seen out.new) (U.seen audit.old)
        (U.seen audit.new))
        (EndsCheck (sight (F.seen files.old) (F.seen files.new) (O.seen out.old) (O.seen out.new)
        (U.seen audit.old) (U.seen audit.new) (K.seen vault.old) (K.seen vault.new))
        (commands.Check name.now) result) }
{
    let service = match read_app(alloc, files, name) {
        Ok(service) => service,
        Err(exit_reason) => return Err(exit_reason),
    };
    match put_counts(out, &service) {
        Ok(()) => Ok(()),
        Err(Failed) => Err(ExitReason::WriteFault),
    }
}

fn put_counts<O: Sink>(out: &mut O, service: &Service) -> Result<(), Failed>
    ensures { IsPut (span (O.seen out.old) (O.seen out.new))
        (checked_text (application_of service.now)) result }
{
    let app = service.app();
    let mut models = Buffer::new();
    let mut views = Buffer::new();
    let model_digits = models.format(model_count(app));
    let view_digits = views.format(view_count(app));
    put_five(
        out,
        b"ok ",
        model_digits.as_bytes(),
        b" models, ",
        view_digits.as_bytes(),
        b" views\n",
    )
}

fn model_count(app: &App) -> u64
    ensures { result ≡ length (application_of app.now).models }
{
    app.models.as_slice().len() as u64
}

fn view_count(app: &App) -> u64
    ensures { result ≡ length (application_of app.now).views }
{
    app.views.as_slice().len() as u64
}
