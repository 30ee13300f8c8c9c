ghost use Rattle.std.specs.Prelude.{◌≡◌, false, IfOk};
ghost use Rattle.clap.specs.Words.{app_of, rule_of, with_rule};
ghost use Rattle.clap.specs.declared.Command.TheViews.{out-Command};
ghost use Rattle.jac_cli.specs.Grammar.{operand_rule, option_rule, with_operand, with_option, with_flag, with_files, check_app, replay_app, serve_app, demo_app, dump_app, upgrade_app, why_app, bare_app, with_command, jac};

use clap::{Arg, ArgAction, Command};
use jac_value::Memory;
use std::alloc::Global;

/// The seven commands with their operands and options.
pub(super) fn jac<'a>(alloc: Global) -> Result<Command<'a>, Memory>
    ensures { IfOk result (λ c. app_of c ≡ jac) }
{
    let command = bare(alloc);
    let command = with_command(command, check(alloc)?)?;
    let command = with_command(command, replay(alloc)?)?;
    let command = with_command(command, serve(alloc)?)?;
    let command = with_command(command, demo(alloc)?)?;
    let command = with_command(command, dump(alloc)?)?;
    let command = with_command(command, upgrade(alloc)?)?;
    with_command(command, why(alloc)?)
}

// A grammar without commands, and without an option or a word for help.
fn bare<'a>(alloc: Global) -> Command<'a>
    ensures { app_of result ≡ bare_app }
{
    Command::new(alloc, "jac")
        .no_binary_name(true)
        .disable_help_flag(true)
        .disable_help_subcommand(true)
        .subcommand_required(true)
}

fn check<'a>(alloc: Global) -> Result<Command<'a>, Memory>
    ensures app { IfOk result (λ c. app_of c ≡ check_app) }
    ensures local { IfOk result (λ c. (out-Command c).has_globals ≡ false) }
{
    with_operand(alloc, Command::new(alloc, "check"), "APP")
}

fn replay<'a>(alloc: Global) -> Result<Command<'a>, Memory>
    ensures app { IfOk result (λ c. app_of c ≡ replay_app) }
    ensures local { IfOk result (λ c. (out-Command c).has_globals ≡ false) }
{
    let command = Command::new(alloc, "replay");
    let command = with_operand(alloc, command, "APP")?;
    let command = with_operand(alloc, command, "EVENTS")?;
    let command = with_files(alloc, command)?;
    with_flag(alloc, command, "lazy")
}

fn serve<'a>(alloc: Global) -> Result<Command<'a>, Memory>
    ensures app { IfOk result (λ c. app_of c ≡ serve_app) }
    ensures local { IfOk result (λ c. (out-Command c).has_globals ≡ false) }
{
    let command = Command::new(alloc, "serve");
    let command = with_operand(alloc, command, "APP")?;
    let command = with_operand(alloc, command, "PORT")?;
    let command = with_operand(alloc, command, "COUNT")?;
    let command = with_files(alloc, command)?;
    with_flag(alloc, command, "lazy")
}

fn demo<'a>(alloc: Global) -> Result<Command<'a>, Memory>
    ensures app { IfOk result (λ c. app_of c ≡ demo_app) }
    ensures local { IfOk result (λ c. (out-Command c).has_globals ≡ false) }
{
    with_operand(alloc, Command::new(alloc, "demo"), "N")
}

fn dump<'a>(alloc: Global) -> Result<Command<'a>, Memory>
    ensures app { IfOk result (λ c. app_of c ≡ dump_app) }
    ensures local { IfOk result (λ c. (out-Command c).has_globals ≡ false) }
{
    let command = Command::new(alloc, "dump");
    let command = with_operand(alloc, command, "APP")?;
    let command = with_operand(alloc, command, "LABELS")?;
    with_option(alloc, command, "db")
}

fn upgrade<'a>(alloc: Global) -> Result<Command<'a>, Memory>
    ensures app { IfOk result (λ c. app_of c ≡ upgrade_app) }
    ensures local { IfOk result (λ c. (out-Command c).has_globals ≡ false) }
{
    let command = Command::new(alloc, "upgrade");
    let command = with_operand(alloc, command, "OLD")?;
    let command = with_operand(alloc, command, "NEW")?;
    with_option(alloc, command, "db")
}

fn why<'a>(alloc: Global) -> Result<Command<'a>, Memory>
    ensures app { IfOk result (λ c. app_of c ≡ why_app) }
    ensures local { IfOk result (λ c. (out-Command c).has_globals ≡ false) }
{
    let command = Command::new(alloc, "why");
    let command = with_operand(alloc, command, "APP")?;
    let command = with_operand(alloc, command, "VIEWER")?;
    with_option(alloc, command, "db")
}

fn with_files<'a>(alloc: Global, command: Command<'a>) -> Result<Command<'a>, Memory>
    ensures app { IfOk result (λ c. app_of c ≡ with_files (app_of command.entry)) }
    ensures local { IfOk result (λ c.
        (out-Command c).has_globals ≡ (out-Command command.entry).has_globals) }
{
    let command = with_option(alloc, command, "db")?;
    let command = with_option(alloc, command, "sessions")?;
    with_option(alloc, command, "audit")
}

fn with_operand<'a>(
    alloc: Global,
    command: Command<'a>,
    name: &'a str,
) -> Result<Command<'a>, Memory>
    ensures app { IfOk result (λ c. app_of c ≡ with_operand name.entry.now (app_of command.entry)) }
    ensures local { IfOk result (λ c.
        (out-Command c).has_globals ≡ (out-Command command.entry).has_globals) }
{
    let operand = Arg::new(alloc, name).action(ArgAction::Set).required(true);
    with_argument(command, operand)
}

fn with_option<'a>(
    alloc: Global,
    command: Command<'a>,
    name: &'a str,
) -> Result<Command<'a>, Memory>
    ensures app { IfOk result (λ c. app_of c ≡ with_option name.entry.now (app_of command.entry)) }
    ensures local { IfOk result (λ c.
        (out-Command c).has_globals ≡ (out-Command command.entry).has_globals) }
{
    let option = Arg::new(alloc, name).long(name).action(ArgAction::Set);
    with_argument(command, option)
}

fn with_flag<'a>(alloc: Global, command: Command<'a>, name: &'a str) -> Result<Command<'a>, Memory>
    ensures app { IfOk result (λ c. app_of c ≡ with_flag name.entry.now (app_of command.entry)) }
    ensures local { IfOk result (λ c.
        (out-Command c).has_globals ≡ (out-Command command.entry).has_globals) }
{
    let flag = Arg::new(alloc, name).long(name).action(ArgAction::SetTrue);
    with_argument(command, flag)
}

fn with_argument<'a>(command: Command<'a>, argument: Arg<'a>) -> Result<Command<'a>, Memory>
    requires local { argument.global ≡ false }
    ensures app { IfOk result (λ c. app_of c ≡ with_rule (app_of command.entry)
        (rule_of argument.entry)) }
    ensures local { IfOk result (λ c.
        (out-Command c).has_globals ≡ (out-Command command.entry).has_globals) }
{
    let command = command.arg(argument)?;
    Ok(command)
}

fn with_command<'a>(command: Command<'a>, sub: Command<'a>) -> Result<Command<'a>, Memory>
    requires local { (out-Command sub).has_globals ≡ false }
    ensures { IfOk result (λ c. app_of c ≡ with_command (app_of sub.entry) (app_of command.entry)) }
{
    let command = command.subcommand(sub)?;
    Ok(command)
}
