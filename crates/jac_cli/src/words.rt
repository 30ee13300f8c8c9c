ghost use Rattle.std.specs.Prelude.{◌≡◌, ◌≢◌, ◌≤◌, IfOk, IfSome, None, codes, map};
ghost use Rattle.std.specs.Option.{option_map, option_and_then};
ghost use Rattle.clap.specs.Words.{first_of, found_of, kind_of, rows_of, subcommand_rows_of};
ghost use Rattle.jac_value.specs.Visitors.{viewer_read};
ghost use Rattle.jac_cli.specs.Words.{filled_text, labels_of_word, file_in, option_in, flag_in, positive_number, number_within, options_in, check_in, replay_in, serve_in, demo_in, dump_in, upgrade_in, why_in, command_named, entered_command, command_of};

mod grammar;
mod labels;
mod numbers;

use clap::error::ErrorKind;
use clap::{ArgMatches, Error};
use grammar::jac;
use jac_value::{Memory, Txt, read_viewer};
pub use labels::Labels;
use labels::labels_of;
use numbers::number_within;
use std::alloc::Global;

/// The command that the words give.
#[derive(Drop)]
pub enum Command {
    /// The application's file.
    Check(Txt),
    Replay(Replay),
    Serve(ServeArgs),
    /// The number of events, from 1 to 2,000.
    Demo(u64),
    Dump(DumpArgs),
    Upgrade(UpgradeArgs),
    Why(WhyArgs),
}

/// The files of a replay, and whether its pages are made lazily.
#[derive(Drop)]
pub struct Replay {
    pub app: Txt,
    pub events: Txt,
    pub sessions: Option<Txt>,
    pub audit: Option<Txt>,
    pub db: Option<Txt>,
    /// A page of a GET resolves only the labels that it consults.
    pub lazy: bool,
}

/// An application to serve, on a port from 1 on, for 1 to 1,000,000 connections.
#[derive(Drop)]
pub struct ServeArgs {
    pub app: Txt,
    pub port: u16,
    pub count: u32,
    pub sessions: Option<Txt>,
    pub audit: Option<Txt>,
    pub db: Option<Txt>,
    /// A page of a GET resolves only the labels that it consults.
    pub lazy: bool,
}

/// A store to print, as it looks if these labels are shown.
#[derive(Drop)]
pub struct DumpArgs {
    pub app: Txt,
    pub labels: Labels,
    pub db: Option<Txt>,
}

/// A store of an application, to upgrade to the next application.
#[derive(Drop)]
pub struct UpgradeArgs {
    pub app: Txt,
    pub next: Txt,
    pub db: Txt,
}

/// A store to explain: what prevents each label that a viewer isn't shown. The viewer is the number
/// of a record, as the word has it.
#[derive(Drop)]
pub struct WhyArgs {
    pub app: Txt,
    pub viewer: Option<u128>,
    pub db: Option<Txt>,
}

// The values of the options of a command that serves.
#[derive(Drop)]
struct Options {
    db: Option<Txt>,
    sessions: Option<Txt>,
    audit: Option<Txt>,
    lazy: bool,
}

/// The command that the words after the program's name give. None isn't an error: the caller shows
/// the usage.
pub fn command_of(alloc: Global, words: &[Txt]) -> Result<Option<Command>, Memory>
    ensures { IfOk result (λ command. command ≡ command_of words.now) }
{
    let texts = texts_of(alloc, words)?;
    let grammar = jac(alloc)?;
    match grammar.try_get_matches_from(texts.as_slice()) {
        Ok(matches) => entered(alloc, &matches),
        Err(error) => refused(&error),
    }
}

fn texts_of(alloc: Global, words: &[Txt]) -> Result<Vec<&str>, Memory>
    ensures { IfOk result (λ texts. map (λ text. text.now) texts.items ≡ words.now) }
{
    let mut texts = Vec::new(alloc);
    let mut left = words;
    'words: while let Some((word, rest)) = left.split_first() {
        texts.push(word.as_str())?;
        left = rest;
    }
    Ok(texts)
}

// Words that clap refuses are no command.
fn refused(error: &Error) -> Result<Option<Command>, Memory>
    ensures { IfOk result (λ command. (command ≡ None)
        × (kind_of error.now ≢ ErrorKind.OutOfMemory)) }
{
    match error.kind() {
        ErrorKind::OutOfMemory => Err(Memory),
        _ => Ok(None),
    }
}

fn entered(alloc: Global, matches: &ArgMatches<'_>) -> Result<Option<Command>, Memory>
    ensures { IfOk result (λ command. command ≡ entered_command (subcommand_rows_of matches.now)) }
{
    match matches.subcommand() {
        Some((name, inner)) => command_named(alloc, name, inner),
        None => Ok(None),
    }
}

fn command_named(
    alloc: Global,
    name: &str,
    matches: &ArgMatches<'_>,
) -> Result<Option<Command>, Memory>
    ensures { IfOk result (λ command. command ≡ command_named name.now
        (rows_of (found_of matches.now))) }
{
    if name == "check" {
        return check_in(alloc, matches);
    }
    if name == "replay" {
        return replay_in(alloc, matches);
    }
    if name == "serve" {
        return serve_in(alloc, matches);
    }
    if name == "demo" {
        return Ok(demo_in(matches));
    }
    if name == "dump" {
        return dump_in(alloc, matches);
    }
    if name == "upgrade" {
        return upgrade_in(alloc, matches);
    }
    if name == "why" {
        return why_in(alloc, matches);
    }
    Ok(None)
}

fn check_in(alloc: Global, matches: &ArgMatches<'_>) -> Result<Option<Command>, Memory>
    ensures { IfOk result (λ command. command ≡ check_in (rows_of (found_of matches.now))) }
{
    let Some(app) = file_in(alloc, matches, "APP")? else {
        return Ok(None);
    };
    Ok(Some(Command::Check(app)))
}

fn replay_in(alloc: Global, matches: &ArgMatches<'_>) -> Result<Option<Command>, Memory>
    ensures { IfOk result (λ command. command ≡ replay_in (rows_of (found_of matches.now))) }
{
    let Some(app) = file_in(alloc, matches, "APP")? else {
        return Ok(None);
    };
    let Some(events) = file_in(alloc, matches, "EVENTS")? else {
        return Ok(None);
    };
    let Some(options) = options_in(alloc, matches)? else {
        return Ok(None);
    };
    Ok(Some(Command::Replay(Replay {
        app,
        events,
        sessions: options.sessions,
        audit: options.audit,
        db: options.db,
        lazy: options.lazy,
    })))
}

fn serve_in(alloc: Global, matches: &ArgMatches<'_>) -> Result<Option<Command>, Memory>
    ensures { IfOk result (λ command. command ≡ serve_in (rows_of (found_of matches.now))) }
{
    let Some(app) = file_in(alloc, matches, "APP")? else {
        return Ok(None);
    };
    let Some(port) = port_in(matches) else {
        return Ok(None);
    };
    let Some(count) = count_in(matches) else {
        return Ok(None);
    };
    let Some(options) = options_in(alloc, matches)? else {
        return Ok(None);
    };
    Ok(Some(Command::Serve(ServeArgs {
        app,
        port,
        count,
        sessions: options.sessions,
        audit: options.audit,
        db: options.db,
        lazy: options.lazy,
    })))
}

fn demo_in(matches: &ArgMatches<'_>) -> Option<Command>
    ensures { result ≡ demo_in (rows_of (found_of matches.now)) }
{
    let number = number_in(matches, "N", 2_000)?;
    Some(Command::Demo(number))
}

fn dump_in(alloc: Global, matches: &ArgMatches<'_>) -> Result<Option<Command>, Memory>
    ensures { IfOk result (λ command. command ≡ dump_in (rows_of (found_of matches.now))) }
{
    let Some(app) = file_in(alloc, matches, "APP")? else {
        return Ok(None);
    };
    let Some(labels) = labels_in(alloc, matches)? else {
        return Ok(None);
    };
    let Some(db) = option_in(alloc, matches, "db")? else {
        return Ok(None);
    };
    Ok(Some(Command::Dump(DumpArgs { app, labels, db })))
}

fn upgrade_in(alloc: Global, matches: &ArgMatches<'_>) -> Result<Option<Command>, Memory>
    ensures { IfOk result (λ command. command ≡ upgrade_in (rows_of (found_of matches.now))) }
{
    let Some(app) = file_in(alloc, matches, "OLD")? else {
        return Ok(None);
    };
    let Some(next) = file_in(alloc, matches, "NEW")? else {
        return Ok(None);
    };
    let Some(db) = file_in(alloc, matches, "db")? else {
        return Ok(None);
    };
    Ok(Some(Command::Upgrade(UpgradeArgs { app, next, db })))
}

fn why_in(alloc: Global, matches: &ArgMatches<'_>) -> Result<Option<Command>, Memory>
    ensures { IfOk result (λ command. command ≡ why_in (rows_of (found_of matches.now))) }
{
    let Some(app) = file_in(alloc, matches, "APP")? else {
        return Ok(None);
    };
    let Some(viewer) = viewer_in(matches) else {
        return Ok(None);
    };
    let Some(db) = option_in(alloc, matches, "db")? else {
        return Ok(None);
    };
    Ok(Some(Command::Why(WhyArgs { app, viewer, db })))
}

fn options_in(alloc: Global, matches: &ArgMatches<'_>) -> Result<Option<Options>, Memory>
    ensures { IfOk result (λ options. options ≡ options_in (rows_of (found_of matches.now))) }
{
    let Some(db) = option_in(alloc, matches, "db")? else {
        return Ok(None);
    };
    let Some(sessions) = option_in(alloc, matches, "sessions")? else {
        return Ok(None);
    };
    let Some(audit) = option_in(alloc, matches, "audit")? else {
        return Ok(None);
    };
    Ok(Some(Options {
        db,
        sessions,
        audit,
        lazy: flag_in(matches, "lazy"),
    }))
}

// The file that an operand or a required option names.
fn file_in(alloc: Global, matches: &ArgMatches<'_>, id: &str) -> Result<Option<Txt>, Memory>
    ensures { IfOk result (λ file. file ≡ file_in id.now (rows_of (found_of matches.now))) }
{
    match value_in(matches, id) {
        Some(text) => filled(alloc, text),
        None => Ok(None),
    }
}

// The file that an option names, if the option is there.
fn option_in(
    alloc: Global,
    matches: &ArgMatches<'_>,
    id: &str,
) -> Result<Option<Option<Txt>>, Memory>
    ensures { IfOk result (λ option. option ≡ option_in id.now (rows_of (found_of matches.now))) }
{
    let Some(text) = value_in(matches, id) else {
        return Ok(Some(None));
    };
    let Some(file) = filled(alloc, text)? else {
        return Ok(None);
    };
    Ok(Some(Some(file)))
}

// Whether the option without a value was given.
fn flag_in(matches: &ArgMatches<'_>, id: &str) -> bool
    ensures { result ≡ flag_in id.now (rows_of (found_of matches.now)) }
{
    match value_in(matches, id) {
        Some(text) => text == "true",
        None => false,
    }
}

fn filled(alloc: Global, text: &str) -> Result<Option<Txt>, Memory>
    ensures { IfOk result (λ file. file ≡ filled_text text.now) }
{
    if text.is_empty() {
        return Ok(None);
    }
    let file = Txt::from_str(alloc, text)?;
    Ok(Some(file))
}

fn port_in(matches: &ArgMatches<'_>) -> Option<u16>
    ensures { result ≡ positive_number 65_535 (codes "PORT") (rows_of (found_of matches.now)) }
{
    match number_in(matches, "PORT", 65_535) {
        Some(number) => Some(number as u16),
        None => None,
    }
}

fn count_in(matches: &ArgMatches<'_>) -> Option<u32>
    ensures { result ≡ positive_number 1_000_000 (codes "COUNT") (rows_of (found_of matches.now)) }
{
    match number_in(matches, "COUNT", 1_000_000) {
        Some(number) => Some(number as u32),
        None => None,
    }
}

// A number from 1 to `most`.
fn number_in(matches: &ArgMatches<'_>, id: &str, most: u64) -> Option<u64>
    ensures number { result ≡ positive_number most id.now (rows_of (found_of matches.now)) }
    ensures within { IfSome result (λ n. n ≤ most) }
{
    match value_in(matches, id) {
        Some(text) => small_number(text.as_bytes(), most),
        None => None,
    }
}

fn small_number(word: &[u8], most: u64) -> Option<u64>
    ensures number { result ≡ number_within 1 most word.now }
    ensures within { IfSome result (λ n. n ≤ most) }
{
    match number_within(word, 1, u128::from(most)) {
        Some(number) => Some(number as u64),
        None => None,
    }
}

fn labels_in(alloc: Global, matches: &ArgMatches<'_>) -> Result<Option<Labels>, Memory>
    ensures { IfOk result (λ labels. labels ≡ option_and_then labels_of_word (first_of
        (codes "LABELS")
        (rows_of (found_of matches.now)))) }
{
    match value_in(matches, "LABELS") {
        Some(text) => labels_of(alloc, text.as_bytes()),
        None => Ok(None),
    }
}

// The viewer, written as in a line of an events file.
fn viewer_in(matches: &ArgMatches<'_>) -> Option<Option<u128>>
    ensures { result ≡ option_and_then viewer_read (first_of (codes "VIEWER")
        (rows_of (found_of matches.now))) }
{
    match value_in(matches, "VIEWER") {
        Some(text) => read_viewer(text.as_bytes()),
        None => None,
    }
}

// The value that the words give to the operand or option with this name.
fn value_in<'a>(matches: &ArgMatches<'a>, id: &str) -> Option<&'a str>
    ensures { option_map (λ text. text.now) result ≡ first_of id.now
        (rows_of (found_of matches.now)) }
{
    matches.get_str(id)
}
