//! How a command line is read.

ghost use Rattle.std.specs.Prelude.{◌≡◌, [], false, codes, map, IsTrue, IfOk, IfErr};
ghost use Rattle.clap.specs.Words.{app_of, found_of, kind_of, rows_of, subcommand_rows_of};
ghost use Rattle.acd_command.specs.CommandLine.{HasApp, HasRule, IsTaskWith, FindsTask, FindsTaskIn, FindsAddress, FindsConnections, FindsRetention, FindsSeconds, FindsSpan, IsTaskOf, IsRefusedBy, AddsCommand, acd, export_shape, file_rule, flag_rule, import_shape, is_given, lines_shape, number_rule, option_rule, repeated, report_shape, audit_shape, prune_shape, serve_shape, standby_shape};
ghost use Rattle.acd_command.specs.CommandLine.{IsHelp};

use crate::asked::{Address, Printout, Retention, Task, Work};
use acd_http::Span;
use acd_log::Ending;
use clap::builder::ValueParser;
use clap::error::ErrorKind;
use clap::{Arg, ArgAction, ArgMatches, Command, Error};
use std::alloc::{AllocError, Global};
use std::convert::AsStr;
use std::time::Duration;

/// The text that `acd --version` prints after the program's name: the version, and the toolchain that proved it.
const VERSION: &str = "1.22 (rattle-kit-13f)";

const FILE: &str = "file";

const PLAN: &str = "plan";

const PORT: &str = "port";

const SOCKET: &str = "socket";

const CONNECTIONS: &str = "connections";

const ENDLESS: &str = "endless";

const READS: &str = "reads";

const TICK: &str = "tick";

const PATIENCE: &str = "patience";

const END_ON_STORE_FAULT: &str = "end-on-store-fault";

const COUNT: &str = "count";

const WHOLE: &str = "whole";

const ARCHIVE: &str = "archive";

const DAYS: &str = "days";

const KEEP: &str = "keep";

const QUIET: &str = "quiet";

const GREATEST_PORT: u64 = 65_535;

// Why a service is refused, as the library of command lines says it.
const NO_ADDRESS: &str = "the following required arguments were not provided:\n  --port <P>";

const TWO_ADDRESSES: &str = "the argument '--port <P>' cannot be used with '--socket <PATH>'";

const NO_END: &str = "the following required arguments were not provided:\n  --connections <N>";

const NOT_ENDLESS: &str = "the following required arguments were not provided:\n  --endless";

const TWO_ENDS: &str = "the argument '--connections <N>' cannot be used with '--endless'";

const NO_RETENTION: &str = "the following required arguments were not provided:\n  --days <N>";

const TWO_RETENTIONS: &str = "the argument '--days <N>' cannot be used with '--keep <N>'";

/// How many connections are answered at most.
const MOST_CONNECTIONS: u64 = 1_000_000;

/// Of how many days a prune leaves the records at most.
const MOST_DAYS: u64 = 36_500;

/// How many records it leaves at most.
const MOST_RECORDS: u64 = 1_000_000_000;

/// How many seconds a service waits at most.
const MOST_SECONDS: u64 = 3600;

fn file_option<'a>(alloc: Global) -> Arg<'a>
    ensures { HasRule file_rule result }
{
    Arg::new(alloc, FILE)
        .long(FILE)
        .value_name("F")
        .help("The file of the desk")
        .action(ArgAction::Set)
}

fn plan_option<'a>(alloc: Global) -> Arg<'a>
    ensures { HasRule (option_rule (codes "plan")) result }
{
    Arg::new(alloc, PLAN)
        .long(PLAN)
        .value_name("C")
        .help("The plan, as CSV")
        .action(ArgAction::Set)
}

fn archive_option<'a>(alloc: Global) -> Arg<'a>
    ensures { HasRule (option_rule (codes "archive")) result }
{
    Arg::new(alloc, ARCHIVE)
        .long(ARCHIVE)
        .value_name("A")
        .help("The archive that this file continues")
        .action(ArgAction::Set)
}

// The archives that an export begins with.
fn archives_option<'a>(alloc: Global) -> Arg<'a>
    ensures { HasRule (repeated (option_rule (codes "archive"))) result }
{
    Arg::new(alloc, ARCHIVE)
        .long(ARCHIVE)
        .value_name("A")
        .help("An archive whose events come first; give it once for each, oldest first")
        .action(ArgAction::Append)
}

fn socket_option<'a>(alloc: Global) -> Arg<'a>
    ensures { HasRule (option_rule (codes "socket")) result }
{
    Arg::new(alloc, SOCKET)
        .long(SOCKET)
        .value_name("PATH")
        .help("The Unix socket to listen on, in place of a port")
        .action(ArgAction::Set)
}

fn flag<'a>(alloc: Global, name: &'a str, help: &'a str) -> Arg<'a>
    ensures { HasRule (flag_rule name.entry.now) result }
{
    Arg::new(alloc, name)
        .long(name)
        .help(help)
        .action(ArgAction::SetTrue)
}

// An option for a number from 1 on.
fn number_option<'a>(
    alloc: Global,
    name: &'a str,
    letter: &'a str,
    help: &'a str,
    most: u64,
) -> Arg<'a>
    ensures { HasRule (number_rule name.entry.now most) result }
{
    Arg::new(alloc, name)
        .long(name)
        .value_name(letter)
        .help(help)
        .value_parser(ValueParser::Unsigned(1, most))
        .action(ArgAction::Set)
}

fn lines_command<'a>(alloc: Global) -> Result<Command<'a>, AllocError>
    ensures { IfOk result (HasApp (record { top = lines_shape; subs = [] })) }
{
    Command::new(alloc, "lines")
        .about("Answer requests in lines: a moment, a space and the request as JSON")
        .after_help(
            "Example:\n  acd lines --file desk.db < requests\n\nWithout --file the desk is in memory, and is lost when the input ends. A file that isn't\nthere, or has no bytes, is made.",
        )
        .arg(file_option(alloc))?
        .arg(flag(
            alloc,
            READS,
            "Also answer reads: a moment, a space, GET, a space and a target",
        ))?
        .arg(flag(
            alloc,
            END_ON_STORE_FAULT,
            "Exit with status 1 after the first answer storeFault",
        ))
}

fn port_option<'a>(alloc: Global) -> Arg<'a>
    ensures { HasRule (number_rule (codes "port") 65535) result }
{
    number_option(
        alloc,
        PORT,
        "P",
        "The port to listen on, from 1 to 65535",
        GREATEST_PORT,
    )
}

fn tick_option<'a>(alloc: Global) -> Arg<'a>
    ensures { HasRule (number_rule (codes "tick") 3600) result }
{
    number_option(
        alloc,
        TICK,
        "SECONDS",
        "Look this often for overdue rings and after-call work, and end them: 1 to 3600",
        MOST_SECONDS,
    )
}

fn patience_option<'a>(alloc: Global) -> Arg<'a>
    ensures { HasRule (number_rule (codes "patience") 3600) result }
{
    number_option(
        alloc,
        PATIENCE,
        "SECONDS",
        "Wait this long for a client's request, and for it to read its reply: 1 to 3600",
        MOST_SECONDS,
    )
}

fn endless_option<'a>(alloc: Global) -> Arg<'a>
    ensures { HasRule (flag_rule (codes "endless")) result }
{
    flag(
        alloc,
        ENDLESS,
        "Serve without end; exit only if the store fails",
    )
}

fn serve_command<'a>(alloc: Global) -> Result<Command<'a>, AllocError>
    ensures { IfOk result (HasApp (record { top = serve_shape; subs = [] })) }
{
    let connections = number_option(
        alloc,
        CONNECTIONS,
        "N",
        "How many connections to serve, from 1 to 1000000",
        MOST_CONNECTIONS,
    );
    Command::new(alloc, "serve")
        .about("Answer requests over HTTP on 127.0.0.1, or on a Unix socket")
        .after_help(
            "Example:\n  acd serve --file desk.db --port 8080 --connections 1000\n\nConnections are served one after the other, each with one request. It exits after the\nlast one. With --endless it exits only if its store fails (status 1). A file that isn't\nthere, or has no bytes, is made.\n\nWithout --tick, rings and after-call work end only if a client sends tick. Without\n--patience, a client that sends nothing stops the service for everybody.",
        )
        .override_usage(
            "acd serve --file <F> <--port <P>|--socket <PATH>> <--connections <N>|--endless> [--tick <SECONDS>] [--patience <SECONDS>]",
        )
        .arg(file_option(alloc).required(true))?
        .arg(port_option(alloc))?
        .arg(socket_option(alloc))?
        .arg(connections)?
        .arg(endless_option(alloc))?
        .arg(tick_option(alloc))?
        .arg(patience_option(alloc))
}

fn standby_command<'a>(alloc: Global) -> Result<Command<'a>, AllocError>
    ensures { IfOk result (HasApp (record { top = standby_shape; subs = [] })) }
{
    Command::new(alloc, "standby")
        .about("Answer requests in lines, and then over HTTP once a line says serve")
        .after_help(
            "Example:\n  acd standby --file desk.db --port 8080 --endless < lines\n\nIt answers lines as acd lines --reads does, up to the first line that is exactly serve.\nThen it answers connections as acd serve does. It listens from the start, and whoever\nconnects before waits. If the lines end without that one, it ends with status 1, and\nanswers nobody. A file that isn't there, or has no bytes, is made.\n\n--tick and --patience begin with the service.",
        )
        .override_usage(
            "acd standby --file <F> <--port <P>|--socket <PATH>> --endless [--tick <SECONDS>] [--patience <SECONDS>]",
        )
        .arg(file_option(alloc).required(true))?
        .arg(port_option(alloc))?
        .arg(socket_option(alloc))?
        .arg(endless_option(alloc))?
        .arg(tick_option(alloc))?
        .arg(patience_option(alloc))
}

fn import_command<'a>(alloc: Global) -> Result<Command<'a>, AllocError>
    ensures { IfOk result (HasApp (record { top = import_shape; subs = [] })) }
{
    Command::new(alloc, "import")
        .about("Add the groups, stations and agents of a plan")
        .after_help(
            "Example:\n  acd import --file desk.db --plan plan.csv\n\nEach row gets an answer line. A file that isn't there, or has no bytes, is made.",
        )
        .arg(file_option(alloc).required(true))?
        .arg(plan_option(alloc).required(true))
}

fn report_command<'a>(alloc: Global) -> Result<Command<'a>, AllocError>
    ensures { IfOk result (HasApp (record { top = report_shape; subs = [] })) }
{
    Command::new(alloc, "report")
        .about("Print the queue report at the last executed moment")
        .after_help("Example:\n  acd report --file desk.db")
        .arg(file_option(alloc).required(true))
}

fn export_command<'a>(alloc: Global) -> Result<Command<'a>, AllocError>
    ensures { IfOk result (HasApp (record { top = export_shape; subs = [] })) }
{
    Command::new(alloc, "export")
        .about("Print all event reports as CSV")
        .after_help(
            "Example:\n  acd export --file desk.db --archive older.db --archive newer.db > events.csv\n\nIt prints the events of each archive and then those of the file, without those that came\nbefore. So an event that several of them have is printed once.",
        )
        .arg(file_option(alloc).required(true))?
        .arg(archives_option(alloc))
}

fn audit_command<'a>(alloc: Global) -> Result<Command<'a>, AllocError>
    ensures { IfOk result (HasApp (record { top = audit_shape; subs = [] })) }
{
    Command::new(alloc, "audit")
        .about("Run the kept requests again, and compare what they give with the file")
        .after_help(
            "Example:\n  acd audit --file desk.db\n\nIt prints sound. With status 3 it prints the first request whose record or events\ndiffer. With --archive it exits with status 6 if the file is sound, but a request was\nsent again after it had gone to the archive.",
        )
        .arg(file_option(alloc).required(true))?
        .arg(archive_option(alloc))?
        .arg(flag(
            alloc,
            COUNT,
            "After sound, also print how many requests were executed",
        ))?
        .arg(flag(
            alloc,
            WHOLE,
            "Exit with status 5 if the log of the file is damaged in the middle",
        ))
}

fn prune_command<'a>(alloc: Global) -> Result<Command<'a>, AllocError>
    ensures { IfOk result (HasApp (record { top = prune_shape; subs = [] })) }
{
    let days = number_option(
        alloc,
        DAYS,
        "N",
        "Keep the requests of the last N days of 24 hours, from 1 to 36500",
        MOST_DAYS,
    );
    let keep = number_option(
        alloc,
        KEEP,
        "N",
        "Keep the last N requests, from 1 to 1000000000",
        MOST_RECORDS,
    );
    Command::new(alloc, "prune")
        .about("Remove old requests and events from the file, once its archive has them")
        .after_help(
            "Example:\n  acd prune --file desk.db --archive copy.db --days 2\n\nThe archive is a copy of this file, or of an earlier state of it. The file is audited with\nit first. If it isn't sound, nothing is removed, and the line and the status are those of\nthe audit. A thousand requests and those of the last hour always stay.",
        )
        .override_usage("acd prune --file <F> --archive <A> <--days <N>|--keep <N>> [--quiet]")
        .arg(file_option(alloc).required(true))?
        .arg(archive_option(alloc).required(true))?
        .arg(days)?
        .arg(keep)?
        .arg(flag(alloc, QUIET, "Print nothing if there is nothing to prune"))
}

// The command with one more below it.
fn with<'a>(
    acd: Result<Command<'a>, AllocError>,
    made: Result<Command<'a>, AllocError>,
) -> Result<Command<'a>, AllocError>
    ensures { AddsCommand acd.entry made.entry result }
{
    acd?.subcommand(made?)
}

fn all_commands<'a>(alloc: Global) -> Result<Command<'a>, AllocError>
    ensures { IfOk result (HasApp acd) }
{
    let acd = Command::new(alloc, "acd")
        .version(VERSION)
        .about("The desk of a help line: an automatic call distributor")
        .subcommand_required(true);
    let acd = with(Ok(acd), lines_command(alloc));
    let acd = with(acd, serve_command(alloc));
    let acd = with(acd, standby_command(alloc));
    let acd = with(acd, import_command(alloc));
    let acd = with(acd, report_command(alloc));
    let acd = with(acd, export_command(alloc));
    let acd = with(acd, audit_command(alloc));
    with(acd, prune_command(alloc))
}

// Whether the flag was given.
fn is_given(options: &ArgMatches<'_>, flag: &str) -> bool
    ensures { result ≡ is_given flag.now (rows_of (found_of options.now)) }
{
    options.get_one(flag).unwrap_or(false)
}

fn lines_of<'m, 'a>(options: &'m ArgMatches<'a>) -> Task<'m, 'a>
    ensures { IsTaskWith (codes "lines") (rows_of (found_of options.now)) result }
{
    Task::Lines {
        file: options.get_str(FILE),
        reads: is_given(options, READS),
        ends: is_given(options, END_ON_STORE_FAULT),
    }
}

// Where a service listens: at a port or at a socket, and one of both is asked for.
fn address_of<'a>(options: &ArgMatches<'a>) -> Option<Address<'a>>
    ensures { FindsAddress (rows_of (found_of options.now)) result }
{
    match options.get_str(SOCKET) {
        Some(path) => {
            if options.contains_id(PORT) {
                return None;
            }
            Some(Address::Socket(path))
        }
        None => Some(Address::Port(options.get_one(PORT)?)),
    }
}

// How many connections, or no end of them: one of both is asked for.
fn connections_of(options: &ArgMatches<'_>) -> Option<Option<u32>>
    ensures { FindsConnections (rows_of (found_of options.now)) result }
{
    let endless = is_given(options, ENDLESS);
    if !options.contains_id(CONNECTIONS) {
        return if endless { Some(None) } else { None };
    }
    if endless {
        return None;
    }
    Some(Some(options.get_one(CONNECTIONS)?))
}

// A time in seconds, where the option was given.
fn seconds_of(options: &ArgMatches<'_>, name: &str) -> Option<Option<Duration>>
    ensures { FindsSeconds name.now (rows_of (found_of options.now)) result }
{
    if !options.contains_id(name) {
        return Some(None);
    }
    let seconds: u16 = options.get_one(name)?;
    Some(Some(Duration::from_secs(u64::from(seconds))))
}

fn widened(connections: Option<u32>) -> Option<u64>
    ensures { result ≡ connections }
{
    match connections {
        Some(connections) => Some(u64::from(connections)),
        None => None,
    }
}

// How long a service lasts, and how long it waits.
fn span_of(options: &ArgMatches<'_>) -> Option<Span>
    ensures { FindsSpan (rows_of (found_of options.now)) result }
{
    let connections = connections_of(options)?;
    let step = seconds_of(options, TICK)?;
    let patience = seconds_of(options, PATIENCE)?;
    Some(Span {
        connections: widened(connections),
        step,
        patience,
    })
}

fn serve_of<'m, 'a>(options: &'m ArgMatches<'a>) -> Option<Task<'m, 'a>>
    ensures { FindsTask (codes "serve") (rows_of (found_of options.now)) result }
{
    Some(Task::Serve {
        file: options.get_str(FILE)?,
        address: address_of(options)?,
        span: span_of(options)?,
    })
}

fn standby_of<'m, 'a>(options: &'m ArgMatches<'a>) -> Option<Task<'m, 'a>>
    ensures { FindsTask (codes "standby") (rows_of (found_of options.now)) result }
{
    if !is_given(options, ENDLESS) {
        return None;
    }
    Some(Task::Standby {
        file: options.get_str(FILE)?,
        address: address_of(options)?,
        step: seconds_of(options, TICK)?,
        patience: seconds_of(options, PATIENCE)?,
    })
}

fn import_of<'m, 'a>(options: &'m ArgMatches<'a>) -> Option<Task<'m, 'a>>
    ensures { FindsTask (codes "import") (rows_of (found_of options.now)) result }
{
    Some(Task::Import {
        file: options.get_str(FILE)?,
        plan: options.get_str(PLAN)?,
    })
}

// An audit of the desk in a file, with no archive.
fn audit_alone<'m, 'a>(file: &'a str, counts: bool, whole: bool) -> Task<'m, 'a>
    ensures whole { IsTrue whole → result ≡ Task.AuditWhole file.entry counts }
    ensures plain { whole ≡ false
        → result ≡ Task.Read file.entry (Work.Audit counts Ending.Plain) }
{
    if whole {
        return Task::AuditWhole { file, counts };
    }
    Task::Read {
        file,
        work: Work::Audit {
            counts,
            ending: Ending::Plain,
        },
    }
}

// The audit of the desk in a file.
fn audit_of<'m, 'a>(options: &'m ArgMatches<'a>) -> Option<Task<'m, 'a>>
    ensures { FindsTask (codes "audit") (rows_of (found_of options.now)) result }
{
    let file = options.get_str(FILE)?;
    let counts = is_given(options, COUNT);
    let whole = is_given(options, WHOLE);
    match options.get_str(ARCHIVE) {
        Some(archive) => Some(Task::AuditWithArchive {
            file,
            archive,
            counts,
            whole,
        }),
        None => Some(audit_alone(file, counts, whole)),
    }
}

// What a prune leaves: of the days or of the records, one of both is asked for.
fn retention_of(options: &ArgMatches<'_>) -> Option<Retention>
    ensures { FindsRetention (rows_of (found_of options.now)) result }
{
    if options.contains_id(KEEP) {
        if options.contains_id(DAYS) {
            return None;
        }
        return Some(Retention::Records(options.get_one(KEEP)?));
    }
    Some(Retention::Days(options.get_one(DAYS)?))
}

fn prune_of<'m, 'a>(options: &'m ArgMatches<'a>) -> Option<Task<'m, 'a>>
    ensures { FindsTask (codes "prune") (rows_of (found_of options.now)) result }
{
    Some(Task::Prune {
        file: options.get_str(FILE)?,
        archive: options.get_str(ARCHIVE)?,
        retention: retention_of(options)?,
        quiet: is_given(options, QUIET),
    })
}

fn report_of<'m, 'a>(options: &'m ArgMatches<'a>) -> Option<Task<'m, 'a>>
    ensures { FindsTask (codes "report") (rows_of (found_of options.now)) result }
{
    Some(Task::Read {
        file: options.get_str(FILE)?,
        work: Work::Print(Printout::Report),
    })
}

// The export of the desk in a file, and of the archives that are named.
fn export_of<'m, 'a>(options: &'m ArgMatches<'a>) -> Option<Task<'m, 'a>>
    ensures { FindsTask (codes "export") (rows_of (found_of options.now)) result }
{
    let file = options.get_str(FILE)?;
    match options.get_strs(ARCHIVE) {
        Some(archives) => Some(Task::ExportWithArchives { file, archives }),
        None => Some(Task::Read {
            file,
            work: Work::Print(Printout::Export),
        }),
    }
}

// The task of a command with these options.
fn named<'m, 'a>(command: &str, options: &'m ArgMatches<'a>) -> Option<Task<'m, 'a>>
    ensures { FindsTask command.now (rows_of (found_of options.now)) result }
{
    match command {
        "lines" => Some(lines_of(options)),
        "serve" => serve_of(options),
        "standby" => standby_of(options),
        "import" => import_of(options),
        "report" => report_of(options),
        "export" => export_of(options),
        "audit" => audit_of(options),
        "prune" => prune_of(options),
        _ => None,
    }
}

fn task_in<'m, 'a>(matches: &'m ArgMatches<'a>) -> Option<Task<'m, 'a>>
    ensures { FindsTaskIn (subcommand_rows_of matches.now) result }
{
    let (command, options) = matches.subcommand()?;
    named(command, options)
}

// Why words that the library of command lines takes name no task: a service has one address and one end. `no_end` is said
// where it has none.
fn refusal(matches: &ArgMatches<'_>, no_end: &'static str) -> (ErrorKind, &'static str)
    ensures { ¬ IsHelp result.0 }
{
    let Some((_, options)) = matches.subcommand() else {
        return (ErrorKind::MissingRequiredArgument, NO_ADDRESS);
    };
    let has_port = options.contains_id(PORT);
    let has_socket = options.contains_id(SOCKET);
    if has_port && has_socket {
        return (ErrorKind::ArgumentConflict, TWO_ADDRESSES);
    }
    if !has_port && !has_socket {
        return (ErrorKind::MissingRequiredArgument, NO_ADDRESS);
    }
    if is_given(options, ENDLESS) {
        return (ErrorKind::ArgumentConflict, TWO_ENDS);
    }
    (ErrorKind::MissingRequiredArgument, no_end)
}

fn prune_refusal(matches: &ArgMatches<'_>) -> (ErrorKind, &'static str)
    ensures { ¬ IsHelp result.0 }
{
    match matches.subcommand() {
        Some((_, options)) if options.contains_id(DAYS) => {
            (ErrorKind::ArgumentConflict, TWO_RETENTIONS)
        }
        _ => (ErrorKind::MissingRequiredArgument, NO_RETENTION),
    }
}

fn is_of(matches: &ArgMatches<'_>, name: &str) -> bool {
    match matches.subcommand() {
        Some((command, _)) => command == name,
        None => false,
    }
}

// How they are refused.
fn refused_service(alloc: Global, matches: &ArgMatches<'_>) -> Result<Error, AllocError>
    ensures { IfOk result (λ error. ¬ IsHelp (kind_of error)) }
{
    let (kind, why) = refusal(matches, NO_END);
    serve_command(alloc)?.error(kind, why)
}

// The same of a standby, which has no end.
fn refused_standby(alloc: Global, matches: &ArgMatches<'_>) -> Result<Error, AllocError>
    ensures { IfOk result (λ error. ¬ IsHelp (kind_of error)) }
{
    let (kind, why) = refusal(matches, NOT_ENDLESS);
    standby_command(alloc)?.error(kind, why)
}

// The same of a prune: it leaves so many days, or so many records.
fn refused_prune(alloc: Global, matches: &ArgMatches<'_>) -> Result<Error, AllocError>
    ensures { IfOk result (λ error. ¬ IsHelp (kind_of error)) }
{
    let (kind, why) = prune_refusal(matches);
    prune_command(alloc)?.error(kind, why)
}

fn refused(alloc: Global, matches: &ArgMatches<'_>) -> Result<Error, AllocError>
    ensures { IfOk result (λ error. ¬ IsHelp (kind_of error)) }
{
    if is_of(matches, "prune") {
        return refused_prune(alloc, matches);
    }
    if is_of(matches, "standby") {
        return refused_standby(alloc, matches);
    }
    refused_service(alloc, matches)
}

// The task of the words, which borrows what is matched.
fn chosen<'a: 'm, 'm, S: AsStr>(
    alloc: Global,
    commands: &mut Command<'a>,
    words: &'a [S],
    matched: &'m mut Option<ArgMatches<'a>>,
) -> Result<Task<'m, 'a>, Error>
    ensures task { app_of commands.old ≡ acd
        → IfOk result (IsTaskOf (map S.text words.entry.now)) }
    ensures refused { app_of commands.old ≡ acd
        → IfErr result (λ error. IsRefusedBy (map S.text words.entry.now) (kind_of error)) }
{
    let matches = commands.try_get_matches_from_mut(words)?;
    let found = &*matched.insert(matches);
    match task_in(found) {
        Some(task) => Ok(task),
        None => Err(refused(alloc, found)?),
    }
}

/// The task of the words; the first is the program's name. The other outcome is a text to print, which may be the help
/// that was asked for.
pub fn parse<'a: 'm, 'm, S: AsStr>(
    alloc: Global,
    words: &'a [S],
    matched: &'m mut Option<ArgMatches<'a>>,
) -> Result<Task<'m, 'a>, Error>
    ensures task { IfOk result (IsTaskOf (map S.text words.entry.now)) }
    // help and the version are printed only for words that ask for no task, and only those are refused
    ensures refused { IfErr result
        (λ error. IsRefusedBy (map S.text words.entry.now) (kind_of error)) }
{
    let mut commands = all_commands(alloc)?;
    chosen(alloc, &mut commands, words, matched)
}
