//! The program over three streams.

ghost use Rattle.std.specs.Prelude.{◌≡◌, ◌≤◌, false, length, map, IfOk, IfErr};
ghost use Rattle.clap.specs.Words.{kind_of};
ghost use Rattle.acd_command.specs.CommandLine.{IsRefused};
ghost use Rattle.acd_program.specs.Commands.Ended.{then_closed, work_on};
ghost use Rattle.acd_program.specs.Commands.FileTasks.{ExitsTask, DoneOrHelp, FaultEnded};
ghost use Rattle.acd_lines.specs.Lines.{written, streamed, AreUntouched};
ghost use Rattle.acd_sessions.specs.Serving.{service};
ghost use Rattle.acd_sessions.specs.Sessions.{memory_lines};
ghost use Rattle.acd_program.specs.Statuses.{EndsUnasked, IfDone, fault_exit, PrintsAtMostFaults, PrintsOnSuccess, UntouchedElsewhere};
ghost use Rattle.acd_program.specs.Commands.Tasks.{IsReadEnding};
ghost use Rattle.acd_program.specs.Commands.HostTasks.{host_audit, host_export, host_import, host_lines, host_prune, host_service, host_standby, host_task, host_whole_audit, host_work, intake};
ghost use Rattle.acd_sessions.specs.ToDo.{Ended};
ghost use Rattle.acd_program.specs.Commands.Work.{printing};

use crate::desk::{Done, over_database};
use crate::export::{Starts, UnknownStarts, table_over};
use crate::fault::Fault;
use crate::printing::print;
use crate::pruning::prune_over;
use crate::reasons::explain;
use crate::status::{Exit, Status};
use crate::with_archive::over_archive;
use acd_book::{BookFault, MemoryBook};
use acd_command::{Address, Retention, Task, Work, parse};
use acd_files::{
    LookFault, Looks, OpeningFault, PathFault, close_connection, connect, log_ending, read_plan,
};
use acd_http::{RequestsAndReads, Span};
use acd_io::{Pending, UntilOrder};
use acd_lines::laws::requests_run;
use acd_lines::{LinesFault, Requests};
use acd_log::Ending;
use acd_sessions::laws::lines_are_from_nothing;
use acd_sessions::{Serving, WorkFault, database_lines, lines_over_memory, serve, stand_by};
use clap::Error;
use clap::error::ErrorKind;
use sqlite::{Connection, File, FileFrom, FileStore};
use sqlite_disk::{Disk, Start, Unknown};
use std::alloc::Global;
use std::convert::AsStr;
use std::io::{Read, Write};

// A fault that ended the work comes before one of closing its file.
fn done_and_closed(
    done: Result<(), WorkFault>,
    closed: Result<(), BookFault>,
) -> Result<(), WorkFault>
    ensures { Ended (then_closed done closed) result }
{
    done?;
    closed?;
    Ok(())
}

// A fault of printing comes before one of closing the file.
fn print_done<W: Write>(
    left: &Done,
    closed: Result<(), BookFault>,
    writer: &mut W,
) -> Result<Status, WorkFault>
    ensures { Ended (printing left.now closed (written W.Write writer)) result }
{
    let status = print(left, writer)?;
    closed?;
    Ok(status)
}

// Does it over the database, closes it into its file, and prints what is left.
fn work_over<D: Disk + Drop, W: Write>(
    rt: &HostRuntime,
    conn: Connection<FileStore<D>>,
    makes: bool,
    work: Work<'_>,
    writer: &mut W,
) -> Result<Status, WorkFault>
    requires { conn.in_transaction ≡ false }
    ensures { Ended (work_on conn makes work.entry (written W.Write writer)) result }
{
    let (done, conn) = over_database(rt, conn, makes, work, writer);
    let closed = close_connection(conn);
    let left = done?;
    print_done(&left, closed, writer)
}

// Does it over the file.
fn work_in<'a, S: Start, W: Write>(
    rt: &HostRuntime,
    start: S,
    file: &'a str,
    makes: bool,
    work: Work<'_>,
    writer: &mut W,
) -> Result<Status, Fault<'a>>
    ensures { Ended (host_work S.Start makes work.entry (written W.Write writer)) result }
{
    let (conn, is_new) = connect(rt, file, makes, start)?;
    match work_over(rt, conn, is_new, work, writer) {
        Ok(status) => Ok(status),
        Err(fault) => Err(Fault::Work(fault)),
    }
}

// Answers the lines of the input over the file.
fn lines_in<'a, S: Start, R: Read, W: Write>(
    rt: &HostRuntime,
    start: S,
    file: &'a str,
    reads: bool,
    ends: bool,
    reader: &mut R,
    writer: &mut W,
) -> Result<(), Fault<'a>>
    ensures { Ended (host_lines S.Start reads ends
        (streamed R.Read W.Write reader writer)) result }
{
    let (conn, is_new) = connect(rt, file, true, start)?;
    let (done, conn) = database_lines(rt.alloc(), conn, is_new, reads, ends, reader, writer);
    match done_and_closed(done, close_connection(conn)) {
        Ok(()) => Ok(()),
        Err(fault) => Err(Fault::Work(fault)),
    }
}

// The same over a desk in memory.
fn lines_in_memory<R: Read, W: Write>(
    alloc: Global,
    reads: bool,
    reader: &mut R,
    writer: &mut W,
) -> Result<(), LinesFault>
    ensures { Ended (memory_lines reads (streamed R.Read W.Write reader writer)) result }
{
    lines_are_from_nothing::<R, W>();
    if reads {
        let mut lines = RequestsAndReads::new(alloc)?;
        return lines_over_memory(alloc, &mut lines, reader, writer);
    }
    lines_over_memory(alloc, &mut Requests::new(alloc), reader, writer)
}

// Answers the lines of the input, over a desk in memory or in a file.
fn answer_lines<'a, S: Start, R: Read, W: Write>(
    rt: &HostRuntime,
    start: S,
    file: Option<&'a str>,
    reads: bool,
    ends: bool,
    reader: &mut R,
    writer: &mut W,
) -> Result<Status, Fault<'a>>
    ensures { Ended (intake S.Start file (reads, ends)
        (streamed R.Read W.Write reader writer)) result }
{
    match file {
        None => {
            requests_run::<MemoryBook>();
            match lines_in_memory(rt.alloc(), reads, reader, writer) {
                Ok(()) => Ok(Status::Success),
                Err(fault) => Err(Fault::Work(WorkFault::from(fault))),
            }
        }
        Some(file) => match lines_in(rt, start, file, reads, ends, reader, writer) {
            Ok(()) => Ok(Status::Success),
            Err(fault) => Err(fault),
        },
    }
}

fn import_plan<'a, S: Start, W: Write>(
    rt: &HostRuntime,
    start: S,
    file: &'a str,
    plan: &'a str,
    writer: &mut W,
) -> Result<Status, Fault<'a>>
    ensures { Ended (host_import S.Start (written W.Write writer)) result }
{
    let requests = read_plan(rt, plan)?;
    work_in(rt, start, file, true, Work::Import(&requests), writer)
}

// Audits the desk in a file. An opening empties the log, so it is looked at first.
fn audit_whole<'a, S: Start, W: Write>(
    rt: &HostRuntime,
    start: S,
    file: &'a str,
    counts: bool,
    writer: &mut W,
) -> Result<Status, Fault<'a>>
    ensures { Ended (host_whole_audit S.Start counts (written W.Write writer)) result }
{
    let ending = log_ending(Looks::new(rt), file)?;
    work_in(
        rt,
        start,
        file,
        false,
        Work::Audit { counts, ending },
        writer,
    )
}

// How the log of a file ends, where it is to be looked at.
fn read_ending<'a>(rt: &HostRuntime, file: &'a str, whole: bool) -> Result<Ending, LookFault<'a>>
    ensures { IfOk result (IsReadEnding whole) }
{
    if whole {
        return log_ending(Looks::new(rt), file);
    }
    Ok(Ending::Plain)
}

// A desk's file, an archive that is opened beside it, and how the files of each start.
struct Files<'a, S: Start> {
    start: S,
    file: &'a str,
    beside: S,
    archive: &'a str,
}

// Audits the desk in a file with the archive that it goes on from. Of the two logs, it looks only at the file's.
fn audit_with_archive<'a, S: Start, W: Write>(
    rt: &HostRuntime,
    files: Files<'a, S>,
    counts: bool,
    whole: bool,
    writer: &mut W,
) -> Result<Status, Fault<'a>>
    ensures { Ended (host_audit S.Start counts whole (written W.Write writer)) result }
{
    let Files {
        start,
        file,
        beside,
        archive,
    } = files;
    let ending = read_ending(rt, file, whole)?;
    let (conn, _) = connect(rt, file, false, start)?;
    let (done, conn) = over_archive(rt, conn, beside, archive, counts, ending);
    let closed = close_connection(conn);
    let left = done?;
    match print_done(&left, closed, writer) {
        Ok(status) => Ok(status),
        Err(fault) => Err(Fault::Work(fault)),
    }
}

// Prunes the desk in a file by its archive. An opening empties the log, so it is looked at first.
fn prune_file<'a, S: Start, W: Write>(
    rt: &HostRuntime,
    files: Files<'a, S>,
    retention: Retention,
    quiet: bool,
    writer: &mut W,
) -> Result<Status, Fault<'a>>
    ensures { Ended (host_prune S.Start quiet (written W.Write writer)) result }
{
    let Files {
        start,
        file,
        beside,
        archive,
    } = files;
    let ending = log_ending(Looks::new(rt), file)?;
    let (conn, _) = connect(rt, file, false, start)?;
    let (done, conn) = prune_over(rt, conn, beside, archive, ending, retention);
    let closed = close_connection(conn);
    let pruning = done?;
    let left = Done::Pruned(pruning, quiet);
    match print_done(&left, closed, writer) {
        Ok(status) => Ok(status),
        Err(fault) => Err(Fault::Work(fault)),
    }
}

// Prints the events of archives, and of the desk in a file, as one table. The file stays open while the archives are
// read, so that none of them is the file itself.
fn export_with_archives<'a, S: Start, O: Starts<S>, W: Write>(
    rt: &HostRuntime,
    start: S,
    beside: &O,
    file: &'a str,
    archives: &[&'a str],
    writer: &mut W,
) -> Result<Status, Fault<'a>>
    ensures { Ended (host_export S.Start (length archives.now) (written W.Write writer)) result }
{
    let (conn, _) = connect(rt, file, false, start)?;
    let (made, conn) = table_over(rt, conn, beside, archives);
    let closed = close_connection(conn);
    let table = made?;
    let left = Done::Text(table.text);
    match print_done(&left, closed, writer) {
        Ok(status) => Ok(status),
        Err(fault) => Err(Fault::Work(fault)),
    }
}

fn serve_file<'a, S: Start, W: Write, E: Write>(
    rt: &HostRuntime,
    start: S,
    file: &'a str,
    serving: Serving<'_>,
    writer: &mut W,
    errors: &mut E,
) -> Result<(), Fault<'a>>
    ensures { Ended (host_service S.Start
        (service serving W.Write E.Write writer errors)) result }
{
    let (conn, is_new) = connect(rt, file, true, start)?;
    let (done, conn) = serve(rt, conn, is_new, serving, writer, errors);
    match done_and_closed(done, close_connection(conn)) {
        Ok(()) => Ok(()),
        Err(fault) => Err(Fault::Work(fault)),
    }
}

// Answers lines up to the order, and then connections. What the lines need is taken before the file is opened.
fn stand_by_file<'a, S: Start, R: Read, W: Write, E: Write>(
    rt: &HostRuntime,
    start: S,
    file: &'a str,
    serving: Serving<'_>,
    reader: &mut R,
    writer: &mut W,
    errors: &mut E,
) -> Result<(), Fault<'a>>
    ensures { Ended (host_standby S.Start serving.entry
        (streamed R.Read W.Write reader writer) (written E.Write errors)) result }
{
    let Ok(pending) = Pending::new(rt.alloc()) else {
        return Err(Fault::Opening(OpeningFault::Look(LookFault::Path(PathFault::NoMemory))));
    };
    let (conn, is_new) = connect(rt, file, true, start)?;
    let mut lines = UntilOrder::new(pending, reader);
    let (done, conn) = stand_by(rt, conn, is_new, serving, &mut lines, writer, errors);
    match done_and_closed(done, close_connection(conn)) {
        Ok(()) => Ok(()),
        Err(fault) => Err(Fault::Work(fault)),
    }
}

// Does it, and says how it ended where no fault ended it. Other files may be opened beside the desk's.
fn execute<'a, S: Start, O: Starts<S>, R: Read, W: Write, E: Write>(
    rt: &HostRuntime,
    start: S,
    beside: &O,
    task: Task<'_, 'a>,
    reader: &mut R,
    writer: &mut W,
    errors: &mut E,
) -> Result<Status, Fault<'a>>
    ensures result { Ended (host_task S.Start task.entry
        (streamed R.Read W.Write reader writer) (written E.Write errors)) result }
    ensures printed { IfOk result (PrintsOnSuccess (written E.Write errors)) }
    // before anything is read or written the program finds that another one has the file
    ensures elsewhere { IfErr result
        (UntouchedElsewhere reader.old reader.new writer.old writer.new) }
{
    match task {
        Task::Lines { file, reads, ends } => {
            answer_lines(rt, start, file, reads, ends, reader, writer)
        }
        Task::Serve {
            file,
            address,
            span,
        } => match serve_file(rt, start, file, Serving { address, span }, writer, errors) {
            Ok(()) => Ok(Status::Success),
            Err(fault) => Err(fault),
        },
        Task::Standby {
            file,
            address,
            step,
            patience,
        } => {
            let span = Span {
                connections: None,
                step,
                patience,
            };
            let serving = Serving { address, span };
            match stand_by_file(rt, start, file, serving, reader, writer, errors) {
                Ok(()) => Ok(Status::Success),
                Err(fault) => Err(fault),
            }
        }
        Task::Import { file, plan } => import_plan(rt, start, file, plan, writer),
        Task::AuditWhole { file, counts } => audit_whole(rt, start, file, counts, writer),
        Task::AuditWithArchive {
            file,
            archive,
            counts,
            whole,
        } => {
            let files = Files {
                start,
                file,
                beside: beside.start(),
                archive,
            };
            audit_with_archive(rt, files, counts, whole, writer)
        }
        Task::Prune {
            file,
            archive,
            retention,
            quiet,
        } => {
            let files = Files {
                start,
                file,
                beside: beside.start(),
                archive,
            };
            prune_file(rt, files, retention, quiet, writer)
        }
        Task::ExportWithArchives { file, archives } => {
            export_with_archives(rt, start, beside, file, archives, writer)
        }
        Task::Read { file, work } => work_in(rt, start, file, false, work, writer),
    }
}

// A fault is one line.
fn fail<E: Write>(fault: Fault<'_>, errors: &mut E) -> Exit
    ensures { result ≡ fault_exit fault.entry }
{
    let _ = writeln!(errors, "acd: {fault}");
    fault.exit()
}

// Where the task listens.
fn address_of<'a>(task: Task<'_, 'a>) -> Option<Address<'a>> {
    match task {
        Task::Serve { address, .. } => Some(address),
        Task::Standby { address, .. } => Some(address),
        _ => None,
    }
}

// The same of a task that a fault ended; it says which address a service could not have.
fn fail_task<E: Write>(task: Task<'_, '_>, fault: Fault<'_>, errors: &mut E) -> Exit
    ensures { result ≡ fault_exit fault.entry }
{
    let Fault::Work(WorkFault::CannotListen) = fault else {
        return fail(fault, errors);
    };
    let Some(address) = address_of(task) else {
        return fail(fault, errors);
    };
    let _ = match address {
        Address::Port(port) => writeln!(errors, "acd: {fault} on port {port}"),
        Address::Socket(path) => writeln!(errors, "acd: {fault} on {path}"),
    };
    fault.exit()
}

// Does the task, says why where a fault ended it, and how the command ends.
fn run<S: Start, O: Starts<S>, R: Read, W: Write, E: Write>(
    rt: &HostRuntime,
    start: S,
    beside: &O,
    task: Task<'_, '_>,
    reader: &mut R,
    writer: &mut W,
    errors: &mut E,
) -> Exit
    ensures exits { ExitsTask ⟦<FileFrom<S> as Disk>⟧ task.entry
        (streamed R.Read W.Write reader writer) (written E.Write errors) result }
    ensures printed { IfDone result (PrintsOnSuccess (written E.Write errors)) }
    ensures elsewhere { result ≡ Exit.OpenElsewhere → AreUntouched reader writer }
{
    match execute(rt, start, beside, task, reader, writer, errors) {
        Ok(status) => Exit::Done(status),
        Err(fault) => {
            let exit = fail_task(task, fault, errors);
            explain(rt, task, fault);
            exit
        }
    }
}

// Prints the text of a command line that asks for no task, which may be the help that was asked for.
fn print_error<W: Write, E: Write>(
    alloc: Global,
    error: &Error,
    writer: &mut W,
    errors: &mut E,
) -> Exit
    ensures { EndsUnasked (kind_of error.now) (written W.Write writer) (written E.Write errors)
        result }
{
    if error.kind() == ErrorKind::OutOfMemory {
        return fail(Fault::Work(WorkFault::NoMemory), errors);
    }
    let Ok(text) = error.to_string(alloc) else {
        return fail(Fault::Work(WorkFault::NoMemory), errors);
    };
    if error.use_stderr() {
        let _ = errors.write_all(text.as_bytes());
        return Exit::Refused;
    }
    match writer.write_all(text.as_bytes()) {
        Ok(()) => Exit::Done(Status::Success),
        Err(_) => fail(Fault::Work(WorkFault::Write), errors),
    }
}

/// Does what the words ask for; the first is the program's name. It answers the exit status: 0 for success, 1 for a
/// fault, which is one line on `errors`, 2 for a command line that it refuses, 3 for an audit that finds a difference,
/// 4, with a fault's line, where the file is open elsewhere, 5 where a sound desk's log is damaged, and 6 where an audit
/// with an archive finds that requests were sent again. A prune that its audit refuses has the audit's status.
pub fn program<S: AsStr, R: Read, W: Write, E: Write>(
    rt: &HostRuntime,
    words: &[S],
    reader: &mut R,
    writer: &mut W,
    errors: &mut E,
) -> u8
    // success says nothing on the stream of errors but the lines of connections' faults, or a beginning of them
    ensures success { result ≡ 0 → PrintsAtMostFaults (written E.Write errors) }
    // a difference that an audit finds prints nothing there
    ensures differs { result ≡ 3 → errors.new ≡ errors.old }
    // nor does a log that ends early
    ensures early { result ≡ 5 → errors.new ≡ errors.old }
    // nor do requests that were sent again
    ensures again { result ≡ 6 → errors.new ≡ errors.old }
    // for a command line that is refused nothing is read, and nothing is written but why
    ensures refused { result ≡ 2 → AreUntouched reader writer }
    // and it is one that the library of command lines doesn't take, or that names no task
    ensures untaken { result ≡ 2 → IsRefused (map S.text words.now) }
    ensures known { result ≤ 6 }
    // such a status is that of the task which the words name, done so, or help was asked for, and nothing was read
    ensures done { DoneOrHelp ⟦<File as Disk>⟧ (map S.text words.now)
        (streamed R.Read W.Write reader writer) (written E.Write errors) result }
    // a fault ended the task that they name; or it came before there was one, and nothing was read or written but help
    ensures ended { FaultEnded ⟦<File as Disk>⟧ (map S.text words.now)
        (streamed R.Read W.Write reader writer) (E.contents errors.old) result }
    // nothing was read or written where another program has the file
    ensures elsewhere { result ≡ 4 → AreUntouched reader writer }
{
    let mut matched = None;
    match parse(rt.alloc(), words, &mut matched) {
        Ok(task) => run(rt, Unknown, &UnknownStarts, task, reader, writer, errors).number(),
        Err(error) => print_error(rt.alloc(), &error, writer, errors).number(),
    }
}
