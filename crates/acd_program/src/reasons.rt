//! Why a command could not do what it was asked, for whoever sits at a terminal: it is printed after the line of the
//! fault, by what is at a path by then. Where the program can't find out why, it prints nothing. What finds the reason
//! has no runtime, and so changes nothing: it looks, and reads.

ghost use Rattle.std.specs.Prelude.{◌≡◌};
ghost use Rattle.acd_program.specs.Reasons.{kind_reason, owner_reason, version_reason, plan_of, archive_of, file_of, database_reason, writes_wide, list_owner, occurs};

use crate::fault::{ArchiveFault, Fault};
use crate::reason::Reason;
use acd_command::Task;
use acd_files::{
    LookFault, Looks, OpeningFault, PathFault, bytes_from, first_line, form_of, holds_log,
    is_forbidden, is_read_only, line_of, log_path,
};
use acd_reports::PlanFault;
use acd_sessions::WorkFault;
use std::alloc::Global;
use std::fs::Metadata;
use std::io::{self, ErrorKind, IsTerminal, Read};
use std::os::unix::fs::MetadataExt;

// The first bytes of each database.
const DATABASE: &[u8; 16] = b"SQLite format 3\0";

// The bytes of a first page, which a stop may leave alone.
const FIRST_PAGE: u64 = 1024;

// The text that the list of a database's tables has of any of them, and of one that each desk has.
const ANY_TABLE: &[u8; 7] = b"CREATE ";

const DESK_TABLE: &[u8; 23] = b"CREATE TABLE acd_groups";

// So much of a database is looked at: a desk's list of tables is there, with pages of any size.
const LISTED: u64 = 65_536;

// The byte of a database that says how its texts are written: 2 and 3 are UTF-16, which a desk's never are.
const ENCODING: usize = 59;

// Whose tables a database lists.
#[derive(Clone, Copy)]
enum Owner {
    Desk,
    Another,
}

// What is told: a reason; that a plan's header isn't as it has to be, with the one that there is; or the form that a row
// of a plan has to have, with the row's line.
#[derive(Drop)]
enum Told {
    Why(Reason),
    Header(Option<String>),
    Row(Option<u64>, &'static str),
}

// The error that kept a call for a path from it.
fn of_kind(kind: ErrorKind) -> Option<Reason>
    ensures { result ≡ kind_reason kind }
{
    match kind {
        ErrorKind::NotFound => Some(Reason::Absent),
        ErrorKind::PermissionDenied => Some(Reason::NoPermission),
        ErrorKind::NotADirectory => Some(Reason::BelowNoFolder),
        _ => None,
    }
}

// Whether its log holds a commit.
fn is_lone(looks: Looks<'_>, path: &str) -> bool {
    matches!(holds_log(looks, path), Ok(true))
}

#[tactic(auto, using(crate::proofs::Occurs::none_at))]
fn has(bytes: &[u8], text: &[u8]) -> bool
    ensures { result ≡ occurs text.now bytes.now }
{
    for start in 0..bytes.len() {
        let rest = &bytes[start..];
        if rest.starts_with(text) {
            return true;
        }
    }
    false
}

// Whether a database's texts are UTF-16.
fn is_wide(bytes: &[u8]) -> bool
    ensures { result ≡ writes_wide bytes.now }
{
    match bytes.get(ENCODING) {
        Some(byte) => *byte == 2 || *byte == 3,
        None => false,
    }
}

// Whose tables these first bytes of a database list, where they show that.
fn owner_in(bytes: &[u8]) -> Option<Owner>
    ensures { result ≡ list_owner bytes.now }
{
    if has(bytes, DESK_TABLE) {
        return Some(Owner::Desk);
    }
    if is_wide(bytes) || has(bytes, ANY_TABLE) {
        return Some(Owner::Another);
    }
    None
}

fn first_bytes<R: Read + Drop>(alloc: Global, reader: R) -> io::Result<Vec<u8>> {
    let mut bytes = Vec::new(alloc);
    reader.take(LISTED).read_to_end(&mut bytes)?;
    Ok(bytes)
}

// The first bytes of the file at a path.
fn first_bytes_at(looks: Looks<'_>, path: &str) -> io::Result<Vec<u8>> {
    first_bytes(looks.alloc(), looks.open(path)?)
}

// Whose tables the database at a path lists. While its log holds a commit, only the log may show that.
fn owner_at(looks: Looks<'_>, path: &str) -> Option<Owner> {
    match holds_log(looks, path) {
        Ok(false) => {}
        _ => return None,
    }
    match first_bytes_at(looks, path) {
        Ok(bytes) => owner_in(&bytes),
        Err(_) => None,
    }
}

// Why a database is no desk, by whose tables it lists.
fn of_owner(owner: Option<Owner>) -> Option<Reason>
    ensures { result ≡ owner_reason owner }
{
    match owner {
        Some(Owner::Another) => Some(Reason::AnotherProgram),
        _ => None,
    }
}

// Why the log that is at a path isn't opened, as far as that shows.
fn of_log_found(looks: Looks<'_>, log: &str, found: &Metadata) -> Option<Reason> {
    if !found.is_file() {
        return Some(Reason::LogIsNoFile);
    }
    if is_forbidden(looks, found) {
        return Some(Reason::NoPermissionForLog);
    }
    match looks.open(log) {
        Err(error) if error.kind() == ErrorKind::PermissionDenied => {
            Some(Reason::NoPermissionForLog)
        }
        _ => None,
    }
}

// The log beside a database that this user may write.
fn of_log(looks: Looks<'_>, path: &str) -> Option<Reason> {
    let Ok(log) = log_path(looks, path) else {
        return None;
    };
    match looks.symlink_metadata(log.as_str()) {
        Ok(found) => of_log_found(looks, log.as_str(), &found),
        Err(_) => None,
    }
}

// Why a file that begins with these bytes is no desk's.
fn of_bytes(bytes: &[u8]) -> Option<Reason>
    ensures { result ≡ database_reason bytes.now }
{
    if bytes.starts_with(DATABASE) {
        return None;
    }
    Some(Reason::NoDatabase)
}

// The same of a file that may be read.
fn of_file(looks: Looks<'_>, path: &str, found: &Metadata) -> Option<Reason> {
    let bytes = match first_bytes_at(looks, path) {
        Ok(bytes) => bytes,
        Err(error) => return of_kind(error.kind()),
    };
    if is_forbidden(looks, found) {
        return Some(Reason::NoPermission);
    }
    if is_read_only(looks, path) {
        return Some(Reason::ReadOnlyDisk);
    }
    of_bytes(&bytes)
        .or(of_owner(owner_at(looks, path)))
        .or(of_log(looks, path))
}

fn of_found(looks: Looks<'_>, path: &str, found: &Metadata) -> Option<Reason> {
    if found.is_dir() {
        return Some(Reason::Folder);
    }
    if !found.is_file() {
        return Some(Reason::NoFile);
    }
    if found.len() == 0 && is_lone(looks, path) {
        return Some(Reason::NoBytesBesideLog);
    }
    if found.nlink() > 1 {
        return Some(Reason::SecondName);
    }
    of_file(looks, path, found)
}

// Why the file of a desk isn't opened.
fn of_opening(looks: Looks<'_>, path: &str) -> Option<Reason> {
    match looks.metadata(path) {
        Ok(found) => of_found(looks, path, &found),
        Err(error) if error.kind() == ErrorKind::NotFound && is_lone(looks, path) => {
            Some(Reason::AbsentBesideLog)
        }
        Err(error) => of_kind(error.kind()),
    }
}

// Why an archive isn't opened, which is to stay as it is.
fn of_archive(looks: Looks<'_>, path: &str) -> Option<Reason> {
    let reason = of_opening(looks, path);
    if reason.is_none() && is_lone(looks, path) {
        return Some(Reason::LogHoldsRequests);
    }
    reason
}

// Why a plan isn't read.
fn of_reading(looks: Looks<'_>, path: &str) -> Option<Reason> {
    match looks.metadata(path) {
        Ok(found) if found.is_dir() => Some(Reason::Folder),
        Ok(_) => match looks.open(path) {
            Ok(_) => None,
            Err(error) => of_kind(error.kind()),
        },
        Err(error) => of_kind(error.kind()),
    }
}

// Why a file of so many bytes has no version, by whose tables it lists.
fn of_tables(owner: Option<Owner>, len: u64) -> Reason
    ensures { result ≡ version_reason owner len }
{
    match owner {
        Some(Owner::Desk) => Reason::NoVersion,
        Some(Owner::Another) => Reason::AnotherProgram,
        None if len > FIRST_PAGE => Reason::AnotherProgram,
        None => Reason::NoDesk,
    }
}

// Why a file has no version.
fn of_no_version(looks: Looks<'_>, path: &str) -> Option<Reason> {
    match looks.metadata(path) {
        Ok(found) if found.len() == 0 => Some(Reason::NoBytes),
        Ok(found) => Some(of_tables(owner_at(looks, path), found.len())),
        Err(_) => None,
    }
}

// The bytes of a plan that can be read again.
fn plan_again(looks: Looks<'_>, path: &str) -> Option<Vec<u8>> {
    match looks.metadata(path) {
        Ok(found) if found.is_file() => {}
        _ => return None,
    }
    match looks.open(path) {
        Ok(file) => bytes_from(looks.alloc(), file).ok(),
        Err(_) => None,
    }
}

// The first line of the plan at a path.
fn header_of(looks: Looks<'_>, path: &str) -> Option<String> {
    let plan = plan_again(looks, path)?;
    first_line(looks.alloc(), &plan).ok()
}

// The line of a plan's row. The header is the first record.
fn line_of_row(looks: Looks<'_>, path: &str, row: u64) -> Option<u64> {
    let plan = plan_again(looks, path)?;
    line_of(&plan, row.saturating_add(1))
}

// What is wrong with the plan at a path.
fn of_plan(looks: Looks<'_>, path: &str, fault: PlanFault) -> Option<Told> {
    match fault {
        PlanFault::Header => Some(Told::Header(header_of(looks, path))),
        PlanFault::Row { row, member } => Some(Told::Row(
            line_of_row(looks, path, row),
            form_of(member),
        )),
        PlanFault::TooLong => Some(Told::Why(Reason::PlanTooLong)),
        PlanFault::NoMemory => None,
    }
}

// The plan that the task names.
fn plan_of<'a>(task: Task<'_, 'a>) -> Option<&'a str>
    ensures { result ≡ plan_of task.entry }
{
    match task {
        Task::Import { plan, .. } => Some(plan),
        _ => None,
    }
}

// The archive that the task names.
fn archive_of<'a>(task: Task<'_, 'a>) -> Option<&'a str>
    ensures { result ≡ archive_of task.entry }
{
    match task {
        Task::AuditWithArchive { archive, .. } => Some(archive),
        Task::Prune { archive, .. } => Some(archive),
        _ => None,
    }
}

// The file of a desk that the task names.
fn file_of<'a>(task: Task<'_, 'a>) -> Option<&'a str>
    ensures { result ≡ file_of task.entry }
{
    match task {
        Task::Lines { file, .. } => file,
        Task::Serve { file, .. } => Some(file),
        Task::Standby { file, .. } => Some(file),
        Task::Import { file, .. } => Some(file),
        Task::AuditWhole { file, .. } => Some(file),
        // of two files such a fault doesn't say which is at fault
        Task::AuditWithArchive { .. } => None,
        Task::Prune { .. } => None,
        Task::ExportWithArchives { .. } => None,
        Task::Read { file, .. } => Some(file),
    }
}

// Why what is at a path isn't opened.
fn of_path(looks: Looks<'_>, task: Task<'_, '_>, fault: PathFault<'_>) -> Option<Reason> {
    let PathFault::CannotOpen(path) = fault else {
        return None;
    };
    if plan_of(task) == Some(path) {
        return of_reading(looks, path);
    }
    if archive_of(task) == Some(path) {
        return of_archive(looks, path);
    }
    of_opening(looks, path)
}

fn of_look(looks: Looks<'_>, task: Task<'_, '_>, fault: LookFault<'_>) -> Option<Told> {
    match fault {
        LookFault::Path(fault) => of_path(looks, task, fault).map(Told::Why),
        LookFault::NoBytes => of_no_version(looks, file_of(task)?).map(Told::Why),
        LookFault::Plan(fault) => of_plan(looks, plan_of(task)?, fault),
        LookFault::OpenElsewhere(_) => None,
    }
}

fn of_no_opening(looks: Looks<'_>, task: Task<'_, '_>, fault: OpeningFault<'_>) -> Option<Told> {
    match fault {
        OpeningFault::Look(fault) => of_look(looks, task, fault),
        OpeningFault::Files(fault) => of_path(looks, task, fault).map(Told::Why),
    }
}

fn of_work(looks: Looks<'_>, task: Task<'_, '_>, fault: WorkFault) -> Option<Reason> {
    match fault {
        WorkFault::WrongVersion(0) => of_no_version(looks, file_of(task)?),
        WorkFault::Store => of_owner(owner_at(looks, file_of(task)?)),
        _ => None,
    }
}

// Why a fault ended the task.
fn of_fault(looks: Looks<'_>, task: Task<'_, '_>, fault: Fault<'_>) -> Option<Told> {
    match fault {
        Fault::Opening(fault) => of_no_opening(looks, task, fault),
        Fault::Archive(ArchiveFault::Opening(fault)) => of_no_opening(looks, task, fault),
        Fault::Work(fault) => of_work(looks, task, fault).map(Told::Why),
        Fault::Archive(ArchiveFault::Work(_)) => None,
    }
}

fn print_header(rt: &HostRuntime, header: Option<String>) -> io::Result<()> {
    eprint!(rt; "acd: its first line has to be kind,number,name,ring,wrap")?;
    if let Some(line) = header {
        eprint!(rt; ", and is {}", line.as_str())?;
    }
    eprintln!(rt;)
}

fn print(rt: &HostRuntime, told: Told) -> io::Result<()> {
    match told {
        Told::Why(reason) => eprintln!(rt; "acd: {reason}"),
        Told::Header(header) => print_header(rt, header),
        Told::Row(Some(line), form) => eprintln!(rt; "acd: in line {line}: {form}"),
        Told::Row(None, form) => eprintln!(rt; "acd: {form}"),
    }
}

/// Prints why, on the process's standard error, where that is a terminal.
pub(crate) fn explain(rt: &HostRuntime, task: Task<'_, '_>, fault: Fault<'_>) {
    if !rt.stderr().is_terminal() {
        return;
    }
    if let Some(told) = of_fault(Looks::new(rt), task, fault) {
        let _ = print(rt, told);
    }
}
