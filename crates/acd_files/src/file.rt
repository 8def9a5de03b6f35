//! The file of a desk.

ghost use Rattle.std.specs.Prelude.{◌≡◌, ◌⊎◌, ℕ, true, false, IsTrue, Ok, IfOk, IfErr, OnOk};
ghost use Rattle.sqlite.specs.Held.{IsNew};
ghost use Rattle.sqlite_std_file.specs.File.{file_is_usable, IsFresh};
ghost use Rattle.acd_files.specs.Connections.{IsShut};
ghost use Rattle.acd_files.specs.Faults.{by_memory, log_path_fault};
ghost use Rattle.acd_files.specs.Files.{AreUnopened, IsOpenedIn};
ghost use Rattle.acd_files.specs.Logs.{IsLogOf, IsLogPathBy, IsSomeLogPath, IsSomeEnding};
ghost use Rattle.acd_files.specs.Connections.{IsLaidIn, IsOpenedFrom, LeavesUnopened};

use crate::fault::{LookFault, OpeningFault, PathFault};
use crate::logs::{all_bytes, ending_from, would_change};
use crate::lone_log::hold_commit;
use crate::looking::{Looks, ReadOnly};
use crate::paging::{begun, disk_fault, log_fault, options};
use crate::telling::{announce, warn};
use crate::unconnected::Unconnected;
use acd_book::BookFault;
use acd_log::{Ending, ending_of};
use sqlite::{Connection, Error, ErrorCode, FileStore};
use sqlite_disk::{Disk, Files, Start};
use sqlite_std_file::{FileFrom, OpenError};
use std::alloc::{AllocError, Global};
use std::hash::{BuildHasher, RandomState};
use std::io;
use std::io::IsTerminal;
use std::path::PathBuf;

/// The store of a file that held what `S` says.
pub(crate) type StoreFrom<S> = FileStore<FileFrom<S>>;

// The kind of thing at a path.
#[derive(Clone, Copy)]
enum Found {
    Nothing,
    NoBytes,
    Bytes(u64),
}

// The kind of thing at the path, before the store looks at it.
fn look<'a>(looks: Looks<'_>, path: &'a str) -> Result<Found, LookFault<'a>> {
    match looks.metadata(path) {
        Ok(found) if !found.is_file() => Err(LookFault::Path(PathFault::CannotOpen(path))),
        Ok(found) if found.len() == 0 => Ok(Found::NoBytes),
        Ok(found) => Ok(Found::Bytes(found.len())),
        Err(error) if error.kind() == io::ErrorKind::NotFound => Ok(Found::Nothing),
        Err(error) => Err(LookFault::Path(disk_fault(error, path))),
    }
}

// The path of the log beside a file.
fn log_beside(alloc: Global, file: &str) -> Result<String, AllocError>
    ensures { IfOk result (IsLogOf file.now) }
{
    format!(in alloc; "{file}-wal")
}

// The path of the log at a path, by the system's answer to what that path is without links: a link's log is beside the file
// that it leads to. Where nothing is at the path, the log is beside the path.
fn log_path_by<'a>(
    alloc: Global,
    path: &'a str,
    real: io::Result<PathBuf>,
) -> Result<String, LookFault<'a>>
    ensures log { IfOk result (IsLogPathBy real path.now) }
    ensures fault { IfErr result (λ fault. fault ≡ log_path_fault real path.entry) }
{
    match real {
        Ok(file) => Ok(log_beside(alloc, file.as_str())?),
        Err(error) if error.kind() == io::ErrorKind::NotFound => Ok(log_beside(alloc, path)?),
        Err(error) => Err(LookFault::Path(disk_fault(error, path))),
    }
}

/// The path of the log at a path. It looks for links alone. Where they lead only the system can say, and no clause: what is
/// proved is what follows from any answer of it, in `log_path_by`.
pub fn log_path<'a>(looks: Looks<'_>, path: &'a str) -> Result<String, LookFault<'a>>
    ensures { IfOk result (IsSomeLogPath path.now) }
{
    log_path_by(looks.alloc(), path, looks.real_path(path))
}

// The log at a path, opened to be read, where it is there.
fn log_at<'a>(looks: Looks<'_>, path: &'a str) -> Result<Option<ReadOnly>, LookFault<'a>> {
    let log = log_path(looks, path)?;
    match looks.symlink_metadata(log.as_str()) {
        Ok(found) if !found.is_file() => {
            return Err(LookFault::Path(PathFault::CannotOpen(path)));
        }
        Ok(_) => {}
        Err(error) if error.kind() == io::ErrorKind::NotFound => return Ok(None),
        Err(error) => return Err(LookFault::Path(disk_fault(error, path))),
    }
    match looks.open(log.as_str()) {
        Ok(file) => Ok(Some(file)),
        Err(error) => Err(LookFault::Path(disk_fault(error, path))),
    }
}

// The bytes of the log at a path, or none where it isn't there.
fn log_bytes<'a>(looks: Looks<'_>, path: &'a str) -> Result<Vec<u8>, LookFault<'a>> {
    let Some(file) = log_at(looks, path)? else {
        return Ok(Vec::new(looks.alloc()));
    };
    match all_bytes(looks.alloc(), file) {
        Ok(bytes) => Ok(bytes),
        Err(error) => Err(LookFault::Path(disk_fault(error, path))),
    }
}

/// Whether the log at a path holds a commit: it is left alone, where its file is missing or has no bytes. It reads the
/// log.
pub fn holds_log<'a>(looks: Looks<'_>, path: &'a str) -> Result<bool, LookFault<'a>> {
    match hold_commit(looks.alloc(), &log_bytes(looks, path)?) {
        Ok(holds) => Ok(holds),
        Err(error) => Err(LookFault::Path(log_fault(error, path))),
    }
}

/// How the log at a path ends, before anything is opened.
pub fn log_ending<'a>(looks: Looks<'_>, path: &'a str) -> Result<Ending, LookFault<'a>>
    ensures { IfOk result IsSomeEnding }
{
    let Some(file) = log_at(looks, path)? else {
        return Ok(ending_of(&[]));
    };
    match ending_from(looks.alloc(), file) {
        Ok(ending) => Ok(ending),
        Err(error) => Err(LookFault::Path(disk_fault(error, path))),
    }
}

// Says at a terminal what is missing of the log: an opening reads the part before, and empties the log.
fn warn_of_log(rt: &HostRuntime, path: &str) {
    if !rt.stderr().is_terminal() {
        return;
    }
    if let Ok(ending) = log_ending(Looks::new(rt), path) {
        warn(rt, path, ending);
    }
}

// The files at a path. Where the store finds another thing than a file, there is none.
fn open_pair<'a, S: Start>(
    rt: &HostRuntime,
    path: &'a str,
    start: S,
) -> Result<Files<FileFrom<S>>, LookFault<'a>>
    ensures log { IfOk result (λ files. IsTrue (file_is_usable S.Start files.log)) }
    ensures db { IfOk result (λ files. IsTrue (file_is_usable S.Start files.db)) }
    ensures unused { IfOk result (λ files. IsFresh true files.log × IsFresh false files.db) }
{
    if path == ":memory:" || path.starts_with("file:") {
        return Err(LookFault::Path(PathFault::CannotOpen(path)));
    }
    match sqlite_std_file::open(rt, path, start) {
        Ok(files) => Ok(files),
        Err(OpenError::OutOfMemory) => Err(LookFault::Path(PathFault::NoMemory)),
        Err(OpenError::Busy) => Err(LookFault::OpenElsewhere(path)),
        Err(OpenError::Io(error)) => Err(LookFault::Path(disk_fault(error, path))),
        Err(_) => Err(LookFault::Path(PathFault::CannotOpen(path))),
    }
}

// A number that nobody foresees, for what the store draws by chance.
fn seed<'a>(rt: &HostRuntime, path: &'a str) -> Result<u64, LookFault<'a>> {
    match RandomState::new(rt) {
        Ok(state) => Ok(state.hash_one(&0u8)),
        Err(_) => Err(LookFault::Path(PathFault::CannotOpen(path))),
    }
}

// Whether a desk is to be made in what there is, which it never is where only one that is there is looked at.
fn is_new<'a>(found: Found, makes: bool, path: &'a str) -> Result<bool, LookFault<'a>>
    ensures makes { IfOk result (λ is_new. is_new ≡ true → makes ≡ true) }
    // not in a file that has bytes
    ensures bytes { (len : ℕ) → found ≡ Found.Bytes len → result ≡ Ok false }
    // where there is none, or one of no bytes, it is if it may, and else nothing is opened
    ensures made { makes ≡ true → (found ≡ Found.Nothing) ⊎ (found ≡ Found.NoBytes)
        → result ≡ Ok true }
    ensures none { makes ≡ false → (found ≡ Found.Nothing) ⊎ (found ≡ Found.NoBytes)
        → OnOk result ⊥ }
{
    match found {
        Found::Bytes(_) => Ok(false),
        _ if makes => Ok(true),
        Found::Nothing => Err(LookFault::Path(PathFault::CannotOpen(path))),
        Found::NoBytes => Err(LookFault::NoBytes),
    }
}

// The error that kept the store from opening the files, as a fault.
fn opening_fault<'a>(error: Error, path: &'a str) -> PathFault<'a>
    ensures { result ≡ by_memory error PathFault.NoMemory (PathFault.CannotOpen path.entry) }
{
    match error {
        Error::SqliteFailure(ErrorCode::OutOfMemory) => PathFault::NoMemory,
        _ => PathFault::CannotOpen(path),
    }
}

// A connection to files, or the files. Those that are not new come to the store as they are.
fn open_files<'a, D: Disk + Drop>(
    alloc: Global,
    files: Files<D>,
    seeds: [u64; 2],
    path: &'a str,
) -> Result<Connection<FileStore<D>>, Unconnected<'a, D>>
    requires log { IsTrue (D.Disk.is_usable files.log) }
    requires db { IsTrue (D.Disk.is_usable files.db) }
    ensures unused { IfOk result IsNew }
    ensures opened { IfOk result (λ conn. IsOpenedIn D.Disk files conn) }
    // where that fails they hold what they held before, or where that was nothing a database of no tables
    ensures left { IfErr result (λ e. AreUnopened D.Disk files e.files) }
{
    let [first, second] = seeds;
    let mut files = match begun(alloc, files, first, path) {
        Ok(files) => files,
        Err((fault, files)) => return Err(Unconnected::new(fault, files)),
    };
    let options = match options(&mut files, second, path) {
        Ok(options) => options,
        Err(fault) => return Err(Unconnected::new(fault, files)),
    };
    match Connection::open_files(alloc, files, options) {
        Ok(conn) => Ok(conn),
        Err((error, left)) => Err(Unconnected::new(opening_fault(error, path), left.into_files())),
    }
}

// A connection to the files at a path.
fn open_connection<'a, S: Start>(
    rt: &HostRuntime,
    path: &'a str,
    start: S,
) -> Result<Connection<StoreFrom<S>>, OpeningFault<'a>>
    ensures unused { IfOk result IsNew }
    ensures opened { IfOk result (λ conn. IsOpenedFrom ⟦<FileFrom<S> as Disk>⟧ IsFresh conn) }
    ensures left { IfErr result (LeavesUnopened ⟦<FileFrom<S> as Disk>⟧ IsFresh) }
{
    let seeds = [seed(rt, path)?, seed(rt, path)?];
    let files = open_pair(rt, path, start)?;
    match open_files(rt.alloc(), files, seeds, path) {
        Ok(opened) => Ok(opened),
        Err(unconnected) => Err(OpeningFault::Files(unconnected.into_fault())),
    }
}

/// A connection to the file at a path, and whether there was none, or one of no bytes: these are refused where no desk
/// is to be made.
pub fn connect<'a, S: Start>(
    rt: &HostRuntime,
    path: &'a str,
    makes: bool,
    start: S,
) -> Result<(Connection<StoreFrom<S>>, bool), OpeningFault<'a>>
    ensures unused { IfOk result (λ found. IsNew found.0) }
    ensures opened { IfOk result (λ found. IsOpenedFrom ⟦<FileFrom<S> as Disk>⟧ IsFresh found.0) }
    ensures makes { IfOk result (λ found. found.1 ≡ true → makes ≡ true) }
    // where files were opened, and no connection was made, this is left of them
    ensures left { IfErr result (LeavesUnopened ⟦<FileFrom<S> as Disk>⟧ IsFresh) }
{
    let looks = Looks::new(rt);
    let found = look(looks, path)?;
    if let Found::Bytes(len) = found {
        announce(rt, path, len);
        warn_of_log(rt, path);
    } else if holds_log(looks, path)? {
        return Err(OpeningFault::Look(LookFault::Path(PathFault::CannotOpen(path))));
    }
    let is_new = is_new(found, makes, path)?;
    let conn = open_connection(rt, path, start)?;
    Ok((conn, is_new))
}

// Whether an opening would change a byte of the file at a path, which has so many.
fn is_unfinished<'a>(looks: Looks<'_>, path: &'a str, len: u64) -> Result<bool, LookFault<'a>> {
    match would_change(looks.alloc(), len, &log_bytes(looks, path)?) {
        Ok(changes) => Ok(changes),
        Err(error) => Err(LookFault::Path(log_fault(error, path))),
    }
}

/// A connection to an archive, of which no byte is changed.
pub fn connect_archive<'a, S: Start>(
    rt: &HostRuntime,
    path: &'a str,
    start: S,
) -> Result<Connection<StoreFrom<S>>, OpeningFault<'a>>
    ensures unused { IfOk result IsNew }
    ensures opened { IfOk result (λ conn. IsOpenedFrom ⟦<FileFrom<S> as Disk>⟧ IsFresh conn) }
    ensures left { IfErr result (LeavesUnopened ⟦<FileFrom<S> as Disk>⟧ IsFresh) }
{
    let looks = Looks::new(rt);
    let found = look(looks, path)?;
    let _ = is_new(found, false, path)?;
    if let Found::Bytes(len) = found {
        if is_unfinished(looks, path, len)? {
            return Err(OpeningFault::Look(LookFault::Path(PathFault::CannotOpen(path))));
        }
        announce(rt, path, len);
    }
    open_connection(rt, path, start)
}

// The finding of closing, as a fault.
fn closing_fault(error: Error) -> BookFault
    ensures { result ≡ by_memory error BookFault.NoMemory BookFault.Store }
{
    match error {
        Error::SqliteFailure(ErrorCode::OutOfMemory) => BookFault::NoMemory,
        _ => BookFault::Store,
    }
}

/// Closes the connection, so that the file alone holds its database.
pub fn close_connection<D: Disk + Drop>(conn: Connection<FileStore<D>>) -> Result<(), BookFault>
    ensures laid { OnOk result (IsLaidIn conn) }
    // whatever comes of it, a crash leaves nothing new
    ensures shut { IsShut conn }
{
    match conn.close_files() {
        Ok(_) => Ok(()),
        Err((error, store)) => {
            drop(store.close());
            Err(closing_fault(error))
        }
    }
}
