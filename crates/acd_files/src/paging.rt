//! The pages of a file: how long they are in a new one, and how many of them the store keeps in memory.

ghost use Rattle.std.specs.Prelude.{◌≡◌, ◌/◌, ◌≤◌, ◌<◌, IsTrue, IfOk, IfErr};
ghost use Rattle.std.specs.IoError.{error_kind};
ghost use Rattle.sqlite_wal.specs.Reads.{AreClean, OnlyReads};
ghost use Rattle.acd_files.specs.Faults.{disk_fault, log_fault};
ghost use Rattle.acd_files.specs.Files.{new_page, page_of, treated, IfClean, IfShort, IsSmall, AreReadOnly, KeepsPages, AreTreated, IsCreated, AreReady, AreUnopened};

use crate::fault::PathFault;
use crate::lone_log::is_lone;
use sqlite_disk::{Disk, Files};
use sqlite_pager::{Options, PageSize, Pager};
use sqlite_store::{OpenError, Unopened};
use sqlite_wal::{Error, probe_page_size};
use std::alloc::Global;
use std::io;

// The bytes of a page of a new file. A request changes a row or two in each of a dozen pages, and each of these is
// digested and written whole, so it takes half as long again with the store's default, 4,096. Not much less pays: then
// a page holds few rows.
const NEW_PAGE: usize = 1024;

// The bytes of the pages that the store keeps in memory. More of them spare no request a read. An opening, which reads
// the file more than once, would read fewer pages anew only where more than half of all were kept.
const CACHE: usize = 8_192_000;

// The cache, in pages, that suffices to write the first page.
const ONE_PAGE: usize = 1;

/// The error that kept a file from being read, as a fault.
pub(crate) fn disk_fault<'a>(error: io::Error, path: &'a str) -> PathFault<'a>
    ensures { result ≡ disk_fault (error_kind error) path.entry }
{
    match error.kind() {
        io::ErrorKind::OutOfMemory => PathFault::NoMemory,
        _ => PathFault::CannotOpen(path),
    }
}

// Whether the file has no more than a first page, which a stop may have left half made.
fn may_be_new<D: Disk>(files: &mut Files<D>) -> io::Result<bool>
    requires log { IsTrue (D.Disk.is_usable files.old.log) }
    requires db { IsTrue (D.Disk.is_usable files.old.db) }
    ensures log { files.new.log ≡ files.old.log }
    ensures db { OnlyReads D.Disk files.old.db files.new.db }
    ensures few { IfOk result (IsSmall D.Disk files.old.db files.new.db) }
{
    Ok(files.db.len()? <= NEW_PAGE)
}

// How the store treats the one page of a new file.
fn one_page(seed: u64) -> Options
    ensures { result ≡ record (treated new_page seed) { cache_pages = 1 } }
{
    Options {
        cache_pages: ONE_PAGE,
        ..Options::new(seed)
    }
}

// The files, with a database of no tables in them unless they hold one. A stop leaves none, one that the next call finishes, or all of it.
fn created<'a, D: Disk + Drop>(
    alloc: Global,
    files: Files<D>,
    seed: u64,
    path: &'a str,
) -> Result<Files<D>, (PathFault<'a>, Files<D>)>
    requires log { IsTrue (D.Disk.is_usable files.log) }
    requires db { IsTrue (D.Disk.is_usable files.db) }
    ensures created { IfOk result (λ new. IsCreated D.Disk files new) }
    ensures clean { IfOk result (λ new. IfClean D.Disk new (AreClean D.Disk files.log files.db)) }
    ensures left { IfErr result (λ e. AreUnopened D.Disk files e.1) }
{
    let Some(size) = PageSize::new(NEW_PAGE) else {
        return Err((PathFault::CannotOpen(path), files));
    };
    let pager = match Pager::new(alloc, files, size, one_page(seed)) {
        Ok(pager) => pager,
        Err(failed) => return Err((PathFault::NoMemory, failed.value)),
    };
    let unopened = match Unopened::new(alloc, pager, &[]) {
        Ok(unopened) => unopened,
        Err(failed) => return Err((PathFault::NoMemory, failed.value.close())),
    };
    match unopened.create() {
        Ok(store) => Ok(store.close()),
        // They hold a database, or something else that it leaves as it is.
        Err((OpenError::Refused, left)) => Ok(left.close()),
        Err((OpenError::OutOfMemory, left)) => Err((PathFault::NoMemory, left.close())),
        Err((_, left)) => Err((PathFault::CannotOpen(path), left.close())),
    }
}

/// The error that kept a log from being read, as a fault.
pub(crate) fn log_fault<'a>(error: Error, path: &'a str) -> PathFault<'a>
    ensures { result ≡ log_fault error path.entry }
{
    match error {
        Error::OutOfMemory => PathFault::NoMemory,
        Error::Io(error) => disk_fault(error, path),
        _ => PathFault::CannotOpen(path),
    }
}

// The same, but for a log that is left without its file: that stays as it is.
fn created_beside<'a, D: Disk + Drop>(
    alloc: Global,
    mut files: Files<D>,
    seed: u64,
    path: &'a str,
) -> Result<Files<D>, (PathFault<'a>, Files<D>)>
    requires log { IsTrue (D.Disk.is_usable files.log) }
    requires db { IsTrue (D.Disk.is_usable files.db) }
    ensures clean { IfOk result (λ new. IfClean D.Disk new (AreClean D.Disk files.log files.db)) }
    // where the file has no more than a first page
    ensures ready { IfOk result
        (λ new. IfShort D.Disk files new (AreReady D.Disk files new)) }
    ensures left { IfErr result (λ e. AreUnopened D.Disk files e.1) }
{
    match is_lone(alloc, &mut files) {
        Ok(false) => created(alloc, files, seed, path),
        Ok(true) => Err((PathFault::CannotOpen(path), files)),
        Err(error) => Err((log_fault(error, path), files)),
    }
}

/// The files, with a database of no tables in them where they were new. The store would take a greater page.
pub(crate) fn begun<'a, D: Disk + Drop>(
    alloc: Global,
    mut files: Files<D>,
    seed: u64,
    path: &'a str,
) -> Result<Files<D>, (PathFault<'a>, Files<D>)>
    requires log { IsTrue (D.Disk.is_usable files.log) }
    requires db { IsTrue (D.Disk.is_usable files.db) }
    ensures log { IfOk result (λ files. IsTrue (D.Disk.is_usable files.log)) }
    ensures db { IfOk result (λ files. IsTrue (D.Disk.is_usable files.db)) }
    ensures ready { IfOk result (λ new. AreReady D.Disk files new) }
    ensures left { IfErr result (λ e. AreUnopened D.Disk files e.1) }
{
    match may_be_new(&mut files) {
        Ok(false) => Ok(files),
        Ok(true) => {
            let files = created_beside(alloc, files, seed, path)?;
            if files.may_be_used() {
                Ok(files)
            } else {
                Err((PathFault::CannotOpen(path), files))
            }
        }
        Err(error) => Err((disk_fault(error, path), files)),
    }
}

// How many pages of this size the store keeps. A page that isn't kept is read and digested anew.
fn kept_pages(page: usize) -> usize
    ensures most { result ≤ 8192000 }
    ensures kept { 0 < page → result ≡ 8192000 / page }
{
    CACHE / page.max(1)
}

// The length of a page: the length found or, where none was, that of a new file.
fn page_bytes(found: Option<PageSize>) -> usize
    ensures some { 0 < result }
    ensures length { result ≡ page_of found }
{
    match found {
        Some(size) => size.bytes(),
        None => NEW_PAGE,
    }
}

fn cache_pages<D: Disk>(files: &mut Files<D>) -> io::Result<usize>
    requires log { IsTrue (D.Disk.is_usable files.old.log) }
    requires db { IsTrue (D.Disk.is_usable files.old.db) }
    ensures read { AreReadOnly D.Disk files.old files.new }
    ensures kept { IfOk result (KeepsPages D.Disk files.old files.new) }
{
    let found = probe_page_size(files)?;
    Ok(kept_pages(page_bytes(found)))
}

/// How the store treats the pages of these files.
pub(crate) fn options<'a, D: Disk>(
    files: &mut Files<D>,
    seed: u64,
    path: &'a str,
) -> Result<Options, PathFault<'a>>
    requires log { IsTrue (D.Disk.is_usable files.old.log) }
    requires db { IsTrue (D.Disk.is_usable files.old.db) }
    ensures log { IsTrue (D.Disk.is_usable files.new.log) }
    ensures db { IsTrue (D.Disk.is_usable files.new.db) }
    ensures read { AreReadOnly D.Disk files.old files.new }
    ensures treated { IfOk result (AreTreated D.Disk files.old files.new seed) }
{
    match cache_pages(files) {
        Ok(cache_pages) => Ok(Options {
            cache_pages,
            ..Options::new(seed)
        }),
        Err(error) => Err(disk_fault(error, path)),
    }
}
