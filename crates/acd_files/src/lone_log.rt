//! A log whose file is missing or has no bytes. Answers may be in it, and nowhere else.

ghost use Rattle.std.specs.Prelude.{◌≡◌, ◌↔◌, IsTrue, IfOk};
ghost use Rattle.sqlite_disk.specs.Memory.{memory_bytes, memory_is_usable};
ghost use Rattle.acd_files.specs.Files.{AreReadOnly, FindsWhether, HoldsCommit, IsLoneIn};

use sqlite_disk::{Disk, Files, Memory};
use sqlite_wal::{Error, probe_frames, probe_page_size};
use std::alloc::Global;
use std::io;

// Whether the log holds a commit.
fn holds_commit<D: Disk>(alloc: Global, files: &mut Files<D>) -> Result<bool, Error>
    requires log { IsTrue (D.Disk.is_usable files.old.log) }
    requires db { IsTrue (D.Disk.is_usable files.old.db) }
    ensures holds { FindsWhether D.Disk files.new result (HoldsCommit (D.Disk.seen files.old.log)) }
    ensures read { AreReadOnly D.Disk files.old files.new }
{
    match probe_page_size(files)? {
        Some(size) => Ok(!probe_frames(alloc, &mut files.log, size)?.is_empty()),
        None => Ok(false),
    }
}

/// Whether the log holds a commit, and its file has no bytes. A database that is made there overwrites it.
pub(crate) fn is_lone<D: Disk>(alloc: Global, files: &mut Files<D>) -> Result<bool, Error>
    requires log { IsTrue (D.Disk.is_usable files.old.log) }
    requires db { IsTrue (D.Disk.is_usable files.old.db) }
    ensures lone { FindsWhether D.Disk files.new result (IsLoneIn D.Disk files.old) }
    ensures read { AreReadOnly D.Disk files.old files.new }
{
    if files.db.len()? != 0 {
        return Ok(false);
    }
    holds_commit(alloc, files)
}

// A file in memory of these bytes.
fn in_memory(alloc: Global, bytes: &[u8]) -> io::Result<Memory>
    ensures bytes { IfOk result (λ file. memory_bytes file ≡ bytes.now) }
    ensures usable { IfOk result (λ file. IsTrue (memory_is_usable file)) }
{
    let mut file = Memory::new(alloc);
    file.write_at(0, bytes)?;
    Ok(file)
}

/// Whether the bytes of a log hold a commit.
pub(crate) fn hold_commit(alloc: Global, bytes: &[u8]) -> Result<bool, Error>
    ensures { IfOk result (λ holds. IsTrue holds ↔ HoldsCommit bytes.now) }
{
    let mut files = Files {
        log: in_memory(alloc, bytes)?,
        db: Memory::new(alloc),
    };
    holds_commit(alloc, &mut files)
}
