//! Looks at what is at a path. Whoever has nothing but these can write, make or remove nothing.

use std::alloc::Global;
use std::fs::{self, File, Metadata};
use std::io::{self, Read};
use std::path::PathBuf;

/// The files of the system, to be looked at and read alone.
#[derive(Clone, Copy)]
pub struct Looks<'r> {
    rt: &'r HostRuntime,
}

impl<'r> Looks<'r> {
    /// Whoever has the program's runtime can hand these on in its place.
    pub fn new(rt: &'r HostRuntime) -> Looks<'r> {
        Looks { rt }
    }

    /// The memory of the program. It looks at nothing.
    pub fn alloc(self) -> Global {
        self.rt.alloc()
    }

    /// What is at a path, or where a link there leads to.
    pub fn metadata(self, path: &str) -> io::Result<Metadata> {
        fs::metadata(self.rt, path)
    }

    /// What is at a path, though it be a link.
    pub fn symlink_metadata(self, path: &str) -> io::Result<Metadata> {
        fs::symlink_metadata(self.rt, path)
    }

    /// The path without links.
    pub fn real_path(self, path: &str) -> io::Result<PathBuf> {
        fs::canonicalize(self.rt, path)
    }

    /// The file at a path, to be read.
    pub fn open(self, path: &str) -> io::Result<ReadOnly> {
        Ok(ReadOnly {
            file: fs::open(self.rt, path)?,
        })
    }
}

/// A file of which bytes can be read, and nothing else.
#[derive(Drop)]
pub struct ReadOnly {
    file: File,
}

impl Read for ReadOnly {
    fn read(&mut self, buf: &mut [u8]) -> io::Result<usize> {
        self.file.read(buf)
    }
}
