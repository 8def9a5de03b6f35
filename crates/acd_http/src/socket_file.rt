//! The file of a Unix socket, which outlives the program that made it.

use mio::net::UnixStream;
use std::fs::{self, Files, Metadata};
use std::io::{self, ErrorKind};
use std::net::Net;
use std::os::unix::fs::{FileTypeExt, MetadataExt};

// This process, whose owner is the user.
const PROCESS: &str = "/proc/self";

fn is_own_socket<R: Files>(rt: &R, found: &Metadata) -> io::Result<bool> {
    Ok(found.file_type().is_socket() && found.uid() == fs::metadata(rt, PROCESS)?.uid())
}

// Whether surely nobody listens there. A listener whose queue is full doesn't refuse.
fn is_refused<R: Net>(rt: &R, path: &str) -> bool {
    match UnixStream::connect(rt, path) {
        Ok(_) => false,
        Err(error) => error.kind() == ErrorKind::ConnectionRefused,
    }
}

/// Removes the socket at a path, if it is one of this user's and nobody listens at it: its program has ended. Anything
/// else that is there is left.
pub(crate) fn remove_abandoned<R: Files + Net>(rt: &R, path: &str) -> io::Result<()> {
    let found = match fs::symlink_metadata(rt, path) {
        Ok(found) => found,
        Err(error) if error.kind() == ErrorKind::NotFound => return Ok(()),
        Err(error) => return Err(error),
    };
    if is_own_socket(rt, &found)? && is_refused(rt, path) {
        fs::remove_file(rt, path)?;
    }
    Ok(())
}
