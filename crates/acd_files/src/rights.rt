//! Whether a file can be written, as far as that shows without an attempt.

ghost use Rattle.std.specs.Prelude.{◌≡◌};
ghost use Rattle.std.specs.List.{list_all};
ghost use Rattle.acd_files.specs.Rights.{writing_bits, is_shown_plain};

use crate::logs::all_bytes;
use crate::looking::Looks;
use std::fs::Metadata;
use std::os::unix::fs::MetadataExt;
use std::str::from_utf8;

// This process, whose owner is the user.
const PROCESS: &str = "/proc/self";

const ROOT: u32 = 0;

// What is mounted for this process, a line each: a device, a folder, a kind, and options, of which the first says
// whether it can be written.
const MOUNTS: &str = "/proc/self/mounts";

// The bits of a mode by which its owner may write, its group, and all others.
const OWNER: u32 = 0o200;

const GROUP: u32 = 0o020;

const OTHERS: u32 = 0o002;

// The bits of a mode that say of a user whether he may write. What other groups he is in isn't known.
fn bits_of(is_owner: bool, is_of_group: bool) -> u32
    ensures { result ≡ writing_bits is_owner is_of_group }
{
    if is_owner {
        OWNER
    } else if is_of_group {
        GROUP
    } else {
        GROUP | OTHERS
    }
}

/// Whether the user of this process surely has no permission to write what was found. The user root always has. It looks
/// at whose process this is.
pub fn is_forbidden(looks: Looks<'_>, found: &Metadata) -> bool {
    let Ok(process) = looks.metadata(PROCESS) else {
        return false;
    };
    let user = process.uid();
    let bits = bits_of(user == found.uid(), process.gid() == found.gid());
    user != ROOT && found.mode() & bits == 0
}

// Whether a path is that of a folder, or below it.
fn is_in(path: &str, folder: &str) -> bool {
    match path.strip_prefix(folder) {
        Some(rest) => folder.ends_with('/') || rest.is_empty() || rest.starts_with('/'),
        None => false,
    }
}

// Whether the last of the longest folders that the path is in can't be written.
fn is_in_read_only(mounts: &str, path: &str) -> bool {
    let mut longest = 0;
    let mut is_read_only = false;
    for line in mounts.lines() {
        let mut words = line.split(' ');
        if let (Some(_), Some(folder), Some(_), Some(options)) = (
            words.next(),
            words.next(),
            words.next(),
            words.next(),
        ) {
            if is_in(path, folder) && folder.len() >= longest {
                longest = folder.len();
                is_read_only = options == "ro" || options.starts_with("ro,");
            }
        }
    }
    is_read_only
}

// Whether a path is written as it is where it is mounted: blanks and backslashes aren't.
fn is_plain(path: &str) -> bool
    ensures { result ≡ list_all is_shown_plain path.now }
{
    path.as_bytes()
        .iter()
        .all(|byte| *byte > b' ' && *byte != b'\\')
}

/// Whether a path surely is on a disk that can't be written. It looks for links, and reads what is mounted.
pub fn is_read_only(looks: Looks<'_>, path: &str) -> bool {
    let (Ok(real), Ok(file)) = (looks.real_path(path), looks.open(MOUNTS)) else {
        return false;
    };
    let Ok(bytes) = all_bytes(looks.alloc(), file) else {
        return false;
    };
    match from_utf8(&bytes) {
        Ok(mounts) => is_plain(real.as_str()) && is_in_read_only(mounts, real.as_str()),
        Err(_) => false,
    }
}
