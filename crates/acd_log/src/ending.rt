//! The end of a log, and whether answers are missing by it.

ghost use Rattle.std.specs.Prelude.{◌≡◌, ◌≢◌, ◌≤◌, ◌↔◌, length, IsTrue};
ghost use Rattle.std.specs.List.{list_all};
ghost use Rattle.acd_log.specs.Ending.{is_zero, IsFilled, IsDamagedIn, IsEndingOf};

use crate::be32::part_of;
use crate::frames::is_damaged;
use crate::head::{HEAD, SHORTEST, page_size};

/// How a log ends.
#[derive(Clone, Copy, Debug, PartialEq, Eq)]
pub enum Ending {
    /// As one that is whole, or as a power cut leaves it: nothing that was answered is missing.
    Plain,
    /// Before commits that were on the disk: the answers given in them are missing.
    Early,
    /// Its head can't be read, so nothing says what follows it.
    Headless,
}

fn are_zeros(bytes: &[u8]) -> bool
    ensures { result ≡ list_all is_zero bytes.now }
{
    bytes.iter().all(|byte| *byte == 0)
}

// Whether something follows the head. A log that is being emptied begins with 0 until that is done.
fn is_filled(log: &[u8]) -> bool
    ensures { IsTrue result ↔ IsFilled log.now }
{
    if log.len() < SHORTEST {
        return false;
    }
    if log[0] == 0 {
        return false;
    }
    !are_zeros(part_of(log, HEAD, log.len() - HEAD))
}

// How the log ends whose pages are so long.
fn ending_in(log: &[u8], page: usize) -> Ending
    requires long { 32 ≤ length log.now }
    requires page { page ≤ 65536 }
    ensures early { (result ≡ Ending.Early) ↔ IsDamagedIn page log.now }
    ensures head { result ≢ Ending.Headless }
{
    if is_damaged(log, page) {
        Ending::Early
    } else {
        Ending::Plain
    }
}

// How the log ends whose head can't be read.
fn ending_without_head(log: &[u8]) -> Ending
    ensures headless { (result ≡ Ending.Headless) ↔ IsFilled log.now }
    ensures early { result ≢ Ending.Early }
{
    if is_filled(log) {
        Ending::Headless
    } else {
        Ending::Plain
    }
}

/// How the log ends that has these bytes.
pub fn ending_of(log: &[u8]) -> Ending
    ensures { IsEndingOf log.now result }
{
    match page_size(log) {
        Some(size) => ending_in(log, size.bytes()),
        None => ending_without_head(log),
    }
}
