//! The head of a log, which says how long its pages are.

ghost use Rattle.std.specs.Prelude.{◌≡◌, ◌↔◌, ℕ, None, length, IsTrue, IfSome};
ghost use Rattle.sqlite_wal.specs.Format.{IsSigned};
ghost use Rattle.sqlite_wal.specs.PageSize.{bytes_of};
ghost use Rattle.acd_log.specs.Ending.{HasHead, IsReadableLog};

use crate::be32::{number_at, part_of, sum_at};
use sqlite_wal::{PageSize, checksum_of};

/// The bytes of a head.
pub(crate) const HEAD: usize = 32;

/// The bytes of a head and of a frame without its page: a shorter log has no frame.
pub(crate) const SHORTEST: usize = 56;

// The version of the form.
const VERSION: u32 = 3_007_000;

// Whether a head begins as a log's, and has its checksum.
fn is_signed(head: &[u8]) -> bool
    requires { length head.now ≡ 32 }
    ensures { IsTrue result ↔ IsSigned head.now }
{
    if head[0] != 0x37 || head[1] != 0x7f || head[2] != 0x06 {
        return false;
    }
    if head[3] != 0x82 && head[3] != 0x83 {
        return false;
    }
    checksum_of(head[3] == 0x83, (0, 0), &head[..24]) == sum_at(head, 24)
}

// Whether the log is as long as one with a frame, and its head can be read, but for the length of a page.
fn has_head(log: &[u8]) -> bool
    ensures { IsTrue result ↔ HasHead log.now }
{
    if log.len() < SHORTEST {
        return false;
    }
    let head = part_of(log, 0, HEAD);
    if !is_signed(head) {
        return false;
    }
    number_at(head, 4) == VERSION
}

/// The length of the log's pages, where its head can be read.
pub(crate) fn page_size(log: &[u8]) -> Option<PageSize>
    ensures some { IfSome result (λ size. IsReadableLog (bytes_of size) log.now) }
    ensures none { result ≡ None → (page : ℕ) → ¬ IsReadableLog page log.now }
{
    if !has_head(log) {
        return None;
    }
    PageSize::new(number_at(part_of(log, 0, HEAD), 8) as usize)
}
