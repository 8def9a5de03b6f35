//! The frames of a log: how many pass the store's test, and what follows the first that doesn't.

ghost use Rattle.std.specs.Prelude.{◌≡◌, ◌≢◌, ◌+◌, ◌≤◌, ◌↔◌, ℕ, length, IsTrue};
ghost use Rattle.sqlite_wal.specs.Format.{part, be32, IsFrame};
ghost use Rattle.sqlite_wal.specs.Recovery.{frame_at};
ghost use Rattle.acd_log.specs.Ending.{HasFrame, HasGoodFrame, IsFirstBad, IsBeforeCommit, IsDamagedIn};

use crate::be32::{Sum, number_at, part_of, sum_at};
use crate::head::HEAD;
use sqlite_wal::checksum_of;

// The bytes of a frame before its page.
const FRONT: usize = 24;

// Whether a frame passes the store's test, after this checksum.
fn is_frame(head: &[u8], before: Sum, frame: &[u8]) -> bool
    requires head { length head.now ≡ 32 }
    requires frame { 24 ≤ length frame.now }
    ensures { IsTrue result ↔ IsFrame head.now before frame.now }
{
    if frame[8..16] != head[16..24] || number_at(frame, 0) == 0 {
        return false;
    }
    let big = head[3] == 0x83;
    let front = checksum_of(big, before, &frame[..8]);
    checksum_of(big, front, &frame[24..]) == sum_at(frame, 16)
}

// Whether there is a whole frame here.
fn has_frame(log: &[u8], page: usize, at: usize) -> bool
    requires { page ≤ 65536 }
    ensures { IsTrue result ↔ HasFrame page log.now at }
{
    at <= log.len() && log.len() - at >= FRONT + page
}

// Whether there is one here that passes the store's test.
fn passes(log: &[u8], page: usize, before: Sum, at: usize) -> bool
    requires long { 32 ≤ length log.now }
    requires page { page ≤ 65536 }
    ensures { IsTrue result ↔ HasGoodFrame page log.now before at }
{
    if !has_frame(log, page, at) {
        return false;
    }
    is_frame(
        part_of(log, 0, HEAD),
        before,
        part_of(log, at, FRONT + page),
    )
}

// The place where the first bad frame begins, or would.
fn first_bad(log: &[u8], page: usize) -> usize
    requires long { 32 ≤ length log.now }
    requires page { page ≤ 65536 }
    ensures { (n : ℕ) × IsFirstBad page log.now n × (result ≡ frame_at page n) }
{
    let mut before = sum_at(log, 24);
    let mut at = HEAD;
    while passes(log, page, before, at) {
        before = sum_at(log, at + 16);
        at += FRONT + page;
    }
    at
}

// Whether the frame here has the salt of the log's head.
fn is_salted(log: &[u8], at: usize) -> bool
    requires long { 32 ≤ length log.now }
    requires frame { at + 24 ≤ length log.now }
    ensures { IsTrue result ↔ (part log.now (at + 8) 8 ≡ part log.now 16 8) }
{
    part_of(log, at + 8, 8) == part_of(log, 16, 8)
}

// Whether it ends a commit.
fn is_last(log: &[u8], at: usize) -> bool
    requires { at + 24 ≤ length log.now }
    ensures { IsTrue result ↔ (be32 log.now (at + 4) ≢ 0) }
{
    number_at(log, at + 4) != 0
}

// Whether a commit follows the frame here, and a frame follows that.
fn is_before_commit(log: &[u8], page: usize, bad: usize) -> bool
    requires long { 32 ≤ length log.now }
    requires page { page ≤ 65536 }
    ensures { (n : ℕ) → bad ≡ frame_at page n → IsTrue result ↔ IsBeforeCommit page log.now n }
{
    if !has_frame(log, page, bad) {
        return false;
    }
    let mut is_committed = false;
    let mut at = bad + FRONT + page;
    while has_frame(log, page, at) {
        if is_salted(log, at) {
            if is_committed {
                return true;
            }
            is_committed = is_last(log, at);
        }
        at += FRONT + page;
    }
    false
}

/// Whether commits follow the first bad frame.
pub(crate) fn is_damaged(log: &[u8], page: usize) -> bool
    requires long { 32 ≤ length log.now }
    requires page { page ≤ 65536 }
    ensures { IsTrue result ↔ IsDamagedIn page log.now }
{
    is_before_commit(log, page, first_bad(log, page))
}
