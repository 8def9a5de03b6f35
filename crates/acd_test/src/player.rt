//! Desks over a book, and what is asked of them by lines.

use crate::comparing::same;
use crate::streams::{Narrow, Pieces};
use acd_book::{Book, MemoryBook};
use acd_desk::Desk;
use acd_lines::lines;
use acd_terms::Limits;
use std::alloc::Global;
use std::process::Abort;

/// So many requests were executed.
pub fn expect_executed<B: Book>(rt: &impl Abort, desk: &mut Desk<B>, requests: u64) {
    same(rt, &desk.executed(), &Ok(requests));
}

/// A writer that takes all.
pub fn wide(alloc: Global) -> Narrow {
    Narrow::new(Vec::new(alloc), usize::MAX, usize::MAX, false)
}

/// The desk executes these lines, which are so many requests.
pub fn executes<B: Book>(
    rt: &impl Abort,
    alloc: Global,
    desk: &mut Desk<B>,
    text: &[u8],
    requests: u64,
) {
    let mut reader = Pieces::new(text, usize::MAX);
    let mut writer = wide(alloc);
    let ended = lines(alloc, desk, &mut reader, &mut writer);
    assert!(rt; ended.is_ok());
    expect_executed(rt, desk, requests);
}

/// A new desk with the greatest limits.
pub fn new_desk(rt: &impl Abort, alloc: Global) -> Desk<MemoryBook> {
    match Desk::open(alloc, MemoryBook::new(alloc, Limits::GREATEST)) {
        Ok(desk) => desk,
        Err(_) => panic!(rt; "no desk"),
    }
}
