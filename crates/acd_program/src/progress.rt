//! The progress of an audit, shown where standard error is a terminal.

use acd_desk::Progress;
use std::io::IsTerminal;
use std::time::Instant;

// After so many seconds the line is shown anew.
const PAUSE: u64 = 1;

/// A line that prints once a second how many requests were replayed. It is erased at the end.
#[derive(Drop)]
pub(crate) struct ProgressLine<'a> {
    rt: &'a HostRuntime,
    // When the line was last due, where it is shown at all.
    due: Option<Instant>,
    is_shown: bool,
    all: u64,
    // The stamp of the first request that the audit came to, or 0.
    first: u64,
}

impl<'a> ProgressLine<'a> {
    /// Of the audit of so many requests.
    pub(crate) fn new(rt: &'a HostRuntime, all: u64) -> ProgressLine<'a> {
        let due = if rt.stderr().is_terminal() {
            Instant::now(rt).ok()
        } else {
            None
        };
        ProgressLine {
            rt,
            due,
            is_shown: false,
            all,
            first: 0,
        }
    }

    fn is_due(&self) -> bool {
        match self.due {
            Some(due) => matches!(due.elapsed(self.rt), Ok(past) if past.as_secs() >= PAUSE),
            None => false,
        }
    }

    /// Erases the line.
    pub(crate) fn end(&self) {
        if self.is_shown {
            let _ = eprint!(self.rt; "\x1b[K");
        }
    }

    /// The desk differs from its replay: where older requests are in an archive, it says so.
    pub(crate) fn advise(&self) {
        if self.first > 1 && self.rt.stderr().is_terminal() {
            let _ = eprintln!(self.rt;
                "acd: the first request that it keeps is #{}: where it was carried over, name its archive by --archive",
                self.first
            );
        }
    }
}

impl<'a> Progress for ProgressLine<'a> {
    fn reached(&mut self, stamp: u64) {
        if self.first == 0 {
            self.first = stamp;
        } else if self.is_due() {
            let done = stamp.saturating_sub(1);
            let _ = eprint!(self.rt; "acd: {} of {} requests replayed\x1b[K\r", done, self.all);
            self.due = Instant::now(self.rt).ok();
            self.is_shown = true;
        }
    }
}
