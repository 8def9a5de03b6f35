//! How often a writer is called.

use crate::comparing::same;
use crate::streams::Narrow;
use acd_io::{Stopped, send};
use std::process::Abort;

/// A text, for how many bytes a writer has room, and how often it may be called.
type Sending = (&'static str, usize, u64);

/// How it ends, how many bytes are written, and how many calls are left.
type Sent = (Result<(), Stopped>, usize, u64);

// The writer writes a byte at a time, is interrupted before each, and where it has no more room takes none, or fails.
fn sends(rt: &(impl Abort + AllocGlobal), sending: Sending, fails: bool, sent: Sent) {
    let (text, room, calls) = sending;
    let mut writer = Narrow::new(Vec::new(rt.alloc()), room, 1, fails);
    let mut left = calls;
    let ended = send(&mut writer, &mut left, text.as_bytes());
    same(rt, &(ended, writer.taken.len(), left), &sent);
}

#[test]
fn a_call_is_counted_whatever_comes_of_it(rt: HostRuntime) {
    for (sending, sent) in [
        (("sound\n", usize::MAX, 12), (Ok(()), 6, 0)),
        (("sound\n", usize::MAX, 1_000_000), (Ok(()), 6, 999_988)),
        (("sound\n", usize::MAX, 11), (Err(Stopped), 5, 0)),
        (("sound\n", usize::MAX, 1), (Err(Stopped), 0, 0)),
        (("sound\n", usize::MAX, 0), (Err(Stopped), 0, 0)),
        (("", usize::MAX, 0), (Ok(()), 0, 0)),
        (("sound\n", 0, 12), (Err(Stopped), 0, 10)),
        (("sound\n", 1, 12), (Err(Stopped), 1, 8)),
        (("sound\n", 5, 12), (Err(Stopped), 5, 0)),
        (("sound\n", 5, 1_000_000), (Err(Stopped), 5, 999_988)),
        (("sound\n", 6, 12), (Ok(()), 6, 0)),
    ] {
        sends(&rt, sending, false, sent);
        sends(&rt, sending, true, sent);
    }
}
