//! A peer that is waited for no longer than is said.

use crate::peer::Peer;
use std::io::{self, ErrorKind, Read, Write};
use std::time::{Clock, Duration, Instant};

/// How many bytes are written at once, at most: a socket that takes more of them in parts waits anew for each part.
const MOST_AT_ONCE: usize = 16_384;

/// A peer that is read, or written to, until its time is up. Its time begins when it is said to, or with its first call.
#[derive(Drop)]
pub(crate) struct Patient<'a, P: Peer, C: Clock> {
    peer: &'a P,
    clock: &'a C,
    patience: Option<Duration>,
    began: Option<Instant>,
}

impl<'a, P: Peer, C: Clock> Patient<'a, P, C> {
    /// Its time begins now.
    pub(crate) fn from_now(
        peer: &'a P,
        clock: &'a C,
        patience: Option<Duration>,
    ) -> Patient<'a, P, C> {
        let began = match patience {
            Some(_) => Instant::now(clock).ok(),
            None => None,
        };
        Patient {
            peer,
            clock,
            patience,
            began,
        }
    }

    /// Its time begins with its first call.
    pub(crate) fn from_first(
        peer: &'a P,
        clock: &'a C,
        patience: Option<Duration>,
    ) -> Patient<'a, P, C> {
        Patient {
            peer,
            clock,
            patience,
            began: None,
        }
    }

    // What is left of the time, where it has one.
    fn left(&mut self) -> io::Result<Option<Duration>> {
        let Some(patience) = self.patience else {
            return Ok(None);
        };
        let now = Instant::now(self.clock)?;
        let began = self.began.unwrap_or(now);
        self.began = Some(began);
        Ok(Some(patience.saturating_sub(now.duration_since(began))))
    }
}

fn is_zero(time: Option<Duration>) -> bool {
    match time {
        Some(left) => left.is_zero(),
        None => false,
    }
}

impl<P: Peer, C: Clock> Read for Patient<'_, P, C> {
    // Before it is given up it is read once more, without waiting: its bytes may have come while nobody looked.
    fn read(&mut self, buf: &mut [u8]) -> io::Result<usize> {
        let left = self.left()?;
        if left.is_none() || is_zero(left) {
            return self.peer.read_within(left, buf);
        }
        match self.peer.read_within(left, buf) {
            Err(error) if error.kind() == ErrorKind::WouldBlock => {
                self.peer.read_within(Some(Duration::ZERO), buf)
            }
            read => read,
        }
    }
}

impl<P: Peer, C: Clock> Write for Patient<'_, P, C> {
    fn write(&mut self, buf: &[u8]) -> io::Result<usize> {
        let left = self.left()?;
        if left.is_none() {
            return self.peer.write_within(None, buf);
        }
        if is_zero(left) {
            return Err(io::Error::from(ErrorKind::TimedOut));
        }
        let most = buf.len().min(MOST_AT_ONCE);
        self.peer.write_within(left, &buf[..most])
    }

    fn flush(&mut self) -> io::Result<()> {
        Ok(())
    }
}
