//! A reader and a writer that take their time, and may fail.

use std::io::{self, ErrorKind, Read, Write};

/// Gives at most so many bytes at a time, and is interrupted before each time.
#[derive(Drop)]
pub struct Pieces<'a> {
    left: &'a [u8],
    size: usize,
    interrupted: bool,
}

impl<'a> Pieces<'a> {
    pub fn new(left: &'a [u8], size: usize) -> Pieces<'a> {
        Pieces {
            left,
            size,
            interrupted: false,
        }
    }
}

impl Read for Pieces<'_> {
    fn read(&mut self, buf: &mut [u8]) -> io::Result<usize> {
        self.interrupted = !self.interrupted;
        if self.interrupted {
            return Err(io::Error::from(ErrorKind::Interrupted));
        }
        let count = buf.len().min(self.left.len()).min(self.size);
        buf[..count].copy_from_slice(&self.left[..count]);
        self.left = &self.left[count..];
        Ok(count)
    }
}

/// Takes at most so many bytes at a time, counts the times, and is interrupted before each. Once it is full it takes no
/// more, or fails.
#[derive(Drop)]
pub struct Narrow {
    pub taken: Vec<u8>,
    pub calls: u32,
    room: usize,
    size: usize,
    fails: bool,
    interrupted: bool,
}

impl Narrow {
    /// Has room for so many bytes after those that are there.
    pub fn new(taken: Vec<u8>, room: usize, size: usize, fails: bool) -> Narrow {
        Narrow {
            taken,
            calls: 0,
            room,
            size,
            fails,
            interrupted: false,
        }
    }
}

impl Write for Narrow {
    fn write(&mut self, buf: &[u8]) -> io::Result<usize> {
        self.interrupted = !self.interrupted;
        if self.interrupted {
            return Err(io::Error::from(ErrorKind::Interrupted));
        }
        if self.fails && self.room == 0 {
            return Err(io::Error::from(ErrorKind::BrokenPipe));
        }
        let count = buf.len().min(self.room).min(self.size);
        self.taken.extend_from_slice(&buf[..count])?;
        self.room -= count;
        self.calls = self.calls.saturating_add(1);
        Ok(count)
    }

    fn flush(&mut self) -> io::Result<()> {
        Ok(())
    }
}
