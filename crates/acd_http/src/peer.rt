//! The other end of a connection.

ghost use Rattle.std.specs.Io.{ReadsAtMost, WritesAtMost};

use std::io::{self, Read, Write};
use std::net::TcpStream;
use std::os::unix::net::UnixStream;
use std::time::Duration;

/// The client at the other end of a connection. Each call is told how long to wait: as long as it takes where no time is
/// given, and not at all where the time is zero. Where nothing comes in that time, the error is `WouldBlock`.
pub trait Peer {
    /// Reads what the client has sent.
    fn read_within(&self, time: Option<Duration>, buf: &mut [u8]) -> io::Result<usize>
        ensures { ReadsAtMost result buf.new };

    /// Sends the client as much as it takes. The time isn't zero.
    fn write_within(&self, time: Option<Duration>, buf: &[u8]) -> io::Result<usize>
        ensures { WritesAtMost result buf.now };
}

impl Peer for TcpStream {
    fn read_within(&self, time: Option<Duration>, buf: &mut [u8]) -> io::Result<usize> {
        let mut reader = self;
        let Some(left) = time else {
            return reader.read(buf);
        };
        if !left.is_zero() {
            self.set_read_timeout(time)?;
            return reader.read(buf);
        }
        self.set_nonblocking(true)?;
        let read = reader.read(buf);
        self.set_nonblocking(false)?;
        read
    }

    fn write_within(&self, time: Option<Duration>, buf: &[u8]) -> io::Result<usize> {
        if time.is_some() {
            self.set_write_timeout(time)?;
        }
        let mut writer = self;
        writer.write(buf)
    }
}

impl Peer for UnixStream {
    fn read_within(&self, time: Option<Duration>, buf: &mut [u8]) -> io::Result<usize> {
        let mut reader = self;
        let Some(left) = time else {
            return reader.read(buf);
        };
        if !left.is_zero() {
            self.set_read_timeout(time)?;
            return reader.read(buf);
        }
        self.set_nonblocking(true)?;
        let read = reader.read(buf);
        self.set_nonblocking(false)?;
        read
    }

    fn write_within(&self, time: Option<Duration>, buf: &[u8]) -> io::Result<usize> {
        if time.is_some() {
            self.set_write_timeout(time)?;
        }
        let mut writer = self;
        writer.write(buf)
    }
}
