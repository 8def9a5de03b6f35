//! Where connections come in.

use crate::peer::Peer;
use crate::socket_file::remove_abandoned;
use mio::unix::SourceFd;
use mio::{Events, Interest, Poll, Token};
use std::alloc::Global;
use std::fs::{self, Files, Permissions};
use std::io::{self, ErrorKind};
use std::net::{Ipv4Addr, Net, SocketAddr, TcpListener, TcpStream};
use std::os::fd::AsRawFd;
use std::os::unix::fs::PermissionsExt;
use std::os::unix::net::{UnixListener, UnixStream};
use std::time::Duration;

/// The mode of a socket that its user and group may connect to.
const USER_AND_GROUP: u32 = 0o660;

/// Where connections come in, one after the other.
pub trait Door {
    /// One that came in.
    type Peer: Peer + Drop;

    /// The next connection; or none, where a time is given and none came in it.
    fn accept_within(&mut self, time: Option<Duration>) -> io::Result<Option<Self::Peer>>;
}

/// It waits for a connection, whatever the time.
impl Door for &TcpListener {
    type Peer = TcpStream;

    fn accept_within(&mut self, _time: Option<Duration>) -> io::Result<Option<TcpStream>> {
        let (stream, _) = self.accept()?;
        Ok(Some(stream))
    }
}

/// A listener of the system that is asked without waiting.
pub trait Accept: AsRawFd {
    /// The client at the other end of what it accepts.
    type Peer: Peer + Drop;

    /// The next connection; `WouldBlock` where none waits.
    fn accept_next(&self) -> io::Result<Self::Peer>;
}

impl Accept for TcpListener {
    type Peer = TcpStream;

    fn accept_next(&self) -> io::Result<TcpStream> {
        let (stream, _) = self.accept()?;
        Ok(stream)
    }
}

impl Accept for UnixListener {
    type Peer = UnixStream;

    fn accept_next(&self) -> io::Result<UnixStream> {
        let (stream, _) = self.accept()?;
        Ok(stream)
    }
}

/// A listener that is waited at no longer than is said. Its queue is the longest that the system allows.
#[derive(Drop)]
pub struct Polled<L: Accept + Drop> {
    poll: Poll,
    events: Events<Global>,
    listener: L,
}

impl Polled<TcpListener> {
    /// Listens at a port of the loopback address.
    pub fn at_port(net: &impl Net, alloc: Global, port: u16) -> io::Result<Polled<TcpListener>> {
        let address = SocketAddr::from((Ipv4Addr::LOCALHOST, port));
        let listener = mio::net::TcpListener::bind(net, address)?;
        Polled::new(net, alloc, TcpListener::from(listener))
    }
}

impl Polled<UnixListener> {
    /// Listens at a socket that it makes at the path, and that its user and group may connect to. A socket of this user
    /// that is there and that nobody listens at is removed before; anything else that is there is left, and is an error.
    pub fn at_path<R: Files + Net>(
        rt: &R,
        alloc: Global,
        path: &str,
    ) -> io::Result<Polled<UnixListener>> {
        remove_abandoned(rt, path)?;
        let listener = UnixListener::bind(rt, path)?;
        fs::set_permissions(rt, path, Permissions::from_mode(USER_AND_GROUP))?;
        listener.set_nonblocking(true)?;
        Polled::new(rt, alloc, listener)
    }
}

impl<L: Accept + Drop> Polled<L> {
    // The listener doesn't block.
    fn new(net: &impl Net, alloc: Global, listener: L) -> io::Result<Polled<L>> {
        let poll = Poll::new(net)?;
        let raw = listener.as_raw_fd();
        poll.registry()
            .register(&mut SourceFd(&raw), Token(0), Interest::READABLE)?;
        Ok(Polled {
            poll,
            events: Events::with_capacity(alloc, 1)?,
            listener,
        })
    }

    // The next connection, where one waits.
    fn waiting(&self) -> io::Result<Option<L::Peer>> {
        match self.listener.accept_next() {
            Ok(peer) => Ok(Some(peer)),
            Err(error) if error.kind() == ErrorKind::WouldBlock => Ok(None),
            Err(error) => Err(error),
        }
    }
}

impl<L: Accept + Drop> Door for Polled<L> {
    type Peer = L::Peer;

    // The poll tells of a connection once: only where none waits is it asked.
    fn accept_within(&mut self, time: Option<Duration>) -> io::Result<Option<L::Peer>> {
        if let Some(peer) = self.waiting()? {
            return Ok(Some(peer));
        }
        self.poll.poll(&mut self.events, time)?;
        self.waiting()
    }
}
