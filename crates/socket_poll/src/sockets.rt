//! The system of TCP sockets and `epoll`.

ghost use Rattle.std.specs.Prelude.{None};

use crate::stream::Stream;
use crate::system::{Accepted, Peer, Report, System, Time, Woken};
use mio::event::Event;
use mio::net::{TcpListener, TcpStream};
use mio::unix::SourceFd;
use mio::{Events, Interest, Poll, Token};
use std::alloc::{AllocError, Global};
use std::io::{self, ErrorKind};
use std::net::{Net, Shutdown, SocketAddr};
use std::time::{Clock, Duration, Instant};

/// The most events that one wait reports.
const EVENTS: usize = 1_024;

const LISTENER: Token = Token(usize::MAX);

const INPUT: Token = Token(usize::MAX - 1);

const ADMINISTRATION: Token = Token(usize::MAX - 2);

impl Peer for Stream<TcpStream> {
    fn end_writing(&mut self) {
        let _ = self.inner.shutdown(Shutdown::Write);
    }
}

/// TCP sockets, the end of standard input, and an administration address.
#[derive(Drop)]
pub struct Sockets {
    poll: Poll,
    events: Events,
    listener: TcpListener,
    // That of the administration address.
    administration: Option<TcpListener>,
    // A connection of that address may wait.
    is_called: bool,
    reports: Vec<Report>,
}

/// Why an address could not be bound.
#[derive(Clone, Copy, Debug, PartialEq, Eq)]
pub enum BindFault {
    /// The system's reason.
    Net(ErrorKind),
    /// A growth was refused.
    Memory,
}

impl From<io::Error> for BindFault {
    fn from(error: io::Error) -> BindFault {
        BindFault::Net(error.kind())
    }
}

impl From<AllocError> for BindFault {
    fn from(_: AllocError) -> BindFault {
        BindFault::Memory
    }
}

impl Sockets {
    /// Binds the address.
    ///
    /// # Errors
    ///
    /// `Net` if it cannot be bound, `Memory` if an allocation failed.
    pub fn bind<R: Net>(rt: &R, alloc: Global, addr: SocketAddr) -> Result<Sockets, BindFault> {
        let events = Events::with_capacity(alloc, EVENTS)?;
        let reports = Vec::with_capacity(alloc, EVENTS)?;
        let (poll, listener) = listen(rt, addr)?;
        Ok(Sockets {
            poll,
            events,
            listener,
            administration: None,
            is_called: false,
            reports,
        })
    }

    /// Binds the administration address, and returns the one that is bound.
    ///
    /// # Errors
    ///
    /// The system's reason.
    pub fn administer<R: Net>(&mut self, rt: &R, addr: SocketAddr) -> io::Result<SocketAddr> {
        let mut listener = TcpListener::bind(rt, addr)?;
        let bound = listener.local_addr()?;
        self.poll
            .registry()
            .register(&mut listener, ADMINISTRATION, Interest::READABLE)?;
        self.administration = Some(listener);
        Ok(bound)
    }
}

// A listener at the address, and what waits for it and for the end of standard input.
fn listen<R: Net>(rt: &R, addr: SocketAddr) -> io::Result<(Poll, TcpListener)> {
    let poll = Poll::new(rt)?;
    let mut listener = TcpListener::bind(rt, addr)?;
    let registry = poll.registry();
    registry.register(&mut listener, LISTENER, Interest::READABLE)?;
    // a file can't be waited for: it does not end the server
    let _ = registry.register(&mut SourceFd(&0), INPUT, Interest::READABLE);
    Ok((poll, listener))
}

impl System for Sockets {
    type Stream = Stream<TcpStream>;

    ghost tried = { λ _. None };

    ghost failed = { λ _. None };

    fn wait(&mut self, most: Duration) -> Result<Woken, ErrorKind> {
        if let Err(error) = self.poll.poll(&mut self.events, Some(most)) {
            return Err(error.kind());
        }
        let mut woken = Woken {
            is_asked: false,
            is_closed: false,
        };
        self.reports.clear();
        'events: for event in &self.events {
            match event.token() {
                LISTENER => woken.is_asked = true,
                ADMINISTRATION => self.is_called = true,
                INPUT => {
                    woken.is_closed = woken.is_closed || event.is_read_closed() || event.is_error()
                }
                Token(key) => {
                    // there is room for as many as a wait reports
                    let _ = self.reports.push(report_of(key, event));
                }
            }
        }
        Ok(woken)
    }

    fn report(&self, number: usize) -> Option<Report> {
        self.reports.get(number).copied()
    }

    fn accept(&mut self) -> Accepted<Stream<TcpStream>> {
        accept_at(&self.listener)
    }

    fn accept_caller(&mut self) -> Accepted<Stream<TcpStream>> {
        if !self.is_called {
            return Accepted::Blocked;
        }
        let Some(administration) = &self.administration else {
            return Accepted::Blocked;
        };
        let accepted = accept_at(administration);
        if let Accepted::Blocked = &accepted {
            self.is_called = false;
        }
        accepted
    }

    fn watch(&mut self, stream: &mut Stream<TcpStream>, key: usize) -> bool {
        let interests = Interest::READABLE | Interest::WRITABLE | Interest::PRIORITY;
        self.poll
            .registry()
            .register(&mut stream.inner, Token(key), interests)
            .is_ok()
    }

    fn local_addr(&self) -> Result<SocketAddr, ErrorKind> {
        match self.listener.local_addr() {
            Ok(addr) => Ok(addr),
            Err(error) => Err(error.kind()),
        }
    }
}

// Accepts a connection, which never waits.
fn accept_at(listener: &TcpListener) -> Accepted<Stream<TcpStream>> {
    match listener.accept() {
        Ok((stream, peer)) => {
            // without it no reply is wrong, and some come later
            let _ = stream.set_nodelay(true);
            Accepted::Stream(Stream { inner: stream }, peer)
        }
        Err(error) => match error.kind() {
            ErrorKind::WouldBlock => Accepted::Blocked,
            ErrorKind::ConnectionAborted => Accepted::Aborted,
            _ => Accepted::Refused,
        },
    }
}

fn report_of(key: usize, event: &Event) -> Report {
    let is_ending = event.is_read_closed() || event.is_error();
    Report {
        key,
        is_readable: event.is_readable() || is_ending,
        is_writable: event.is_writable() || event.is_error(),
        is_ending,
        is_urgent: event.is_priority(),
        // a peer that ended its own side still takes
        is_gone: event.is_error() || event.is_write_closed(),
    }
}

/// The time since it was made.
#[derive(Drop)]
pub struct Since<'r, R: Clock> {
    rt: &'r R,
    start: Instant,
}

impl<'r, R: Clock> Since<'r, R> {
    /// From now on.
    pub fn new(rt: &'r R) -> io::Result<Since<'r, R>> {
        let start = Instant::now(rt)?;
        Ok(Since { rt, start })
    }

    /// One more clock that counts from the same moment.
    pub fn again(&self) -> Since<'r, R> {
        Since {
            rt: self.rt,
            start: self.start,
        }
    }
}

impl<'r, R: Clock> Time for Since<'r, R> {
    fn now(&self) -> Option<Duration> {
        self.start.elapsed(self.rt).ok()
    }
}
