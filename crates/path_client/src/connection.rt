//! A connection to a server: requests sent, and replies read.

use client_commands::Failure;
use client_frames::{Answer, Front, Reply, answer_to, front_of, write_request};
use std::alloc::Global;
use std::io::{ErrorKind, Read, Write};
use std::net::{Net, OpenStream, SocketAddr, TcpStream, ToSocketAddrs};
use std::time::Duration;
use wire_frames::Command;

/// The most bytes of one read.
const PIECE: usize = 65_536;

/// A connection, and the bytes received on it.
#[derive(Drop)]
pub struct Connection<S: Drop> {
    alloc: Global,
    stream: S,
    key: [u8; 16],
    number: u32,
    came: Vec<u8>,
    passed: usize,
    // whether the reply at the front was told
    is_told: bool,
}

fn first_address<R: Net>(rt: &R, address: &str) -> Result<SocketAddr, Failure> {
    match address.to_socket_addrs(rt) {
        Ok(mut addresses) => addresses.next().ok_or(Failure::NoAddress),
        Err(error) => Err(of_address(error.kind())),
    }
}

// A text that is no address, or a host that has none.
fn of_address(kind: ErrorKind) -> Failure {
    match kind {
        ErrorKind::InvalidInput => Failure::NoAddress,
        ErrorKind::OutOfMemory => Failure::Memory,
        _ => Failure::NoHost(kind),
    }
}

/// Opens a connection to the first address that the text resolves to.
pub fn open<R: Net + AllocGlobal>(
    rt: &R,
    address: &str,
    key: [u8; 16],
    timeout: u64,
) -> Result<Connection<R::Stream>, Failure> {
    let found = first_address(rt, address)?;
    let limit = Duration::from_millis(timeout);
    let stream = match TcpStream::connect_timeout(rt, &found, limit) {
        Ok(stream) => stream,
        Err(error) => return Err(Failure::NoServer(error.kind())),
    };
    // without these no reply is wrong: some come later, and a server that says nothing is waited for
    let _ = stream.set_nodelay(true);
    let _ = stream.set_read_timeout(Some(limit));
    let _ = stream.set_write_timeout(Some(limit));
    Ok(Connection {
        alloc: rt.alloc(),
        stream,
        key,
        number: 0,
        came: Vec::new(rt.alloc()),
        passed: 0,
        is_told: false,
    })
}

impl<S: Read + Write + Drop> Connection<S> {
    /// Appends the frame of a request with the next number.
    pub fn add(&mut self, command: &Command<'_>, out: &mut Vec<u8>) -> Result<u32, Failure> {
        let number = self.number.wrapping_add(1);
        write_request(number, &self.key, command, out).map_err(Failure::Send)?;
        self.number = number;
        Ok(number)
    }

    /// Sends bytes.
    pub fn send(&mut self, bytes: &[u8]) -> Result<(), Failure> {
        self.stream
            .write_all(bytes)
            .map_err(|error| Failure::Unsent(error.kind()))
    }

    /// Sends a request and waits for its payload.
    pub fn ask(&mut self, command: &Command<'_>) -> Result<&[u8], Failure> {
        if self.is_told {
            self.pass();
        }
        self.is_told = true;
        let number = self.request(command)?;
        self.wait()?;
        match answer_to(self.reply()?, number).map_err(Failure::NoAnswer)? {
            Answer::Done(payload) => Ok(payload),
            Answer::Refused(status) => Err(Failure::Refused(status)),
        }
    }

    /// Sends a request without a payload and waits for its reply.
    pub fn done(&mut self, command: &Command<'_>) -> Result<(), Failure> {
        self.ask(command)?;
        Ok(())
    }

    // Sends a request, and answers its number.
    fn request(&mut self, command: &Command<'_>) -> Result<u32, Failure> {
        let mut frame = Vec::new(self.alloc);
        let number = self.add(command, &mut frame)?;
        self.send(frame.as_slice())?;
        Ok(number)
    }

    /// Waits for the reply to the request with this number, removes it from the buffer, and returns its status if it is a refusal.
    pub fn take(&mut self, number: u32) -> Result<Option<u8>, Failure> {
        self.wait()?;
        let refused = match answer_to(self.reply()?, number).map_err(Failure::NoAnswer)? {
            Answer::Done(_) => None,
            Answer::Refused(status) => Some(status),
        };
        self.pass();
        Ok(refused)
    }

    fn left(&self) -> &[u8] {
        self.came.as_slice().get(self.passed..).unwrap_or_default()
    }

    fn reply(&self) -> Result<Reply<'_>, Failure> {
        match front_of(self.left()) {
            Front::Whole(reply, _) => Ok(reply),
            _ => Err(Failure::NoReply),
        }
    }

    // Passes the reply at the front.
    fn pass(&mut self) {
        let left = match front_of(self.left()) {
            Front::Whole(_, rest) => rest.len(),
            _ => self.left().len(),
        };
        if left == 0 {
            self.came.clear();
        }
        self.passed = self.came.len().saturating_sub(left);
    }

    // Waits until a whole reply is there.
    fn wait(&mut self) -> Result<(), Failure> {
        for _ in 0..u64::MAX {
            match front_of(self.left()) {
                Front::Whole(_, _) => return Ok(()),
                Front::NoReply => return Err(Failure::NoReply),
                Front::Wait => self.read()?,
            }
        }
        Err(Failure::NoReply)
    }

    // Reads a piece behind what is left.
    fn read(&mut self) -> Result<(), Failure> {
        let mut piece = [0; PIECE];
        let count = match self.stream.read(&mut piece) {
            Ok(0) => return Err(Failure::Ended),
            Ok(count) => count,
            Err(error) if error.kind() == ErrorKind::Interrupted => return Ok(()),
            Err(error) => return Err(Failure::of_read(&error)),
        };
        self.keep_piece(&piece[..count])
    }

    fn keep_piece(&mut self, piece: &[u8]) -> Result<(), Failure> {
        if self.passed > 0 {
            let Ok(left) = Vec::from_slice(self.alloc, self.left()) else {
                return Err(Failure::Memory);
            };
            self.came = left;
            self.passed = 0;
        }
        self.came
            .extend_from_slice(piece)
            .map_err(|_| Failure::Memory)
    }
}
