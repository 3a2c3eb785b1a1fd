//! Whether a write to a descriptor would wait.

use mio::unix::SourceFd;
use mio::{Events, Interest, Poll, Token};
use std::alloc::{AllocError, Global};
use std::net::Net;
use std::time::Duration;

/// Says whether a write of at most a page to a descriptor would not wait. It waits for a pipe, a socket or a terminal that nobody reads.
#[derive(Drop)]
pub struct Gate {
    descriptor: i32,
    // None where it can't be waited for, as a file, which takes all.
    poll: Option<Poll>,
    events: Events,
}

impl Gate {
    /// The gate of a descriptor. It is always open if the system cannot watch the descriptor.
    ///
    /// # Errors
    ///
    /// If an allocation failed.
    pub fn new<R: Net>(rt: &R, alloc: Global, descriptor: i32) -> Result<Gate, AllocError> {
        let events = Events::with_capacity(alloc, 1)?;
        Ok(Gate {
            descriptor,
            poll: watch(rt, descriptor),
            events,
        })
    }

    /// Whether a short write would not wait, as the system says now.
    pub fn is_open(&mut self) -> bool {
        let Some(poll) = &mut self.poll else {
            return true;
        };
        let mut source = SourceFd(&self.descriptor);
        if poll
            .registry()
            .reregister(&mut source, Token(0), Interest::WRITABLE)
            .is_err()
        {
            return false;
        }
        let asked = poll.poll(&mut self.events, Some(Duration::from_millis(0)));
        asked.is_ok() && self.events.iter().any(|event| event.is_writable())
    }
}

// What watches a descriptor, where the system can.
fn watch<R: Net>(rt: &R, descriptor: i32) -> Option<Poll> {
    let poll = Poll::new(rt).ok()?;
    let mut source = SourceFd(&descriptor);
    match poll
        .registry()
        .register(&mut source, Token(0), Interest::WRITABLE)
    {
        Ok(()) => Some(poll),
        Err(_) => None,
    }
}
