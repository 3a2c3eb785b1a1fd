//! A listener over memory.
ghost use Rattle.std.specs.Prelude.{◌≡◌, Some, None, false, map};

use crate::listener::{AcceptFault, Listener};
use path_hub::MemoryWire;
use std::alloc::Global;
use std::collections::VecDeque;
use std::io::ErrorKind;

/// A listener over memory: connections with its inputs come one after the other, and then none can be accepted. It keeps those that it
/// took back, as far as there is memory.
#[derive(Drop)]
pub struct MemoryListener {
    inputs: VecDeque<Vec<u8>>,
    closed: Vec<MemoryWire>,
    failed: bool,
    alloc: Global,
}

impl MemoryListener {
    ghost use Rattle.socket_wire.specs.MemoryListeners.{listening_of, unused_over};

    /// A listener for connections with these inputs.
    pub fn new(alloc: Global, inputs: VecDeque<Vec<u8>>) -> MemoryListener
        ensures { listening_of result ≡ Some (record { waiting = map unused_over inputs.items; closed = None; failed = false }) }
    {
        MemoryListener {
            inputs,
            closed: Vec::new(alloc),
            failed: false,
            alloc,
        }
    }

    /// The connections that it took back.
    pub fn closed(&self) -> &[MemoryWire] {
        self.closed.as_slice()
    }
}

impl Listener for MemoryListener {
    ghost use Rattle.socket_wire.specs.MemoryListeners.{listening_of};

    type Link = MemoryWire;

    ghost told = { listening_of };

    fn accept(&mut self) -> Result<MemoryWire, AcceptFault> {
        let Some(input) = self.inputs.front() else {
            self.failed = true;
            return Err(AcceptFault(ErrorKind::WouldBlock));
        };
        match MemoryWire::new(self.alloc, input.as_slice(), &[]) {
            Ok(link) => {
                let _ = self.inputs.pop_front();
                Ok(link)
            }
            Err(_) => {
                self.failed = true;
                Err(AcceptFault(ErrorKind::OutOfMemory))
            }
        }
    }

    fn close(&mut self, link: MemoryWire) {
        let _ = self.closed.push(link);
    }
}
