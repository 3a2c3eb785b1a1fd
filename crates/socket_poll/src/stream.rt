//! A wire over a stream of the system.
ghost use Rattle.std.specs.Prelude.{None};
ghost use Rattle.outbox.specs.Moves.{Gives, Takes};
ghost use Rattle.socket_poll.specs.Moves.{GivesFrom, TakesTo};

use outbox::{Given, Taken, Wire};
use std::io::{ErrorKind, Read, Write};

/// A wire over a stream that never waits, as a socket that was told so. It keeps no record of the bytes.
#[derive(Drop)]
pub struct Stream<S> {
    pub(crate) inner: S,
}

impl<S: Read + Write> Wire for Stream<S> {
    ghost told = { λ _. None };

    fn read(&mut self, buffer: &mut [u8]) -> Given
        ensures gives { Gives None result buffer.new None }
        ensures stream { GivesFrom (S.remaining self.old.inner) (S.remaining self.new.inner) result buffer.new }
    {
        match self.inner.read(buffer) {
            Ok(0) => Given::Ended,
            Ok(count) => Given::Bytes(count),
            Err(error) if error.kind() == ErrorKind::WouldBlock => Given::Blocked,
            Err(_) => Given::Failed,
        }
    }

    fn write(&mut self, bytes: &[u8]) -> Taken
        ensures takes { Takes None bytes.now result None }
        ensures stream { TakesTo (S.contents self.old.inner) (S.contents self.new.inner) result bytes.now }
    {
        match self.inner.write(bytes) {
            Ok(count) if count > 0 || bytes.is_empty() => Taken::Bytes(count),
            Err(error) if error.kind() == ErrorKind::WouldBlock => Taken::Blocked,
            _ => Taken::Failed,
        }
    }
}
