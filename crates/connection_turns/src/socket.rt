//! A connection's stream, and what its turns are told of it.
ghost use Rattle.std.specs.Prelude.{◌≡◌, IsTrue};
ghost use Rattle.outbox.specs.Moves.{Gives};

use outbox::{Given, Taken, Wire};

/// How a stream came to its end.
#[derive(Clone, Copy)]
pub(crate) enum Fate {
    /// It goes on.
    Lives,
    /// Its input ended.
    Ended,
    /// A read failed.
    Unread,
    /// A write failed.
    Unwritten,
    /// It is read no more, although its input goes on.
    Left,
}

/// A wire over a stream, which shows what the stream shows.
#[derive(Drop)]
pub(crate) struct Socket<S> {
    pub(crate) stream: S,
    pub(crate) fate: Fate,
    // The last read gave less than it had room for, and nothing was reported since: a further one would only say that it would wait.
    pub(crate) is_drained: bool,
    // The peer ended its side, or sent urgent data: a short read is no sign that nothing is left.
    may_stop_short: bool,
    // It is read no more: a read gives the end.
    pub(crate) is_left: bool,
}

impl<S: Wire> Socket<S> {
    /// A wire over this stream.
    pub fn new(stream: S) -> Socket<S>
        ensures { result.stream ≡ stream }
    {
        Socket {
            stream,
            fate: Fate::Lives,
            is_drained: false,
            may_stop_short: false,
            is_left: false,
        }
    }

    /// Whether a read would only say that it would wait.
    pub fn is_drained(&self) -> bool
        ensures { result ≡ self.now.is_drained }
    {
        self.is_drained
    }

    /// The stream was reported ready. From one report on, reads may stop short of what is there.
    pub fn report(&mut self, may_stop_short: bool)
        ensures { self.new.stream ≡ self.old.stream }
    {
        self.is_drained = false;
        self.may_stop_short = self.may_stop_short || may_stop_short;
    }

    /// From now on each read gives the end.
    pub fn leave(&mut self)
        ensures stream { self.new.stream ≡ self.old.stream }
        ensures left { IsTrue self.new.is_left }
    {
        self.is_left = true;
    }
}

impl<S: Wire> Wire for Socket<S> {
    ghost told = { λ s. S.told s.stream };

    fn read(&mut self, buffer: &mut [u8]) -> Given
        ensures gives { Gives (S.told self.old.stream) result buffer.new (S.told self.new.stream) }
        ensures left { IsTrue self.old.is_left → (result ≡ Given.Ended) × (self.new.stream ≡ self.old.stream) }
    {
        if self.is_left {
            self.fate = Fate::Left;
            return Given::Ended;
        }
        if self.is_drained {
            return Given::Blocked;
        }
        let given = self.stream.read(buffer);
        match given {
            Given::Bytes(count) => {
                self.is_drained = count < buffer.len() && !self.may_stop_short;
            }
            Given::Ended => self.fate = Fate::Ended,
            Given::Blocked => {}
            Given::Failed => self.fate = Fate::Unread,
        }
        given
    }

    fn write(&mut self, bytes: &[u8]) -> Taken {
        let taken = self.stream.write(bytes);
        if let Taken::Failed = taken {
            self.fate = Fate::Unwritten;
        }
        taken
    }
}
