//! The time since a server began, in seconds.
ghost use Rattle.std.specs.Prelude.{◌≡◌, nat_lt};
ghost use Rattle.event_loop.specs.Clocked.{IsRead};

use socket_poll::Time;

/// The seconds that a clock tells. Where it fails, none has passed since it was last read.
#[derive(Drop)]
pub(crate) struct Seconds<T: Time + Drop> {
    time: T,
    last: u64,
    // The second that was last told as a later one.
    told: u64,
    // How many bytes the server had read and written when it was last read behind a turn.
    counted: (u64, u64),
}

impl<T: Time + Drop> Seconds<T> {
    /// Of this clock.
    pub fn new(time: T) -> Seconds<T> {
        Seconds {
            time,
            last: 0,
            told: 0,
            counted: (0, 0),
        }
    }

    /// When it was last read.
    pub fn last(&self) -> u64
        ensures { result ≡ self.now.last }
    {
        self.last
    }

    /// Reads it.
    pub fn read(&mut self) -> u64
        ensures second { result ≡ self.new.last }
        ensures told { self.new.told ≡ self.old.told }
        ensures clock { IsRead T.tells self.old.time self.old.last self.new.last }
    {
        if let Some(elapsed) = self.time.now() {
            self.last = elapsed.as_secs();
        }
        self.last
    }

    /// Reads it behind a turn, with which so many bytes are read and written.
    pub fn read_behind(&mut self, counted: (u64, u64)) -> u64
        ensures second { result ≡ self.new.last }
        ensures bytes { self.new.counted ≡ counted }
        ensures clock { IsRead T.tells self.old.time self.old.last self.new.last }
    {
        let now = self.read();
        self.counted = counted;
        now
    }

    /// Reads it, and tells whether a second passed since that was last told.
    pub fn is_later(&mut self) -> bool
        ensures later { result ≡ nat_lt self.old.told self.new.last }
        ensures clock { IsRead T.tells self.old.time self.old.last self.new.last }
    {
        let now = self.read();
        let is_later = now > self.told;
        self.told = now;
        is_later
    }
}
