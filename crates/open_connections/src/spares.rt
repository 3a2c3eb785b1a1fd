//! The connections that make room for others: those that are idle.
ghost use Rattle.open_connections.specs.Looping.{Stays};
ghost use Rattle.open_connections.specs.Opened.{lanes_of};
ghost use Rattle.open_connections.specs.Woken.{StaysWoken};

use crate::open::Open;
use connection_turns::{Limits, LoopCore};
use socket_poll::{Peer, Time};

impl<S: Peer, C: LoopCore, T: Time + Drop> Open<S, C, T> {
    /// The connection that has been idle longest, for so many seconds at least. They are looked for once a second.
    pub fn spare(&mut self, now: u64, limits: &Limits) -> Option<usize>
        ensures lanes { Stays (lanes_of C.steps S.told self.old) (lanes_of C.steps S.told self.new) }
        ensures woken { StaysWoken self.old self.new }
    {
        match self.next_spare(now, limits) {
            Some(key) => Some(key),
            None => {
                if self.looked == Some(now) {
                    return None;
                }
                self.looked = Some(now);
                self.look_for_spare(now, limits);
                self.next_spare(now, limits)
            }
        }
    }

    // The next of those that were found and are still idle.
    fn next_spare(&mut self, now: u64, limits: &Limits) -> Option<usize>
        ensures lanes { Stays (lanes_of C.steps S.told self.old) (lanes_of C.steps S.told self.new) }
        ensures woken { StaysWoken self.old self.new }
    {
        'found: for _ in 0..self.idle.len() {
            let (since, key) = self.idle.pop()?;
            if let Some(connection) = self.connections.get(key) {
                if connection.spare_since(now, limits) == Some(since) {
                    return Some(key);
                }
            }
        }
        None
    }

    // Finds those that are idle. Where there is no memory for the list, there is none.
    fn look_for_spare(&mut self, now: u64, limits: &Limits)
        ensures lanes { Stays (lanes_of C.steps S.told self.old) (lanes_of C.steps S.told self.new) }
        ensures woken { StaysWoken self.old self.new }
    {
        self.idle.clear();
        let count = self.count();
        if self.idle.reserve(count).is_err() {
            return;
        }
        'keys: for key in 0..self.bound {
            if let Some(connection) = self.connections.get(key) {
                if let Some(since) = connection.spare_since(now, limits) {
                    let _ = self.idle.push((since, key));
                }
            }
        }
        self.idle.sort_unstable();
        self.idle.reverse();
    }
}
