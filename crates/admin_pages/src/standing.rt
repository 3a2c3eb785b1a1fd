//! What was said to a server at its administration address.
ghost use Rattle.std.specs.Prelude.{◌≡◌, None};
ghost use Rattle.admin_pages.specs.Standings.{after_asked, at_start, reply_to, takes_in};

use crate::replies::Reply;
use crate::routes::AdminRequest;

/// Whether a server was said to be ready, and to drain or to end.
#[derive(Clone, Copy, Debug, PartialEq, Eq)]
pub struct Standing {
    /// Whether `POST /ready` was sent since the start.
    pub is_ready: bool,
    /// Whether it takes in no connections any more, although no drain was asked for.
    pub is_ending: bool,
    /// The seconds that open connections have, once it drains. A later drain changes them.
    pub grace: Option<u32>,
}

impl Standing {
    /// Neither was said.
    pub fn new() -> Standing
        ensures { result ≡ at_start }
    {
        Standing {
            is_ready: false,
            is_ending: false,
            grace: None,
        }
    }

    /// Whether it is ready: that was said, and it takes in connections.
    pub fn takes_in(&self) -> bool
        ensures { result ≡ takes_in self.now }
    {
        self.is_ready && !self.is_ending && self.grace.is_none()
    }

    /// Takes in what is asked, and tells the reply. A server that drains or ends is not ready.
    pub fn answer(&mut self, asked: AdminRequest) -> Reply
        ensures reply { result ≡ reply_to self.old asked }
        ensures after { self.new ≡ after_asked self.old asked }
    {
        match asked {
            AdminRequest::Health => Reply::Healthy,
            AdminRequest::Ready => {
                if self.takes_in() {
                    Reply::Ready
                } else {
                    Reply::NotReady
                }
            }
            AdminRequest::SayReady => {
                self.is_ready = true;
                Reply::Noted
            }
            AdminRequest::Metrics => Reply::Metrics,
            AdminRequest::Drain(grace) => {
                self.grace = Some(grace);
                Reply::Draining
            }
        }
    }
}
