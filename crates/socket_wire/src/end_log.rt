//! A log of how connections end.
ghost use Rattle.std.specs.Prelude.{List, None, Option};
ghost use Rattle.socket_wire.specs.Served.{Tells, TellsFault};

use path_hub::ConnEnd;

/// A connection and how it ended.
#[derive(Clone, Copy, Debug, PartialEq, Eq)]
pub struct Ending {
    /// The connection's number.
    pub number: u32,
    /// How it ended.
    pub how: ConnEnd,
}

/// A log that gets each connection that did not end with [`ConnEnd::Done`].
pub trait EndLog {
    ghost use Rattle.socket_wire.specs.declared.end_log.Ending.{Ending};

    /// What it got, in order, if it keeps that.
    ghost told: { Self → Option (List Ending) } = { λ _. None };

    /// Takes one more.
    fn tell_end(&mut self, ending: Ending)
        ensures { Tells (told self.old) ending (told self.new) };
}

/// Tells of a connection, but for one that is done.
pub fn tell_fault<G: EndLog>(log: &mut G, number: u32, how: ConnEnd)
    ensures { TellsFault number how (G.told log.old) (G.told log.new) }
{
    match how {
        ConnEnd::Done => {}
        _ => log.tell_end(Ending { number, how }),
    }
}
