//! What gives connections and takes them back.
ghost use Rattle.std.specs.Prelude.{None, Option, IfOk, OnErr};
ghost use Rattle.socket_wire.specs.Listeners.{Listening, IsReady, Gives, Fails, Closes};

use crate::stream_wire::StreamWire;
use path_hub::Wire;
use std::io::{ErrorKind, Read, Write};
use std::net::{OpenListener, OpenStream};
use thiserror::Error;

/// A connection could not be accepted, for this reason.
#[derive(Clone, Copy, Debug, PartialEq, Eq, Error)]
#[error("NetFault\n{0}")]
pub struct AcceptFault(pub ErrorKind);

/// Something that gives connections one after the other, each as a wire that has done nothing yet, and takes each back.
pub trait Listener {
    /// A connection.
    type Link: Wire;

    /// What it has yet to give and what it took back, if it keeps that.
    ghost told: { Self → Option Listening } = { λ _. None };

    /// Gives the next connection.
    fn accept(&mut self) -> Result<Self::Link, AcceptFault>
        ensures ready { IfOk result (λ link. IsReady (Self.Link.meaning link)) }
        ensures gives { IfOk result (λ link. Gives (told self.old) (Self.Link.meaning link) (told self.new)) }
        ensures fails { OnErr result (Fails (told self.old) (told self.new)) };

    /// Takes a connection back that was served, and closes it.
    fn close(&mut self, link: Self::Link)
        ensures { Closes (told self.old) (Self.Link.meaning link) (told self.new) };
}

/// The listener over one of the system, whose connections are streams. It tells nothing of them.
#[derive(Drop)]
pub struct StreamListener<'a, L> {
    listener: &'a L,
}

impl<'a, L: OpenListener> StreamListener<'a, L> {
    /// A listener over this one.
    pub fn new(listener: &'a L) -> StreamListener<'a, L> {
        StreamListener { listener }
    }
}

impl<'a, L: OpenListener> Listener for StreamListener<'a, L>
where
    L::Stream: Read + Write + OpenStream,
{
    type Link = StreamWire<L::Stream>;

    fn accept(&mut self) -> Result<StreamWire<L::Stream>, AcceptFault> {
        let (stream, _) = match self.listener.accept() {
            Ok(accepted) => accepted,
            Err(error) => return Err(AcceptFault(error.kind())),
        };
        // without it no reply is wrong, and some come later
        let _ = stream.set_nodelay(true);
        Ok(StreamWire::new(stream))
    }

    fn close(&mut self, _link: StreamWire<L::Stream>) {}
}
