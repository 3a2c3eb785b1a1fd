//! Replies (RFC 9112, section 4). Each ends its connection.
ghost use Rattle.std.specs.Prelude.{◌≡◌, ◌++◌, OnOk};
ghost use Rattle.admin_pages.specs.declared.replies.Reply.TheVariants.{Healthy};
ghost use Rattle.admin_pages.specs.Replies.{body_of, reply_text, status_line};

use crate::pieces::{append_all, append_number};
use crate::routes::Refusal;
use std::alloc::AllocError;

/// A reply, without its body.
#[derive(Clone, Copy, Debug, PartialEq, Eq)]
pub enum Reply {
    /// The loop turns.
    Healthy,
    /// It was said that the server is ready.
    Ready,
    /// It was not said, or the server drains.
    NotReady,
    /// That the server is ready was taken in.
    Noted,
    /// The metrics.
    Metrics,
    /// The server drains.
    Draining,
    /// What was asked is refused.
    Refused(Refusal),
}

impl Reply {
    fn status_line(self) -> &'static str
        ensures { result.now ≡ status_line self }
    {
        match self {
            Reply::Healthy | Reply::Ready | Reply::Noted | Reply::Metrics => "200 OK\r\n",
            Reply::NotReady => "503 Service Unavailable\r\n",
            Reply::Draining => "202 Accepted\r\n",
            Reply::Refused(Refusal::BadRequest) => "400 Bad Request\r\n",
            Reply::Refused(Refusal::Forbidden) => "403 Forbidden\r\n",
            Reply::Refused(Refusal::NotFound) => "404 Not Found\r\n",
            Reply::Refused(Refusal::GetOnly) => "405 Method Not Allowed\r\nAllow: GET\r\n",
            Reply::Refused(Refusal::PostOnly) => "405 Method Not Allowed\r\nAllow: POST\r\n",
            Reply::Refused(Refusal::GetOrPostOnly) => {
                "405 Method Not Allowed\r\nAllow: GET, POST\r\n"
            }
            Reply::Refused(Refusal::HasBody) => "413 Content Too Large\r\n",
            Reply::Refused(Refusal::HeadTooLarge) => "431 Request Header Fields Too Large\r\n",
        }
    }
}

/// Appends the body of one that has no page, so many seconds after the start. A refusal has none, since the method may be HEAD
/// (RFC 9110, section 9.3.2).
///
/// # Errors
///
/// Where a growth was refused: the bytes behind those that were there are to be cut off.
pub fn append_body(reply: Reply, uptime: u64, out: &mut Vec<u8>) -> Result<(), AllocError>
    ensures { OnOk result (out.new.items ≡ out.old.items ++ body_of reply uptime) }
{
    match reply {
        Reply::Healthy => append_health(uptime, out),
        Reply::Ready | Reply::Noted => out.extend_from_slice(b"ready\n"),
        Reply::NotReady => out.extend_from_slice(b"not ready\n"),
        Reply::Draining => out.extend_from_slice(b"draining\n"),
        Reply::Metrics | Reply::Refused(_) => Ok(()),
    }
}

fn append_health(uptime: u64, out: &mut Vec<u8>) -> Result<(), AllocError>
    ensures { OnOk result (out.new.items ≡ out.old.items ++ body_of Healthy uptime) }
{
    out.extend_from_slice(b"healthy\nuptime_seconds ")?;
    append_number(uptime, out)?;
    out.extend_from_slice(b"\n")
}

/// Appends a whole reply with this body: a status line, and the fields Content-Type, Content-Length and Connection. If the method is not allowed, it
/// lists those that are (RFC 9110, section 15.5.6).
///
/// # Errors
///
/// Where a growth was refused: the bytes behind those that were there are to be cut off.
#[tactic(auto, unfolding(crate::specs::Replies::reply_text))]
pub fn append_reply(reply: Reply, body: &[u8], out: &mut Vec<u8>) -> Result<(), AllocError>
    ensures { OnOk result (out.new.items ≡ out.old.items ++ reply_text reply body.now) }
{
    append_all(
        &[
            b"HTTP/1.1 ",
            reply.status_line().as_bytes(),
            b"Content-Type: text/plain; version=0.0.4; charset=utf-8\r\nContent-Length: ",
        ],
        out,
    )?;
    append_number(body.len() as u64, out)?;
    out.extend_from_slice(b"\r\nConnection: close\r\n\r\n")?;
    out.extend_from_slice(body)
}
