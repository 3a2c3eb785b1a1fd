//! The answers in replies.

ghost use Rattle.client_frames.specs.Answers.{Answers};

use crate::replies::Reply;
use thiserror::Error;

/// The status of a request that succeeded.
const OK: u8 = 0;

/// The status of a framing fault, which answers no request.
const FRAME_FAULT: u8 = 255;

/// The answer to a request.
#[derive(Clone, Copy, Debug)]
pub enum Answer<'a> {
    /// The request succeeded, with this payload.
    Done(&'a [u8]),
    /// The request was refused with this status, which is neither Ok nor FrameFault.
    Refused(u8),
}

/// Why a reply does not answer the expected request.
#[derive(Clone, Copy, Debug, PartialEq, Eq, Error)]
pub enum AnswerFault {
    /// The server could not read the frames, and reads no further.
    #[error("the server reports a framing fault")]
    FrameFault,
    /// The reply has the number of another request.
    #[error("the reply has the number of another request")]
    OtherNumber,
    /// The reply is a refusal with a payload.
    #[error("a refusal has a payload")]
    PayloadOfRefusal,
}

/// The answer to the request with this number.
///
/// # Errors
///
/// In this order: FrameFault if that is the status, whatever the number; OtherNumber if the number is not this one; PayloadOfRefusal if
/// a status other than Ok has a payload.
pub fn answer_to(reply: Reply<'_>, number: u32) -> Result<Answer<'_>, AnswerFault>
    ensures { Answers reply.entry.status reply.entry.number number reply.entry.payload.now result }
{
    if reply.status == FRAME_FAULT {
        return Err(AnswerFault::FrameFault);
    }
    if reply.number != number {
        return Err(AnswerFault::OtherNumber);
    }
    if reply.status == OK {
        return Ok(Answer::Done(reply.payload));
    }
    if reply.payload.is_empty() {
        Ok(Answer::Refused(reply.status))
    } else {
        Err(AnswerFault::PayloadOfRefusal)
    }
}
