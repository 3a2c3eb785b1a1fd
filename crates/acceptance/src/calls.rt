//! Requests called over wires in memory, which fail, end or cut at any call.

use crate::moved::{gave, took};
use crate::session::{REPLIES, REQUESTS, front};
use crate::trial::Trial;
use path_hub::{Call, MemoryWire};
use path_server::{CallFault, call_over};
use std::alloc::Global;

/// The lines of the four requests.
const LINES: &[u8] = b"\
00000020010000000100112233445566778899aabbccddeeff016301647b2261223a317d\n\
0000001a050000000200112233445566778899aabbccddeeff0163242e61\n\
00000019020000000300112233445566778899aabbccddeeff01630164\n\
00000015070000000400112233445566778899aabbccddeeff\n";

/// The lines of the four replies: 19, 61, 33 and 43 bytes.
const ANSWERS: &[u8] = b"\
000000050000000001\n\
0000001a000000000200000001016400000006245b2761275d0000000131\n\
0000000c00000000037b2261223a317d\n\
000000110000000004000000010000000100000007\n";

/// The trials.
pub fn trials(alloc: Global) -> [(&'static str, Trial); 5] {
    [
        ("calls_nothing", calls_nothing(alloc)),
        ("calls_one_line", calls_one_line(alloc)),
        (
            "sends_nothing_where_a_line_is_bad",
            sends_nothing_where_a_line_is_bad(alloc),
        ),
        (
            "keeps_the_lines_before_a_failure",
            keeps_the_lines_before_a_failure(alloc),
        ),
        (
            "an_early_end_is_a_read_fault",
            an_early_end_is_a_read_fault(alloc),
        ),
    ]
}

/// What a call leaves: the lines that came, what was written and what was read.
#[derive(Clone, Copy)]
struct Left<'a> {
    lines: &'a [u8],
    written: &'a [u8],
    read: &'a [u8],
}

const NOTHING: Left<'static> = Left {
    lines: b"",
    written: b"",
    read: b"",
};

/// How a call over a wire with this input ends, whose calls go as planned, where it leaves this; none where it leaves other bytes.
fn called(
    alloc: Global,
    lines: &[u8],
    input: &[u8],
    plan: &[Call],
    left: Left<'_>,
) -> Option<Result<(), CallFault>> {
    let Ok(mut wire) = MemoryWire::new(alloc, input, plan) else {
        return None;
    };
    let mut out = Vec::new(alloc);
    let ended = call_over(alloc, &mut wire, lines, &mut out);
    if out.as_slice() == left.lines && took(&wire, left.written) && gave(&wire, left.read) {
        Some(ended)
    } else {
        None
    }
}

fn calls_nothing(alloc: Global) -> Trial {
    Trial::of(&[called(alloc, b"", b"", &[], NOTHING) == Some(Ok(()))])
}

/// Digits in either case, a line without its end, and no byte beyond the reply.
fn calls_one_line(alloc: Global) -> Trial {
    let line = b"00000020010000000100112233445566778899AABBCCDDEEFF016301647b2261223a317d";
    let left = Left {
        lines: b"000000050000000001\n",
        written: front(REQUESTS, 36),
        read: front(REPLIES, 9),
    };
    Trial::of(&[called(alloc, line, REPLIES, &[], left) == Some(Ok(()))])
}

fn sends_nothing_where_a_line_is_bad(alloc: Global) -> Trial {
    let mut trial = Trial::new();
    for (lines, number) in [
        ("00000005", 1),
        ("\n", 1),
        ("00000000\n\n00000000", 2),
        ("00000000\n0000000100\n000000000\n", 3),
        ("0000000", 1),
        ("0000000g", 1),
        ("00000000\r\n", 1),
        ("0000000100ff", 1),
        ("00000000\n00600001\n", 2),
    ] {
        let ended = called(alloc, lines.as_bytes(), b"\0\0\0\0", &[], NOTHING);
        trial.case(ended == Some(Err(CallFault::BadLine(number))));
    }
    trial
}

/// How a call ends whose wire fails once so many bytes have moved, one by one, and how many bytes of lines, of requests and of
/// replies came before.
fn broken_after(moved: usize) -> (Result<(), CallFault>, usize, usize, usize) {
    let written = Err(CallFault::WriteFault);
    let read = Err(CallFault::ReadFault);
    match moved {
        0..=35 => (written, 0, moved, 0),
        36..=44 => (read, 0, 36, moved - 36),
        45..=74 => (written, 19, moved - 9, 9),
        75..=104 => (read, 19, 66, moved - 66),
        105..=133 => (written, 80, moved - 39, 39),
        134..=149 => (read, 80, 95, moved - 95),
        150..=174 => (written, 113, moved - 55, 55),
        175..=195 => (read, 113, 120, moved - 120),
        _ => (Ok(()), 156, 120, 76),
    }
}

/// All bytes that move.
const ALL: usize = 196;

fn keeps_the_lines_before_a_failure(alloc: Global) -> Trial {
    let mut trial = Trial::new();
    let mut plan = [Call::Moves(1); ALL + 1];
    plan[ALL] = Call::Fails;
    for moved in 0..=ALL {
        let (ended, lines, written, read) = broken_after(moved);
        let left = Left {
            lines: front(ANSWERS, lines),
            written: front(REQUESTS, written),
            read: front(REPLIES, read),
        };
        let last = plan.get(ALL - moved..).unwrap_or_default();
        trial.case(called(alloc, LINES, REPLIES, last, left) == Some(ended));
    }
    trial
}

fn an_early_end_is_a_read_fault(alloc: Global) -> Trial {
    let mut trial = Trial::new();
    for (length, lines, written) in [
        (0usize, 0usize, 36usize),
        (5, 0, 36),
        (8, 0, 36),
        (9, 19, 66),
        (12, 19, 66),
        (38, 19, 66),
        (39, 80, 95),
        (54, 80, 95),
        (55, 113, 120),
        (75, 113, 120),
    ] {
        let left = Left {
            lines: front(ANSWERS, lines),
            written: front(REQUESTS, written),
            read: front(REPLIES, length),
        };
        let ended = called(alloc, LINES, left.read, &[], left);
        trial.case(ended == Some(Err(CallFault::ReadFault)));
    }
    trial
}
