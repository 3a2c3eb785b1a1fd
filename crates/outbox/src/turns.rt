//! One turn on one connection.
ghost use Rattle.std.specs.Prelude.{◌≡◌, ◌<◌, length, true, false, IsFalse, Option, None};
ghost use Rattle.outbox.specs.Appends.{OthersKeep, Shares};
ghost use Rattle.outbox.specs.Traffic.{HasMoved, Traffic};
ghost use Rattle.outbox.specs.Turns.{Advances, GoesOn, Turned, Flushes, here, can_read, can_answer, can_go_on, can_reply, most_requests};

use crate::answers::{Core, Step};
use crate::owing::Outbox;
use crate::readiness::Readiness;
use crate::wire::{Given, Taken, Wire};

/// The most requests that one turn answers.
pub const REQUESTS: u32 = 64;

/// Writes the bytes owed, reads one piece if no request waits, answers at most [`REQUESTS`] requests, and writes again. It neither reads
/// nor answers while the outbox is at its cap, and stops after one answer if the core rests. Where only brief work is wanted, a request that
/// may take long is not gone on with.
///
/// A fault of the wire discards the bytes owed and ends the connection. They are still written after the end of the input, a declined
/// piece, a last answer or a refused one. The numbers are those of the bytes that were read and written.
pub fn turn<W: Wire, C: Core>(
    outbox: &mut Outbox,
    wire: &mut W,
    core: &mut C,
    conn: u32,
    is_brief: bool,
    buffer: &mut [u8],
    ready: &mut Readiness,
) -> (usize, usize)
    requires { 0 < length buffer.old }
    ensures turned { Turned 1 most_requests (C.takes conn) (C.answers conn) (C.idle conn) (C.over conn) can_go_on
        (here outbox.old (W.told wire.old) (C.seen core.old) (C.left conn core.old) ready.old) (here outbox.new (W.told wire.new) (C.seen core.new) (C.left conn core.new) ready.new) }
    ensures moved { HasMoved (W.told wire.old) (W.told wire.new) result.0 result.1 }
    ensures advances { can_answer ready.old outbox.old ≡ true → IsFalse (C.holds is_brief conn core.old) → Advances (C.takes conn) (C.answers conn)
        (here outbox.old (W.told wire.old) (C.seen core.old) (C.left conn core.old) ready.old) (here outbox.new (W.told wire.new) (C.seen core.new) (C.left conn core.new) ready.new) }
    ensures others { OthersKeep C.left conn core.old core.new }
{
    let before = flush(outbox, wire, ready);
    let read = feed(outbox, wire, core, conn, buffer, ready);
    answer(outbox, core, conn, is_brief, ready);
    let behind = flush(outbox, wire, ready);
    (read, before.saturating_add(behind))
}

/// Writes the bytes owed, answers one request at most, and writes again. It does not read. The number is that of the bytes that were written.
///
/// Faults of the wire, a last answer and a refused one have the same effect as in a [`turn`].
pub fn reply<W: Wire, C: Core>(
    outbox: &mut Outbox,
    wire: &mut W,
    core: &mut C,
    conn: u32,
    is_brief: bool,
    ready: &mut Readiness,
) -> usize
    ensures turned { Turned 0 1 (C.takes conn) (C.answers conn) (C.idle conn) (C.over conn) can_reply
        (here outbox.old (W.told wire.old) (C.seen core.old) (C.left conn core.old) ready.old) (here outbox.new (W.told wire.new) (C.seen core.new) (C.left conn core.new) ready.new) }
    ensures moved { HasMoved (W.told wire.old) (W.told wire.new) 0 result }
    ensures advances { can_answer ready.old outbox.old ≡ true → IsFalse (C.holds is_brief conn core.old) → Advances (C.takes conn) (C.answers conn)
        (here outbox.old (W.told wire.old) (C.seen core.old) (C.left conn core.old) ready.old) (here outbox.new (W.told wire.new) (C.seen core.new) (C.left conn core.new) ready.new) }
    ensures others { OthersKeep C.left conn core.old core.new }
{
    let before = flush(outbox, wire, ready);
    answer_one(outbox, core, conn, is_brief, ready);
    let behind = flush(outbox, wire, ready);
    before.saturating_add(behind)
}

/// Writes once, if something is owed and there may be room for it. It neither reads nor answers. The number is that of the bytes that were written.
///
/// A fault of the wire has the same effect as in a [`turn`].
pub fn flush<W: Wire>(outbox: &mut Outbox, wire: &mut W, ready: &mut Readiness) -> usize
    ensures flushes { Flushes outbox.old (W.told wire.old) ready.old outbox.new (W.told wire.new) ready.new }
    ensures moved { HasMoved (W.told wire.old) (W.told wire.new) 0 result }
{
    if !ready.can_write(outbox) {
        return 0;
    }
    match wire.write(outbox.owed()) {
        Taken::Bytes(count) => {
            outbox.wrote(count);
            count
        }
        Taken::Blocked => {
            ready.writable = false;
            0
        }
        Taken::Failed => {
            outbox.fail();
            0
        }
    }
}

/// Reads one piece if no request waits, and neither answers nor writes. The caller can then reserve what the request needs. The number is that of the bytes
/// that were read.
///
/// Faults of the wire, the end of the input and declined pieces have the same effect as in a [`turn`].
pub fn feed<W: Wire, C: Core>(
    outbox: &mut Outbox,
    wire: &mut W,
    core: &mut C,
    conn: u32,
    buffer: &mut [u8],
    ready: &mut Readiness,
) -> usize
    requires { 0 < length buffer.old }
    ensures turned { Turned 1 0 (C.takes conn) (C.answers conn) (C.idle conn) (C.over conn) can_read
        (here outbox.old (W.told wire.old) (C.seen core.old) (C.left conn core.old) ready.old) (here outbox.new (W.told wire.new) (C.seen core.new) (C.left conn core.new) ready.new) }
    ensures moved { HasMoved (W.told wire.old) (W.told wire.new) result 0 }
    ensures still { can_read ready.old outbox.old ≡ false → core.new ≡ core.old }
    ensures others { OthersKeep C.left conn core.old core.new }
{
    if !ready.can_read(outbox) {
        return 0;
    }
    match wire.read(buffer) {
        Given::Bytes(count) => {
            if core.take(conn, &buffer[..count]) {
                ready.waiting = true;
                count
            } else {
                outbox.end();
                count
            }
        }
        Given::Ended => {
            outbox.end();
            0
        }
        Given::Blocked => {
            ready.readable = false;
            0
        }
        Given::Failed => {
            outbox.fail();
            0
        }
    }
}

// Answers some of the requests that wait.
fn answer<C: Core>(
    outbox: &mut Outbox,
    core: &mut C,
    conn: u32,
    is_brief: bool,
    ready: &mut Readiness,
)
    ensures turned { (wire : Option Traffic) → Turned 0 most_requests (C.takes conn) (C.answers conn) (C.idle conn) (C.over conn) can_answer
        (here outbox.old wire (C.seen core.old) (C.left conn core.old) ready.old) (here outbox.new wire (C.seen core.new) (C.left conn core.new) ready.new) }
    ensures advances { can_answer ready.old outbox.old ≡ true → IsFalse (C.holds is_brief conn core.old) → Advances (C.takes conn) (C.answers conn)
        (here outbox.old None (C.seen core.old) (C.left conn core.old) ready.old) (here outbox.new None (C.seen core.new) (C.left conn core.new) ready.new) }
    ensures others { OthersKeep C.left conn core.old core.new }
{
    answer_one(outbox, core, conn, is_brief, ready);
    'requests: for _ in 1..REQUESTS {
        if core.rests() {
            return;
        }
        if !ready.can_answer(outbox) {
            return;
        }
        answer_one(outbox, core, conn, is_brief, ready);
    }
}

// Answers one of them.
fn answer_one<C: Core>(
    outbox: &mut Outbox,
    core: &mut C,
    conn: u32,
    is_brief: bool,
    ready: &mut Readiness,
)
    ensures turned { (wire : Option Traffic) → Turned 0 1 (C.takes conn) (C.answers conn) (C.idle conn) (C.over conn) can_answer
        (here outbox.old wire (C.seen core.old) (C.left conn core.old) ready.old) (here outbox.new wire (C.seen core.new) (C.left conn core.new) ready.new) }
    ensures gone { can_answer ready.old outbox.old ≡ true → GoesOn (Shares (C.holds is_brief conn core.old)) (C.takes conn) (C.answers conn)
        (here outbox.old None (C.seen core.old) (C.left conn core.old) ready.old) (here outbox.new None (C.seen core.new) (C.left conn core.new) ready.new) }
    ensures others { OthersKeep C.left conn core.old core.new }
{
    if !ready.can_answer(outbox) {
        return;
    }
    match outbox.answer_next(core, conn, is_brief) {
        Step::Replied => {}
        Step::Working => {}
        Step::Idle => ready.waiting = false,
        Step::Last => outbox.end(),
        Step::Refused => outbox.end(),
    }
}
