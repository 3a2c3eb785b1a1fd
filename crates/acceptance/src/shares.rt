//! A query that is answered a share at a time, between requests on other connections.

ghost use Rattle.path_hub.specs.UnderWay.{AreOnWay};

use crate::session::{KEY, OTHER_KEY, front};
use crate::trial::Trial;
use path_hub::{Advance, Hub, Tasks};
use std::alloc::Global;

// The factor by which names are hashed: any number does.
const FACTOR: u64 = 0xD6E8_FEB8_6659_FD93;

/// A puts `[2]` at c/d and `[3]` at c/e, and asks `$[0]` of c.
const PUTS_AND_QUERY: &[u8] = b"\
\0\0\0\x1c\x01\0\0\0\x01\x00\x11\x22\x33\x44\x55\x66\x77\x88\x99\xaa\xbb\xcc\xdd\xee\xff\x01c\x01d[2]\
\0\0\0\x1c\x01\0\0\0\x02\x00\x11\x22\x33\x44\x55\x66\x77\x88\x99\xaa\xbb\xcc\xdd\xee\xff\x01c\x01e[3]\
\0\0\0\x1b\x05\0\0\0\x03\x00\x11\x22\x33\x44\x55\x66\x77\x88\x99\xaa\xbb\xcc\xdd\xee\xff\x01c$[0]";

/// The replies to the puts are 18 bytes.
const REPLIES: &[u8] = b"\
\0\0\0\x05\0\0\0\0\x01\
\0\0\0\x05\0\0\0\0\x02\
\0\0\0\x27\0\0\0\0\x03\0\0\0\x02\x01d\0\0\0\x04$[0]\0\0\0\x012\x01e\0\0\0\x04$[0]\0\0\0\x013";

/// A puts `[[2],[3]]` at c/d, and asks `$[*][0]` of c.
const PUT_AND_QUERY: &[u8] = b"\
\0\0\0\x22\x01\0\0\0\x01\x00\x11\x22\x33\x44\x55\x66\x77\x88\x99\xaa\xbb\xcc\xdd\xee\xff\x01c\x01d[[2],[3]]\
\0\0\0\x1e\x05\0\0\0\x02\x00\x11\x22\x33\x44\x55\x66\x77\x88\x99\xaa\xbb\xcc\xdd\xee\xff\x01c$[*][0]";

/// The reply to the put is 9 bytes.
const REPLIES_OF_ONE: &[u8] = b"\
\0\0\0\x05\0\0\0\0\x01\
\0\0\0\x2d\0\0\0\0\x02\0\0\0\x02\x01d\0\0\0\x07$[0][0]\0\0\0\x012\x01d\0\0\0\x07$[1][0]\0\0\0\x013";

/// A drops c.
const DROP: &[u8] =
    b"\0\0\0\x17\x06\0\0\0\x04\x00\x11\x22\x33\x44\x55\x66\x77\x88\x99\xaa\xbb\xcc\xdd\xee\xff\x01c";

const DROPPED: &[u8] = b"\0\0\0\x05\0\0\0\0\x04";

/// B asks for its usage.
const USAGE: &[u8] =
    b"\0\0\0\x15\x07\0\0\0\x05\xff\xee\xdd\xcc\xbb\xaa\x99\x88\x77\x66\x55\x44\x33\x22\x11\x00";

/// Shares by which each of these queries is answered, also where a share is one step.
const MOST_SHARES: u32 = 64;

/// The trials.
pub fn trials(alloc: Global) -> [(&'static str, Trial); 2] {
    [
        (
            "answers_others_between_shares",
            answers_others_between_shares(alloc),
        ),
        (
            "answers_others_within_a_document",
            answers_others_within_a_document(alloc),
        ),
    ]
}

/// A hub whose connection 1 asks a query behind puts, connection 2 a drop of the same tenant, and connection 3 something of another.
fn asked(alloc: Global, first: &[u8]) -> Option<Hub> {
    let mut hub = Hub::new(alloc, &[KEY, OTHER_KEY]).ok()?;
    hub.connect(alloc, 1).ok()?;
    hub.connect(alloc, 2).ok()?;
    hub.connect(alloc, 3).ok()?;
    hub.take(1, first).ok()?;
    hub.take(2, DROP).ok()?;
    hub.take(3, USAGE).ok()?;
    Some(hub)
}

/// A share of work on a connection, which is the smallest; none where it waits.
fn share(
    hub: &mut Hub,
    alloc: Global,
    conn: u32,
    tasks: &mut Tasks,
    out: &mut Vec<u8>,
) -> Option<Advance>
    requires { AreOnWay hub.old.tenants tasks.old }
    ensures { AreOnWay hub.new.tenants tasks.new }
{
    if hub.waits(conn, tasks) {
        return None;
    }
    hub.answer_some(alloc, conn, 0, tasks, out).ok()
}

/// Whether a share on a connection answers what waits there.
fn replies(hub: &mut Hub, alloc: Global, conn: u32, tasks: &mut Tasks, out: &mut Vec<u8>) -> bool
    requires { AreOnWay hub.old.tenants tasks.old }
    ensures { AreOnWay hub.new.tenants tasks.new }
{
    matches!(
        share(hub, alloc, conn, tasks, out),
        Some(Advance::Replied { .. })
    )
}

/// Whether the next shares on a connection answer what waits there. How many there are is no promise.
fn ends(hub: &mut Hub, alloc: Global, conn: u32, tasks: &mut Tasks, out: &mut Vec<u8>) -> bool
    requires { AreOnWay hub.old.tenants tasks.old }
    ensures { AreOnWay hub.new.tenants tasks.new }
{
    'shares: for _ in 0..MOST_SHARES {
        if replies(hub, alloc, conn, tasks, out) {
            return true;
        }
    }
    false
}

fn answers_others_between_shares(alloc: Global) -> Trial {
    let Some(mut hub) = asked(alloc, PUTS_AND_QUERY) else {
        return Trial::unprepared();
    };
    let mut tasks = Tasks::new(alloc, FACTOR);
    let mut out = Vec::new(alloc);
    let mut others = Vec::new(alloc);
    let mut trial = Trial::new();
    trial.case(replies(&mut hub, alloc, 1, &mut tasks, &mut out));
    trial.case(replies(&mut hub, alloc, 1, &mut tasks, &mut out));
    trial.case(share(&mut hub, alloc, 1, &mut tasks, &mut out) == Some(Advance::Working));
    trial.case(out.as_slice() == front(REPLIES, 18));
    trial.case(share(&mut hub, alloc, 2, &mut tasks, &mut others).is_none());
    trial.case(replies(&mut hub, alloc, 3, &mut tasks, &mut others));
    trial.case(others.len() == 21);
    trial.case(ends(&mut hub, alloc, 1, &mut tasks, &mut out));
    trial.case(out.as_slice() == REPLIES);
    trial.case(share(&mut hub, alloc, 1, &mut tasks, &mut out) == Some(Advance::Idle));
    others.clear();
    trial.case(replies(&mut hub, alloc, 2, &mut tasks, &mut others));
    trial.case(others.as_slice() == DROPPED);
    trial
}

fn answers_others_within_a_document(alloc: Global) -> Trial {
    let Some(mut hub) = asked(alloc, PUT_AND_QUERY) else {
        return Trial::unprepared();
    };
    let mut tasks = Tasks::new(alloc, FACTOR);
    let mut out = Vec::new(alloc);
    let mut others = Vec::new(alloc);
    let mut trial = Trial::new();
    trial.case(replies(&mut hub, alloc, 1, &mut tasks, &mut out));
    trial.case(share(&mut hub, alloc, 1, &mut tasks, &mut out) == Some(Advance::Working));
    trial.case(out.as_slice() == front(REPLIES_OF_ONE, 9));
    trial.case(share(&mut hub, alloc, 2, &mut tasks, &mut others).is_none());
    trial.case(replies(&mut hub, alloc, 3, &mut tasks, &mut others));
    trial.case(ends(&mut hub, alloc, 1, &mut tasks, &mut out));
    trial.case(out.as_slice() == REPLIES_OF_ONE);
    trial
}
