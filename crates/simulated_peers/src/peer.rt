//! A peer: how it behaves on each of its connections, what it asks for, and its own record of its texts.

use crate::chance::Chance;
use crate::pipe::Pipe;
use crate::wanted::{REFUSED, TEXTS, Text, Wanted, byte_of, word_of};
use event_loop::End as How;
use std::alloc::Global;
use std::collections::VecDeque;

/// The tenants. Each peer has a collection of one of them.
pub const TENANTS: usize = 256;

/// The most requests without a reply.
const AHEAD: usize = 4;

/// The most requests without a reply of one that floods.
const FLOOD: usize = 8_000;

/// The key of no tenant: those of tenants have sixteen equal bytes.
const STRANGER: [u8; 16] = [7, 6, 5, 4, 3, 2, 1, 0, 7, 6, 5, 4, 3, 2, 1, 0];

/// The most bytes that one sends of a request that it does not send to its end, and those of them that it sends one at a time.
const PART: usize = 20_000;

const DRIPS: usize = 2_000;

/// The bytes of a text that is long.
const LONG: usize = 100_000;

/// The letters of the longest text.
const LONGEST: usize = 4_194_302;

/// The selectors of a query that selects nothing. Each costs a unit for each text, and all of them a little more than a share of work, so that it
/// is cut within a text. A share takes a round here, which is far longer than in a server: more of them would only make others wait.
const SELECTORS: usize = 450;

const NOT_FOUND: u8 = 15;

/// How a peer behaves on one connection.
#[derive(Clone, Copy, PartialEq, Eq)]
enum Manner {
    /// It sends and takes what comes, pauses, and ends or resets the connection at times.
    Lively,
    /// It stops in the middle of a request.
    Silent,
    /// It sends the last bytes of a request one at a time.
    Dripping,
    /// It puts a long text, then asks for texts and takes nothing.
    Deaf,
    /// It sends a length above the limit.
    Faulty,
    /// Its key names no tenant.
    Stranger,
    /// Neither does that of this one, which stops in the middle of a request.
    SilentStranger,
    /// It sends the shortest requests without a pause, and takes what comes.
    Flood,
    /// It does so and takes nothing.
    DeafFlood,
}

/// What is counted of a run.
#[derive(Clone, Copy, Default)]
pub struct Tally {
    /// Replies, and those that were not as they must be.
    pub replies: u64,
    pub differ: u64,
    /// Replies that tell of refused memory, and connections that ended for it.
    pub refused: u64,
    /// Connections that were opened, those that were closed behind a peer that stalled, and those whose peer went on.
    pub opened: u64,
    pub stalled: u64,
    pub closed: u64,
    /// The most rounds that one that goes on waited for a reply.
    pub waited: u64,
}

/// The limits on time of a server, in milliseconds.
#[derive(Clone, Copy)]
pub struct Times {
    /// After so many without a byte a connection is closed.
    pub idle: Option<u64>,
    /// After so many it makes room for another one.
    pub spare: u64,
    /// After so many one without a reply to a tenant makes room.
    pub frame_time: u64,
}

/// What all peers share.
#[derive(Clone, Copy)]
pub struct Shared {
    /// What decides all that peers do.
    pub chance: Chance,
    /// The server's limits on time.
    pub times: Times,
    /// What is counted.
    pub tally: Tally,
    /// The server is refused memory at times. So a peer sends no request before the reply to the last one came.
    pub is_scarce: bool,
}

/// A request that was begun: what its reply must be, and the texts before it.
#[derive(Clone, Copy)]
struct Expected {
    wanted: Wanted,
    before: [Option<Text>; TEXTS],
}

/// A peer of one connection after the other.
#[derive(Drop)]
pub struct Peer {
    manner: Manner,
    place: usize,
    texts: [Option<Text>; TEXTS],
    // What is to be sent of the last request, and those that have no reply.
    script: VecDeque<u8>,
    wanted: VecDeque<Expected>,
    // How much of a reply came, what it has in all, its head, and whether it was as wanted.
    came: usize,
    length: usize,
    head: [u8; 9],
    is_alike: bool,
    // It got a reply on this connection.
    is_known: bool,
    // It ended or reset the connection itself; one that takes nothing has put its text.
    has_left: bool,
    is_ready: bool,
    // The text that it last changed, and whether that is in doubt since memory was refused.
    changed: usize,
    is_unsure: bool,
    // The rounds until it asks again, those since it asked, and those since it last got a reply while it wants one.
    pause: u64,
    asked: u64,
    waits: u64,
}

impl Peer {
    /// One that has no text.
    pub fn new(alloc: Global, place: usize) -> Peer {
        Peer {
            manner: Manner::Lively,
            place,
            texts: [None; TEXTS],
            script: VecDeque::new(alloc),
            wanted: VecDeque::new(alloc),
            came: 0,
            length: 0,
            head: [0; 9],
            is_alike: true,
            is_known: false,
            has_left: true,
            is_ready: false,
            changed: 0,
            is_unsure: false,
            pause: 0,
            asked: 0,
            waits: 0,
        }
    }

    /// One round: it may ask for more, sends some bytes and takes some. A connection that is closed is looked at, and opened anew.
    pub fn round(&mut self, pipe: &mut Pipe, shared: &mut Shared) {
        if pipe.is_closed {
            self.open(pipe, shared);
        } else if !self.has_left {
            self.go_on(pipe, shared);
        }
    }

    fn go_on(&mut self, pipe: &mut Pipe, shared: &mut Shared) {
        self.asked = self.asked.saturating_add(1);
        self.ask_next(pipe, shared);
        self.send(&mut shared.chance, pipe);
        if self.takes() {
            let most = amount(&mut shared.chance);
            self.take(most, pipe, shared);
        }
        self.leave(&mut shared.chance, pipe);
        self.wait(&mut shared.tally);
    }

    /// It leaves, whatever is under way.
    pub fn quit(&mut self, pipe: &mut Pipe) {
        self.has_left = true;
        pipe.reset();
    }

    /// One round of a peer whose last request is for all its texts. Whether the reply came.
    pub fn end(&mut self, pipe: &mut Pipe, shared: &mut Shared) -> bool {
        if pipe.is_closed {
            self.open(pipe, shared);
            self.manner = Manner::Lively;
            self.ask_for_all();
            return false;
        }
        self.send(&mut shared.chance, pipe);
        self.take(usize::MAX, pipe, shared);
        self.wanted.is_empty()
    }

    fn takes(&self) -> bool {
        match self.manner {
            Manner::Deaf => !self.is_ready,
            Manner::DeafFlood => false,
            _ => true,
        }
    }

    fn is_lively(&self) -> bool {
        self.manner == Manner::Lively
    }

    // Counts the rounds that it waits.
    fn wait(&mut self, tally: &mut Tally) {
        if self.wanted.is_empty() || self.has_left || !self.is_lively() {
            self.waits = 0;
        } else {
            self.waits = self.waits.saturating_add(1);
            tally.waited = tally.waited.max(self.waits);
        }
    }

    // ---- the beginning and the end of a connection

    // Opens its connection anew, once it has looked at how the last one was closed.
    fn open(&mut self, pipe: &mut Pipe, shared: &mut Shared) {
        self.look(pipe, shared);
        self.manner = any_manner(&mut shared.chance);
        if self.is_unsure {
            self.manner = Manner::Lively;
        }
        self.is_known = false;
        self.has_left = false;
        self.is_ready = false;
        self.came = 0;
        self.is_alike = true;
        self.pause = 0;
        shared.tally.opened = shared.tally.opened.saturating_add(1);
        pipe.open();
    }

    // Looks at how a connection was closed, and forgets what was asked on it: what has no reply was not done, and the texts are as they were
    // before it, but for one that is in doubt.
    fn look(&mut self, pipe: &mut Pipe, shared: &mut Shared) {
        if !self.has_left {
            self.take(usize::MAX, pipe, shared);
            self.count_end(pipe, shared);
        }
        if let Some(asked) = self.wanted.front() {
            self.texts = asked.before;
        }
        self.wanted.clear();
        self.script.clear();
    }

    // Counts how a connection was closed: for want of memory, behind a peer that stalled, or although its peer went on.
    fn count_end(&mut self, pipe: &Pipe, shared: &mut Shared) {
        let is_expected = self.may_be_closed(pipe, shared);
        let is_for_memory = matches!(pipe.how, Some(How::Memory) | Some(How::WriteFault));
        let tally = &mut shared.tally;
        if shared.is_scarce && is_for_memory {
            self.is_unsure = true;
            tally.refused = tally.refused.saturating_add(1);
        } else if !self.is_lively() {
            tally.stalled = tally.stalled.saturating_add(1);
        } else if !is_expected {
            tally.closed = tally.closed.saturating_add(1);
        }
    }

    // Whether the server may have closed it although it goes on: before it was served, after it got no reply for long, or after it was idle for
    // long, and what it asked since then, if anything, came in the same moment.
    fn may_be_closed(&self, pipe: &Pipe, shared: &Shared) -> bool {
        if pipe.key.is_none() || shared.is_scarce && pipe.how.is_none() {
            return true;
        }
        let (quiet, open) = (
            pipe.closed.saturating_sub(pipe.moved),
            pipe.closed.saturating_sub(pipe.taken),
        );
        if pipe.how == Some(How::Displaced)
            && !self.is_known
            && open.saturating_add(1_000) > shared.times.frame_time
        {
            return true;
        }
        let was_idle = match (pipe.how, shared.times.idle) {
            (Some(How::Displaced), _) => quiet.saturating_add(1_000) > shared.times.spare,
            (Some(How::Idle), Some(idle)) => quiet >= idle,
            _ => false,
        };
        was_idle && (self.wanted.is_empty() || self.asked <= 3)
    }

    // It may end or reset the connection, where that leaves no doubt of its texts: where nothing is under way, where one request is and not all
    // of it was sent, and where none changes a text.
    fn leave(&mut self, chance: &mut Chance, pipe: &mut Pipe) {
        let is_within = self.wanted.len() == 1 && !self.script.is_empty();
        let is_clear = is_within || self.wanted.is_empty() || !self.changes();
        let times = if self.is_lively() { 300 } else { 2_000 };
        let is_done = self.manner == Manner::Faulty && pipe.is_over && self.wanted.is_empty();
        if is_done || is_clear && chance.once_in(times) {
            self.has_left = true;
            if chance.once_in(2) {
                pipe.reset();
            } else {
                pipe.end();
            }
        }
    }

    fn changes(&self) -> bool {
        match self.manner {
            Manner::Lively | Manner::Silent | Manner::Dripping => true,
            Manner::Deaf => !self.is_ready,
            _ => false,
        }
    }

    // It sends no request to its end.
    fn stops(&self) -> bool {
        matches!(
            self.manner,
            Manner::Silent | Manner::Dripping | Manner::SilentStranger
        )
    }

    // ---- bytes

    // Some bytes of the request are sent.
    fn send(&mut self, chance: &mut Chance, pipe: &mut Pipe) {
        let left = if self.stops() { 1 } else { 0 };
        let most = if self.manner == Manner::Dripping && self.script.len() < DRIPS {
            usize::from(chance.once_in(5))
        } else {
            amount(chance)
        };
        'bytes: for _ in 0..most {
            if self.script.len() <= left {
                return;
            }
            match self.script.pop_front() {
                Some(byte) => pipe.send(byte),
                None => return,
            }
        }
    }

    // Some bytes are taken.
    fn take(&mut self, most: usize, pipe: &mut Pipe, shared: &mut Shared) {
        'bytes: for _ in 0..most {
            match pipe.take() {
                Some(byte) => self.got(byte, shared),
                None => return,
            }
        }
    }

    // A byte of a reply came.
    fn got(&mut self, byte: u8, shared: &mut Shared) {
        let Some(asked) = self.wanted.front() else {
            shared.tally.differ = shared.tally.differ.saturating_add(1);
            return;
        };
        match self.head.get_mut(self.came) {
            Some(own) => *own = byte,
            None => {
                let wanted = asked.wanted.byte(self.came.saturating_sub(9));
                self.is_alike = self.is_alike && byte == wanted;
            }
        }
        self.came = self.came.saturating_add(1);
        if self.came == 9 {
            self.judge_head(shared);
        }
        if self.came >= 9 && self.came >= self.length {
            self.got_all(&mut shared.tally);
        }
    }

    // The first nine bytes of a reply came: they tell whether it is refused, and how long it is.
    fn judge_head(&mut self, shared: &mut Shared) {
        let Some(asked) = self.wanted.front() else {
            return;
        };
        if shared.is_scarce && self.head == REFUSED && asked.wanted.takes_memory() {
            self.length = 9;
            self.texts = asked.before;
            shared.tally.refused = shared.tally.refused.saturating_add(1);
        } else {
            self.length = asked.wanted.payload().saturating_add(9);
            self.is_alike = self.head == asked.wanted.head();
            self.is_unsure = self.is_unsure && !matches!(asked.wanted, Wanted::Put);
        }
    }

    // All of a reply came.
    fn got_all(&mut self, tally: &mut Tally) {
        let _ = self.wanted.pop_front();
        if !self.is_alike {
            tally.differ = tally.differ.saturating_add(1);
        }
        tally.replies = tally.replies.saturating_add(1);
        self.is_known = true;
        self.came = 0;
        self.is_alike = true;
        self.waits = 0;
    }

    // ---- requests

    // Asks for one thing more, where the last one is sent.
    fn ask_next(&mut self, pipe: &Pipe, shared: &mut Shared) {
        let is_flood = matches!(self.manner, Manner::Flood | Manner::DeafFlood);
        let most = if shared.is_scarce { 1 } else { AHEAD };
        if !self.script.is_empty() || self.wanted.len() >= most && !is_flood {
            return;
        }
        if self.pause > 0 {
            if self.wanted.is_empty() {
                self.pause = self.pause.saturating_sub(1);
            }
            return;
        }
        if self.wanted.is_empty() {
            self.asked = 0;
        }
        let chance = &mut shared.chance;
        match self.manner {
            Manner::Flood | Manner::DeafFlood => self.flood(pipe),
            Manner::Faulty => self.fault(),
            Manner::Stranger | Manner::SilentStranger => self.ask_as_stranger(chance),
            Manner::Silent | Manner::Dripping => {
                let text = any_long_text(chance);
                self.change(any_place(chance), Some(text));
            }
            Manner::Deaf => self.ask_and_take_nothing(chance),
            Manner::Lively => self.ask(chance),
        }
    }

    // Asks for one thing, and seldom pauses behind it. A text that is in doubt is put anew.
    fn ask(&mut self, chance: &mut Chance) {
        if chance.once_in(400) {
            self.pause = chance.below(2_000);
        }
        let (kind, place) = (chance.below(8), any_place(chance));
        if self.is_unsure {
            self.change(self.changed, Some(any_text(chance)));
            return;
        }
        match kind {
            0 => self.change(place, None),
            1 | 2 | 3 => self.look_up(chance, place),
            _ => self.change(place, Some(any_text(chance))),
        }
    }

    // First a long text, and once it is put, it is asked for.
    fn ask_and_take_nothing(&mut self, chance: &mut Chance) {
        let is_long = self.text(0).is_some_and(|text| text.count >= LONG);
        self.is_ready = self.is_ready || self.wanted.is_empty() && is_long;
        if self.is_ready {
            self.look_up(chance, 0);
        } else if self.wanted.is_empty() {
            let mut text = any_text(chance);
            text.count = text.count.saturating_add(LONG);
            self.change(0, Some(text));
        }
    }

    // As many of the shortest requests as may be on their way.
    fn flood(&mut self, pipe: &Pipe) {
        if pipe.unread() > 0 || self.wanted.len() > FLOOD {
            return;
        }
        'requests: for _ in 0..50 {
            self.say_all(&[0, 0, 0, 0]);
            self.want(Wanted::Unnumbered(1));
        }
    }

    // A length above the limit, once.
    fn fault(&mut self) {
        if self.wanted.is_empty() && self.came == 0 && !self.has_left {
            self.say_all(&[0, 0x60, 0, 1, 7, 7]);
            self.want(Wanted::Unnumbered(255));
            self.pause = u64::MAX;
        }
    }

    fn ask_as_stranger(&mut self, chance: &mut Chance) {
        let text = if self.stops() {
            any_long_text(chance)
        } else {
            any_text(chance)
        };
        self.begin(1, Some(0), text.length(), Wanted::Status(2));
        self.say_text(text);
    }

    fn ask_for_all(&mut self) {
        self.begin(5, None, 1, Wanted::Hits(self.texts));
        self.say(b'$');
    }

    // A query that selects nothing, and is cut within each text.
    fn ask_at_length(&mut self) {
        self.begin(5, None, 2 * SELECTORS + 2, Wanted::Hits([None; TEXTS]));
        self.say_all(b"$[0");
        'selectors: for _ in 1..SELECTORS {
            self.say_all(b",0");
        }
        self.say(b']');
    }

    // A text, all names, all texts, or none of them by a query that takes long.
    fn look_up(&mut self, chance: &mut Chance, place: usize) {
        match chance.below(8) {
            0 => self.begin(4, None, 0, Wanted::Names(self.texts)),
            1 => self.ask_for_all(),
            2 => self.ask_at_length(),
            _ => {
                let wanted = match self.text(place) {
                    Some(text) => Wanted::Found(text),
                    None => Wanted::Status(NOT_FOUND),
                };
                self.begin(2, Some(place), 0, wanted);
            }
        }
    }

    // Puts a text, or removes the one that is there.
    fn change(&mut self, place: usize, text: Option<Text>) {
        match text {
            Some(text) => {
                self.begin(1, Some(place), text.length(), Wanted::Put);
                self.say_text(text);
            }
            None => {
                let is_there = self.text(place).is_some();
                let status = if is_there { 0 } else { NOT_FOUND };
                self.begin(3, Some(place), 0, Wanted::Status(status));
            }
        }
        if let Some(own) = self.texts.get_mut(place) {
            *own = text;
        }
        self.changed = place;
    }

    fn text(&self, place: usize) -> Option<Text> {
        match self.texts.get(place) {
            Some(text) => *text,
            None => None,
        }
    }

    // The frame of a request up to its text or query, which has so many bytes.
    fn begin(&mut self, command: u8, document: Option<usize>, text: usize, wanted: Wanted) {
        let of_document = if document.is_some() { 2usize } else { 0 };
        let length = word_of(text.saturating_add(23).saturating_add(of_document));
        self.say_all(&length.to_be_bytes());
        self.say_all(&[command, 0, 0, 0, 1]);
        self.say_all(&self.key());
        let collection = b'a'.wrapping_add(byte_of(self.place / TENANTS));
        self.say_all(&[1, collection]);
        if let Some(document) = document {
            self.say_all(&[1, b'0'.wrapping_add(byte_of(document))]);
        }
        self.want(wanted);
    }

    fn key(&self) -> [u8; 16] {
        match self.manner {
            Manner::Stranger | Manner::SilentStranger => STRANGER,
            _ => key_of(self.place % TENANTS),
        }
    }

    fn want(&mut self, wanted: Wanted) {
        let before = self.texts;
        let _ = self.wanted.push_back(Expected { wanted, before });
    }

    fn say_text(&mut self, text: Text) {
        let most = if self.stops() { PART } else { usize::MAX };
        self.say(b'"');
        'letters: for _ in 0..text.count.min(most) {
            self.say(text.letter);
        }
        self.say(b'"');
    }

    fn say_all(&mut self, bytes: &[u8]) {
        'bytes: for byte in bytes {
            self.say(*byte);
        }
    }

    fn say(&mut self, byte: u8) {
        let _ = self.script.push_back(byte);
    }
}

/// The key of a tenant: sixteen equal bytes.
pub fn key_of(tenant: usize) -> [u8; 16] {
    [byte_of(tenant); 16]
}

fn any_manner(chance: &mut Chance) -> Manner {
    match chance.below(24) {
        0 => Manner::Silent,
        1 => Manner::Dripping,
        2 => Manner::Deaf,
        3 => Manner::Faulty,
        4 => Manner::Stranger,
        5 => Manner::SilentStranger,
        6 => Manner::Flood,
        7 => Manner::DeafFlood,
        _ => Manner::Lively,
    }
}

// How many bytes move in a round: few, some or many.
fn amount(chance: &mut Chance) -> usize {
    let most = match chance.below(4) {
        0 | 1 => chance.below(8),
        2 => chance.below(100),
        _ => chance.below(200_000),
    };
    most as usize
}

fn any_place(chance: &mut Chance) -> usize {
    chance.below(TEXTS as u64) as usize
}

// A text, half of which are long, some as long as one may be.
fn any_long_text(chance: &mut Chance) -> Text {
    let mut text = any_text(chance);
    let more = match chance.below(4) {
        0 => LONG,
        1 => LONGEST,
        _ => 0,
    };
    text.count = text.count.saturating_add(more).min(LONGEST);
    text
}

fn any_text(chance: &mut Chance) -> Text {
    let count = match chance.below(256) {
        0 => chance.below(300_000),
        1 | 2 | 3 => chance.below(40_000),
        _ => chance.below(200),
    };
    Text {
        letter: b'a'.wrapping_add(byte_of(chance.below(26) as usize)),
        count: count as usize,
    }
}
