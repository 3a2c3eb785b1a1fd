//! One request and its reply, in pieces that let others in between.
ghost use Rattle.std.specs.Prelude.{◌≡◌, ◌<◌, ◌++◌, length, drop, OnOk};
ghost use Rattle.admin_pages.specs.Heads.{OnPart};
ghost use Rattle.admin_pages.specs.Pages.{left};
ghost use Rattle.admin_pages.specs.Replies.{reply_text};
ghost use Rattle.admin_connections.specs.Visits.{AtMostSays, Begins, GoesOn, Hears, IsFresh, IsReadAs, Owes, after_reading, hosts_of, is_head, is_page, owed_of, replied};

use admin_pages::{
    About, Gauges, Metrics, Page, Reading, Reply, Standing, append_body, append_reply, read_request,
};
use std::alloc::{AllocError, Global};
use std::mem;

/// The most bytes that a connection gives at a time.
pub const PIECE: usize = 1_024;

/// The most lines of a page that are written at a time.
const LINES: usize = 32;

/// What a connection waits for.
#[derive(Clone, Copy, Debug, PartialEq, Eq)]
pub enum Stage {
    /// The rest of the request.
    Head,
    /// What the page of metrics tells.
    Figures,
    /// The next lines of the page.
    Lines,
    /// The peer, to take the reply.
    Reply,
    /// The peer, to close.
    Done,
}

/// A connection. What it holds is bounded: fewer than 8,192 bytes of a head and a piece, or a page and its reply.
#[derive(Drop)]
pub struct Visit {
    alloc: Global,
    /// What it waits for.
    pub stage: Stage,
    // What came of the request.
    head: Vec<u8>,
    page: Option<Box<Page>>,
    // The lines of the page.
    lines: Vec<u8>,
    // The reply, and how many of its bytes were taken.
    reply: Vec<u8>,
    taken: usize,
}

impl Visit {
    /// Nothing came yet.
    pub fn new(alloc: Global) -> Visit
        ensures { IsFresh result }
    {
        Visit {
            alloc,
            stage: Stage::Head,
            head: Vec::new(alloc),
            page: None,
            lines: Vec::new(alloc),
            reply: Vec::new(alloc),
            taken: 0,
        }
    }

    /// Takes a piece of the request, so many seconds after the start. If the request is whole, or cannot become so, it is answered; what follows
    /// is ignored.
    ///
    /// # Errors
    ///
    /// If an allocation failed. The connection is to be closed.
    pub fn hear(
        &mut self,
        about: &About,
        piece: &[u8],
        standing: &mut Standing,
        uptime: u64,
    ) -> Result<(), AllocError>
        ensures heard { OnOk result (Hears (hosts_of about.now) uptime self.old standing.old piece.now self.new standing.new) }
        ensures said { AtMostSays (hosts_of about.now) (self.old.head.items ++ piece.now) standing.old standing.new }
        ensures bounded { length self.old.head.items < 8192 → length self.new.head.items < 8192 }
    {
        if !is_head(self.stage) {
            return Ok(());
        }
        self.head.extend_from_slice(piece)?;
        let reading = read_by(about, self.head.as_slice());
        match reply_to(standing, reading) {
            Some(reply) => self.answer(reply, uptime),
            None => Ok(()),
        }
    }

    // Makes the reply, unless it is a page.
    fn answer(&mut self, reply: Reply, uptime: u64) -> Result<(), AllocError>
        ensures owes { OnOk result (Owes uptime reply self.old self.new) }
        ensures forgotten { length self.new.head.items ≡ 0 }
    {
        self.head = Vec::new(self.alloc);
        if is_page(reply) {
            self.stage = Stage::Figures;
            return Ok(());
        }
        let mut body = Vec::new(self.alloc);
        append_body(reply, uptime, &mut body)?;
        append_reply(reply, body.as_slice(), &mut self.reply)?;
        self.stage = Stage::Reply;
        Ok(())
    }

    /// Begins the page, which tells these figures however long it takes.
    ///
    /// # Errors
    ///
    /// If an allocation failed. The connection is to be closed.
    pub fn begin_page(&mut self, metrics: &Metrics, gauges: &Gauges) -> Result<(), AllocError>
        ensures { OnOk result ((about : About) → Begins about metrics.now gauges.now self.old self.new) }
    {
        match Box::new(self.alloc, Page::new(metrics, gauges)) {
            Ok(page) => {
                self.page = Some(page);
                self.stage = Stage::Lines;
                Ok(())
            }
            Err(_) => Err(AllocError),
        }
    }

    /// Writes the next lines of the page, and the reply behind the last ones.
    ///
    /// # Errors
    ///
    /// If an allocation failed. The connection is to be closed.
    pub fn go_on(&mut self, about: &About) -> Result<(), AllocError>
        ensures { OnOk result (GoesOn about.now self.old self.new) }
    {
        let Some(page) = &mut self.page else {
            return Ok(());
        };
        write_lines(about, page, &mut self.lines)?;
        if page.is_whole() {
            self.page = None;
            self.finish()?;
        }
        Ok(())
    }

    // Makes the reply that has the page.
    fn finish(&mut self) -> Result<(), AllocError>
        ensures stage { OnOk result (self.new.stage ≡ Stage.Reply) }
        ensures reply { OnOk result (self.new.reply.items ≡ self.old.reply.items ++ reply_text Reply.Metrics self.old.lines.items) }
    {
        let lines = mem::replace(&mut self.lines, Vec::new(self.alloc));
        append_reply(Reply::Metrics, lines.as_slice(), &mut self.reply)?;
        self.stage = Stage::Reply;
        Ok(())
    }

    /// What the peer is still to take.
    pub fn owed(&self) -> &[u8]
        ensures { result.now ≡ owed_of self.now }
    {
        self.reply.get(self.taken..).unwrap_or_default()
    }

    /// The peer took so many bytes.
    pub fn took(&mut self, count: usize)
        ensures { owed_of self.new ≡ drop count (owed_of self.old) }
    {
        self.taken = self.taken.saturating_add(count).min(self.reply.len());
        if self.stage == Stage::Reply && self.taken == self.reply.len() {
            self.stage = Stage::Done;
        }
    }
}

pub(crate) fn is_head(stage: Stage) -> bool
    ensures { result ≡ is_head stage }
{
    matches!(stage, Stage::Head)
}

fn is_page(reply: Reply) -> bool
    ensures { result ≡ is_page reply }
{
    matches!(reply, Reply::Metrics)
}

// What bytes come to, at this server.
fn read_by(about: &About, bytes: &[u8]) -> Reading
    ensures read { IsReadAs (hosts_of about.now) bytes.now result }
    ensures part { OnPart result (length bytes.now < 8192) }
{
    read_request(&about.hosts, bytes)
}

// The reply to what came, where it is whole, and what is said by it.
fn reply_to(standing: &mut Standing, reading: Reading) -> Option<Reply>
    ensures reply { result ≡ replied standing.old reading }
    ensures said { standing.new ≡ after_reading standing.old reading }
{
    match reading {
        Reading::Part => None,
        Reading::Refused(refusal) => Some(Reply::Refused(refusal)),
        Reading::Asked(asked) => Some(standing.answer(asked)),
    }
}

// Writes the next lines of a page.
fn write_lines(about: &About, page: &mut Page, lines: &mut Vec<u8>) -> Result<(), AllocError>
    ensures { OnOk result (lines.new.items ++ left about.now page.new ≡ lines.old.items ++ left about.now page.old) }
{
    'lines: for _ in 0..LINES {
        page.append_line(about, lines)?;
    }
    Ok(())
}
