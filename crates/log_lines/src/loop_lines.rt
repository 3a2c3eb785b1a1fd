//! The lines on standard error that a server of many connections prints.

use crate::line_writer::{LineWriter, Outlet};
use connection_turns::{End, Ending};
use jiff::Timestamp;
use open_connections::{Held, Journal, Slow, Totals};
use protocol::status_at;
use socket_poll::Gate;
use std::alloc::{AllocError, Global};
use std::fmt;
use std::time::{Clock, SystemTime, UNIX_EPOCH};

/// The most lines that are printed in a second.
const MOST_LINES: u32 = 100;

/// Prints a line for each connection that ended abnormally, and a line of counts each minute if asked for. Each line begins with its time. It
/// never waits: it drops lines for which standard error has no room, and those above the most in a second. Once there is room, it prints how
/// many it dropped. A line of which standard error took a part goes on before the next one.
#[derive(Drop)]
pub struct LoopLines<'a, R: Clock, P: Print + Drop> {
    rt: &'a R,
    alloc: Global,
    errors: Errors<P>,
    gate: Gate,
    has_counts: bool,
    // What each tenant is called.
    names: Vec<String>,
    writer: LineWriter,
    // The second since 1970 that was last printed in, and how many lines were.
    second: u64,
    printed: u32,
    // The lines that were dropped since that was last told, and since the start.
    dropped: u64,
    all_dropped: u64,
}

impl<'a, R: Clock, P: Print + Drop> LoopLines<'a, R, P> {
    /// Lines on this standard error, which takes some where the gate is open; those with counts and of slow queries only where asked for. A tenant
    /// is called by its name in this list, or else by its place.
    pub fn new(
        rt: &'a R,
        alloc: Global,
        errors: P,
        gate: Gate,
        has_counts: bool,
        names: Vec<String>,
    ) -> LoopLines<'a, R, P> {
        LoopLines {
            rt,
            alloc,
            errors: Errors(errors),
            gate,
            has_counts,
            names,
            writer: LineWriter::new(alloc),
            second: 0,
            printed: 0,
            dropped: 0,
            all_dropped: 0,
        }
    }

    // Prints a line, or counts it as dropped.
    fn write_line(&mut self, line: Line<'_>) {
        self.tell_dropped();
        if self.takes_one() {
            self.print(&line);
        } else {
            self.dropped = self.dropped.saturating_add(1);
            self.all_dropped = self.all_dropped.saturating_add(1);
        }
    }

    // Tells how many lines were dropped, where some were and there is room.
    fn tell_dropped(&mut self) {
        if self.dropped > 0 && self.takes_one() {
            let dropped = self.dropped;
            self.dropped = 0;
            self.print(&Line::Dropped(dropped));
        }
    }

    // Prints a line behind its time.
    fn print(&mut self, line: &Line<'_>) {
        match self.text_of(line) {
            Ok(text) => self.writer.put(text, &mut self.errors),
            Err(_) => self.writer.lose(),
        }
    }

    // A line behind its time, with its line feed.
    fn text_of(&self, line: &Line<'_>) -> Result<String, AllocError> {
        let time = Time(self.second);
        match line {
            Line::Slow(slow) => {
                let line = SlowLine {
                    slow: *slow,
                    name: self.name_of(slow.tenant),
                };
                format!(in self.alloc; "{time} {line}\n")
            }
            _ => format!(in self.alloc; "{time} {line}\n"),
        }
    }

    // What the tenant at a place is called, if it has a name.
    fn name_of(&self, tenant: Option<usize>) -> Option<&str> {
        Some(self.names.get(tenant?)?.as_str())
    }

    // Whether a line may be printed now, which is counted.
    fn takes_one(&mut self) -> bool {
        let second = second_of(self.rt);
        if second != self.second {
            self.second = second;
            self.printed = 0;
        }
        let takes = self.printed < MOST_LINES && self.gate.is_open();
        if takes {
            self.printed = self.printed.saturating_add(1);
        }
        takes
    }
}

impl<'a, R: Clock, P: Print + Drop> Journal for LoopLines<'a, R, P> {
    fn ended(&mut self, ending: &Ending) {
        if ending.how != End::Done {
            self.write_line(Line::Ended(*ending));
        }
    }

    fn counted(&mut self, totals: &Totals) {
        if self.has_counts {
            self.write_line(Line::Counts(totals));
        }
    }

    fn slow(&mut self, slow: &Slow) {
        if self.has_counts {
            self.write_line(Line::Slow(*slow));
        }
    }

    fn tell_held(&mut self, limit: Held, totals: &Totals) {
        self.write_line(Line::Held(limit, totals.connected));
    }

    fn ticked(&mut self) {
        self.tell_dropped();
    }

    fn dropped(&self) -> u64 {
        self.all_dropped
    }

    fn lost(&self) -> u64 {
        self.writer.lost()
    }
}

/// Standard error, as what takes bytes.
#[derive(Drop)]
struct Errors<P: Print + Drop>(P);

impl<P: Print + Drop> Outlet for Errors<P> {
    fn take(&mut self, bytes: &[u8]) -> usize {
        match self.0.write_some(bytes) {
            Ok(count) => count,
            Err(_) => 0,
        }
    }
}

// The second since 1970 that it is, and 0 where the clock does not tell.
fn second_of<R: Clock>(rt: &R) -> u64 {
    let Ok(now) = SystemTime::now(rt) else {
        return 0;
    };
    match now.duration_since(UNIX_EPOCH) {
        Ok(since) => since.as_secs(),
        Err(_) => 0,
    }
}

/// The time so many seconds after the beginning of 1970, as RFC 3339 has it.
#[derive(Clone, Copy)]
struct Time(u64);

impl fmt::Display for Time {
    fn fmt<W: fmt::Write>(&self, f: &mut fmt::Formatter<W>) -> fmt::Result {
        let second = i64::try_from(self.0).unwrap_or(0);
        match Timestamp::from_second(second) {
            Ok(time) => write!(f, "{time}"),
            Err(_) => write!(f, "-"),
        }
    }
}

/// A line, without its time and its line feed.
#[derive(Clone, Copy)]
enum Line<'a> {
    /// A connection ended.
    Ended(Ending),
    /// A limit holds somebody back, with so many connections open.
    Held(Held, usize),
    /// What was done so far.
    Counts(&'a Totals),
    /// A query took long.
    Slow(Slow),
    /// So many lines were dropped.
    Dropped(u64),
}

impl<'a> fmt::Display for Line<'a> {
    fn fmt<W: fmt::Write>(&self, f: &mut fmt::Formatter<W>) -> fmt::Result {
        match self {
            Line::Ended(ending) => {
                let name = name_of(ending.how);
                write!(
                    f,
                    "connection {} from {}: {name}",
                    ending.number, ending.peer
                )
            }
            Line::Held(limit, count) => {
                let what = text_of(*limit);
                write!(f, "{what}, open {count}")
            }
            Line::Counts(totals) => write!(f, "{}", CountLine(totals)),
            Line::Slow(slow) => {
                let line = SlowLine {
                    slow: *slow,
                    name: None,
                };
                write!(f, "{line}")
            }
            Line::Dropped(count) => write!(f, "{count} lines dropped"),
        }
    }
}

/// The line of a slow query, without its line feed. It has nothing that was sent.
#[derive(Clone, Copy)]
struct SlowLine<'a> {
    slow: Slow,
    name: Option<&'a str>,
}

impl<'a> fmt::Display for SlowLine<'a> {
    fn fmt<W: fmt::Write>(&self, f: &mut fmt::Formatter<W>) -> fmt::Result {
        write!(f, "query of ")?;
        match (self.name, self.slow.tenant) {
            (Some(name), _) => write!(f, "tenant {name}")?,
            (None, Some(place)) => write!(f, "tenant {place}")?,
            (None, None) => write!(f, "no tenant")?,
        }
        let millis = self.slow.micros / 1_000;
        write!(f, ": {millis} ms, ")?;
        match self.slow.units {
            Some(units) => write!(f, "{units} units"),
            None => write!(f, "refused"),
        }
    }
}

fn text_of(limit: Held) -> &'static str {
    match limit {
        Held::Connections => "connections wait to be accepted: as many are open as may be",
        Held::Descriptors =>
            "connections wait to be accepted: the system has no descriptor or memory left",
        Held::Memory => "connections wait for memory",
    }
}

fn name_of(end: End) -> &'static str {
    match end {
        End::Done => "Done",
        End::ReadFault => "ReadFault",
        End::WriteFault => "WriteFault",
        End::FrameFault => "FrameFault",
        End::Memory => "NoMemory",
        End::Idle => "IdleLimit",
        End::Stalled => "StallLimit",
        End::Slow => "FrameTimeLimit",
        End::Displaced => "SpareLimit",
        End::Drained => "Drained",
    }
}

// The name of a status, as the protocol has it. Frames that it does not read get FrameFault.
fn status_name(status: usize) -> &'static str {
    match status_at(status) {
        Some(status) => status.name,
        None => "FrameFault",
    }
}

/// The line with counts, without its line feed: refusals stand behind the others, those with a count of 0 left out.
#[derive(Clone, Copy)]
struct CountLine<'a>(&'a Totals);

impl<'a> fmt::Display for CountLine<'a> {
    fn fmt<W: fmt::Write>(&self, f: &mut fmt::Formatter<W>) -> fmt::Result {
        let totals = self.0;
        write!(
            f,
            "connections {}, open {}",
            totals.connections, totals.connected
        )?;
        write!(f, ", requests {}", totals.counts.requests)?;
        write!(f, ", read {}, written {}", totals.read, totals.written)?;
        'statuses: for (status, count) in totals.counts.statuses.iter().enumerate() {
            if status > 0 && *count > 0 {
                let name = status_name(status);
                write!(f, ", {name} {count}")?;
            }
        }
        Ok(())
    }
}

#[cfg(test)]
mod tests {
    use super::*;
    use connection_turns::Counts;
    use protocol::STATUSES;
    use std::net::{Ipv4Addr, SocketAddr, SocketAddrV4};
    use std::test::Fail;

    #[test]
    fn lines(rt: HostRuntime) -> Result<(), Fail> {
        let mut statuses = [0; STATUSES.len() + 1];
        statuses[0] = 5;
        statuses[15] = 2;
        statuses[22] = 1;
        statuses[STATUSES.len()] = 1;
        let totals = Totals {
            connections: 4,
            connected: 3,
            counts: Counts {
                requests: 9,
                statuses,
            },
            read: 1_000,
            written: 2_000,
        };
        let printed = format!(in rt.alloc(); "{}", CountLine(&totals))?;
        let wanted =
            "connections 4, open 3, requests 9, read 1000, written 2000, NotFound 2, Costly 1, FrameFault 1";
        assert_eq!(rt; printed.as_str(), wanted);
        Ok(())
    }

    #[test]
    fn ends(rt: HostRuntime) -> Result<(), Fail> {
        let ending = Ending {
            number: 7,
            peer: SocketAddr::V4(SocketAddrV4::new(Ipv4Addr::LOCALHOST, 40_001)),
            how: End::FrameFault,
        };
        let printed = format!(in rt.alloc(); "{} {}", Time(1_764_155_575), Line::Ended(ending))?;
        let wanted = "2025-11-26T11:12:55Z connection 7 from 127.0.0.1:40001: FrameFault";
        assert_eq!(rt; printed.as_str(), wanted);
        Ok(())
    }

    #[test]
    fn slow_lines(rt: HostRuntime) -> Result<(), Fail> {
        for (name, units, line) in [
            (
                Some("acme"),
                Some(5_107_334),
                "query of tenant acme: 412 ms, 5107334 units",
            ),
            (None, None, "query of tenant 3: 412 ms, refused"),
        ] {
            let slow = Slow {
                tenant: Some(3),
                units,
                micros: 412_900,
            };
            let printed = format!(in rt.alloc(); "{}", SlowLine { slow, name })?;
            assert_eq!(rt; printed.as_str(), line);
        }
        Ok(())
    }

    #[test]
    fn names(rt: HostRuntime) -> Result<(), Fail> {
        for (how, name) in [
            (End::ReadFault, "ReadFault"),
            (End::WriteFault, "WriteFault"),
            (End::FrameFault, "FrameFault"),
            (End::Memory, "NoMemory"),
            (End::Idle, "IdleLimit"),
            (End::Stalled, "StallLimit"),
            (End::Slow, "FrameTimeLimit"),
            (End::Displaced, "SpareLimit"),
            (End::Drained, "Drained"),
        ] {
            assert_eq!(rt; name_of(how), name);
        }
        Ok(())
    }
}
