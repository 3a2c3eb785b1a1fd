//! The lines on standard error that tell how connections ended.

use path_hub::ConnEnd;
use socket_wire::{EndLog, Ending};
use std::fmt;

/// Prints a line for each connection that it is told of. A line that can't be printed is lost.
#[derive(Drop)]
pub struct EndLines<'a, R: Eprint> {
    rt: &'a R,
}

impl<'a, R: Eprint> EndLines<'a, R> {
    /// Lines on this standard error.
    pub fn new(rt: &'a R) -> EndLines<'a, R> {
        EndLines { rt }
    }
}

impl<'a, R: Eprint> EndLog for EndLines<'a, R> {
    fn tell_end(&mut self, ending: Ending) {
        let _ = eprintln!(self.rt; "{}", EndLine(ending));
    }
}

/// The line of a connection's end, without its line feed.
#[derive(Clone, Copy)]
struct EndLine(Ending);

impl fmt::Display for EndLine {
    fn fmt<W: fmt::Write>(&self, f: &mut fmt::Formatter<W>) -> fmt::Result {
        let number = self.0.number;
        let name = name_of(self.0.how);
        write!(f, "connection {number}: {name}")
    }
}

fn name_of(end: ConnEnd) -> &'static str {
    match end {
        ConnEnd::Done => "Done",
        ConnEnd::ReadFault => "ReadFault",
        ConnEnd::WriteFault => "WriteFault",
        ConnEnd::FrameFault => "FrameFault",
        ConnEnd::TurnLimit => "TurnLimit",
        ConnEnd::Memory => "NoMemory",
    }
}

#[cfg(test)]
mod tests {
    use super::*;
    use std::test::Fail;

    #[test]
    fn lines(rt: HostRuntime) -> Result<(), Fail> {
        for (how, line) in [
            (ConnEnd::ReadFault, "connection 7: ReadFault"),
            (ConnEnd::WriteFault, "connection 7: WriteFault"),
            (ConnEnd::FrameFault, "connection 7: FrameFault"),
            (ConnEnd::TurnLimit, "connection 7: TurnLimit"),
            (ConnEnd::Memory, "connection 7: NoMemory"),
        ] {
            let printed = format!(in rt.alloc(); "{}", EndLine(Ending { number: 7, how }))?;
            assert_eq!(rt; printed.as_str(), line);
        }
        Ok(())
    }
}
