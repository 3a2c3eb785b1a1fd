//! Lines that go out whole or not at all.
ghost use Rattle.std.specs.Prelude.{◌≡◌, ◌++◌, ◌≤◌, ℕ, List, [], Option, None, length, take, string_bytes};
ghost use Rattle.std.specs.Option.{option_map};
ghost use Rattle.log_lines.specs.Writing.{IsLost, Puts, rest_of, with_rest};

use std::alloc::Global;

/// What takes bytes, a part at a time.
pub trait Outlet {
    // All that it took so far, if it tells that.
    ghost taken: { Self → Option (List ℕ) } = { λ _. None };

    /// Takes the first of these bytes, and tells how many. 0 if it takes none.
    fn take(&mut self, bytes: &[u8]) -> usize
        ensures within { result ≤ length bytes.now }
        ensures bytes { taken self.new ≡ option_map (λ t. t ++ take result bytes.now) (taken self.old) };
}

/// Puts lines into an outlet. A line of which a part was taken goes on before the next one begins.
#[derive(Drop)]
pub struct LineWriter {
    // The line that was begun last, and how many of its bytes were taken.
    line: String,
    written: usize,
    // The lines of which nothing was taken.
    lost: u64,
}

impl LineWriter {
    /// None was begun.
    pub fn new(alloc: Global) -> LineWriter
        ensures none { string_bytes result.line ≡ [] }
        ensures none_lost { result.lost ≡ 0 }
    {
        LineWriter {
            line: String::new(alloc),
            written: 0,
            lost: 0,
        }
    }

    /// How many lines were lost.
    pub fn lost(&self) -> u64
        ensures { result ≡ self.now.lost }
    {
        self.lost
    }

    /// Puts a line behind those that were begun. It is lost if the outlet does not take the rest of the last one, or nothing of this one.
    pub fn put<O: Outlet>(&mut self, line: String, outlet: &mut O)
        ensures { Puts (string_bytes line) (O.taken outlet.old) (O.taken outlet.new) self.old self.new }
    {
        self.go_on(outlet);
        if self.written < self.line.len() {
            return self.lose();
        }
        self.begin(line, outlet);
    }

    /// Counts a line that could not be made.
    pub fn lose(&mut self)
        ensures { (taken : Option (List ℕ)) → IsLost taken taken self.old self.new }
    {
        self.lost = self.lost.saturating_add(1);
    }

    // Puts the rest of the last line, as far as it is taken.
    fn go_on<O: Outlet>(&mut self, outlet: &mut O)
        ensures bytes { with_rest (O.taken outlet.new) self.new ≡ with_rest (O.taken outlet.old) self.old }
        ensures lost { self.new.lost ≡ self.old.lost }
    {
        let count = outlet.take(self.rest());
        self.written += count;
    }

    // What was not taken of the last line.
    fn rest(&self) -> &[u8]
        ensures { result.now ≡ rest_of self.now }
    {
        self.line.as_bytes().get(self.written..).unwrap_or_default()
    }

    // Begins a line behind one that is whole.
    fn begin<O: Outlet>(&mut self, line: String, outlet: &mut O)
        requires { rest_of self.old ≡ [] }
        ensures { Puts (string_bytes line) (O.taken outlet.old) (O.taken outlet.new) self.old self.new }
    {
        let count = outlet.take(line.as_bytes());
        if count == 0 {
            return self.lose();
        }
        self.line = line;
        self.written = count;
    }
}

#[cfg(test)]
mod tests {
    use super::*;
    use std::test::Fail;

    /// What takes so many bytes at a time, in turn, and then nothing.
    #[derive(Drop)]
    struct Scripted {
        counts: Vec<usize>,
        at: usize,
        bytes: Vec<u8>,
    }

    impl Outlet for Scripted {
        fn take(&mut self, bytes: &[u8]) -> usize {
            let most = self.counts.get(self.at).copied().unwrap_or(0);
            self.at = self.at.saturating_add(1);
            let part = bytes.get(..most).unwrap_or(bytes);
            match self.bytes.extend_from_slice(part) {
                Ok(()) => part.len(),
                Err(_) => 0,
            }
        }
    }

    #[test]
    fn lines_are_whole(rt: HostRuntime) -> Result<(), Fail> {
        let alloc = rt.alloc();
        let mut outlet = Scripted {
            counts: vec![in alloc; 0, 99, 0, 2, 0, 1, 0, 99, 99]?,
            at: 0,
            bytes: Vec::new(alloc),
        };
        let mut writer = LineWriter::new(alloc);
        for line in [
            "first\n",
            "second\n",
            "third\n",
            "fourth\n",
            "fifth\n",
            "sixth\n",
            "seventh\n",
        ] {
            writer.put(String::from_str(alloc, line)?, &mut outlet);
        }
        assert_eq!(rt;
            outlet.bytes.as_slice(),
            b"first\nsecond\nsixth\n".as_slice()
        );
        assert_eq!(rt; writer.lost(), 4);
        Ok(())
    }
}
