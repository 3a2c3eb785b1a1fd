//! What came of a trial.

/// How many cases a trial has had, and which was the first to fail.
#[derive(Clone, Copy, Drop)]
pub struct Trial {
    cases: u32,
    // Counted from 1, and 0 where none did.
    first_failed: u32,
}

impl Trial {
    /// Without a case.
    pub fn new() -> Trial {
        Trial {
            cases: 0,
            first_failed: 0,
        }
    }

    /// Of these cases.
    pub fn of(cases: &[bool]) -> Trial {
        let mut trial = Trial::new();
        for holds in cases {
            trial.case(*holds);
        }
        trial
    }

    /// Of one case, which failed: what is to be tried can't be made.
    pub fn unprepared() -> Trial {
        Trial {
            cases: 1,
            first_failed: 1,
        }
    }

    /// One more case.
    pub fn case(&mut self, holds: bool) {
        self.cases = self.cases.saturating_add(1);
        if !holds && self.first_failed == 0 {
            self.first_failed = self.cases;
        }
    }

    /// How many cases it had.
    pub fn cases(&self) -> u32 {
        self.cases
    }

    /// The first case that failed, counted from 1, or 0 where all hold.
    pub fn first_failed(&self) -> u32 {
        self.first_failed
    }
}
