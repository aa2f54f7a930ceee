ghost use Rattle.std.specs.Prelude.{◌≡◌, ◌+◌, ◌↔◌, IsTrue, true, false};
ghost use Rattle.pts_io.specs.Calls.{FailsNext, faulted, counted};

use std::marker::Model;

/// The calls that an object in memory has answered, and those at which it fails.
#[derive(Debug, Drop)]
pub(crate) struct Schedule {
    made: u64,
    faults: u64,
    fail_at: Vec<u64>,
}

impl Model for Schedule {
    ghost use Rattle.pts_io.specs.Calls.{Calls};

    ghost Value = { Calls };

    ghost view = { λ s. record { made = s.made; faults = s.faults; fail_at = s.fail_at.items } };
}

impl Schedule {
    ghost use Rattle.std.specs.Prelude.{◌≡◌};

    pub(crate) fn new(fail_at: Vec<u64>) -> Schedule
        ensures { result ≡ record { made = 0; faults = 0; fail_at = fail_at.items } }
    {
        Schedule {
            made: 0,
            faults: 0,
            fail_at,
        }
    }

    /// Counts one more call, and answers whether it is one that fails.
    pub(crate) fn fails(&mut self) -> bool
        ensures fails { IsTrue result ↔ FailsNext self.old }
        ensures counted { self.new ≡ counted self.old result }
    {
        let fails = self.count();
        if fails {
            self.fault();
        }
        fails
    }

    fn count(&mut self) -> bool
        ensures fails { IsTrue result ↔ FailsNext self.old }
        ensures counted { self.new ≡ counted self.old false }
    {
        let made = self.made;
        self.made = made.saturating_add(1);
        self.fail_at
            .iter()
            .any(|number| *number > 0 && *number - 1 == made)
    }

    /// Raises the count of faults.
    pub(crate) fn fault(&mut self)
        ensures { self.new ≡ faulted self.old true }
    {
        self.faults = self.faults.saturating_add(1);
    }
}
