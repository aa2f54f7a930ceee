// Meters: budgets of the work that reduction and inference do.

ghost use Rattle.std.specs.Prelude.{◌≡◌, ◌≤◌, nat_le};
ghost use Rattle.pts_rules.specs.Meter.{left, charged};

use std::marker::Model;

/// A budget in units. It never stands above its limit.
#[derive(Debug, Drop)]
pub struct Meter {
    limit: u64,
    spent: u64,
}

impl Model for Meter {
    ghost use Rattle.std.specs.Prelude.{◌≤◌};
    ghost use Rattle.pts_rules.specs.Meter.{Units};

    ghost Value = { Units };

    ghost view = { λ m. record { limit = m.limit; spent = m.spent } };

    ghost invariant = { λ m. m.spent ≤ m.limit };
}

impl Meter {
    /// A meter that has spent nothing.
    pub fn new(limit: u64) -> Meter
        ensures { result ≡ record { limit = limit; spent = 0 } }
    {
        Meter { limit, spent: 0 }
    }

    /// How many units may be spent.
    pub fn limit(&self) -> u64
        ensures { result ≡ self.now.limit }
    {
        self.limit
    }

    /// How many units were spent, at most the limit.
    pub fn spent(&self) -> u64
        ensures spent { result ≡ self.now.spent }
        ensures within { result ≤ self.now.limit }
    {
        self.spent
    }

    /// Spends the units, if so many are left. Else the meter stands at its limit.
    pub fn pay(&mut self, units: u64) -> bool
        ensures paid { result ≡ nat_le units (left self.old) }
        ensures meter { self.new ≡ charged self.old units }
    {
        if units <= self.limit - self.spent {
            self.spent += units;
            true
        } else {
            self.spent = self.limit;
            false
        }
    }
}
