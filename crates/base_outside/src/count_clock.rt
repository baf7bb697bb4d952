// A clock that counts its readings.
ghost use Rattle.std.specs.Prelude.{◌≡◌, Some};
ghost use Rattle.base_outside.specs.Causes.{one_more};

use crate::clock::Clock;
use std::marker::Model;

/// A clock that gives 0, 1, 2 and so on, and stays at 2^64 - 1. Clauses see it as its next reading.
#[derive(Clone, Copy)]
pub struct CountClock {
    reading: u64,
}

impl Model for CountClock {
    ghost use Rattle.std.specs.Prelude.{ℕ};

    ghost Value = { ℕ };

    ghost view = { λ c. c.reading };

    ghost inverse = { λ n. record { reading = n } };
}

impl CountClock {
    /// A clock whose next reading is 0.
    pub fn new() -> CountClock
        ensures { result ≡ 0 }
    {
        CountClock { reading: 0 }
    }
}

impl Default for CountClock {
    ghost is_default = { λ c. c ≡ 0 };

    fn default() -> CountClock {
        CountClock::new()
    }
}

impl Clock for CountClock {
    ghost next = { λ c. Some c };

    ghost is_read = { λ c d. d ≡ one_more c };

    fn now(&mut self) -> u64
        ensures reading { result ≡ self.old }
        ensures next { self.new ≡ one_more self.old }
    {
        let reading = self.reading;
        self.reading = reading.saturating_add(1);
        reading
    }
}
