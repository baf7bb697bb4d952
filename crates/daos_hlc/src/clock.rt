// A target's clock: its ticks rise with each epoch issued, and are never behind what was heard.
ghost use Rattle.std.specs.Prelude.{◌≡◌, ◌<◌, ◌/◌, ◌%◌, IfOk, OnErr, Some, None};
ghost use Rattle.base_types.specs.Epochs.{epoch_at, heard_ticks};
ghost use Rattle.daos_hlc.specs.Clock.{next_ticks};

use base_types::epoch::{Epoch, TargetId};
use std::marker::Model;
use thiserror::Error;

/// The last ticks, 2^56 - 1.
pub const LAST_TICKS: u64 = 72_057_594_037_927_935;

/// What a greater reading counts as, 2^55.
pub const READING_MAX: u64 = 36_028_797_018_963_968;

/// The ticks would pass 2^56 - 1.
#[derive(Clone, Copy, Debug, Error)]
#[error("no ticks are left")]
pub struct Spent;

/// The clock of a target: the ticks of the greatest epoch that it issued or heard of.
#[derive(Drop)]
pub struct Hlc {
    target: TargetId,
    ticks: u64,
}

impl Model for Hlc {
    ghost use Rattle.daos_hlc.specs.Clock.{Clock};

    ghost Value = { Clock };

    ghost view = { λ a. record { target = a.target; ticks = a.ticks } };
}

impl Hlc {
    /// The clock of a target that has just opened: its ticks begin at the lease.
    pub fn new(target: TargetId, lease: u64) -> Hlc
        ensures { result ≡ record { target = target; ticks = lease } }
    {
        Hlc {
            target,
            ticks: lease,
        }
    }

    /// The ticks that `issue` would set at this reading, after this tracker. Spent where they would
    /// pass 2^56 - 1.
    pub fn next(&self, reading: u64, tracker: Epoch) -> Result<u64, Spent>
        ensures next { IfOk result (λ ticks. next_ticks self.now reading tracker.0 ≡ Some ticks) }
        ensures spent { OnErr result (next_ticks self.now reading tracker.0 ≡ None) }
    {
        if self.ticks >= LAST_TICKS {
            return Err(Spent);
        }
        let ticks = (self.ticks + 1)
            .max(reading.min(READING_MAX))
            .max(tracker.ticks() + 1);
        if ticks > LAST_TICKS {
            return Err(Spent);
        }
        Ok(ticks)
    }

    /// Issues an epoch: its ticks are above those so far and above the tracker's, and at least the
    /// reading, which counts up to 2^55. Spent where they would pass 2^56 - 1.
    pub fn issue(&mut self, reading: u64, tracker: Epoch) -> Result<Epoch, Spent>
        ensures ticks { IfOk result (λ _. next_ticks self.old reading tracker.0 ≡ Some self.new.ticks) }
        ensures epoch { IfOk result (λ e. e.0 ≡ epoch_at self.new.ticks self.old.target) }
        ensures rises { IfOk result (λ _. self.old.ticks < self.new.ticks) }
        ensures above { IfOk result (λ e. tracker.0 < e.0) }
        ensures parts { IfOk result (λ e. (e.0 / 256 ≡ self.new.ticks) × (e.0 % 256 ≡ self.old.target)) }
        ensures spent { OnErr result (next_ticks self.old reading tracker.0 ≡ None) }
        ensures same_target { self.new.target ≡ self.old.target }
        ensures unchanged { OnErr result (self.new ≡ self.old) }
    {
        let ticks = self.next(reading, tracker)?;
        self.ticks = ticks;
        Ok(Epoch(ticks * 256 + u64::from(self.target)))
    }

    /// Hears of an epoch: the ticks are at least its own from now on.
    pub fn hear(&mut self, epoch: Epoch)
        ensures { self.new ≡ record self.old { ticks = heard_ticks self.old.ticks epoch.0 } }
    {
        self.ticks = self.ticks.max(epoch.ticks());
    }

    /// The ticks of the greatest epoch issued or heard of, or else those that it began with.
    pub fn ticks(&self) -> u64
        ensures { result ≡ self.now.ticks }
    {
        self.ticks
    }
}
