// A rack whose clock gives readings that are planned.
ghost use Rattle.std.specs.Prelude.{◌≡◌, None, refl};
ghost use Rattle.base_outside.specs.RackState.{image_at_home, size_at_home, is_out_of_home};

use base_outside::clock::Clock;
use base_outside::rack::Rack;
use base_outside::sure_rack::SureRack;
use base_outside::sure_region::SureRegion;
use base_outside::{Failed, TargetId};

/// A clock that gives three readings, and then 0.
#[derive(Clone, Copy)]
pub struct PlannedClock {
    pub readings: [u64; 3],
    pub given: usize,
}

impl Clock for PlannedClock {
    ghost next = { λ _. None };

    ghost is_read = { λ _ _. Unit {0} };

    fn now(&mut self) -> u64 {
        if self.given >= self.readings.len() {
            return 0;
        }
        let reading = self.readings[self.given];
        self.given += 1;
        reading
    }
}

/// A rack whose targets each have such a clock.
#[derive(Drop)]
pub struct PlannedRack {
    pub inner: SureRack,
    pub readings: [u64; 3],
}

impl Rack for PlannedRack {
    type Region = SureRegion;

    type Clock = PlannedClock;

    ghost count = { λ r. r.inner.faults };

    ghost is_out = { λ r t. is_out_of_home r.inner t };

    ghost next_image = { λ r t. image_at_home r.inner t };

    ghost next_leaves = { λ r t c. c ≡ image_at_home r.inner t };

    ghost next_faults = { λ _ _. 0 };

    ghost next_size = { λ r t. size_at_home r.inner t };

    ghost gives = { λ _ _ _. Unit {0} };

    ghost cannot_burn = { refl };

    fn region(&mut self, t: TargetId, size: u64) -> Result<SureRegion, Failed> {
        self.inner.region(t, size)
    }

    fn clock(&mut self, _t: TargetId) -> PlannedClock {
        PlannedClock {
            readings: self.readings,
            given: 0,
        }
    }

    fn take_back(&mut self, t: TargetId, region: SureRegion) {
        self.inner.take_back(t, region);
    }

    fn faults(&self) -> u64 {
        self.inner.faults()
    }
}
