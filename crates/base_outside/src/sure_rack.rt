// A rack in memory whose regions never fail.
ghost use Rattle.std.specs.Prelude.{◌≡◌, IfOk, IfSome, IfNone, IsErr, Ok, Some, None, replicate, slice_set, refl};
ghost use Rattle.base_outside.specs.Causes.{HasCause, one_more};
ghost use Rattle.base_outside.specs.RackState.{region_at_home, image_at_home, size_at_home, is_out_of_home};

use crate::count_clock::CountClock;
use crate::rack::Rack;
use crate::sure_region::SureRegion;
use crate::{Failed, Memory, TargetId};
use std::alloc::Global;
use std::marker::Model;

/// A rack in memory with a region for each target below its number of targets. Regions and clocks
/// never fail. It fails only where it is asked for a region that isn't at home, or for that of a
/// target that isn't there.
#[derive(Drop)]
pub struct SureRack {
    regions: Vec<Option<SureRegion>>,
    faults: u64,
}

impl Model for SureRack {
    ghost use Rattle.base_outside.specs.RackState.{RackState};

    ghost Value = { RackState };

    ghost view = { λ r. record { regions = r.regions.items; faults = r.faults } };
}

impl SureRack {
    /// A rack of `targets` regions of `size` bytes, all 0 and at home.
    pub fn new(alloc: Global, targets: u8, size: u64) -> Result<SureRack, Memory>
        ensures { IfOk result (λ r. r ≡
            record { regions = replicate targets (Some (replicate size 0)); faults = 0 }) }
    {
        let mut regions = Vec::new(alloc);
        for _target in 0..targets {
            regions.push(Some(SureRegion::new(alloc, size)?))?;
        }
        Ok(SureRack { regions, faults: 0 })
    }
}

impl Rack for SureRack {
    type Region = SureRegion;

    type Clock = CountClock;

    ghost count = { λ r. r.faults };

    ghost is_out = { λ r t. is_out_of_home r t };

    ghost next_image = { λ r t. image_at_home r t };

    ghost next_leaves = { λ r t c. c ≡ image_at_home r t };

    ghost next_faults = { λ _ _. 0 };

    ghost next_size = { λ r t. size_at_home r t };

    ghost gives = { λ _ _ clock. clock ≡ 0 };

    ghost cannot_burn = { refl };

    fn region(&mut self, t: TargetId, _size: u64) -> Result<SureRegion, Failed>
        ensures cause { HasCause self.old.faults self.new.faults result }
        ensures sure { IfSome (region_at_home self.old t) (λ r. result ≡ Ok r) }
        ensures handed_out { IfSome (region_at_home self.old t) (λ _. self.new ≡
            record self.old { regions = slice_set self.old.regions t None }) }
        ensures found { IfOk result (λ r. region_at_home self.old t ≡ Some r) }
        ensures bad_use { IfNone (region_at_home self.old t) (IsErr result) }
        ensures refused { IfNone (region_at_home self.old t) (self.new ≡
            record self.old { faults = one_more self.old.faults }) }
    {
        let at = t as usize;
        if at < self.regions.len() {
            if let Some(region) = self.regions[at].take() {
                return Ok(region);
            }
        }
        self.faults = self.faults.saturating_add(1);
        Err(Failed)
    }

    fn clock(&mut self, _t: TargetId) -> CountClock
        ensures clock { result ≡ 0 }
        ensures kept { self.new ≡ self.old }
    {
        CountClock::new()
    }

    /// A region of a target that isn't there is let go, and one that is at home is replaced: both
    /// are bad use, and no run does either.
    fn take_back(&mut self, t: TargetId, region: SureRegion)
        ensures { self.new ≡
            record self.old { regions = slice_set self.old.regions t (Some region) } }
    {
        let at = t as usize;
        if at < self.regions.len() {
            self.regions[at] = Some(region);
        }
    }

    fn faults(&self) -> u64 {
        self.faults
    }
}
