// A rack in memory whose calls fail by their numbers.
ghost use Rattle.std.specs.Prelude.{◌≡◌, IfOk, IfSome, IfNone, OnOk, OnErr, IsErr, IsTrue, Contains, Ok, Some, None, [], replicate, slice_set, refl, true, false};
ghost use Rattle.base_outside.specs.Causes.{HasCause, one_more};
ghost use Rattle.daos_regions.specs.MemRackState.{region_at_home, kept_region, opened_image, is_out_of_home, HoldsBack, KeepsOthers, TakesBack};
ghost use Rattle.base_outside.specs.Images.{NoMore};
ghost use Rattle.daos_regions.specs.Periods.{MayLeave};
ghost use Rattle.daos_regions.specs.PeriodLaws.{after_end};
ghost use Rattle.daos_regions.specs.declared.keep.Keep.TheVariants.{All};

use crate::keep::Keep;
use crate::mem_region::MemRegion;
use base_outside::count_clock::CountClock;
use base_outside::failing_calls::FailingCalls;
use base_outside::rack::Rack;
use base_outside::region::Region;
use base_outside::{Failed, Memory, TargetId};
use std::alloc::Global;
use std::marker::Model;

/// A rack in memory with a region for each target below its number of targets. It opens a region anew
/// before it hands it out. The calls of `region` whose numbers stand in its list fail, counted from 1.
#[derive(Drop)]
pub struct MemRack {
    regions: Vec<Option<MemRegion>>,
    plan: FailingCalls,
}

impl Model for MemRack {
    ghost use Rattle.daos_regions.specs.MemRackState.{MemRackState};

    ghost Value = { MemRackState };

    ghost view = { λ r. record { regions = r.regions.items; calls = r.plan } };
}

impl MemRack {
    /// A rack of `targets` regions of `size` bytes, all 0 and at home. Their calls don't fail, and they
    /// keep all unflushed writes.
    pub fn new(alloc: Global, targets: u8, size: u64, fails: &[u32]) -> Result<MemRack, Memory>
        ensures { IfOk result (λ r. r ≡ record {
          regions = replicate targets (Some (record {
            disk = record { size = size; past = []; unflushed = [] };
            keep = All;
            broken = false;
            calls = record { fails = []; calls = 0; faults = 0 };
          }));
          calls = record { fails = fails.now; calls = 0; faults = 0 };
        }) }
    {
        let mut regions = Vec::new(alloc);
        for _target in 0..targets {
            regions.push(Some(MemRegion::new(alloc, size, &[], Keep::All)?))?;
        }
        Ok(MemRack {
            regions,
            plan: FailingCalls::new(alloc, fails)?,
        })
    }
}

// Takes a region out of those at home.
fn take_out(regions: &mut Vec<Option<MemRegion>>, t: usize) -> Option<MemRegion>
    ensures found { result ≡ region_at_home regions.old.items t }
    ensures taken { IfSome result (λ _. regions.new.items ≡ slice_set regions.old.items t None) }
    ensures kept { IfNone result (regions.new.items ≡ regions.old.items) }
{
    if t < regions.len() {
        return regions[t].take();
    }
    None
}

// Puts a region in among those at home.
fn put_in(regions: &mut Vec<Option<MemRegion>>, t: usize, region: MemRegion)
    ensures { regions.new.items ≡ slice_set regions.old.items t (Some region) }
{
    if t < regions.len() {
        regions[t] = Some(region);
    }
}

impl Rack for MemRack {
    type Region = MemRegion;

    type Clock = CountClock;

    ghost count = { λ r. r.calls.faults };

    ghost is_out = { λ r t. is_out_of_home r.regions t };

    ghost next_image = { λ r t. opened_image (kept_region r.regions t) };

    ghost next_leaves = { λ r t c. MayLeave (kept_region r.regions t).disk c };

    ghost next_faults = { λ r t. (kept_region r.regions t).calls.faults };

    ghost next_size = { λ r t. (kept_region r.regions t).disk.size };

    ghost gives = { λ _ _ clock. clock ≡ 0 };

    ghost cannot_burn = { refl };

    fn region(&mut self, t: TargetId, _size: u64) -> Result<MemRegion, Failed>
        ensures cause { HasCause self.old.calls.faults self.new.calls.faults result }
        ensures list { self.new.calls.fails ≡ self.old.calls.fails }
        ensures calls { self.new.calls.calls ≡ one_more self.old.calls.calls }
        ensures planned { Contains self.old.calls.fails self.new.calls.calls → IsErr result }
        ensures opened { IfOk result (λ r. IfSome (region_at_home self.old.regions t) (λ m. r.disk ≡ after_end m.disk m.keep)) }
        ensures away { IfNone (region_at_home self.old.regions t) (IsErr result) }
        ensures handed_out { OnOk result (self.new.regions ≡ slice_set self.old.regions t None) }
        ensures crash { IfOk result (λ r. NoMore (MayLeave (kept_region self.old.regions t).disk) (MayLeave r.disk)) }
        ensures faults { IfOk result (λ r. r.calls.faults ≡ (kept_region self.old.regions t).calls.faults) }
        ensures held_back { OnErr result (HoldsBack self.old.regions self.new.regions t) }
        ensures others { KeepsOthers self.old.regions self.new.regions t }
    {
        if self.plan.next_call_fails() {
            return Err(Failed);
        }
        match take_out(&mut self.regions, t as usize) {
            Some(region) => {
                let mut region = region;
                if region.reopen().is_ok() {
                    return Ok(region);
                }
                put_in(&mut self.regions, t as usize, region);
                self.plan.add_fault();
                Err(Failed)
            }
            None => {
                self.plan.add_fault();
                Err(Failed)
            }
        }
    }

    fn clock(&mut self, _t: TargetId) -> CountClock
        ensures clock { result ≡ 0 }
        ensures kept { self.new ≡ self.old }
    {
        CountClock::new()
    }

    fn take_back(&mut self, t: TargetId, region: MemRegion)
        ensures put { self.new ≡ record self.old { regions = slice_set self.old.regions t (Some region) } }
        ensures back { is_out_of_home self.old.regions t ≡ true → TakesBack region self.new.regions t }
    {
        put_in(&mut self.regions, t as usize, region);
    }

    fn faults(&self) -> u64 {
        self.plan.faults()
    }
}
