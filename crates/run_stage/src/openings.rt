// A target opens again.
ghost use Rattle.std.specs.Prelude.{◌≡◌, ◌≤◌, ◌<◌, ℕ, Bool, length, OnErr, OnOk, Some, slice_get, slice_set};
ghost use Rattle.run_laws.specs.shows.Accounts.{AreServed};
ghost use Rattle.run_laws.specs.shows.CanGo.{CanTurn};
ghost use Rattle.run_laws.specs.shows.Openings.{AfterOpening, HasFuse, IsArmed};
ghost use Rattle.run_laws.specs.shows.Steps.{TargetBroke, TargetReopened};
ghost use Rattle.run_laws.specs.shows.Turned.{AfterFailure};
ghost use Rattle.run_stage.specs.Now.{stage_now};
ghost use Rattle.run_watch.specs.Watches.{next_fuse};
ghost use Rattle.run_laws.specs.target_core.Targets.{TargetOf};
ghost use Rattle.world_base.specs.declared.target.Life.{Life};

use crate::stage::Stage;
use crate::turns::target_id;
use base_outside::clock::Clock;
use base_types::items::Memory;
use run_laws::below::parts::stop::TargetStop;
use std::alloc::AllocError;
use vos_store::store::Fuse;
use world_base::did::Did;

impl<S: Fuse, C: Clock> Stage<S, C> {
    /// The fuse of a target's next stop line is set; none where none is left.
    pub fn arm(&mut self, t: usize)
        requires few { t < 256 }
        requires there { t < length self.old.targets.items }
        ensures armed { (x : TargetOf S C) → slice_get self.old.targets.items t ≡ Some x → IsArmed S.durable S.state S.may t x (stage_now self.old) (stage_now self.new) }
        ensures served { AreServed S.durable S.state C.is_read self.old.targets.items self.new.targets.items }
    {
        let k = self.watch.take_fuse(t as u8);
        self.targets[t].fuse(k);
    }

    // A target opened again.
    fn opened(&mut self, t: usize, did: Did) -> Result<(), Memory>
        requires within { t < length self.old.watch.lives }
        requires few { length self.old.watch.lives ≤ 256 }
        requires there { t < length self.old.targets.items }
        requires tried { self.old.watch.restarts < self.old.watch.openings }
        ensures opened { (x : TargetOf S C) → slice_get self.old.targets.items t ≡ Some x → OnOk result (AfterOpening S.durable S.state S.may t x did (stage_now self.old) (stage_now self.new)) }
        ensures broke { (x : TargetOf S C) → slice_get self.old.targets.items t ≡ Some x → OnErr result ((armed : TargetOf S C) × HasFuse S.durable S.state S.may (next_fuse t self.old.watch.stops) x armed × (self.new.targets.items ≡ slice_set self.old.targets.items t armed)) }
        ensures served { AreServed S.durable S.state C.is_read self.old.targets.items self.new.targets.items }
    {
        self.arm(t);
        self.watch.open(t);
        self.follow(target_id(t), did)
    }

    // A target's opening failed.
    fn not_opened(&mut self, t: usize, before: u64, stop: TargetStop) -> Result<(), Memory>
        requires within { t < length self.old.watch.lives }
        requires few { length self.old.watch.lives ≤ 256 }
        requires there { t < length self.old.targets.items }
        ensures after { (x : TargetOf S C) → slice_get self.old.targets.items t ≡ Some x → OnOk result (AfterFailure t before (S.state x.store).faults stop (stage_now self.old) (stage_now self.new)) }
        ensures targets { self.new.targets ≡ self.old.targets }
    {
        match stop {
            TargetStop::Store { .. } => self.fault(t, before),
            TargetStop::Foreign { .. } => self.give_up(t),
            TargetStop::Memory => Err(AllocError),
        }
    }

    // A target that is stopped opens again, or fails to.
    pub(crate) fn reopen(&mut self, t: usize) -> Result<(), Memory>
        requires within { t < length self.old.targets.items }
        requires standing { length self.old.watch.lives ≡ length self.old.targets.items }
        requires few { length self.old.targets.items ≤ 256 }
        requires stopped { slice_get self.old.watch.lives t ≡ Some Life.Stopped }
        requires able { (x : TargetOf S C) → slice_get self.old.targets.items t ≡ Some x → CanTurn S.durable S.state S.may (stage_now self.old) t 0 x }
        ensures reopened { OnOk result (TargetReopened S.durable S.state S.may t (stage_now self.old) (stage_now self.new)) }
        ensures broke { (settling : Bool) → (k : ℕ) → OnErr result (TargetBroke S.durable S.state S.may C.is_read C.next settling t k (stage_now self.old) self.new.targets.items) }
        ensures served { AreServed S.durable S.state C.is_read self.old.targets.items self.new.targets.items }
    {
        self.watch.try_opening()?;
        let before = self.targets[t].faults();
        let number = self.watch.next_restart();
        match self.targets[t].restart(number) {
            Ok(did) => self.opened(t, did),
            Err(stop) => self.not_opened(t, before, stop),
        }
    }
}
