// A target stops, or is given up.
ghost use Rattle.std.specs.Prelude.{◌≡◌, ◌≤◌, ◌<◌, length, IfErr, OnOk, Some, slice_get};
ghost use Rattle.run_laws.specs.shows.Turned.{AfterCut, AfterStop, given_up_stage, stopped_stage, swept_stage};
ghost use Rattle.run_stage.specs.Now.{stage_now};
ghost use Rattle.run_laws.specs.target_core.Targets.{TargetOf};

use crate::stage::Stage;
use base_outside::clock::Clock;
use base_types::epoch::Epoch;
use base_types::id::AttemptId;
use base_types::items::Memory;
use base_types::report::Lines;
use run_laws::below::parts::stop::TargetStop;
use std::alloc::AllocError;
use vos_store::store::Store;
use world_base::target::Life;

impl<S: Store, C: Clock> Stage<S, C> {
    // A target is given up. Where memory is wanting, all that lies between actors is as before.
    pub(crate) fn give_up(&mut self, t: usize) -> Result<(), Memory>
        requires within { t < length self.old.watch.lives }
        requires few { length self.old.watch.lives ≤ 256 }
        ensures given_up { OnOk result (stage_now self.new ≡ swept_stage (given_up_stage t (stage_now self.old))) }
        ensures targets { self.new.targets ≡ self.old.targets }
        ensures kept { IfErr result (λ no. self.new.between ≡ self.old.between) }
    {
        self.watch.set(t, Life::Down);
        self.between
            .give_up_swept(self.alloc, self.watch.lives(), t as u8)
    }

    // A target's store stopped in a turn, before which the outside had failed it so often: where it did again, for the ninth time, the
    // target is given up.
    pub(crate) fn fault(&mut self, t: usize, before: u64) -> Result<(), Memory>
        requires within { t < length self.old.watch.lives }
        requires few { length self.old.watch.lives ≤ 256 }
        requires there { t < length self.old.targets.items }
        ensures after { (x : TargetOf S C) → slice_get self.old.targets.items t ≡ Some x → OnOk result (AfterStop t before (S.state x.store).faults (stage_now self.old) (stage_now self.new)) }
        ensures targets { self.new.targets ≡ self.old.targets }
    {
        if self.targets[t].faults() <= before {
            return Ok(());
        }
        if self.watch.fail(t) {
            return self.give_up(t);
        }
        Ok(())
    }

    // A target's turn was cut: it stops. Where memory is wanting, all that lies between actors is as before.
    fn stop(
        &mut self,
        t: usize,
        issued: Option<(AttemptId, Epoch)>,
        lines: Lines,
    ) -> Result<(), Memory>
        requires within { t < length self.old.watch.lives }
        requires few { length self.old.watch.lives ≤ 256 }
        ensures stopped { OnOk result (stage_now self.new ≡ swept_stage (stopped_stage t issued lines (stage_now self.old))) }
        ensures targets { self.new.targets ≡ self.old.targets }
        ensures kept { IfErr result (λ no. self.new.between ≡ self.old.between) }
    {
        self.watch.set(t, Life::Stopped);
        self.between
            .cut_swept(self.alloc, self.watch.lives(), t as u8, issued, lines)
    }

    // A target's turn isn't whole.
    pub(crate) fn cut(&mut self, t: usize, before: u64, stop: TargetStop) -> Result<(), Memory>
        requires within { t < length self.old.watch.lives }
        requires few { length self.old.watch.lives ≤ 256 }
        requires there { t < length self.old.targets.items }
        ensures after { (x : TargetOf S C) → slice_get self.old.targets.items t ≡ Some x → OnOk result (AfterCut t before (S.state x.store).faults stop (stage_now self.old) (stage_now self.new)) }
        ensures targets { self.new.targets ≡ self.old.targets }
    {
        match stop {
            TargetStop::Store { issued, lines } => {
                self.stop(t, issued, lines)?;
                self.fault(t, before)
            }
            TargetStop::Foreign { .. } | TargetStop::Memory => Err(AllocError),
        }
    }
}
