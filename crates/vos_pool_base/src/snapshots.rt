// Snapshots of an open pool.
ghost use Rattle.std.specs.Prelude.{◌≡◌, [], false, true, OnOk, unwrap_or};
ghost use Rattle.std.specs.Option.{ForSome};
ghost use Rattle.daos_model.specs.declared.durable.Durable.{Durable};
ghost use Rattle.daos_model.specs.Changes.{created, frozen, thawed};
ghost use Rattle.pmem_pages.specs.Blocks.{Stops};
ghost use Rattle.vos_pool_base.specs.Pool.{ChangesTo, IfRunning, StopsBy, kept_of, may_of};
ghost use Rattle.vos_pool_base.specs.Tidy.{IfTidy, LeavesBut};
ghost use Rattle.vos_store.specs.Answers.{freezes};
ghost use Rattle.vos_store.specs.Calls.{Answers, Makes};
ghost use Rattle.vos_store.specs.Conditions.{CanFreeze};
ghost use Rattle.vos_store.specs.Refusals.{always_stop, freeze_stop, says};
ghost use Rattle.vos_tables.specs.Changes.{AllFit, all_changed};

use crate::opened::Opened;
use base_outside::region::Region;
use base_types::epoch::Epoch;
use base_types::id::ContId;
use vos_store::refusal::{FreezeNo, Stopped};
use vos_tables::change::Change;

impl<R: Region> Opened<R> {
    // Writes two changes that are planned, or none.
    fn write_planned(&mut self, plan: Option<[Change; 2]>) -> Result<(), Stopped>
        requires { AllFit self.old.table (unwrap_or plan []) }
        ensures size { R.extent self.new.blocks.undo.region ≡ R.extent self.old.blocks.undo.region }
        ensures free { self.new.blocks.map ≡ self.old.blocks.map }
        ensures left { LeavesBut R.tells R.extent R.may_leave 0 self.old self.new }
        ensures tidy { OnOk result (IfTidy R.tells R.extent R.image self.old → IfTidy R.tells R.extent R.image self.new) }
        ensures stops { Stops self.old.blocks.undo.stopped self.new.blocks.undo.stopped (R.count self.old.blocks.undo.region) (R.count self.new.blocks.undo.region)
            (R.burns self.old.blocks.undo.region) (R.burns self.new.blocks.undo.region) result }
        ensures makes { (change : Durable → Durable)
            → IfRunning self.old (ChangesTo change (kept_of R.tells R.extent R.image self.old) self.old.table (all_changed (unwrap_or plan []) self.old.table))
            → Makes self.old.blocks.undo.stopped always_stop change result (kept_of R.tells R.extent R.image self.old) (kept_of R.tells R.extent R.image self.new)
            (may_of R.tells R.extent R.may_leave self.old) (may_of R.tells R.extent R.may_leave self.new) }
    {
        match plan {
            None => self.write(&[]),
            Some(changes) => self.write(&changes),
        }
    }

    /// Freezes a snapshot of a container, and raises the floor to it. A second freeze of the same epoch
    /// changes nothing.
    ///
    /// # Errors
    ///
    /// `Below` exactly where the epoch is at or below the aggregated-to epoch, which it shows with the number
    /// of its aggregation. `NoPlace` exactly where that doesn't hold and 256 other places are used. `Stopped`
    /// comes before these, and only where a count of the region rose in this call, or it had stopped before.
    pub fn freeze(&mut self, cont: ContId, s: Epoch) -> Result<(), FreezeNo>
        requires { IfRunning self.old (ForSome (kept_of R.tells R.extent R.image self.old) (CanFreeze cont s)) }
        ensures size { R.extent self.new.blocks.undo.region ≡ R.extent self.old.blocks.undo.region }
        ensures free { self.new.blocks.map ≡ self.old.blocks.map }
        ensures answer { Answers freeze_stop result (freezes cont s) (kept_of R.tells R.extent R.image self.old) }
        ensures left { LeavesBut R.tells R.extent R.may_leave 0 self.old self.new }
        ensures tidy { OnOk result (IfTidy R.tells R.extent R.image self.old → IfTidy R.tells R.extent R.image self.new) }
        ensures stops { StopsBy (says freeze_stop result) self.old.blocks.undo.stopped self.new.blocks.undo.stopped (R.count self.old.blocks.undo.region) (R.count self.new.blocks.undo.region)
            (R.burns self.old.blocks.undo.region) (R.burns self.new.blocks.undo.region) }
        ensures kept { Makes self.old.blocks.undo.stopped freeze_stop (frozen cont s) result (kept_of R.tells R.extent R.image self.old) (kept_of R.tells R.extent R.image self.new)
            (may_of R.tells R.extent R.may_leave self.old) (may_of R.tells R.extent R.may_leave self.new) }
    {
        if self.blocks.is_stopped() {
            return Err(FreezeNo::Stopped);
        }
        let _size = self.blocks.size();
        let plan = self.tables.plan_freeze(cont, s)?;
        match self.write_planned(plan) {
            Ok(()) => Ok(()),
            Err(Stopped) => Err(FreezeNo::Stopped),
        }
    }

    /// Notes that a frozen snapshot is created. One that isn't there stays so.
    ///
    /// # Errors
    ///
    /// `Stopped` comes only where a count of the region rose in this call, or it had stopped before.
    pub fn create(&mut self, cont: ContId, s: Epoch) -> Result<(), Stopped>
        ensures size { R.extent self.new.blocks.undo.region ≡ R.extent self.old.blocks.undo.region }
        ensures free { self.new.blocks.map ≡ self.old.blocks.map }
        ensures left { LeavesBut R.tells R.extent R.may_leave 0 self.old self.new }
        ensures tidy { OnOk result (IfTidy R.tells R.extent R.image self.old → IfTidy R.tells R.extent R.image self.new) }
        ensures stops { Stops self.old.blocks.undo.stopped self.new.blocks.undo.stopped (R.count self.old.blocks.undo.region) (R.count self.new.blocks.undo.region)
            (R.burns self.old.blocks.undo.region) (R.burns self.new.blocks.undo.region) result }
        ensures kept { Makes self.old.blocks.undo.stopped always_stop (created cont s) result (kept_of R.tells R.extent R.image self.old) (kept_of R.tells R.extent R.image self.new)
            (may_of R.tells R.extent R.may_leave self.old) (may_of R.tells R.extent R.may_leave self.new) }
    {
        match self.tables.plan_create(cont, s) {
            None => self.write(&[]),
            Some(change) => self.write(&[change]),
        }
    }

    /// Drops a snapshot. One that isn't there stays so.
    ///
    /// # Errors
    ///
    /// `Stopped` comes only where a count of the region rose in this call, or it had stopped before.
    pub fn thaw(&mut self, cont: ContId, s: Epoch) -> Result<(), Stopped>
        ensures size { R.extent self.new.blocks.undo.region ≡ R.extent self.old.blocks.undo.region }
        ensures free { self.new.blocks.map ≡ self.old.blocks.map }
        ensures left { LeavesBut R.tells R.extent R.may_leave 0 self.old self.new }
        ensures tidy { OnOk result (IfTidy R.tells R.extent R.image self.old → IfTidy R.tells R.extent R.image self.new) }
        ensures stops { Stops self.old.blocks.undo.stopped self.new.blocks.undo.stopped (R.count self.old.blocks.undo.region) (R.count self.new.blocks.undo.region)
            (R.burns self.old.blocks.undo.region) (R.burns self.new.blocks.undo.region) result }
        ensures kept { Makes self.old.blocks.undo.stopped always_stop (thawed cont s) result (kept_of R.tells R.extent R.image self.old) (kept_of R.tells R.extent R.image self.new)
            (may_of R.tells R.extent R.may_leave self.old) (may_of R.tells R.extent R.may_leave self.new) }
    {
        match self.tables.plan_thaw(cont, s) {
            None => self.write(&[]),
            Some(change) => self.write(&[change]),
        }
    }
}
