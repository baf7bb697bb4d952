// The counters of an open pool are written.
ghost use Rattle.std.specs.Prelude.{◌≡◌, ◌≤◌, ◌<◌, ◌^◌, OnOk, OnErr};
ghost use Rattle.std.specs.Option.{ForSome};
ghost use Rattle.daos_model.specs.declared.durable.Durable.{Durable};
ghost use Rattle.daos_model.specs.Changes.{leased};
ghost use Rattle.pmem_pages.specs.Blocks.{Stops};
ghost use Rattle.vos_standing.specs.vos_places.Laws.{counted};
ghost use Rattle.vos_pool_base.specs.Pool.{ChangesTo, HasRoots, IfRunning, kept_of, may_of};
ghost use Rattle.vos_pool_base.specs.Tidy.{IfTidy, LeavesBut};
ghost use Rattle.vos_store.specs.Calls.{Makes};
ghost use Rattle.vos_store.specs.Refusals.{always_stop};
ghost use Rattle.vos_tables.specs.Tables.{AreNext};

use crate::committing::commit;
use crate::opened::Opened;
use base_outside::region::Region;
use vos_standing::below::places::codec::{Counters, counter_bytes};
use vos_store::refusal::Stopped;

impl<R: Region> Opened<R> {
    /// Writes counters with the same roots, by one commit. A change of what is kept that they make is made
    /// or not.
    ///
    /// # Errors
    ///
    /// `Stopped` comes only where a count of the region rose in this call, or it had stopped before.
    pub fn count(&mut self, counters: Counters) -> Result<(), Stopped>
        requires next { AreNext self.old.table counters }
        requires roots { HasRoots self.old.table counters }
        ensures table { OnOk result (self.new.table ≡ counted counters self.old.table) }
        ensures kept { OnErr result (self.new.table ≡ self.old.table) }
        ensures size { R.extent self.new.blocks.undo.region ≡ R.extent self.old.blocks.undo.region }
        ensures free { self.new.blocks.map ≡ self.old.blocks.map }
        ensures left { LeavesBut R.tells R.extent R.may_leave 0 self.old self.new }
        ensures tidy { OnOk result (IfTidy R.tells R.extent R.image self.old → IfTidy R.tells R.extent R.image self.new) }
        ensures stops { Stops self.old.blocks.undo.stopped self.new.blocks.undo.stopped (R.count self.old.blocks.undo.region) (R.count self.new.blocks.undo.region)
            (R.burns self.old.blocks.undo.region) (R.burns self.new.blocks.undo.region) result }
        ensures makes { (change : Durable → Durable)
            → IfRunning self.old (ChangesTo change (kept_of R.tells R.extent R.image self.old) self.old.table (counted counters self.old.table))
            → Makes self.old.blocks.undo.stopped always_stop change result (kept_of R.tells R.extent R.image self.old) (kept_of R.tells R.extent R.image self.new)
            (may_of R.tells R.extent R.may_leave self.old) (may_of R.tells R.extent R.may_leave self.new) }
    {
        let _size = self.blocks.size();
        let bytes = counter_bytes(counters);
        self.blocks.stage(24, &bytes).unwrap();
        commit(&mut self.blocks)?;
        self.tables.count(counters);
        Ok(())
    }

    /// Sets the lease, in ticks.
    ///
    /// # Errors
    ///
    /// `Stopped` comes only where a count of the region rose in this call, or it had stopped before.
    pub fn extend_lease(&mut self, ticks: u64) -> Result<(), Stopped>
        requires last { ticks < 2 ^ 56 }
        requires on { IfRunning self.old (ForSome (kept_of R.tells R.extent R.image self.old) (λ d. d.lease ≤ ticks)) }
        ensures size { R.extent self.new.blocks.undo.region ≡ R.extent self.old.blocks.undo.region }
        ensures free { self.new.blocks.map ≡ self.old.blocks.map }
        ensures left { LeavesBut R.tells R.extent R.may_leave 0 self.old self.new }
        ensures tidy { OnOk result (IfTidy R.tells R.extent R.image self.old → IfTidy R.tells R.extent R.image self.new) }
        ensures stops { Stops self.old.blocks.undo.stopped self.new.blocks.undo.stopped (R.count self.old.blocks.undo.region) (R.count self.new.blocks.undo.region)
            (R.burns self.old.blocks.undo.region) (R.burns self.new.blocks.undo.region) result }
        ensures kept { Makes self.old.blocks.undo.stopped always_stop (leased ticks) result (kept_of R.tells R.extent R.image self.old) (kept_of R.tells R.extent R.image self.new)
            (may_of R.tells R.extent R.may_leave self.old) (may_of R.tells R.extent R.may_leave self.new) }
    {
        let counters = self.tables.plan_lease(ticks);
        self.count(counters)
    }
}
