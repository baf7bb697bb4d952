// Containers that come to an open pool.
ghost use Rattle.std.specs.Prelude.{◌≡◌, IfErr, OnOk};
ghost use Rattle.daos_model.specs.Changes.{enlisted};
ghost use Rattle.vos_pool_base.specs.Pool.{StopsBy, kept_of, may_of};
ghost use Rattle.vos_pool_base.specs.Tidy.{IfTidy, LeavesBut};
ghost use Rattle.vos_store.specs.Answers.{IsManyShown, enlists};
ghost use Rattle.vos_store.specs.Calls.{Answers, Makes};
ghost use Rattle.vos_store.specs.Refusals.{enlist_open, enlist_stop, says};

use crate::opened::Opened;
use base_outside::region::Region;
use base_types::id::ContId;
use std::alloc::Global;
use vos_store::refusal::{EnlistNo, Stopped};

impl<R: Region> Opened<R> {
    /// Adds the containers that aren't there.
    ///
    /// # Errors
    ///
    /// `Stopped` comes before all others, and only where a count of the region rose in this call, or it had
    /// stopped before. `Memory` comes for want of memory. `TooMany` comes exactly where neither holds and the
    /// containers together are more than 256, with their number.
    pub fn enlist(&mut self, alloc: Global, conts: &[ContId]) -> Result<(), EnlistNo>
        ensures size { R.extent self.new.blocks.undo.region ≡ R.extent self.old.blocks.undo.region }
        ensures free { self.new.blocks.map ≡ self.old.blocks.map }
        ensures answer { Answers enlist_open result (enlists conts.now) (kept_of R.tells R.extent R.image self.old) }
        ensures many { IfErr result IsManyShown }
        ensures left { LeavesBut R.tells R.extent R.may_leave 0 self.old self.new }
        ensures tidy { OnOk result (IfTidy R.tells R.extent R.image self.old → IfTidy R.tells R.extent R.image self.new) }
        ensures stops { StopsBy (says enlist_stop result) self.old.blocks.undo.stopped self.new.blocks.undo.stopped (R.count self.old.blocks.undo.region) (R.count self.new.blocks.undo.region)
            (R.burns self.old.blocks.undo.region) (R.burns self.new.blocks.undo.region) }
        ensures kept { Makes self.old.blocks.undo.stopped enlist_stop (enlisted conts.now) result (kept_of R.tells R.extent R.image self.old) (kept_of R.tells R.extent R.image self.new)
            (may_of R.tells R.extent R.may_leave self.old) (may_of R.tells R.extent R.may_leave self.new) }
    {
        if self.blocks.is_stopped() {
            return Err(EnlistNo::Stopped);
        }
        let _size = self.blocks.size();
        let changes = self.tables.plan_enlist(alloc, conts)?;
        match self.write(&changes) {
            Ok(()) => Ok(()),
            Err(Stopped) => Err(EnlistNo::Stopped),
        }
    }
}
