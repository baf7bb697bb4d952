// The blocks of a pool's region, and its fixed places.
ghost use Rattle.std.specs.Prelude.{◌≡◌, ◌≤◌, [], length, OnOk, OnErr, IsTrue};
ghost use Rattle.daos_model.specs.declared.durable.Durable.{Durable};
ghost use Rattle.pmem_pages.specs.Blocks.{Stops};
ghost use Rattle.vos_pool_base.specs.Pool.{ChangesTo, IfRunning, kept_of, may_of, most_changes, ranges_of};
ghost use Rattle.vos_pool_base.specs.Tidy.{IfTidy, LeavesBut};
ghost use Rattle.vos_store.specs.Calls.{Makes};
ghost use Rattle.vos_store.specs.Refusals.{always_stop};
ghost use Rattle.vos_tables.specs.Changes.{AllFit, all_changed};

use crate::committing::commit;
use base_outside::region::Region;
use pmem_alloc::blocks::Blocks;
use std::marker::Model;
use vos_store::refusal::Stopped;
use vos_tables::change::Change;
use vos_tables::table::Tables;

/// A region that is open as a pool: its blocks, and its fixed places.
#[derive(Drop)]
pub struct Opened<R: Region> {
    pub blocks: Blocks<R>,
    pub tables: Tables,
}

impl<R: Region> Model for Opened<R> {
    ghost use Rattle.vos_pool_base.specs.Pool.{IsOpened, OpenedState};

    ghost Value = { OpenedState R };

    ghost view = { λ p. record { blocks = p.blocks; table = p.tables } };

    ghost invariant = { λ p. IsOpened (R.extent p.blocks.undo.region) R.tells (R.image p.blocks.undo.region) p.blocks.undo.staged p.blocks.undo.stopped p.blocks.map p.blocks.lasting p.tables };
}

// Stages what changes write.
fn stage<R: Region>(blocks: &mut Blocks<R>, changes: &[Change])
    requires few { length changes.now ≤ most_changes }
    requires unstaged { blocks.old.undo.staged ≡ [] }
    ensures { blocks.new ≡ record blocks.old { undo = record blocks.old.undo { staged = ranges_of changes.now } } }
{
    let _size = blocks.size();
    for change in changes {
        let range = change.range();
        blocks.stage(range.place(), range.bytes()).unwrap();
    }
}

impl<R: Region> Opened<R> {
    /// Writes changes of fixed places, all of them by one commit or none. A change of what is kept that
    /// they make is made whole or not at all. There are at most 300.
    ///
    /// # Errors
    ///
    /// `Stopped` comes only where a count of the region rose in this call, or it had stopped before.
    pub fn write(&mut self, changes: &[Change]) -> Result<(), Stopped>
        requires few { length changes.now ≤ most_changes }
        requires fits { AllFit self.old.table changes.now }
        ensures table { OnOk result (self.new.table ≡ all_changed changes.now self.old.table) }
        ensures kept { OnErr result (self.new.table ≡ self.old.table) }
        ensures size { R.extent self.new.blocks.undo.region ≡ R.extent self.old.blocks.undo.region }
        ensures free { self.new.blocks.map ≡ self.old.blocks.map }
        ensures left { LeavesBut R.tells R.extent R.may_leave 0 self.old self.new }
        ensures tidy { OnOk result (IfTidy R.tells R.extent R.image self.old → IfTidy R.tells R.extent R.image self.new) }
        ensures stops { Stops self.old.blocks.undo.stopped self.new.blocks.undo.stopped (R.count self.old.blocks.undo.region) (R.count self.new.blocks.undo.region)
            (R.burns self.old.blocks.undo.region) (R.burns self.new.blocks.undo.region) result }
        ensures makes { (change : Durable → Durable)
            → IfRunning self.old (ChangesTo change (kept_of R.tells R.extent R.image self.old) self.old.table (all_changed changes.now self.old.table))
            → Makes self.old.blocks.undo.stopped always_stop change result (kept_of R.tells R.extent R.image self.old) (kept_of R.tells R.extent R.image self.new)
            (may_of R.tells R.extent R.may_leave self.old) (may_of R.tells R.extent R.may_leave self.new) }
    {
        stage(&mut self.blocks, changes);
        commit(&mut self.blocks)?;
        self.tables.apply_all(changes);
        Ok(())
    }
}
