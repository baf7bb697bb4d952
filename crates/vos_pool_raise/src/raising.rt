// A pool is raised to the second layout.
ghost use Rattle.std.specs.Prelude.{◌≡◌, ℕ, IsTrue, OnErr, OnOk};
ghost use Rattle.daos_model.specs.declared.durable.Durable.{Durable};
ghost use Rattle.pmem_pages.specs.Blocks.{Stops};
ghost use Rattle.vos_pool_base.specs.Pool.{kept_of, may_of};
ghost use Rattle.vos_pool_base.specs.Tidy.{Leaves};
ghost use Rattle.vos_pool_base.specs.vos_image.Kept.{Stored};
ghost use Rattle.vos_pool_base.specs.vos_tables.Tables.{raised};
ghost use Rattle.vos_pool_raise.specs.Raising.{LeavesEither};
ghost use Rattle.vos_pool_stage.specs.Staged.{StandsInPool};

use base_outside::region::Region;
use vos_pool_base::committing::commit;
use vos_pool_base::opened::Opened;
use vos_store::refusal::Stopped;

/// Raises a pool to the second layout, by one commit: what stands in it stands under that layout too, and what it
/// keeps stays. A pool of the second layout stays one. Where the call stops, the pool that is left is of the layout
/// before or of the second one.
///
/// # Errors
///
/// `Stopped` comes only where a count of the region rose in this call, or it had stopped before.
pub fn raise_layout<R: Region>(opened: &mut Opened<R>) -> Result<(), Stopped>
    ensures table { OnOk result (opened.new.table ≡ raised opened.old.table) }
    ensures unraised { OnErr result (opened.new.table ≡ opened.old.table) }
    ensures stands { OnOk result (IsTrue R.tells → (x : Stored) → StandsInPool R.extent R.image opened.old x → StandsInPool R.extent R.image opened.new x) }
    ensures kept { OnOk result (kept_of R.tells R.extent R.image opened.new ≡ kept_of R.tells R.extent R.image opened.old) }
    ensures may { (x : Durable) → may_of R.tells R.extent R.may_leave opened.new x → may_of R.tells R.extent R.may_leave opened.old x }
    ensures left { (few : ℕ) → Leaves R.tells R.extent R.may_leave few opened.old → LeavesEither R.tells R.extent R.may_leave opened.old.table.header.layout few opened.new }
    ensures map { opened.new.blocks.map ≡ opened.old.blocks.map }
    ensures size { R.extent opened.new.blocks.undo.region ≡ R.extent opened.old.blocks.undo.region }
    ensures stops { Stops opened.old.blocks.undo.stopped opened.new.blocks.undo.stopped (R.count opened.old.blocks.undo.region) (R.count opened.new.blocks.undo.region)
        (R.burns opened.old.blocks.undo.region) (R.burns opened.new.blocks.undo.region) result }
{
    let _size = opened.blocks.size();
    opened.blocks.stage(8, &[0, 0, 0, 2]).unwrap();
    commit(&mut opened.blocks)?;
    opened.tables.raise();
    Ok(())
}
