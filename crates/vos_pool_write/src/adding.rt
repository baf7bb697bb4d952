// A version, and an entry, come to an open pool, each by one commit.
ghost use Rattle.std.specs.Prelude.{◌≡◌, ◌≤◌, ◌+◌, false, true, IsTrue, OnErr, OnOk};
ghost use Rattle.daos_model.specs.declared.durable.Durable.{Durable};
ghost use Rattle.pmem_alloc.specs.Blocks.{free_count};
ghost use Rattle.pmem_alloc.specs.Still.{IsStill};
ghost use Rattle.pmem_pages.specs.Blocks.{Stops};
ghost use Rattle.vos_image.specs.Kept.{Stored};
ghost use Rattle.vos_pool_base.specs.Pool.{kept_of, may_of};
ghost use Rattle.vos_pool_base.specs.Tidy.{LeavesBut};
ghost use Rattle.vos_pool_stage.specs.Staged.{IsQuietCall, WhereTold};
ghost use Rattle.vos_store.specs.Calls.{Makes};
ghost use Rattle.vos_store.specs.Refusals.{always_stop};
ghost use Rattle.vos_pool_write.specs.Coming.{EntryMakes, HasCome, HasEntered, MayCome, MayEnter};
ghost use Rattle.vos_pool_write.specs.Written.{MayBeStaged, blocks_at_most};

use crate::staging::{stage_entry, stage_write};
use base_outside::region::Region;
use base_types::entry::Entry;
use base_types::operation::Write;
use pmem_alloc::blocks::Blocks;
use vos_path::stamp::Stamp;
use vos_pool_base::opened::Opened;
use vos_pool_stage::committing::{commit_staged, give_up};
use vos_store::refusal::Stopped;
use vos_tables::table::Tables;

// Gives up what is staged. Where that is because the blocks stopped, so does the pool; a pool whose region doesn't tell
// its bytes may hold anything, and leaves out what it can't take.
fn leave_out<R: Region>(blocks: Blocks<R>, tables: Tables) -> (Opened<R>, Result<(), Stopped>)
    requires { WhereTold R.tells blocks ⊥ }
    ensures table { result.0.table ≡ tables }
    ensures map { result.0.blocks.map ≡ blocks.lasting }
    ensures still { IsStill R.extent R.tells R.image R.may_leave blocks result.0.blocks }
    ensures count { R.count result.0.blocks.undo.region ≡ R.count blocks.undo.region }
    ensures burns { R.burns result.0.blocks.undo.region ≡ R.burns blocks.undo.region }
    ensures as_it_was { result.0.blocks.undo.stopped ≡ blocks.undo.stopped }
    ensures went_on { OnOk result.1 (blocks.undo.stopped ≡ false) }
    ensures stopped { OnErr result.1 (blocks.undo.stopped ≡ true) }
{
    let stopped = blocks.is_stopped();
    let opened = give_up(blocks, tables);
    if stopped {
        return (opened, Err(Stopped));
    }
    (opened, Ok(()))
}

/// Adds a version that isn't settled, of an attempt with no entry: it counts for nothing yet, and the call is
/// quiet.
///
/// # Errors
///
/// `Stopped` comes only where a count of the region rose in this call.
pub fn add_version<R: Region>(
    opened: Opened<R>,
    stamp: Stamp,
    write: &Write,
) -> (Opened<R>, Result<(), Stopped>)
    requires running { opened.blocks.undo.stopped ≡ false }
    requires write { MayBeStaged stamp write.now }
    requires here { IsTrue R.tells → (x : Stored) × MayCome R.extent R.image opened stamp write.now x }
    requires room { blocks_at_most write.now ≤ free_count opened.blocks }
    ensures come { OnOk result.1 (IsTrue R.tells → (x : Stored) → MayCome R.extent R.image opened stamp write.now x → HasCome R.extent R.image result.0 stamp write.now x) }
    ensures quiet { IsQuietCall result.1 (kept_of R.tells R.extent R.image opened) (kept_of R.tells R.extent R.image result.0)
        (may_of R.tells R.extent R.may_leave opened) (may_of R.tells R.extent R.may_leave result.0) }
    ensures free { free_count opened.blocks ≤ free_count result.0.blocks + blocks_at_most write.now }
    ensures left { LeavesBut R.tells R.extent R.may_leave (blocks_at_most write.now) opened result.0 }
    ensures size { R.extent result.0.blocks.undo.region ≡ R.extent opened.blocks.undo.region }
    ensures lease { result.0.table.header.lease ≡ opened.table.header.lease }
    ensures stops { Stops opened.blocks.undo.stopped result.0.blocks.undo.stopped (R.count opened.blocks.undo.region) (R.count result.0.blocks.undo.region)
        (R.burns opened.blocks.undo.region) (R.burns result.0.blocks.undo.region) result.1 }
{
    let Opened { blocks, tables } = opened;
    let _size = blocks.size();
    let (blocks, staged) = stage_write(blocks, tables.objects(), stamp, write);
    let _size = blocks.size();
    let Some(root) = staged else {
        return leave_out(blocks, tables);
    };
    let counters = tables.plan_roots(root, tables.entries());
    commit_staged(blocks, tables, counters)
}

/// Adds a prepared entry that lists no nodes, of an attempt with none. A change of what is kept that this makes is
/// made whole or not at all.
///
/// # Errors
///
/// `Stopped` comes only where a count of the region rose in this call.
pub fn add_entry<R: Region>(opened: Opened<R>, entry: Entry) -> (Opened<R>, Result<(), Stopped>)
    requires running { opened.blocks.undo.stopped ≡ false }
    requires prepared { entry.committed ≡ false }
    requires here { IsTrue R.tells → (x : Stored) × MayEnter R.extent R.image opened entry x }
    requires room { 1 ≤ free_count opened.blocks }
    ensures entered { OnOk result.1 (IsTrue R.tells → (x : Stored) → MayEnter R.extent R.image opened entry x → HasEntered R.extent R.image result.0 entry x) }
    ensures makes { (change : Durable → Durable) → (IsTrue R.tells → (x : Stored) × (MayEnter R.extent R.image opened entry x × EntryMakes opened.table entry x change))
        → Makes opened.blocks.undo.stopped always_stop change result.1 (kept_of R.tells R.extent R.image opened) (kept_of R.tells R.extent R.image result.0)
        (may_of R.tells R.extent R.may_leave opened) (may_of R.tells R.extent R.may_leave result.0) }
    ensures free { free_count opened.blocks ≤ free_count result.0.blocks + 1 }
    ensures left { LeavesBut R.tells R.extent R.may_leave 1 opened result.0 }
    ensures size { R.extent result.0.blocks.undo.region ≡ R.extent opened.blocks.undo.region }
    ensures stops { Stops opened.blocks.undo.stopped result.0.blocks.undo.stopped (R.count opened.blocks.undo.region) (R.count result.0.blocks.undo.region)
        (R.burns opened.blocks.undo.region) (R.burns result.0.blocks.undo.region) result.1 }
{
    let Opened { blocks, tables } = opened;
    let _size = blocks.size();
    let (blocks, staged) = stage_entry(blocks, tables.entries(), entry);
    let _size = blocks.size();
    let Some(root) = staged else {
        return leave_out(blocks, tables);
    };
    let counters = tables.plan_roots(tables.objects(), root);
    commit_staged(blocks, tables, counters)
}
