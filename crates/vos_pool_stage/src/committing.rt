// What is staged is committed with the counters.
ghost use Rattle.std.specs.Prelude.{◌≡◌, ◌≤◌, ◌+◌, ◌++◌, ◌∷◌, ℕ, [], false, true, is_ok, IsTrue, OnErr, OnOk};
ghost use Rattle.daos_model.specs.declared.durable.Durable.{Durable};
ghost use Rattle.pmem_alloc.specs.Blocks.{free_count};
ghost use Rattle.pmem_alloc.specs.Still.{IsStill};
ghost use Rattle.pmem_pages.specs.Blocks.{Stops};
ghost use Rattle.pmem_undo.specs.Undo.{HasRoom};
ghost use Rattle.vos_pool_base.specs.vos_image.Kept.{Stored, durable_of, kept};
ghost use Rattle.vos_commits.specs.Kept.{kept_in};
ghost use Rattle.vos_pool_base.specs.vos_places.Laws.{counted};
ghost use Rattle.vos_pool_base.specs.vos_places.Tables.{places_of};
ghost use Rattle.vos_pool_base.specs.Pool.{kept_of, may_of};
ghost use Rattle.vos_pool_base.specs.Tidy.{LeavesBut};
ghost use Rattle.vos_pool_stage.specs.Staged.{IsQuietCall, IsToStandOn, WhereTold, free_then, pool_of};
ghost use Rattle.vos_pool_base.specs.vos_standing.Standing.{Stand};
ghost use Rattle.vos_store.specs.Calls.{Makes};
ghost use Rattle.vos_store.specs.Refusals.{always_stop};
ghost use Rattle.vos_pool_base.specs.vos_tables.Tables.{AreNext};

use base_outside::region::Region;
use pmem_alloc::blocks::Blocks;
use vos_pool_base::below::places::codec::{Counters, counter_bytes};
use vos_pool_base::below::tables::table::Tables;
use vos_pool_base::committing::commit;
use vos_pool_base::opened::Opened;
use vos_store::refusal::Stopped;

/// Commits what is staged together with the counters, which have the roots of all that is staged. What stands
/// then is what was staged. A change of what is kept that this makes is made whole or not at all; where it
/// makes none the call is quiet.
///
/// # Errors
///
/// `Stopped` comes only where a count of the region rose in this call, or it had stopped before.
pub fn commit_staged<R: Region>(
    blocks: Blocks<R>,
    tables: Tables,
    counters: Counters,
) -> (Opened<R>, Result<(), Stopped>)
    requires room { HasRoom blocks.undo.staged 24 }
    requires next { AreNext tables counters }
    requires ready { WhereTold R.tells blocks ((y : Stored) × IsToStandOn R.extent R.image blocks tables counters y) }
    ensures stands { OnOk result.1 (IsTrue R.tells → (y : Stored) → IsToStandOn R.extent R.image blocks tables counters y
        → Stand tables.header.target (R.extent result.0.blocks.undo.region) (R.image result.0.blocks.undo.region) (counted counters tables) y) }
    ensures table { OnOk result.1 (result.0.table ≡ counted counters tables) }
    ensures kept { OnErr result.1 (result.0.table ≡ tables) }
    ensures running { OnOk result.1 (blocks.undo.stopped ≡ false) }
    ensures map { OnOk result.1 (result.0.blocks.map ≡ blocks.map) }
    ensures dropped { OnErr result.1 (result.0.blocks.map ≡ blocks.lasting) }
    ensures size { R.extent result.0.blocks.undo.region ≡ R.extent blocks.undo.region }
    ensures stops { Stops blocks.undo.stopped result.0.blocks.undo.stopped (R.count blocks.undo.region) (R.count result.0.blocks.undo.region)
        (R.burns blocks.undo.region) (R.burns result.0.blocks.undo.region) result.1 }
    ensures makes { (change : Durable → Durable)
        → WhereTold R.tells blocks ((y : Stored) × (IsToStandOn R.extent R.image blocks tables counters y
        × (durable_of (record { places = places_of (counted counters tables); stored = y }) ≡ change (kept_in (kept tables.header.target (R.extent blocks.undo.region)) (R.extent blocks.undo.region) (R.image blocks.undo.region)))))
        → Makes blocks.undo.stopped always_stop change result.1 (kept_of R.tells R.extent R.image (pool_of blocks tables)) (kept_of R.tells R.extent R.image result.0)
        (may_of R.tells R.extent R.may_leave (pool_of blocks tables)) (may_of R.tells R.extent R.may_leave result.0) }
    ensures quiet { WhereTold R.tells blocks ((y : Stored) × (IsToStandOn R.extent R.image blocks tables counters y
        × (durable_of (record { places = places_of (counted counters tables); stored = y }) ≡ kept_in (kept tables.header.target (R.extent blocks.undo.region)) (R.extent blocks.undo.region) (R.image blocks.undo.region))))
        → IsQuietCall result.1 (kept_of R.tells R.extent R.image (pool_of blocks tables)) (kept_of R.tells R.extent R.image result.0)
        (may_of R.tells R.extent R.may_leave (pool_of blocks tables)) (may_of R.tells R.extent R.may_leave result.0) }
    ensures left { (cost : ℕ) → (IsTrue R.tells → free_then blocks ≤ free_count blocks + cost) → LeavesBut R.tells R.extent R.may_leave cost (pool_of blocks tables) result.0 }
{
    let mut blocks = blocks;
    let mut tables = tables;
    let _size = blocks.size();
    let bytes = counter_bytes(counters);
    blocks.stage(24, &bytes).unwrap();
    let _size = blocks.size();
    match commit(&mut blocks) {
        Ok(()) => {
            tables.count(counters);
            (Opened { blocks, tables }, Ok(()))
        }
        Err(Stopped) => (Opened { blocks, tables }, Err(Stopped)),
    }
}

/// Gives up what is staged, where a region that tells its bytes has stopped.
pub fn give_up<R: Region>(blocks: Blocks<R>, tables: Tables) -> Opened<R>
    requires { WhereTold R.tells blocks ⊥ }
    ensures table { result.table ≡ tables }
    ensures map { result.blocks.map ≡ blocks.lasting }
    ensures still { IsStill R.extent R.tells R.image R.may_leave blocks result.blocks }
    ensures stopped { result.blocks.undo.stopped ≡ blocks.undo.stopped }
    ensures count { R.count result.blocks.undo.region ≡ R.count blocks.undo.region }
    ensures burns { R.burns result.blocks.undo.region ≡ R.burns blocks.undo.region }
{
    let mut blocks = blocks;
    blocks.drop_stage();
    Opened { blocks, tables }
}
