// What is staged is committed, or dropped.
ghost use Rattle.std.specs.Prelude.{◌≡◌, [], false, true, is_ok, IsTrue, OnOk, OnErr};
ghost use Rattle.pmem_pages.specs.Blocks.{Stops};
ghost use Rattle.vos_commits.specs.Kept.{IsCommit};

use base_outside::region::Region;
use pmem_alloc::blocks::Blocks;
use vos_store::refusal::Stopped;

/// Commits what is staged. Where that stops nothing is staged any more, in the map of blocks neither.
///
/// # Errors
///
/// `Stopped` comes only where a count of the region rose in this call, or it had stopped before.
pub fn commit<R: Region>(blocks: &mut Blocks<R>) -> Result<(), Stopped>
    ensures committed { IsTrue R.tells → blocks.old.undo.stopped ≡ false
        → IsCommit (R.extent blocks.old.undo.region) blocks.old.undo.staged (is_ok result) (R.image blocks.old.undo.region) (R.image blocks.new.undo.region)
        (R.may_leave blocks.old.undo.region) (R.may_leave blocks.new.undo.region) }
    ensures untouched { blocks.old.undo.stopped ≡ true → blocks.new.undo.region ≡ blocks.old.undo.region }
    ensures running { OnOk result (blocks.old.undo.stopped ≡ false) }
    ensures unstaged { blocks.new.undo.staged ≡ [] }
    ensures map { OnOk result (blocks.new.map ≡ blocks.old.map) }
    ensures dropped { OnErr result (blocks.new.map ≡ blocks.old.lasting) }
    ensures lasting { blocks.new.map ≡ blocks.new.lasting }
    ensures size { R.extent blocks.new.undo.region ≡ R.extent blocks.old.undo.region }
    ensures stops { Stops blocks.old.undo.stopped blocks.new.undo.stopped (R.count blocks.old.undo.region) (R.count blocks.new.undo.region)
        (R.burns blocks.old.undo.region) (R.burns blocks.new.undo.region) result }
{
    let _size = blocks.size();
    let committed = blocks.commit();
    let _size = blocks.size();
    if committed.is_err() {
        blocks.drop_stage();
        return Err(Stopped);
    }
    Ok(())
}
