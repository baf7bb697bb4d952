// A turn of versions and of an entry on an open pool, by one commit.
ghost use Rattle.std.specs.Prelude.{◌≡◌, ◌≤◌, [], false, true, All, IsTrue, is_ok};
ghost use Rattle.pmem_alloc.specs.Blocks.{free_count};
ghost use Rattle.pmem_alloc.specs.Pages.{left};
ghost use Rattle.pmem_undo.specs.Undo.{HasRoom};
ghost use Rattle.vos_turns.specs.vos_image.Kept.{Stored};
ghost use Rattle.vos_pool_stage.specs.Staged.{pool_of};
ghost use Rattle.vos_pool_turns.specs.Pool.{CanTurn, IsOneTurn};
ghost use Rattle.vos_turns.specs.vos_small.Rooms.{HasLeft};
ghost use Rattle.vos_turns.specs.Turns.{AreFew, CanBeNamed, IsEntryStep};

use crate::staging::stage_turn;
use base_outside::region::Region;
use base_types::id::AttemptId;
use daos_model::durable::Version;
use pmem_alloc::blocks::Blocks;
use pmem_tree::TreeNo;
use pmem_tree::tree::Tree;
use vos_entries::entries::EntryTree;
use vos_keeping::below::tables::table::Tables;
use vos_levels::change::Change;
use vos_pool_stage::below::pool_base::opened::Opened;
use vos_pool_stage::committing::{commit_staged, give_up};
use vos_store::refusal::Stopped;
use vos_turns::entries::EntryStep;

// Whether what was staged can be committed: it was staged whole, there is room for the counters, and no fewer blocks
// are free. Where the region tells its bytes all of that is so, unless it stopped.
fn can_commit<R: Region>(turned: &Result<(), TreeNo>, blocks: &Blocks<R>, before: u32) -> bool
    ensures made { result ≡ true → is_ok turned.now ≡ true }
    ensures room { result ≡ true → HasRoom blocks.now.undo.staged 24 }
    ensures free { result ≡ true → before ≤ free_count blocks.now }
    ensures refused { result ≡ false → is_ok turned.now ≡ true → HasLeft 1 24 (left blocks.now) → before ≤ free_count blocks.now → ⊥ }
{
    let (ranges, bytes) = blocks.left();
    turned.is_ok() && ranges >= 1 && bytes >= 24 && blocks.free() >= before
}

// A turn where the pool hasn't stopped.
fn turn_running<R: Region>(
    blocks: Blocks<R>,
    tables: Tables,
    change: Change,
    versions: &[Version],
    attempt: AttemptId,
    step: EntryStep,
) -> (Opened<R>, Result<(), Stopped>)
    requires named { All CanBeNamed versions.now }
    requires few { IsTrue R.tells → AreFew change versions.now }
    requires step { IsEntryStep step }
    requires running { blocks.undo.stopped ≡ false }
    requires unstaged { blocks.undo.staged ≡ [] }
    requires unchanged { blocks.map ≡ blocks.lasting }
    requires here { IsTrue R.tells → (x : Stored) × CanTurn R.extent R.image step (pool_of blocks tables) x }
    ensures { IsOneTurn R.tells R.extent R.image R.may_leave R.count R.burns change versions.now attempt step (pool_of blocks tables) result.0 result.1 }
{
    let _size = blocks.size();
    let before = blocks.free();
    let roots = tables.plan_reopening();
    let objects = Tree {
        kind: 1,
        root: roots.objects,
    };
    let entries = EntryTree {
        tree: Tree {
            kind: 7,
            root: roots.entries,
        },
    };
    let (blocks, entries, turned) = stage_turn(
        blocks, objects, entries, change, versions, attempt, step,
    );
    let _size = blocks.size();
    if can_commit(&turned, &blocks, before) {
        let counters = tables.plan_roots(objects.root, entries.tree.root);
        return commit_staged(blocks, tables, counters);
    }
    let stopped = blocks.is_stopped();
    let opened = give_up(blocks, tables);
    (opened, if stopped { Err(Stopped) } else { Ok(()) })
}

/// Of some versions those that a change takes become done, or go, and the entry of an attempt steps on, by one commit.
/// At most 64 become done at once, or one goes.
///
/// # Errors
///
/// `Stopped` comes only where a count of the region rose in this call, or it had stopped before.
pub fn turn_pool<R: Region>(
    opened: Opened<R>,
    change: Change,
    versions: &[Version],
    attempt: AttemptId,
    step: EntryStep,
) -> (Opened<R>, Result<(), Stopped>)
    requires named { All CanBeNamed versions.now }
    requires few { IsTrue R.tells → opened.blocks.undo.stopped ≡ false → AreFew change versions.now }
    requires step { IsEntryStep step }
    requires here { IsTrue R.tells → opened.blocks.undo.stopped ≡ false → (x : Stored) × CanTurn R.extent R.image step opened x }
    ensures { IsOneTurn R.tells R.extent R.image R.may_leave R.count R.burns change versions.now attempt step opened result.0 result.1 }
{
    if opened.blocks.is_stopped() {
        return (opened, Err(Stopped));
    }
    let Opened { blocks, tables } = opened;
    turn_running(blocks, tables, change, versions, attempt, step)
}
