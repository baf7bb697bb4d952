// Entries of an open pool come to list no nodes.
ghost use Rattle.std.specs.Prelude.{◌≡◌, ◌≤◌, [], false, true, is_ok, map, IsTrue, OnOk};
ghost use Rattle.pmem_alloc.specs.Blocks.{free_count};
ghost use Rattle.pmem_alloc.specs.Still.{IsStill};
ghost use Rattle.pmem_undo.specs.Undo.{HasRoom};
ghost use Rattle.vos_check_entries.specs.Rows.{entry_row};
ghost use Rattle.vos_levels.specs.Levels.{things};
ghost use Rattle.vos_pool_steps.specs.Quiet.{IsQuietStep};
ghost use Rattle.vos_pool_turns.specs.vos_pool_stage.Staged.{StandsInPool, WhereTold, pool_of};
ghost use Rattle.vos_pool_turns.specs.vos_pool_stage.vos_pool_base.Pool.{HasStood};
ghost use Rattle.vos_pool_turns.specs.vos_turns.vos_image.Kept.{Stored};
ghost use Rattle.vos_pool_unlist.specs.Unlisted.{HasNoLists, HasUnlisted, answered, says_stopped};

use crate::refusal::UnlistNo;
use crate::staging::stage_unlisting;
use base_outside::region::Region;
use base_types::id::AttemptId;
use pmem_alloc::blocks::Blocks;
use pmem_tree::TreeNo;
use pmem_tree::tree::Tree;
use vos_check_entries::entry::EntryRow;
use vos_entries::entries::EntryTree;
use vos_keeping::below::tables::table::Tables;
use vos_pool_stage::below::pool_base::opened::Opened;
use vos_pool_stage::committing::commit_staged;
use vos_store::refusal::Stopped;

// Whether what was staged can be committed: it was staged whole, there is room for the counters, and no fewer blocks
// are free.
fn can_commit<R: Region>(unlisted: &Result<(), TreeNo>, blocks: &Blocks<R>, before: u32) -> bool
    ensures made { result ≡ true → is_ok unlisted.now ≡ true }
    ensures room { result ≡ true → HasRoom blocks.now.undo.staged 24 }
    ensures free { result ≡ true → before ≤ free_count blocks.now }
{
    let (ranges, bytes) = blocks.left();
    unlisted.is_ok() && ranges >= 1 && bytes >= 24 && blocks.free() >= before
}

// What a commit answered.
fn answered(committed: Result<(), Stopped>) -> Result<(), UnlistNo>
    ensures { result ≡ answered committed }
{
    match committed {
        Ok(()) => Ok(()),
        Err(Stopped) => Err(UnlistNo::Stopped),
    }
}

// Drops what is staged. What stood before stands.
fn drop_staged<R: Region>(blocks: Blocks<R>, tables: Tables) -> Opened<R>
    requires { WhereTold R.tells blocks (HasStood (R.extent blocks.undo.region) (R.image blocks.undo.region) tables) }
    ensures table { result.table ≡ tables }
    ensures map { result.blocks.map ≡ blocks.lasting }
    ensures still { IsStill R.extent R.tells R.image R.may_leave blocks result.blocks }
    ensures stopped { result.blocks.undo.stopped ≡ blocks.undo.stopped }
    ensures count { R.count result.blocks.undo.region ≡ R.count blocks.undo.region }
    ensures burns { R.burns result.blocks.undo.region ≡ R.burns blocks.undo.region }
{
    let mut blocks = blocks;
    blocks.drop_stage();
    Opened { blocks, tables }
}

// The list of an entry, where the pool hasn't stopped.
fn unlist_running<R: Region>(
    blocks: Blocks<R>,
    tables: Tables,
    attempt: AttemptId,
) -> (Opened<R>, Result<(), UnlistNo>)
    requires running { blocks.undo.stopped ≡ false }
    requires unstaged { blocks.undo.staged ≡ [] }
    requires unchanged { blocks.map ≡ blocks.lasting }
    requires here { IsTrue R.tells → HasStood (R.extent blocks.undo.region) (R.image blocks.undo.region) tables }
    ensures quiet { IsQuietStep R.tells R.extent R.count R.burns R.image R.may_leave (pool_of blocks tables) result.0 }
    ensures unlisted { OnOk result.1 (IsTrue R.tells → (x : Stored) → StandsInPool R.extent R.image (pool_of blocks tables) x → HasUnlisted R.extent R.image attempt x result.0) }
    ensures stopped { result.0.blocks.undo.stopped ≡ says_stopped result.1 }
{
    let _size = blocks.size();
    let before = blocks.free();
    let roots = tables.plan_reopening();
    let entries = EntryTree {
        tree: Tree {
            kind: 7,
            root: roots.entries,
        },
    };
    let (blocks, unlisted) = stage_unlisting(blocks, entries, attempt);
    let _size = blocks.size();
    if can_commit(&unlisted, &blocks, before) {
        let counters = tables.plan_roots(roots.objects, roots.entries);
        let (opened, committed) = commit_staged(blocks, tables, counters);
        return (opened, answered(committed));
    }
    let stopped = blocks.is_stopped();
    let opened = drop_staged(blocks, tables);
    (
        opened,
        Err(if stopped {
            UnlistNo::Stopped
        } else {
            UnlistNo::Memory
        }),
    )
}

/// Gives back the list of nodes of an attempt's entry, where there is such an entry, which stays, by one commit. What
/// is kept stays.
///
/// # Errors
///
/// `Stopped` comes exactly where the pool has stopped then, and `Memory` where the list is too long for one commit.
pub fn unlist_pool<R: Region>(
    opened: Opened<R>,
    attempt: AttemptId,
) -> (Opened<R>, Result<(), UnlistNo>)
    ensures quiet { IsQuietStep R.tells R.extent R.count R.burns R.image R.may_leave opened result.0 }
    ensures unlisted { OnOk result.1 (IsTrue R.tells → (x : Stored) → StandsInPool R.extent R.image opened x → HasUnlisted R.extent R.image attempt x result.0) }
    ensures stopped { result.0.blocks.undo.stopped ≡ says_stopped result.1 }
{
    if opened.blocks.is_stopped() {
        return (opened, Err(UnlistNo::Stopped));
    }
    let Opened { blocks, tables } = opened;
    unlist_running(blocks, tables, attempt)
}

// The lists of entries where the pool hasn't stopped.
fn unlist_each<R: Region>(opened: Opened<R>, rows: &[EntryRow]) -> (Opened<R>, Result<(), UnlistNo>)
    requires running { opened.blocks.undo.stopped ≡ false }
    requires rows { IsTrue R.tells → (x : Stored) × (StandsInPool R.extent R.image opened x × (rows.now ≡ map entry_row (things x.1))) }
    ensures quiet { IsQuietStep R.tells R.extent R.count R.burns R.image R.may_leave opened result.0 }
    ensures unlisted { OnOk result.1 (IsTrue R.tells → (x : Stored) → StandsInPool R.extent R.image opened x → HasNoLists R.extent R.image x result.0) }
    ensures stopped { result.0.blocks.undo.stopped ≡ says_stopped result.1 }
{
    let mut opened = opened;
    for row in rows {
        if row.listed == 0 {
            continue;
        }
        let (next, unlisted) = unlist_pool(opened, row.entry.attempt);
        opened = next;
        if unlisted.is_err() {
            return (opened, unlisted);
        }
    }
    (opened, Ok(()))
}

/// Gives back the lists of nodes of all entries, each by one commit. These are the entries, with how many nodes each
/// lists. Afterwards none lists any; what stands besides and what is kept stays.
///
/// # Errors
///
/// `Stopped` comes exactly where the pool has stopped then, and `Memory` where a list is too long for one commit. Some
/// of the lists may be given back then.
pub fn unlist_all<R: Region>(
    opened: Opened<R>,
    rows: &[EntryRow],
) -> (Opened<R>, Result<(), UnlistNo>)
    requires here { IsTrue R.tells → opened.blocks.undo.stopped ≡ false → (x : Stored) × (StandsInPool R.extent R.image opened x × (rows.now ≡ map entry_row (things x.1))) }
    ensures quiet { IsQuietStep R.tells R.extent R.count R.burns R.image R.may_leave opened result.0 }
    ensures unlisted { OnOk result.1 (IsTrue R.tells → (x : Stored) → StandsInPool R.extent R.image opened x → HasNoLists R.extent R.image x result.0) }
    ensures stopped { result.0.blocks.undo.stopped ≡ says_stopped result.1 }
{
    if opened.blocks.is_stopped() {
        return (opened, Err(UnlistNo::Stopped));
    }
    unlist_each(opened, rows)
}
