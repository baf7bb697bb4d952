// A write, and an entry, are staged on the blocks of a pool.
ghost use Rattle.std.specs.Prelude.{◌≡◌, ◌≤◌, ◌<◌, ◌+◌, ℕ, [], false, true, None, IfSome, IsErrOf, IsSome, IsTrue, OnOk};
ghost use Rattle.base_types.specs.Paths.{record_size};
ghost use Rattle.pmem_alloc.specs.Blocks.{free_count};
ghost use Rattle.pmem_alloc.specs.Pages.{left, shown};
ghost use Rattle.pmem_alloc.specs.Still.{IsSince, IsStill};
ghost use Rattle.pmem_tree_base.specs.Calls.{Goes};
ghost use Rattle.pmem_tree_base.specs.declared.refusal.TreeNo.{TreeNo};
ghost use Rattle.pmem_undo.specs.Undo.{HasRoom};
ghost use Rattle.vos_chain.specs.Made.{chain_blocks};
ghost use Rattle.vos_entries.specs.Entries.{entries_owner, has_entry_at, listings};
ghost use Rattle.vos_levels.specs.Calls.{Becomes, HasThing, OfThing};
ghost use Rattle.vos_levels.specs.Levels.{HasMore, hung_root, things};
ghost use Rattle.vos_path.specs.Calls.{LacksFor, SpendsAtMost, for_pair};
ghost use Rattle.vos_path.specs.Objects.{objects_owner};
ghost use Rattle.base_types.specs.Operations.{write_path};
ghost use Rattle.vos_path.specs.Small.{PathIsSmall};
ghost use Rattle.vos_path.specs.Writes.{IsNewIn, below_object_pairs, data_blocks, fresh, object_pairs};
ghost use Rattle.vos_pool_stage.specs.Staged.{WhereTold};
ghost use Rattle.vos_pool_write.specs.Written.{EntryComes, EntrySpends, MayBeStaged, WriteComes, WriteSpends, blocks_at_most, counts_of, has_stopped};
ghost use Rattle.vos_versions.specs.Marks.{StagesFor, TooFewFor};

use base_outside::region::Region;
use base_types::entry::Entry;
use base_types::operation::Write;
use pmem_alloc::blocks::Blocks;
use pmem_alloc::stage::{Origin, Staging};
use pmem_pages::steps::Steps;
use pmem_tree::TreeNo;
use pmem_tree::tree::Tree;
use std::marker::Brand;
use std::sync::ledger::{Blank, Ledger};
use vos_entries::entries::EntryTree;
use vos_path::objects::write_objects;
use vos_path::stamp::Stamp;

// A write is staged, whatever is left.
fn write_as<R: Region, L: Ledger, O: Origin>(
    blocks: Blocks<R>,
    objects: Tree,
    stamp: Stamp,
    write: &Write,
    blank: Blank,
) -> (Blocks<R>, Tree, Result<(), TreeNo>)
    requires name { blank.name ≡ L.name }
    requires parts { blank.parts ≡ L.parts }
    requires some { 0 < blank.parts }
    requires since { IsSince O.size O.read O.left O.lasting (R.extent blocks.undo.region) R.tells (R.image blocks.undo.region) (R.may_leave blocks.undo.region) blocks.lasting }
    requires kind { objects.kind ≡ 1 }
    requires write { MayBeStaged stamp write.now }
    requires here { HasThing R.tells objects_owner hung_root (shown R.image blocks) objects.root (IsNewIn (fresh stamp write.now)) }
    ensures still { IsSince O.size O.read O.left O.lasting (R.extent result.0.undo.region) R.tells (R.image result.0.undo.region) (R.may_leave result.0.undo.region) result.0.lasting }
    ensures written { OnOk result.2 (OfThing R.tells objects_owner hung_root (shown R.image blocks) objects.root (λ g. IsNewIn (fresh stamp write.now) g → WriteComes stamp write.now (shown R.image blocks) g (shown R.image result.0) result.1.root)) }
    ensures no_block { IsErrOf result.2 TreeNo.NoBlock → free_count blocks < blocks_at_most write.now }
    ensures too_much { IsErrOf result.2 TreeNo.TooMuch → OfThing R.tells objects_owner hung_root (shown R.image blocks) objects.root (λ g. IsNewIn (fresh stamp write.now) g → (d : ℕ) → PathIsSmall d (write_path write.now) g → LacksFor (data_blocks write.now) (below_object_pairs write.now (for_pair d)) d (left blocks)) }
    ensures staged { OnOk result.2 (WriteSpends R.tells R.image objects.root stamp write.now blocks result.0) }
    ensures free { OnOk result.2 (free_count blocks ≤ free_count result.0 + blocks_at_most write.now) }
    ensures goes { Goes has_stopped (counts_of R.count) (counts_of R.burns) blocks result.0 }
    ensures stopped { IsErrOf result.2 TreeNo.Stopped → result.0.undo.stopped ≡ true }
    ensures went_on { OnOk result.2 (result.0.undo.stopped ≡ blocks.undo.stopped) }
{
    let mut steps = Steps::<L>::new(blank);
    let mut pages = Staging::<R, O>::new(blocks);
    let mut objects = objects;
    let written = write_objects(&mut objects, &mut pages, stamp, write, &mut steps);
    (pages.into_blocks(), objects, written)
}

/// Stages a write on blocks on which nothing is staged. Nothing of its moment stands in its object but
/// creations. It gives the root of the objects then. None comes only where the blocks stopped, or their region
/// doesn't tell its bytes.
pub fn stage_write<R: Region>(
    blocks: Blocks<R>,
    root: u32,
    stamp: Stamp,
    write: &Write,
) -> (Blocks<R>, Option<u32>)
    requires running { blocks.undo.stopped ≡ false }
    requires unstaged { blocks.undo.staged ≡ [] }
    requires write { MayBeStaged stamp write.now }
    requires here { HasThing R.tells objects_owner hung_root (shown R.image blocks) root (IsNewIn (fresh stamp write.now)) }
    requires room { blocks_at_most write.now ≤ free_count blocks }
    ensures still { IsStill R.extent R.tells R.image R.may_leave blocks result.0 }
    ensures written { IfSome result.1 (λ at. OfThing R.tells objects_owner hung_root (shown R.image blocks) root (λ g. IsNewIn (fresh stamp write.now) g → WriteComes stamp write.now (shown R.image blocks) g (shown R.image result.0) at)) }
    ensures room { IsSome result.1 → HasRoom result.0.undo.staged 24 }
    ensures none { result.1 ≡ None → WhereTold R.tells result.0 ⊥ }
    ensures free { IsSome result.1 → free_count blocks ≤ free_count result.0 + blocks_at_most write.now }
    ensures goes { Goes has_stopped (counts_of R.count) (counts_of R.burns) blocks result.0 }
    ensures went_on { IsSome result.1 → result.0.undo.stopped ≡ false }
{
    let _size = blocks.size();
    let objects = Tree { kind: 1, root };
    let (blocks, objects, written) = write_as::<R, Brand, Brand>(
        blocks,
        objects,
        stamp,
        write,
        Blank::new(1),
    );
    let (ranges, bytes) = blocks.left();
    if written.is_err() || ranges == 0 || bytes < 24 {
        return (blocks, None);
    }
    (blocks, Some(objects.root))
}

// An entry with no list is staged, whatever is left.
fn enter_as<R: Region, L: Ledger, O: Origin>(
    blocks: Blocks<R>,
    entries: EntryTree,
    entry: Entry,
    blank: Blank,
) -> (Blocks<R>, EntryTree, Result<(), TreeNo>)
    requires name { blank.name ≡ L.name }
    requires parts { blank.parts ≡ L.parts }
    requires some { 0 < blank.parts }
    requires since { IsSince O.size O.read O.left O.lasting (R.extent blocks.undo.region) R.tells (R.image blocks.undo.region) (R.may_leave blocks.undo.region) blocks.lasting }
    requires kind { entries.tree.kind ≡ 7 }
    requires prepared { entry.committed ≡ false }
    requires here { HasThing R.tells entries_owner hung_root (shown R.image blocks) entries.tree.root (λ g. has_entry_at entry.attempt (things g) ≡ false) }
    ensures still { IsSince O.size O.read O.left O.lasting (R.extent result.0.undo.region) R.tells (R.image result.0.undo.region) (R.may_leave result.0.undo.region) result.0.lasting }
    ensures entered { OnOk result.2 (OfThing R.tells entries_owner hung_root (shown R.image blocks) entries.tree.root (λ g. has_entry_at entry.attempt (things g) ≡ false → EntryComes entry (shown R.image blocks) g (shown R.image result.0) result.1.tree.root)) }
    ensures no_block { IsErrOf result.2 TreeNo.NoBlock → free_count blocks < 1 }
    ensures too_much { IsErrOf result.2 TreeNo.TooMuch → OfThing R.tells entries_owner hung_root (shown R.image blocks) entries.tree.root (λ g. has_entry_at entry.attempt (things g) ≡ false → TooFewFor (chain_blocks 0) g.0 (left blocks)) }
    ensures staged { OnOk result.2 (EntrySpends R.tells R.image entries.tree.root entry blocks result.0) }
    ensures free { OnOk result.2 (free_count blocks ≤ free_count result.0 + 1) }
    ensures goes { Goes has_stopped (counts_of R.count) (counts_of R.burns) blocks result.0 }
    ensures stopped { IsErrOf result.2 TreeNo.Stopped → result.0.undo.stopped ≡ true }
    ensures went_on { OnOk result.2 (result.0.undo.stopped ≡ blocks.undo.stopped) }
{
    let mut steps = Steps::<L>::new(blank);
    let mut pages = Staging::<R, O>::new(blocks);
    let mut entries = entries;
    let entered = entries.add(&mut pages, entry, &[], &mut steps);
    (pages.into_blocks(), entries, entered)
}

/// Stages a prepared entry that lists no nodes, on blocks on which nothing is staged. Its attempt has none. It
/// gives the root of the entries then. None comes only where the blocks stopped, or their region doesn't tell its
/// bytes.
pub fn stage_entry<R: Region>(
    blocks: Blocks<R>,
    root: u32,
    entry: Entry,
) -> (Blocks<R>, Option<u32>)
    requires running { blocks.undo.stopped ≡ false }
    requires unstaged { blocks.undo.staged ≡ [] }
    requires prepared { entry.committed ≡ false }
    requires here { HasThing R.tells entries_owner hung_root (shown R.image blocks) root (λ g. has_entry_at entry.attempt (things g) ≡ false) }
    requires room { 1 ≤ free_count blocks }
    ensures still { IsStill R.extent R.tells R.image R.may_leave blocks result.0 }
    ensures entered { IfSome result.1 (λ at. OfThing R.tells entries_owner hung_root (shown R.image blocks) root (λ g. has_entry_at entry.attempt (things g) ≡ false → EntryComes entry (shown R.image blocks) g (shown R.image result.0) at)) }
    ensures room { IsSome result.1 → HasRoom result.0.undo.staged 24 }
    ensures none { result.1 ≡ None → WhereTold R.tells result.0 ⊥ }
    ensures free { IsSome result.1 → free_count blocks ≤ free_count result.0 + 1 }
    ensures goes { Goes has_stopped (counts_of R.count) (counts_of R.burns) blocks result.0 }
    ensures went_on { IsSome result.1 → result.0.undo.stopped ≡ false }
{
    let _size = blocks.size();
    let entries = EntryTree {
        tree: Tree { kind: 7, root },
    };
    let (blocks, entries, entered) = enter_as::<R, Brand, Brand>(
        blocks,
        entries,
        entry,
        Blank::new(1),
    );
    let (ranges, bytes) = blocks.left();
    if entered.is_err() || ranges == 0 || bytes < 24 {
        return (blocks, None);
    }
    (blocks, Some(entries.tree.root))
}
