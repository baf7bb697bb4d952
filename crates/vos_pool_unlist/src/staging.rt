// A list is given back on the blocks of a region, as a stage.
ghost use Rattle.std.specs.Prelude.{◌≡◌, ◌<◌, OnOk, ⊤};
ghost use Rattle.pmem_alloc.specs.Pages.{shown};
ghost use Rattle.pmem_alloc.specs.Still.{IsSince, IsStill};
ghost use Rattle.pmem_tree_base.specs.Calls.{Goes};
ghost use Rattle.vos_entries.specs.Entries.{IsUnlistedAt, entries_owner, listings};
ghost use Rattle.vos_levels.specs.Calls.{Becomes, HasThing, OfThing};
ghost use Rattle.vos_levels.specs.Levels.{hung_root};

use base_outside::region::Region;
use base_types::id::AttemptId;
use pmem_alloc::blocks::Blocks;
use pmem_alloc::stage::{Origin, Staging};
use pmem_pages::steps::Steps;
use pmem_tree::TreeNo;
use std::marker::Brand;
use std::sync::ledger::{Blank, Ledger};
use vos_entries::entries::EntryTree;

// The list of an attempt's entry on blocks of which this is so that the origin says.
fn stage_as<R: Region, L: Ledger, O: Origin>(
    blocks: Blocks<R>,
    entries: EntryTree,
    attempt: AttemptId,
    blank: Blank,
) -> (Blocks<R>, Result<(), TreeNo>)
    requires name { blank.name ≡ L.name }
    requires parts { blank.parts ≡ L.parts }
    requires some { 0 < blank.parts }
    requires since { IsSince O.size O.read O.left O.lasting (R.extent blocks.undo.region) R.tells (R.image blocks.undo.region) (R.may_leave blocks.undo.region) blocks.lasting }
    requires kind { entries.tree.kind ≡ 7 }
    requires here { HasThing R.tells entries_owner hung_root (shown R.image blocks) entries.tree.root (λ g. ⊤) }
    ensures still { IsSince O.size O.read O.left O.lasting (R.extent result.0.undo.region) R.tells (R.image result.0.undo.region) (R.may_leave result.0.undo.region) result.0.lasting }
    ensures unlisted { OnOk result.1 (OfThing R.tells entries_owner hung_root (shown R.image blocks) entries.tree.root (λ g. Becomes entries_owner hung_root listings (shown R.image blocks) g (shown R.image result.0) entries.tree.root (IsUnlistedAt attempt))) }
    ensures goes { Goes (λ b. b.undo.stopped) (λ b. R.count b.undo.region) (λ b. R.burns b.undo.region) blocks result.0 }
    ensures went_on { OnOk result.1 (result.0.undo.stopped ≡ blocks.undo.stopped) }
{
    let mut entries = entries;
    let mut steps = Steps::<L>::new(blank);
    let mut pages = Staging::<R, O>::new(blocks);
    let unlisted = entries.unlist(&mut pages, attempt, &mut steps);
    (pages.into_blocks(), unlisted)
}

/// Stages that the list of nodes of an attempt's entry is given back, where there is such an entry, which stays. The
/// entries keep their root, what is read of the region stays, and no more may be left of it.
///
/// # Errors
///
/// After one the stage has to be dropped.
pub(crate) fn stage_unlisting<R: Region>(
    blocks: Blocks<R>,
    entries: EntryTree,
    attempt: AttemptId,
) -> (Blocks<R>, Result<(), TreeNo>)
    requires kind { entries.tree.kind ≡ 7 }
    requires here { HasThing R.tells entries_owner hung_root (shown R.image blocks) entries.tree.root (λ g. ⊤) }
    ensures still { IsStill R.extent R.tells R.image R.may_leave blocks result.0 }
    ensures unlisted { OnOk result.1 (OfThing R.tells entries_owner hung_root (shown R.image blocks) entries.tree.root (λ g. Becomes entries_owner hung_root listings (shown R.image blocks) g (shown R.image result.0) entries.tree.root (IsUnlistedAt attempt))) }
    ensures goes { Goes (λ b. b.undo.stopped) (λ b. R.count b.undo.region) (λ b. R.burns b.undo.region) blocks result.0 }
    ensures went_on { OnOk result.1 (result.0.undo.stopped ≡ blocks.undo.stopped) }
{
    stage_as::<R, Brand, Brand>(blocks, entries, attempt, Blank::new(1))
}
