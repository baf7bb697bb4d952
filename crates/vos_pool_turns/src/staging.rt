// A turn staged on the blocks of a region.
ghost use Rattle.std.specs.Prelude.{◌≡◌, ◌≤◌, ◌<◌, ◌+◌, true, length, All, IsErrOf, IsTrue, OnOk};
ghost use Rattle.pmem_alloc.specs.Pages.{left, shown};
ghost use Rattle.pmem_alloc.specs.Still.{IsSince, IsStill};
ghost use Rattle.pmem_tree_base.specs.Calls.{Goes};
ghost use Rattle.pmem_tree_base.specs.declared.refusal.TreeNo.{TreeNo};
ghost use Rattle.vos_keeping.specs.Keeping.{versions_in};
ghost use Rattle.vos_turns.specs.vos_image.Kept.{Stored};
ghost use Rattle.vos_turns.specs.vos_small.Rooms.{HasLeft};
ghost use Rattle.vos_turns.specs.Turns.{AreFew, CanBeNamed, IsEntryStep, StandsBelow, TurnsTo, after_each};

use base_outside::region::Region;
use base_types::id::AttemptId;
use daos_model::durable::Version;
use pmem_alloc::blocks::Blocks;
use pmem_alloc::stage::{Origin, Staging};
use pmem_pages::steps::Steps;
use pmem_tree::TreeNo;
use pmem_tree::tree::Tree;
use std::marker::Brand;
use std::sync::ledger::{Blank, Ledger};
use vos_entries::entries::EntryTree;
use vos_levels::change::Change;
use vos_turns::entries::EntryStep;
use vos_turns::turns::turn;

// A turn on blocks of which this is so that the origin says.
fn stage_as<R: Region, L: Ledger, O: Origin>(
    blocks: Blocks<R>,
    objects: Tree,
    entries: EntryTree,
    change: Change,
    versions: &[Version],
    attempt: AttemptId,
    step: EntryStep,
    blank: Blank,
) -> (Blocks<R>, EntryTree, Result<(), TreeNo>)
    requires name { blank.name ≡ L.name }
    requires parts { blank.parts ≡ L.parts }
    requires some { 0 < blank.parts }
    requires since { IsSince O.size O.read O.left O.lasting (R.extent blocks.undo.region) R.tells (R.image blocks.undo.region) (R.may_leave blocks.undo.region) blocks.lasting }
    requires objects { objects.kind ≡ 1 }
    requires entries { entries.tree.kind ≡ 7 }
    requires named { All CanBeNamed versions.now }
    requires few { IsTrue R.tells → AreFew change versions.now }
    requires step { IsEntryStep step }
    requires here { IsTrue R.tells → (x : Stored) × StandsBelow (shown R.image blocks) objects.root entries.tree.root x }
    requires room { HasLeft 1024 256000 (left blocks) }
    ensures still { IsSince O.size O.read O.left O.lasting (R.extent result.0.undo.region) R.tells (R.image result.0.undo.region) (R.may_leave result.0.undo.region) result.0.lasting }
    ensures turned { OnOk result.2 (IsTrue R.tells → (x : Stored) → StandsBelow (shown R.image blocks) objects.root entries.tree.root x → TurnsTo change versions.now attempt step (shown R.image blocks) x (shown R.image result.0) objects.root result.1.tree.root) }
    ensures no_block { IsErrOf result.2 TreeNo.NoBlock → IsTrue R.tells → ⊥ }
    ensures too_much { IsErrOf result.2 TreeNo.TooMuch → IsTrue R.tells → ⊥ }
    ensures left { OnOk result.2 (IsTrue R.tells → HasLeft 1 24 (left result.0)) }
    ensures free { OnOk result.2 (IsTrue R.tells → (left blocks).free ≤ (left result.0).free) }
    ensures gives { OnOk result.2 (IsTrue R.tells → (x : Stored) → StandsBelow (shown R.image blocks) objects.root entries.tree.root x → (left blocks).free + length (versions_in x) ≤ (left result.0).free + length (after_each change versions.now (versions_in x))) }
    ensures goes { Goes (λ b. b.undo.stopped) (λ b. R.count b.undo.region) (λ b. R.burns b.undo.region) blocks result.0 }
    ensures stopped { IsErrOf result.2 TreeNo.Stopped → result.0.undo.stopped ≡ true }
    ensures went_on { OnOk result.2 (result.0.undo.stopped ≡ blocks.undo.stopped) }
{
    let mut entries = entries;
    let mut steps = Steps::<L>::new(blank);
    let mut pages = Staging::<R, O>::new(blocks);
    let turned = turn(
        objects,
        &mut entries,
        &mut pages,
        change,
        versions,
        attempt,
        step,
        &mut steps,
    );
    (pages.into_blocks(), entries, turned)
}

/// Stages a turn on blocks on which nothing is staged. What is read of their region stays, and no more may be left
/// of it.
///
/// # Errors
///
/// Where the region tells its bytes, `Stopped` alone comes, and only where a count of the region rose in this call, or it
/// had stopped before.
pub(crate) fn stage_turn<R: Region>(
    blocks: Blocks<R>,
    objects: Tree,
    entries: EntryTree,
    change: Change,
    versions: &[Version],
    attempt: AttemptId,
    step: EntryStep,
) -> (Blocks<R>, EntryTree, Result<(), TreeNo>)
    requires objects { objects.kind ≡ 1 }
    requires entries { entries.tree.kind ≡ 7 }
    requires named { All CanBeNamed versions.now }
    requires few { IsTrue R.tells → AreFew change versions.now }
    requires step { IsEntryStep step }
    requires here { IsTrue R.tells → (x : Stored) × StandsBelow (shown R.image blocks) objects.root entries.tree.root x }
    requires room { HasLeft 1024 256000 (left blocks) }
    ensures still { IsStill R.extent R.tells R.image R.may_leave blocks result.0 }
    ensures turned { OnOk result.2 (IsTrue R.tells → (x : Stored) → StandsBelow (shown R.image blocks) objects.root entries.tree.root x → TurnsTo change versions.now attempt step (shown R.image blocks) x (shown R.image result.0) objects.root result.1.tree.root) }
    ensures no_block { IsErrOf result.2 TreeNo.NoBlock → IsTrue R.tells → ⊥ }
    ensures too_much { IsErrOf result.2 TreeNo.TooMuch → IsTrue R.tells → ⊥ }
    ensures left { OnOk result.2 (IsTrue R.tells → HasLeft 1 24 (left result.0)) }
    ensures free { OnOk result.2 (IsTrue R.tells → (left blocks).free ≤ (left result.0).free) }
    ensures gives { OnOk result.2 (IsTrue R.tells → (x : Stored) → StandsBelow (shown R.image blocks) objects.root entries.tree.root x → (left blocks).free + length (versions_in x) ≤ (left result.0).free + length (after_each change versions.now (versions_in x))) }
    ensures goes { Goes (λ b. b.undo.stopped) (λ b. R.count b.undo.region) (λ b. R.burns b.undo.region) blocks result.0 }
    ensures stopped { IsErrOf result.2 TreeNo.Stopped → result.0.undo.stopped ≡ true }
    ensures went_on { OnOk result.2 (result.0.undo.stopped ≡ blocks.undo.stopped) }
{
    stage_as::<R, Brand, Brand>(
        blocks,
        objects,
        entries,
        change,
        versions,
        attempt,
        step,
        Blank::new(1),
    )
}
