// Versions and an entry, on both trees.
ghost use Rattle.std.specs.Prelude.{◌≡◌, ◌≤◌, ◌+◌, true, length, All, IsErrOf, IsTrue, OnOk};
ghost use Rattle.pmem_tree_base.specs.Calls.{Goes};
ghost use Rattle.pmem_tree_base.specs.declared.refusal.TreeNo.{TreeNo};
ghost use Rattle.vos_fitting.specs.vos_image.Kept.{Stored};
ghost use Rattle.vos_fitting.specs.vos_path.Objects.{objects_versions};
ghost use Rattle.vos_small.specs.Rooms.{HasLeft};
ghost use Rattle.vos_turns.specs.Turns.{AreFew, CanBeNamed, IsEntryStep, StandsBelow, TurnsTo, after_each};

use crate::entries::{EntryStep, step_entry};
use crate::versions::change_versions;
use base_types::id::AttemptId;
use daos_model::durable::Version;
use pmem_pages::pages::Pages;
use pmem_pages::steps::Steps;
use pmem_tree::TreeNo;
use pmem_tree::tree::Tree;
use std::sync::ledger::Ledger;
use vos_entries::entries::EntryTree;
use vos_levels::change::Change;

/// Of some versions those that a change takes become done, or go, and then the entry of an attempt steps on.
/// At most 64 become done at once, or one goes, which gives back a block at least. The objects keep their root. Where
/// nothing was staged before, one range of 24 bytes can be staged after it.
///
/// # Errors
///
/// Where the pages tell their blocks, `Stopped` alone comes, and only where the pages answered it. After one the
/// stage has to be dropped.
pub fn turn<P: Pages, L: Ledger>(
    objects: Tree,
    entries: &mut EntryTree,
    pages: &mut P,
    change: Change,
    versions: &[Version],
    attempt: AttemptId,
    step: EntryStep,
    steps: &mut Steps<L>,
) -> Result<(), TreeNo>
    requires objects { objects.kind ≡ 1 }
    requires entries { entries.old.tree.kind ≡ 7 }
    requires named { All CanBeNamed versions.now }
    requires few { IsTrue P.tells → AreFew change versions.now }
    requires step { IsEntryStep step }
    requires here { IsTrue P.tells → (x : Stored) × StandsBelow (P.blocks pages.old) objects.root entries.old.tree.root x }
    requires room { HasLeft 1024 256000 (P.budget pages.old) }
    ensures turned { OnOk result (IsTrue P.tells → (x : Stored) → StandsBelow (P.blocks pages.old) objects.root entries.old.tree.root x → TurnsTo change versions.now attempt step (P.blocks pages.old) x (P.blocks pages.new) objects.root entries.new.tree.root) }
    ensures kind { entries.new.tree.kind ≡ 7 }
    ensures no_block { IsErrOf result TreeNo.NoBlock → IsTrue P.tells → ⊥ }
    ensures too_much { IsErrOf result TreeNo.TooMuch → IsTrue P.tells → ⊥ }
    ensures left { OnOk result (IsTrue P.tells → HasLeft 1 24 (P.budget pages.new)) }
    ensures free { OnOk result (IsTrue P.tells → (P.budget pages.old).free ≤ (P.budget pages.new).free) }
    ensures gives { OnOk result (IsTrue P.tells → (x : Stored) → StandsBelow (P.blocks pages.old) objects.root entries.old.tree.root x → (P.budget pages.old).free + length (objects_versions x.0) ≤ (P.budget pages.new).free + length (after_each change versions.now (objects_versions x.0))) }
    ensures goes { Goes P.stopped P.count P.burns pages.old pages.new }
    ensures stopped { IsErrOf result TreeNo.Stopped → P.stopped pages.new ≡ true }
    ensures went_on { OnOk result (P.stopped pages.new ≡ P.stopped pages.old) }
{
    change_versions(objects, pages, change, versions, steps)?;
    step_entry(entries, pages, attempt, step, steps)
}
