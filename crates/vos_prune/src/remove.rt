// One write that is done is taken out.
ghost use Rattle.std.specs.Prelude.{◌≡◌, ◌<◌, ◌≤◌, ◌+◌, true, ℕ, IfOk, OnOk, OnErr, IsErrOf, IsTrue, ⊤};
ghost use Rattle.base_types.specs.Paths.{record_size};
ghost use Rattle.daos_model.specs.Forms.{is_unit};
ghost use Rattle.pmem_tree.specs.Calls.{IsShort};
ghost use Rattle.pmem_tree_base.specs.Calls.{Goes};
ghost use Rattle.pmem_tree_base.specs.declared.refusal.TreeNo.{TreeNo};
ghost use Rattle.vos_levels.specs.Calls.{HasThing, OfThing};
ghost use Rattle.vos_levels.specs.Levels.{hung_root};
ghost use Rattle.vos_path.specs.Objects.{objects_owner, objects_versions};
ghost use Rattle.vos_path.specs.Small.{PathIsSmall};
ghost use Rattle.vos_path.specs.Writes.{NamesAreKeys};
ghost use Rattle.vos_settle.specs.Costs.{Lacks, Spends, for_one, objects_cost};
ghost use Rattle.vos_settle.specs.Versions.{fits_kind};
ghost use Rattle.vos_prune.specs.Removals.{Removed, done_blocks, removed_freed};
ghost use Rattle.vos_prune.specs.Writers.{writer_of};

use crate::find::objects_writer;
use base_types::id::AttemptId;
use base_types::path::Path;
use pmem_pages::pages::Pages;
use pmem_pages::refusal::Stopped;
use pmem_pages::steps::Steps;
use pmem_tree::TreeNo;
use pmem_tree::tree::Tree;
use std::sync::ledger::Ledger;
use vos_levels::change::Change;
use vos_settle::task::{Task, WriteKind};
use vos_settle::write::change_write;
use vos_values::keys::{Moment, ObjectKey};

/// Whose the done version of a write is, if there is one.
///
/// # Errors
///
/// `Stopped` comes only where the pages answered it.
pub fn find_writer<P: Pages, L: Ledger>(
    objects: Tree,
    pages: &mut P,
    path: &Path,
    kind: WriteKind,
    at: Moment,
    steps: &mut Steps<L>,
) -> Result<Option<AttemptId>, Stopped>
    requires kind { objects.kind ≡ 1 }
    requires minor { at.minor < 64 }
    requires fits { fits_kind kind path.now ≡ true }
    requires size { is_unit (record_size path.now) ≡ true }
    requires names { NamesAreKeys path.now }
    requires here { HasThing P.tells objects_owner hung_root (P.blocks pages.old) objects.root (λ g. ⊤) }
    ensures found { IfOk result (λ w. OfThing P.tells objects_owner hung_root (P.blocks pages.old) objects.root (λ g. w ≡ writer_of path.now kind at (objects_versions g))) }
    ensures kept { IsTrue P.tells → P.blocks pages.new ≡ P.blocks pages.old }
    ensures budget { P.budget pages.new ≡ P.budget pages.old }
    ensures goes { Goes P.stopped P.count P.burns pages.old pages.new }
    ensures stopped { OnErr result (P.stopped pages.new ≡ true) }
    ensures went_on { OnOk result (P.stopped pages.new ≡ P.stopped pages.old) }
{
    let Some(obj) = path.obj else {
        return Ok(None);
    };
    let object = ObjectKey {
        cont: path.cont,
        obj,
    };
    objects_writer(objects, pages, object, path, kind, at, steps)
}

/// Takes the done version of one write out, if it is there, with its bytes, and the done creations that
/// its attempt has of it in the logs on its way. All other versions and entries stay, and so do objects,
/// dkeys and akeys.
///
/// # Errors
///
/// `TooMuch` comes only where fewer ranges or bytes are left to stage than its entries and one change of
/// the largest tree may want, `Stopped` only where the pages answered it, and `NoBlock` never. After `TooMuch`
/// fewer are left than one change of the largest tree may want. After one the stage has to be
/// dropped.
pub fn remove_write<P: Pages, L: Ledger>(
    objects: &mut Tree,
    pages: &mut P,
    path: &Path,
    kind: WriteKind,
    at: Moment,
    steps: &mut Steps<L>,
) -> Result<(), TreeNo>
    requires kind { objects.old.kind ≡ 1 }
    requires minor { at.minor < 64 }
    requires fits { fits_kind kind path.now ≡ true }
    requires size { is_unit (record_size path.now) ≡ true }
    requires names { NamesAreKeys path.now }
    requires here { HasThing P.tells objects_owner hung_root (P.blocks pages.old) objects.old.root (λ g. ⊤) }
    ensures removed { OnOk result (OfThing P.tells objects_owner hung_root (P.blocks pages.old) objects.old.root (λ g. Removed (writer_of path.now kind at (objects_versions g)) kind at path.now (P.blocks pages.old) g (P.blocks pages.new) objects.new.root)) }
    ensures kind { objects.new.kind ≡ 1 }
    ensures root { objects.new.root ≡ objects.old.root }
    ensures no_block { IsErrOf result TreeNo.NoBlock → ⊥ }
    ensures too_much { IsErrOf result TreeNo.TooMuch → OfThing P.tells objects_owner hung_root (P.blocks pages.old) objects.old.root (λ g. (d : ℕ) → PathIsSmall d path.now g → Lacks (objects_cost kind path.now.dkey path.now.akey (for_one d) 1) d (P.budget pages.old)) }
    ensures few_left { IsErrOf result TreeNo.TooMuch → OfThing P.tells objects_owner hung_root (P.blocks pages.old) objects.old.root (λ g. (d : ℕ) → PathIsSmall d path.now g → IsShort d (P.budget pages.new)) }
    ensures staged { OnOk result (OfThing P.tells objects_owner hung_root (P.blocks pages.old) objects.old.root (λ g. (d : ℕ) → PathIsSmall d path.now g → Spends (objects_cost kind path.now.dkey path.now.akey (for_one d) 1) (P.budget pages.old) (P.budget pages.new))) }
    ensures free { OnOk result (OfThing P.tells objects_owner hung_root (P.blocks pages.old) objects.old.root (λ g. (P.budget pages.new).free ≡ (P.budget pages.old).free + removed_freed (writer_of path.now kind at (objects_versions g)) kind at path.now g)) }
    ensures gives { OnOk result (OfThing P.tells objects_owner hung_root (P.blocks pages.old) objects.old.root (λ g. (P.budget pages.old).free + done_blocks path.now kind at (objects_versions g) ≤ (P.budget pages.new).free)) }
    ensures goes { Goes P.stopped P.count P.burns pages.old pages.new }
    ensures stopped { IsErrOf result TreeNo.Stopped → P.stopped pages.new ≡ true }
    ensures went_on { OnOk result (P.stopped pages.new ≡ P.stopped pages.old) }
{
    let found = find_writer(*objects, pages, path, kind, at, steps)?;
    let Some(by) = found else {
        return Ok(());
    };
    let task = Task {
        kind,
        at,
        by,
        change: Change::Prune,
    };
    change_write(objects, pages, task, path, steps)
}
