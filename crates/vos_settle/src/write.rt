// One write of a path is settled or pruned.
ghost use Rattle.std.specs.Prelude.{◌≡◌, ◌<◌, ◌≤◌, ◌+◌, true, ℕ, OnOk, IsErrOf, ⊤};
ghost use Rattle.base_types.specs.Paths.{record_size};
ghost use Rattle.daos_model.specs.Forms.{is_unit};
ghost use Rattle.pmem_tree.specs.Calls.{IsShort};
ghost use Rattle.pmem_tree_base.specs.Calls.{Goes};
ghost use Rattle.pmem_tree_base.specs.declared.refusal.TreeNo.{TreeNo};
ghost use Rattle.vos_levels.specs.Calls.{HasThing, OfThing};
ghost use Rattle.vos_levels.specs.Changes.{keeps};
ghost use Rattle.vos_levels.specs.Levels.{hung_root};
ghost use Rattle.vos_path.specs.Objects.{objects_owner, objects_versions};
ghost use Rattle.vos_path.specs.Small.{PathIsSmall};
ghost use Rattle.vos_path.specs.Writes.{NamesAreKeys};
ghost use Rattle.vos_settle.specs.Costs.{Lacks, Spends, for_one, objects_cost};
ghost use Rattle.vos_settle.specs.Versions.{WriteTurn, fits_kind, versions_freed, write_freed};

use crate::objects::change_objects;
use crate::task::Task;
use base_types::path::Path;
use pmem_pages::pages::Pages;
use pmem_pages::steps::Steps;
use pmem_tree::TreeNo;
use pmem_tree::tree::Tree;
use std::sync::ledger::Ledger;
use vos_values::keys::ObjectKey;

/// Settles or prunes the version of one write, and the creations that an attempt has of it in the logs on
/// its way. All other versions and entries stay, and so do objects, dkeys and akeys.
///
/// # Errors
///
/// `TooMuch` comes only where fewer ranges or bytes are left to stage than its entries and one change of
/// the largest tree may want, `Stopped` only where the pages answered it, and `NoBlock` never. After `TooMuch`
/// fewer are left than one change of the largest tree may want. After one the stage has to be
/// dropped.
pub fn change_write<P: Pages, L: Ledger>(
    objects: &mut Tree,
    pages: &mut P,
    task: Task,
    path: &Path,
    steps: &mut Steps<L>,
) -> Result<(), TreeNo>
    requires kind { objects.old.kind ≡ 1 }
    requires minor { task.at.minor < 64 }
    requires fits { fits_kind task.kind path.now ≡ true }
    requires size { is_unit (record_size path.now) ≡ true }
    requires names { NamesAreKeys path.now }
    requires here { HasThing P.tells objects_owner hung_root (P.blocks pages.old) objects.old.root (λ g. ⊤) }
    ensures changed { OnOk result (OfThing P.tells objects_owner hung_root (P.blocks pages.old) objects.old.root (λ g. WriteTurn task path.now (P.blocks pages.old) g (P.blocks pages.new) objects.new.root)) }
    ensures kind { objects.new.kind ≡ 1 }
    ensures root { objects.new.root ≡ objects.old.root }
    ensures no_block { IsErrOf result TreeNo.NoBlock → ⊥ }
    ensures too_much { IsErrOf result TreeNo.TooMuch → OfThing P.tells objects_owner hung_root (P.blocks pages.old) objects.old.root (λ g. (d : ℕ) → PathIsSmall d path.now g → Lacks (objects_cost task.kind path.now.dkey path.now.akey (for_one d) 1) d (P.budget pages.old)) }
    ensures few_left { IsErrOf result TreeNo.TooMuch → OfThing P.tells objects_owner hung_root (P.blocks pages.old) objects.old.root (λ g. (d : ℕ) → PathIsSmall d path.now g → IsShort d (P.budget pages.new)) }
    ensures staged { OnOk result (OfThing P.tells objects_owner hung_root (P.blocks pages.old) objects.old.root (λ g. (d : ℕ) → PathIsSmall d path.now g → Spends (objects_cost task.kind path.now.dkey path.now.akey (for_one d) 1) (P.budget pages.old) (P.budget pages.new))) }
    ensures committed { keeps task.change ≡ true → Spends (objects_cost task.kind path.now.dkey path.now.akey 1 0) (P.budget pages.old) (P.budget pages.new) }
    ensures free { OnOk result (OfThing P.tells objects_owner hung_root (P.blocks pages.old) objects.old.root (λ g. (P.budget pages.new).free ≡ (P.budget pages.old).free + write_freed task path.now g)) }
    ensures gives { OnOk result (OfThing P.tells objects_owner hung_root (P.blocks pages.old) objects.old.root (λ g. (P.budget pages.old).free + versions_freed task path.now (objects_versions g) ≤ (P.budget pages.new).free)) }
    ensures goes { Goes P.stopped P.count P.burns pages.old pages.new }
    ensures stopped { IsErrOf result TreeNo.Stopped → P.stopped pages.new ≡ true }
    ensures went_on { OnOk result (P.stopped pages.new ≡ P.stopped pages.old) }
{
    let Some(obj) = path.obj else {
        return Ok(());
    };
    let object = ObjectKey {
        cont: path.cont,
        obj,
    };
    change_objects(objects, pages, task, object, path, steps)
}
