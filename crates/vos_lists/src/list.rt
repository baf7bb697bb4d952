// What listings of an object's dkeys, and of a dkey's akeys, are answered.
ghost use Rattle.std.specs.Prelude.{◌≡◌, true, IfOk, OnOk, IsErrOf, IsTrue};
ghost use Rattle.base_types.specs.Paths.{record_size};
ghost use Rattle.base_types.specs.declared.answer.Answer.TheVariants.{Names};
ghost use Rattle.base_types.specs.declared.operation.Read.TheVariants.{Akeys as akeys_read, Dkeys as dkeys_read};
ghost use Rattle.daos_model.specs.Answers.{answer};
ghost use Rattle.daos_model.specs.Durables.{version_key};
ghost use Rattle.daos_model.specs.Forms.{ends_at_dkey, ends_at_object, is_unit};
ghost use Rattle.daos_model.specs.Ordered.{in_order};
ghost use Rattle.daos_model.specs.Versions.{map_below};
ghost use Rattle.pmem_tree_base.specs.Calls.{Goes};
ghost use Rattle.vos_levels.specs.Calls.{HasThing, OfThing};
ghost use Rattle.vos_levels.specs.Levels.{hung_root};
ghost use Rattle.vos_chain.specs.declared.refusal.PiecesNo.TheVariants.{Stopped as stopped_no};
ghost use Rattle.vos_path.specs.Objects.{objects_owner, objects_versions};
ghost use Rattle.vos_path.specs.Writes.{NamesAreKeys};
ghost use Rattle.vos_punches.specs.Punches.{ArePunchesOf};
ghost use Rattle.vos_punches.specs.Rows.{moments_at};
ghost use Rattle.vos_reads.specs.Ways.{IsSettled};

use crate::akeys::akey_names;
use crate::dkeys::dkey_names;
use crate::under::{under_dkey, under_object};
use crate::view::View;
use base_types::answer::Keys;
use base_types::epoch::Epoch;
use base_types::items::Items;
use base_types::path::Path;
use pmem_pages::pages::Pages;
use pmem_pages::steps::Steps;
use pmem_tree::tree::Tree;
use std::alloc::Global;
use std::sync::ledger::Ledger;
use vos_chain::refusal::PiecesNo;
use vos_punches::punches::Punches;
use vos_values::keys::ObjectKey;

/// What a listing of an object's dkeys is answered below an epoch, where every version below it that
/// overlaps the path is settled: what the map of the versions below is answered. The punches are those
/// of all versions of the objects.
///
/// # Errors
///
/// `Stopped` comes only where the pages answered it.
pub fn list_dkeys<P: Pages, L: Ledger>(
    objects: Tree,
    pages: &mut P,
    alloc: Global,
    path: &Path,
    below: Epoch,
    punches: &Punches,
    steps: &mut Steps<L>,
) -> Result<Keys, PiecesNo>
    requires kind { objects.kind ≡ 1 }
    requires form { ends_at_object path.now ≡ true }
    requires size { is_unit (record_size path.now) ≡ true }
    requires here { HasThing P.tells objects_owner hung_root (P.blocks pages.old) objects.root (IsSettled path.now below) }
    requires punches { HasThing P.tells objects_owner hung_root (P.blocks pages.old) objects.root (λ g. ArePunchesOf (objects_versions g) (moments_at punches.now)) }
    ensures found { IfOk result (λ names. OfThing P.tells objects_owner hung_root (P.blocks pages.old) objects.root (λ g. IsSettled path.now below g → ArePunchesOf (objects_versions g) (moments_at punches.now) → Names names ≡ answer (dkeys_read path.now) (map_below (in_order version_key (objects_versions g)) below.0))) }
    ensures kept { IsTrue P.tells → P.blocks pages.new ≡ P.blocks pages.old }
    ensures budget { P.budget pages.new ≡ P.budget pages.old }
    ensures goes { Goes P.stopped P.count P.burns pages.old pages.new }
    ensures stopped { IsErrOf result stopped_no → P.stopped pages.new ≡ true }
    ensures went_on { OnOk result (P.stopped pages.new ≡ P.stopped pages.old) }
{
    let Some(obj) = path.obj else {
        return Ok(Items::new(alloc));
    };
    let object = ObjectKey {
        cont: path.cont,
        obj,
    };
    let view = View {
        unit: obj.unit,
        below,
    };
    let root = under_object(objects, pages, object, steps)?;
    dkey_names(root, pages, alloc, view, path, punches, u64::MAX, steps)
}

/// What a listing of a dkey's akeys is answered below an epoch, where every version below it that overlaps
/// the path is settled: what the map of the versions below is answered. The punches are those
/// of all versions of the objects.
///
/// # Errors
///
/// `Stopped` comes only where the pages answered it.
pub fn list_akeys<P: Pages, L: Ledger>(
    objects: Tree,
    pages: &mut P,
    alloc: Global,
    path: &Path,
    below: Epoch,
    punches: &Punches,
    steps: &mut Steps<L>,
) -> Result<Keys, PiecesNo>
    requires kind { objects.kind ≡ 1 }
    requires form { ends_at_dkey path.now ≡ true }
    requires size { is_unit (record_size path.now) ≡ true }
    requires names { NamesAreKeys path.now }
    requires here { HasThing P.tells objects_owner hung_root (P.blocks pages.old) objects.root (IsSettled path.now below) }
    requires punches { HasThing P.tells objects_owner hung_root (P.blocks pages.old) objects.root (λ g. ArePunchesOf (objects_versions g) (moments_at punches.now)) }
    ensures found { IfOk result (λ names. OfThing P.tells objects_owner hung_root (P.blocks pages.old) objects.root (λ g. IsSettled path.now below g → ArePunchesOf (objects_versions g) (moments_at punches.now) → Names names ≡ answer (akeys_read path.now) (map_below (in_order version_key (objects_versions g)) below.0))) }
    ensures kept { IsTrue P.tells → P.blocks pages.new ≡ P.blocks pages.old }
    ensures budget { P.budget pages.new ≡ P.budget pages.old }
    ensures goes { Goes P.stopped P.count P.burns pages.old pages.new }
    ensures stopped { IsErrOf result stopped_no → P.stopped pages.new ≡ true }
    ensures went_on { OnOk result (P.stopped pages.new ≡ P.stopped pages.old) }
{
    let (Some(obj), Some(dkey)) = (path.obj, &path.dkey) else {
        return Ok(Items::new(alloc));
    };
    let object = ObjectKey {
        cont: path.cont,
        obj,
    };
    let view = View {
        unit: obj.unit,
        below,
    };
    let root = under_dkey(objects, pages, object, dkey, steps)?;
    akey_names(root, pages, alloc, view, path, punches, u64::MAX, steps)
}
