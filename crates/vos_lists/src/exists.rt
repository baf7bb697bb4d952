// Whether there is a cell below a container, an object, a dkey or an akey.
ghost use Rattle.std.specs.Prelude.{◌≡◌, true, IfOk, OnOk, OnErr, IsErrOf, IsTrue, ⊤};
ghost use Rattle.base_types.specs.Paths.{record_size};
ghost use Rattle.base_types.specs.declared.operation.Read.TheVariants.{Exists as exists_read};
ghost use Rattle.daos_model.specs.Answers.{answer, yes_or_no};
ghost use Rattle.daos_model.specs.Durables.{version_key};
ghost use Rattle.daos_model.specs.Forms.{is_path_in_form, is_unit};
ghost use Rattle.daos_model.specs.Ordered.{in_order};
ghost use Rattle.daos_model.specs.Versions.{map_below};
ghost use Rattle.pmem_tree_base.specs.Calls.{Goes};
ghost use Rattle.vos_values.specs.declared.keys.Layout.TheVariants.{Two};
ghost use Rattle.vos_values.specs.Keys.{IsName, IsObjectKey, is_size};
ghost use Rattle.vos_levels.specs.Calls.{HasThing, OfThing};
ghost use Rattle.vos_levels.specs.Levels.{hung_root};
ghost use Rattle.vos_chain.specs.declared.refusal.PiecesNo.TheVariants.{Stopped as stopped_no};
ghost use Rattle.vos_path.specs.Objects.{objects_owner, objects_versions};
ghost use Rattle.vos_path.specs.Writes.{NamesAreKeys};
ghost use Rattle.vos_punches.specs.Punches.{ArePunchesOf};
ghost use Rattle.vos_punches.specs.Rows.{moments_at};
ghost use Rattle.vos_reads.specs.Ways.{IsSettled, akey_of, below_object, dkey_of};
ghost use Rattle.vos_lists.specs.Covers.{CoverAkeys, CoverDkeys};
ghost use Rattle.vos_lists.specs.Stands.{below_stands, has_value, object_stands};
ghost use Rattle.vos_lists.specs.Unders.{over_akeys, over_dkeys};

use crate::akeys::any_akey;
use crate::conts::cont_stands;
use crate::dkeys::any_dkey;
use crate::under::{under_dkey, under_object};
use crate::values::has_value;
use crate::view::View;
use base_types::answer::Answer;
use base_types::epoch::Epoch;
use base_types::key::Key;
use base_types::path::Path;
use pmem_pages::pages::Pages;
use pmem_pages::refusal::Stopped;
use pmem_pages::steps::Steps;
use pmem_tree::tree::Tree;
use std::alloc::Global;
use std::sync::ledger::Ledger;
use vos_chain::refusal::PiecesNo;
use vos_punches::punches::Punches;
use vos_reads::way::way_down;
use vos_values::keys::{Moment, ObjectKey};

// Whether an object has a cell, that of a path.
fn object_stands<P: Pages, L: Ledger>(
    objects: Tree,
    pages: &mut P,
    alloc: Global,
    object: ObjectKey,
    path: &Path,
    view: View,
    punches: &Punches,
    steps: &mut Steps<L>,
) -> Result<bool, PiecesNo>
    requires kind { objects.kind ≡ 1 }
    requires size { is_size Two object.obj.unit ≡ true }
    requires here { HasThing P.tells objects_owner hung_root (P.blocks pages.old) objects.root (λ g. ⊤) }
    ensures found { IfOk result (λ b. OfThing P.tells objects_owner hung_root (P.blocks pages.old) objects.root (λ g. CoverDkeys view (moments_at punches.now) path.now (over_dkeys view object g) (below_object object g).1 → b ≡ object_stands view (below_object object g))) }
    ensures object { IsObjectKey Two object }
    ensures kept { IsTrue P.tells → P.blocks pages.new ≡ P.blocks pages.old }
    ensures budget { P.budget pages.new ≡ P.budget pages.old }
    ensures goes { Goes P.stopped P.count P.burns pages.old pages.new }
    ensures stopped { IsErrOf result stopped_no → P.stopped pages.new ≡ true }
    ensures went_on { OnOk result (P.stopped pages.new ≡ P.stopped pages.old) }
{
    let root = under_object(objects, pages, object, steps)?;
    any_dkey(root, pages, alloc, view, path, punches, steps)
}

// Whether a dkey has a cell, that of a path.
fn dkey_stands<P: Pages, L: Ledger>(
    objects: Tree,
    pages: &mut P,
    alloc: Global,
    object: ObjectKey,
    dkey: &Key,
    path: &Path,
    view: View,
    punches: &Punches,
    steps: &mut Steps<L>,
) -> Result<bool, PiecesNo>
    requires kind { objects.kind ≡ 1 }
    requires size { is_size Two object.obj.unit ≡ true }
    requires dkey { IsName dkey.now }
    requires here { HasThing P.tells objects_owner hung_root (P.blocks pages.old) objects.root (λ g. ⊤) }
    ensures found { IfOk result (λ b. OfThing P.tells objects_owner hung_root (P.blocks pages.old) objects.root (λ g. CoverAkeys view (moments_at punches.now) path.now (over_akeys view object dkey.now g) (dkey_of object dkey.now g).1 → b ≡ below_stands view (over_dkeys view object g) (dkey_of object dkey.now g))) }
    ensures object { IsObjectKey Two object }
    ensures kept { IsTrue P.tells → P.blocks pages.new ≡ P.blocks pages.old }
    ensures budget { P.budget pages.new ≡ P.budget pages.old }
    ensures goes { Goes P.stopped P.count P.burns pages.old pages.new }
    ensures stopped { IsErrOf result stopped_no → P.stopped pages.new ≡ true }
    ensures went_on { OnOk result (P.stopped pages.new ≡ P.stopped pages.old) }
{
    let root = under_dkey(objects, pages, object, dkey, steps)?;
    any_akey(root, pages, alloc, view, path, punches, steps)
}

// Whether an akey has a cell, where one punch is the last that covers it.
fn akey_stands<P: Pages, L: Ledger>(
    objects: Tree,
    pages: &mut P,
    object: ObjectKey,
    dkey: &Key,
    akey: &Key,
    view: View,
    punched: Option<Moment>,
    steps: &mut Steps<L>,
) -> Result<bool, Stopped>
    requires kind { objects.kind ≡ 1 }
    requires size { is_size Two object.obj.unit ≡ true }
    requires dkey { IsName dkey.now }
    requires akey { IsName akey.now }
    requires here { HasThing P.tells objects_owner hung_root (P.blocks pages.old) objects.root (λ g. ⊤) }
    ensures found { IfOk result (λ b. OfThing P.tells objects_owner hung_root (P.blocks pages.old) objects.root (λ g. b ≡ has_value view punched (akey_of object dkey.now akey.now g))) }
    ensures object { IsObjectKey Two object }
    ensures kept { IsTrue P.tells → P.blocks pages.new ≡ P.blocks pages.old }
    ensures budget { P.budget pages.new ≡ P.budget pages.old }
    ensures goes { Goes P.stopped P.count P.burns pages.old pages.new }
    ensures stopped { OnErr result (P.stopped pages.new ≡ true) }
    ensures went_on { OnOk result (P.stopped pages.new ≡ P.stopped pages.old) }
{
    let roots = way_down(objects, pages, object, dkey, akey, steps)?;
    has_value(roots, pages, view, punched, steps)
}

// The answer that says so.
fn yes_or_no(holds: bool) -> Answer
    ensures { result ≡ yes_or_no holds }
{
    if holds { Answer::Yes } else { Answer::No }
}

/// What is answered below an epoch to whether there is a cell below a container, an object, a dkey or an
/// akey, where every version below the epoch that overlaps the path is settled: what the map of the
/// versions below is answered. The punches are those of all versions of the objects.
///
/// # Errors
///
/// `Stopped` comes only where the pages answered it.
pub fn fetch_exists<P: Pages, L: Ledger>(
    objects: Tree,
    pages: &mut P,
    alloc: Global,
    path: &Path,
    below: Epoch,
    punches: &Punches,
    steps: &mut Steps<L>,
) -> Result<Answer, PiecesNo>
    requires kind { objects.kind ≡ 1 }
    requires form { is_path_in_form path.now ≡ true }
    requires size { is_unit (record_size path.now) ≡ true }
    requires names { NamesAreKeys path.now }
    requires here { HasThing P.tells objects_owner hung_root (P.blocks pages.old) objects.root (IsSettled path.now below) }
    requires punches { HasThing P.tells objects_owner hung_root (P.blocks pages.old) objects.root (λ g. ArePunchesOf (objects_versions g) (moments_at punches.now)) }
    ensures found { IfOk result (λ a. OfThing P.tells objects_owner hung_root (P.blocks pages.old) objects.root (λ g. IsSettled path.now below g → ArePunchesOf (objects_versions g) (moments_at punches.now) → a ≡ answer (exists_read path.now) (map_below (in_order version_key (objects_versions g)) below.0))) }
    ensures kept { IsTrue P.tells → P.blocks pages.new ≡ P.blocks pages.old }
    ensures budget { P.budget pages.new ≡ P.budget pages.old }
    ensures goes { Goes P.stopped P.count P.burns pages.old pages.new }
    ensures stopped { IsErrOf result stopped_no → P.stopped pages.new ≡ true }
    ensures went_on { OnOk result (P.stopped pages.new ≡ P.stopped pages.old) }
{
    let Some(obj) = path.obj else {
        let stands = cont_stands(objects, pages, alloc, path.cont, below, punches, steps)?;
        return Ok(yes_or_no(stands));
    };
    let object = ObjectKey {
        cont: path.cont,
        obj,
    };
    let view = View {
        unit: obj.unit,
        below,
    };
    match (&path.dkey, &path.akey) {
        (Some(dkey), Some(akey)) => {
            let punched = punches.covering(path, below);
            let stands = akey_stands(objects, pages, object, dkey, akey, view, punched, steps)?;
            Ok(yes_or_no(stands))
        }
        (Some(dkey), None) => {
            let stands = dkey_stands(
                objects, pages, alloc, object, dkey, path, view, punches, steps,
            )?;
            Ok(yes_or_no(stands))
        }
        (None, _) => {
            let stands = object_stands(objects, pages, alloc, object, path, view, punches, steps)?;
            Ok(yes_or_no(stands))
        }
    }
}
