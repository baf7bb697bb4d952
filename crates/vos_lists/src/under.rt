// The way from a tree of objects down to the dkeys of an object, or to the akeys of a dkey.
ghost use Rattle.std.specs.Prelude.{◌≡◌, true, IfOk, OnOk, OnErr, IsTrue, ⊤};
ghost use Rattle.pmem_tree_base.specs.Calls.{Goes};
ghost use Rattle.vos_values.specs.declared.keys.Layout.TheVariants.{Two};
ghost use Rattle.vos_values.specs.Keys.{IsName, IsObjectKey, is_size};
ghost use Rattle.vos_levels.specs.Calls.{HasThing, OfThing};
ghost use Rattle.vos_levels.specs.Levels.{hung_root};
ghost use Rattle.vos_path.specs.Objects.{objects_owner};
ghost use Rattle.vos_reads.specs.Ways.{below_object, dkey_of};

use base_types::key::Key;
use pmem_pages::pages::Pages;
use pmem_pages::refusal::Stopped;
use pmem_pages::steps::Steps;
use pmem_tree::tree::Tree;
use std::sync::ledger::Ledger;
use vos_path::find::{find_roots, roots_or_zero};
use vos_path::name::{key_of, key_of_object};
use vos_values::keys::ObjectKey;

/// The root of the tree of an object's dkeys, or 0.
///
/// # Errors
///
/// `Stopped` comes only where the pages answered it.
pub fn under_object<P: Pages, L: Ledger>(
    objects: Tree,
    pages: &mut P,
    object: ObjectKey,
    steps: &mut Steps<L>,
) -> Result<u32, Stopped>
    requires kind { objects.kind ≡ 1 }
    requires size { is_size Two object.obj.unit ≡ true }
    requires here { HasThing P.tells objects_owner hung_root (P.blocks pages.old) objects.root (λ g. ⊤) }
    ensures found { IfOk result (λ root. OfThing P.tells objects_owner hung_root (P.blocks pages.old) objects.root (λ g. root ≡ hung_root (below_object object g).1)) }
    ensures object { IsObjectKey Two object }
    ensures kept { IsTrue P.tells → P.blocks pages.new ≡ P.blocks pages.old }
    ensures budget { P.budget pages.new ≡ P.budget pages.old }
    ensures goes { Goes P.stopped P.count P.burns pages.old pages.new }
    ensures stopped { OnErr result (P.stopped pages.new ≡ true) }
    ensures went_on { OnOk result (P.stopped pages.new ≡ P.stopped pages.old) }
{
    let key = key_of_object(object);
    let roots = roots_or_zero(find_roots(objects, pages, &key, steps)?);
    Ok(roots.below)
}

/// The root of the tree of the akeys of an object's dkey, or 0.
///
/// # Errors
///
/// `Stopped` comes only where the pages answered it.
pub fn under_dkey<P: Pages, L: Ledger>(
    objects: Tree,
    pages: &mut P,
    object: ObjectKey,
    dkey: &Key,
    steps: &mut Steps<L>,
) -> Result<u32, Stopped>
    requires kind { objects.kind ≡ 1 }
    requires size { is_size Two object.obj.unit ≡ true }
    requires dkey { IsName dkey.now }
    requires here { HasThing P.tells objects_owner hung_root (P.blocks pages.old) objects.root (λ g. ⊤) }
    ensures found { IfOk result (λ root. OfThing P.tells objects_owner hung_root (P.blocks pages.old) objects.root (λ g. root ≡ hung_root (dkey_of object dkey.now g).1)) }
    ensures object { IsObjectKey Two object }
    ensures kept { IsTrue P.tells → P.blocks pages.new ≡ P.blocks pages.old }
    ensures budget { P.budget pages.new ≡ P.budget pages.old }
    ensures goes { Goes P.stopped P.count P.burns pages.old pages.new }
    ensures stopped { OnErr result (P.stopped pages.new ≡ true) }
    ensures went_on { OnOk result (P.stopped pages.new ≡ P.stopped pages.old) }
{
    let root = under_object(objects, pages, object, steps)?;
    let dkeys = Tree { kind: 2, root };
    let roots = roots_or_zero(find_roots(dkeys, pages, &key_of(dkey), steps)?);
    Ok(roots.below)
}
