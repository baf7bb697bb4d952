// The way from a tree of objects down to an akey.
ghost use Rattle.std.specs.Prelude.{◌≡◌, true, IfOk, OnOk, OnErr, IsTrue, ⊤};
ghost use Rattle.pmem_tree_base.specs.Calls.{Goes};
ghost use Rattle.vos_values.specs.declared.keys.Layout.TheVariants.{Two};
ghost use Rattle.vos_values.specs.Keys.{IsName, IsObjectKey, is_size};
ghost use Rattle.vos_levels.specs.Calls.{HasThing, OfThing};
ghost use Rattle.vos_levels.specs.Levels.{hung_root};
ghost use Rattle.vos_reads.specs.Cost.{StepsToAkey};
ghost use Rattle.vos_path.specs.Objects.{objects_owner, values_roots};
ghost use Rattle.vos_reads.specs.Ways.{akey_of};

use base_types::key::Key;
use pmem_pages::pages::Pages;
use pmem_pages::refusal::Stopped;
use pmem_pages::steps::Steps;
use pmem_tree::tree::Tree;
use std::sync::ledger::Ledger;
use vos_path::find::{akey_or_zero, find_akey, find_roots, roots_or_zero};
use vos_path::name::{key_of, key_of_object};
use vos_values::keys::ObjectKey;
use vos_values::values::AkeyRoots;

/// The roots of an akey of an object, found by three look-ups. Where it isn't there they are 0.
///
/// # Errors
///
/// `Stopped` comes only where the pages answered it.
pub fn way_down<P: Pages, L: Ledger>(
    objects: Tree,
    pages: &mut P,
    object: ObjectKey,
    dkey: &Key,
    akey: &Key,
    steps: &mut Steps<L>,
) -> Result<AkeyRoots, Stopped>
    requires kind { objects.kind ≡ 1 }
    requires size { is_size Two object.obj.unit ≡ true }
    requires dkey { IsName dkey.now }
    requires akey { IsName akey.now }
    requires here { HasThing P.tells objects_owner hung_root (P.blocks pages.old) objects.root (λ g. ⊤) }
    ensures found { IfOk result (λ w. OfThing P.tells objects_owner hung_root (P.blocks pages.old) objects.root (λ g. w ≡ values_roots (akey_of object dkey.now akey.now g))) }
    ensures object { IsObjectKey Two object }
    ensures steps { OfThing P.tells objects_owner hung_root (P.blocks pages.old) objects.root (λ g. StepsToAkey object dkey.now g steps.old steps.new) }
    ensures kept { IsTrue P.tells → P.blocks pages.new ≡ P.blocks pages.old }
    ensures budget { P.budget pages.new ≡ P.budget pages.old }
    ensures goes { Goes P.stopped P.count P.burns pages.old pages.new }
    ensures stopped { OnErr result (P.stopped pages.new ≡ true) }
    ensures went_on { OnOk result (P.stopped pages.new ≡ P.stopped pages.old) }
{
    let key = key_of_object(object);
    let top = roots_or_zero(find_roots(objects, pages, &key, steps)?);
    let dkeys = Tree {
        kind: 2,
        root: top.below,
    };
    let mid = roots_or_zero(find_roots(dkeys, pages, &key_of(dkey), steps)?);
    let akeys = Tree {
        kind: 3,
        root: mid.below,
    };
    Ok(akey_or_zero(find_akey(akeys, pages, &key_of(akey), steps)?))
}
