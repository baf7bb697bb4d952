// The names of writes below all objects.
ghost use Rattle.std.specs.Prelude.{◌≡◌, true, All, IfOk, OnOk, IsErrOf, IsTrue, ⊤};
ghost use Rattle.pmem_tree_base.specs.Calls.{Goes};
ghost use Rattle.vos_levels.specs.Calls.{HasThing, OfThing};
ghost use Rattle.vos_levels.specs.Levels.{hung_root};
ghost use Rattle.vos_chain.specs.declared.refusal.PiecesNo.TheVariants.{Stopped as stopped_no};
ghost use Rattle.vos_path.specs.Calls.{HasAt, OfAt};
ghost use Rattle.vos_path.specs.Objects.{below_object_versions, below_owner, below_roots, dkey_level, objects_owner, objects_versions};
ghost use Rattle.vos_values.specs.Keys.{is_size};
ghost use Rattle.vos_values.specs.declared.keys.Layout.TheVariants.{Two};
ghost use Rattle.vos_settle.specs.Names.{IsNamed};
ghost use Rattle.vos_gather.specs.Wanted.{Listed, names_in, want_of};

use crate::dkeys::list_dkeys;
use crate::log::list_log;
use crate::wanted::Wanted;
use base_types::path::Path;
use pmem_pages::pages::Pages;
use pmem_pages::steps::Steps;
use pmem_tree::tree::Tree;
use std::alloc::Global;
use std::sync::ledger::Ledger;
use vos_chain::refusal::PiecesNo;
use vos_lists::entry::{ObjectEntry, PAIRS, least_key, next_object};
use vos_settle::name::WriteName;

// Puts the names of the wanted writes of an object, its dkeys and their akeys behind others.
fn list_object<P: Pages, L: Ledger>(
    object: ObjectEntry,
    pages: &mut P,
    alloc: Global,
    wanted: &Wanted,
    names: &mut Vec<WriteName>,
    steps: &mut Steps<L>,
) -> Result<(), PiecesNo>
    requires size { is_size Two object.name.obj.unit ≡ true }
    requires here { HasAt P.tells (below_owner dkey_level) below_roots (P.blocks pages.old) object.roots (λ g. ⊤) }
    ensures listed { OnOk result (OfAt P.tells (below_owner dkey_level) below_roots (P.blocks pages.old) object.roots (λ g. Listed (want_of wanted.now) (below_object_versions object.name g) names.old.items names.new.items)) }
    ensures named { All IsNamed names.old.items → All IsNamed names.new.items }
    ensures kept { IsTrue P.tells → P.blocks pages.new ≡ P.blocks pages.old }
    ensures budget { P.budget pages.new ≡ P.budget pages.old }
    ensures goes { Goes P.stopped P.count P.burns pages.old pages.new }
    ensures stopped { IsErrOf result stopped_no → P.stopped pages.new ≡ true }
    ensures went_on { OnOk result (P.stopped pages.new ≡ P.stopped pages.old) }
{
    let path = Path {
        cont: object.name.cont,
        obj: Some(object.name.obj),
        dkey: None,
        akey: None,
    };
    list_log(object.roots.log, pages, &path, wanted, names, steps)?;
    list_dkeys(
        object.roots.below,
        pages,
        alloc,
        &path,
        wanted,
        names,
        steps,
    )
}

// Puts the names of the wanted writes of all objects behind others.
fn list_objects<P: Pages, L: Ledger>(
    objects: Tree,
    pages: &mut P,
    alloc: Global,
    wanted: &Wanted,
    names: &mut Vec<WriteName>,
    steps: &mut Steps<L>,
) -> Result<(), PiecesNo>
    requires kind { objects.kind ≡ 1 }
    requires here { HasThing P.tells objects_owner hung_root (P.blocks pages.old) objects.root (λ g. ⊤) }
    ensures listed { OnOk result (OfThing P.tells objects_owner hung_root (P.blocks pages.old) objects.root (λ g. Listed (want_of wanted.now) (objects_versions g) names.old.items names.new.items)) }
    ensures named { All IsNamed names.old.items → All IsNamed names.new.items }
    ensures kept { IsTrue P.tells → P.blocks pages.new ≡ P.blocks pages.old }
    ensures budget { P.budget pages.new ≡ P.budget pages.old }
    ensures goes { Goes P.stopped P.count P.burns pages.old pages.new }
    ensures stopped { IsErrOf result stopped_no → P.stopped pages.new ≡ true }
    ensures went_on { OnOk result (P.stopped pages.new ≡ P.stopped pages.old) }
{
    let mut key = least_key();
    for _ in 0..PAIRS {
        let Some(object) = next_object(objects, pages, &key, steps)? else {
            return Ok(());
        };
        list_object(object, pages, alloc, wanted, names, steps)?;
        key = object.key;
    }
    Ok(())
}

/// The names of the writes of objects that are wanted, found by one walk over all objects, dkeys and akeys. What
/// stands in the log of a path comes before what lies below it, single values before extents.
///
/// # Errors
///
/// `Stopped` comes only where the pages answered it.
pub fn list_names<P: Pages, L: Ledger>(
    objects: Tree,
    pages: &mut P,
    alloc: Global,
    wanted: &Wanted,
    steps: &mut Steps<L>,
) -> Result<Vec<WriteName>, PiecesNo>
    requires kind { objects.kind ≡ 1 }
    requires here { HasThing P.tells objects_owner hung_root (P.blocks pages.old) objects.root (λ g. ⊤) }
    ensures listed { IfOk result (λ names. OfThing P.tells objects_owner hung_root (P.blocks pages.old) objects.root (λ g. names.items ≡ names_in (want_of wanted.now) (objects_versions g))) }
    ensures named { IfOk result (λ names. All IsNamed names.items) }
    ensures kept { IsTrue P.tells → P.blocks pages.new ≡ P.blocks pages.old }
    ensures budget { P.budget pages.new ≡ P.budget pages.old }
    ensures goes { Goes P.stopped P.count P.burns pages.old pages.new }
    ensures stopped { IsErrOf result stopped_no → P.stopped pages.new ≡ true }
    ensures went_on { OnOk result (P.stopped pages.new ≡ P.stopped pages.old) }
{
    let mut names = Vec::new(alloc);
    list_objects(objects, pages, alloc, wanted, &mut names, steps)?;
    Ok(names)
}
