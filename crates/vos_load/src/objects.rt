// The versions of all objects.
ghost use Rattle.std.specs.Prelude.{◌≡◌, true, IfOk, OnOk, IsErrOf, IsTrue, ⊤};
ghost use Rattle.pmem_tree_base.specs.Calls.{Goes};
ghost use Rattle.vos_levels.specs.Calls.{HasThing, OfThing};
ghost use Rattle.vos_levels.specs.Levels.{hung_root};
ghost use Rattle.vos_chain.specs.declared.refusal.PiecesNo.TheVariants.{Stopped as stopped_no};
ghost use Rattle.vos_path.specs.Calls.{HasAt, OfAt};
ghost use Rattle.vos_path.specs.Objects.{below_object_versions, below_owner, below_roots, dkey_level, objects_owner, objects_versions};
ghost use Rattle.vos_load.specs.Read.{AreRead};

use crate::dkeys::read_dkeys;
use crate::log::read_log;
use base_types::operation::Write;
use base_types::path::Path;
use daos_model::durable::Version;
use pmem_pages::pages::Pages;
use pmem_pages::steps::Steps;
use pmem_tree::tree::Tree;
use std::alloc::Global;
use std::sync::ledger::Ledger;
use vos_chain::refusal::PiecesNo;
use vos_lists::entry::{ObjectEntry, PAIRS, least_key, next_object};

// Puts the versions of an object, its dkeys and their akeys behind others.
fn read_object<P: Pages, L: Ledger>(
    object: ObjectEntry,
    pages: &mut P,
    alloc: Global,
    versions: &mut Vec<Version>,
    steps: &mut Steps<L>,
) -> Result<(), PiecesNo>
    requires here { HasAt P.tells (below_owner dkey_level) below_roots (P.blocks pages.old) object.roots (λ g. ⊤) }
    ensures read { OnOk result (OfAt P.tells (below_owner dkey_level) below_roots (P.blocks pages.old) object.roots (λ g. AreRead (below_object_versions object.name g) versions.old.items versions.new.items)) }
    ensures kept { IsTrue P.tells → P.blocks pages.new ≡ P.blocks pages.old }
    ensures budget { P.budget pages.new ≡ P.budget pages.old }
    ensures goes { Goes P.stopped P.count P.burns pages.old pages.new }
    ensures stopped { IsErrOf result stopped_no → P.stopped pages.new ≡ true }
    ensures went_on { OnOk result (P.stopped pages.new ≡ P.stopped pages.old) }
{
    let path = Path {
        cont: object.name.cont,
        obj: Some(object.name.obj),
        dkey: None,
        akey: None,
    };
    let punch = Write::PunchObject(path.copy()?);
    read_log(object.roots.log, pages, &punch, versions, steps)?;
    read_dkeys(object.roots.below, pages, alloc, &path, versions, steps)
}

// Puts the versions of all objects behind others.
fn read_objects<P: Pages, L: Ledger>(
    objects: Tree,
    pages: &mut P,
    alloc: Global,
    versions: &mut Vec<Version>,
    steps: &mut Steps<L>,
) -> Result<(), PiecesNo>
    requires kind { objects.kind ≡ 1 }
    requires here { HasThing P.tells objects_owner hung_root (P.blocks pages.old) objects.root (λ g. ⊤) }
    ensures read { OnOk result (OfThing P.tells objects_owner hung_root (P.blocks pages.old) objects.root (λ g. AreRead (objects_versions g) versions.old.items versions.new.items)) }
    ensures kept { IsTrue P.tells → P.blocks pages.new ≡ P.blocks pages.old }
    ensures budget { P.budget pages.new ≡ P.budget pages.old }
    ensures goes { Goes P.stopped P.count P.burns pages.old pages.new }
    ensures stopped { IsErrOf result stopped_no → P.stopped pages.new ≡ true }
    ensures went_on { OnOk result (P.stopped pages.new ≡ P.stopped pages.old) }
{
    let mut key = least_key();
    for _ in 0..PAIRS {
        let Some(object) = next_object(objects, pages, &key, steps)? else {
            return Ok(());
        };
        read_object(object, pages, alloc, versions, steps)?;
        key = object.key;
    }
    Ok(())
}

/// All versions of objects, settled or not, with their bytes, read by one walk over all objects, dkeys and
/// akeys. The punches of a path come before what lies below it, single values before extents.
///
/// # Errors
///
/// `Stopped` comes only where the pages answered it.
pub fn read_versions<P: Pages, L: Ledger>(
    objects: Tree,
    pages: &mut P,
    alloc: Global,
    steps: &mut Steps<L>,
) -> Result<Vec<Version>, PiecesNo>
    requires kind { objects.kind ≡ 1 }
    requires here { HasThing P.tells objects_owner hung_root (P.blocks pages.old) objects.root (λ g. ⊤) }
    ensures read { IfOk result (λ versions. OfThing P.tells objects_owner hung_root (P.blocks pages.old) objects.root (λ g. versions.items ≡ objects_versions g)) }
    ensures kept { IsTrue P.tells → P.blocks pages.new ≡ P.blocks pages.old }
    ensures budget { P.budget pages.new ≡ P.budget pages.old }
    ensures goes { Goes P.stopped P.count P.burns pages.old pages.new }
    ensures stopped { IsErrOf result stopped_no → P.stopped pages.new ≡ true }
    ensures went_on { OnOk result (P.stopped pages.new ≡ P.stopped pages.old) }
{
    let mut versions = Vec::new(alloc);
    read_objects(objects, pages, alloc, &mut versions, steps)?;
    Ok(versions)
}
