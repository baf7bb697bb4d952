// Whose a write is that is done, on the way from a tree of objects down to it.
ghost use Rattle.std.specs.Prelude.{◌≡◌, ◌<◌, true, IfOk, IfSome, OnOk, OnErr, IsTrue, ⊤};
ghost use Rattle.pmem_tree_base.specs.Calls.{Goes};
ghost use Rattle.vos_values.specs.declared.keys.Layout.TheVariants.{Two};
ghost use Rattle.vos_values.specs.Keys.{IsMoment, IsName, IsObjectKey, is_size};
ghost use Rattle.vos_levels.specs.Calls.{HasThing, OfThing};
ghost use Rattle.vos_levels.specs.Levels.{hung, hung_root};
ghost use Rattle.vos_path.specs.Calls.{HasAt, OfAt};
ghost use Rattle.vos_path.specs.Objects.{akey_level, below_owner, below_roots, dkey_level, objects_owner, values_owner, values_roots};
ghost use Rattle.vos_path.specs.Writes.{NamesAreKeys};
ghost use Rattle.vos_prune.specs.Writers.{HasPlace, akeys_writer, dkey_writer, dkeys_writer, object_writer, objects_writer, values_writer};

use crate::marks::{extent_writer, log_writer, single_writer};
use base_types::id::AttemptId;
use base_types::key::Key;
use base_types::path::Path;
use pmem_pages::pages::Pages;
use pmem_pages::refusal::Stopped;
use pmem_pages::steps::Steps;
use pmem_tree::tree::Tree;
use std::sync::ledger::Ledger;
use vos_path::find::{find_akey, find_roots};
use vos_path::name::{key_of, key_of_object};
use vos_settle::task::WriteKind;
use vos_values::keys::{ExtentKey, Moment, ObjectKey};
use vos_values::values::{AkeyRoots, Roots};

// In an akey.
fn values_writer<P: Pages, L: Ledger>(
    roots: AkeyRoots,
    pages: &mut P,
    kind: WriteKind,
    at: Moment,
    steps: &mut Steps<L>,
) -> Result<Option<AttemptId>, Stopped>
    requires minor { at.minor < 64 }
    requires here { HasAt P.tells values_owner values_roots (P.blocks pages.old) roots (λ g. ⊤) }
    ensures found { IfOk result (λ w. OfAt P.tells values_owner values_roots (P.blocks pages.old) roots (λ g. w ≡ values_writer kind at g)) }
    ensures kept { IsTrue P.tells → P.blocks pages.new ≡ P.blocks pages.old }
    ensures budget { P.budget pages.new ≡ P.budget pages.old }
    ensures goes { Goes P.stopped P.count P.burns pages.old pages.new }
    ensures stopped { OnErr result (P.stopped pages.new ≡ true) }
    ensures went_on { OnOk result (P.stopped pages.new ≡ P.stopped pages.old) }
{
    match kind {
        WriteKind::Punch => log_writer(roots.log, pages, at, steps),
        WriteKind::Single => single_writer(roots.singles, pages, at, steps),
        WriteKind::Extent(low) => {
            let place = ExtentKey {
                low,
                epoch: at.epoch,
                minor: at.minor,
            };
            extent_writer(roots.extents, pages, place, steps)
        }
    }
}

// In the akey of a name.
fn akeys_writer<P: Pages, L: Ledger>(
    akeys: Tree,
    pages: &mut P,
    name: &Key,
    kind: WriteKind,
    at: Moment,
    steps: &mut Steps<L>,
) -> Result<Option<AttemptId>, Stopped>
    requires kind { akeys.kind ≡ 3 }
    requires minor { at.minor < 64 }
    requires name { IsName name.now }
    requires here { HasThing P.tells (hung akey_level) hung_root (P.blocks pages.old) akeys.root (λ g. ⊤) }
    ensures found { IfOk result (λ w. OfThing P.tells (hung akey_level) hung_root (P.blocks pages.old) akeys.root (λ g. w ≡ akeys_writer kind at name.now g)) }
    ensures kept { IsTrue P.tells → P.blocks pages.new ≡ P.blocks pages.old }
    ensures budget { P.budget pages.new ≡ P.budget pages.old }
    ensures goes { Goes P.stopped P.count P.burns pages.old pages.new }
    ensures stopped { OnErr result (P.stopped pages.new ≡ true) }
    ensures went_on { OnOk result (P.stopped pages.new ≡ P.stopped pages.old) }
{
    let key = key_of(name);
    let Some(roots) = find_akey(akeys, pages, &key, steps)? else {
        return Ok(None);
    };
    values_writer(roots, pages, kind, at, steps)
}

// Of a dkey, or in an akey below it.
fn dkey_writer<P: Pages, L: Ledger>(
    roots: Roots,
    pages: &mut P,
    akey: &Option<Key>,
    kind: WriteKind,
    at: Moment,
    steps: &mut Steps<L>,
) -> Result<Option<AttemptId>, Stopped>
    requires minor { at.minor < 64 }
    requires name { IfSome akey.now IsName }
    requires here { HasAt P.tells (below_owner akey_level) below_roots (P.blocks pages.old) roots (λ g. ⊤) }
    ensures found { IfOk result (λ w. OfAt P.tells (below_owner akey_level) below_roots (P.blocks pages.old) roots (λ g. w ≡ dkey_writer kind at akey.now g)) }
    ensures kept { IsTrue P.tells → P.blocks pages.new ≡ P.blocks pages.old }
    ensures budget { P.budget pages.new ≡ P.budget pages.old }
    ensures goes { Goes P.stopped P.count P.burns pages.old pages.new }
    ensures stopped { OnErr result (P.stopped pages.new ≡ true) }
    ensures went_on { OnOk result (P.stopped pages.new ≡ P.stopped pages.old) }
{
    match akey {
        Some(akey) => {
            let akeys = Tree {
                kind: 3,
                root: roots.below,
            };
            akeys_writer(akeys, pages, akey, kind, at, steps)
        }
        None => log_writer(roots.log, pages, at, steps),
    }
}

// In the dkey of a name.
fn dkeys_writer<P: Pages, L: Ledger>(
    dkeys: Tree,
    pages: &mut P,
    name: &Key,
    akey: &Option<Key>,
    kind: WriteKind,
    at: Moment,
    steps: &mut Steps<L>,
) -> Result<Option<AttemptId>, Stopped>
    requires kind { dkeys.kind ≡ 2 }
    requires minor { at.minor < 64 }
    requires name { IsName name.now }
    requires akey { IfSome akey.now IsName }
    requires here { HasThing P.tells (hung dkey_level) hung_root (P.blocks pages.old) dkeys.root (λ g. ⊤) }
    ensures found { IfOk result (λ w. OfThing P.tells (hung dkey_level) hung_root (P.blocks pages.old) dkeys.root (λ g. w ≡ dkeys_writer kind at name.now akey.now g)) }
    ensures kept { IsTrue P.tells → P.blocks pages.new ≡ P.blocks pages.old }
    ensures budget { P.budget pages.new ≡ P.budget pages.old }
    ensures goes { Goes P.stopped P.count P.burns pages.old pages.new }
    ensures stopped { OnErr result (P.stopped pages.new ≡ true) }
    ensures went_on { OnOk result (P.stopped pages.new ≡ P.stopped pages.old) }
{
    let key = key_of(name);
    let Some(roots) = find_roots(dkeys, pages, &key, steps)? else {
        return Ok(None);
    };
    dkey_writer(roots, pages, akey, kind, at, steps)
}

// Of an object, or where a path leads below it.
fn object_writer<P: Pages, L: Ledger>(
    roots: Roots,
    pages: &mut P,
    path: &Path,
    kind: WriteKind,
    at: Moment,
    steps: &mut Steps<L>,
) -> Result<Option<AttemptId>, Stopped>
    requires minor { at.minor < 64 }
    requires names { NamesAreKeys path.now }
    requires here { HasAt P.tells (below_owner dkey_level) below_roots (P.blocks pages.old) roots (λ g. ⊤) }
    ensures found { IfOk result (λ w. OfAt P.tells (below_owner dkey_level) below_roots (P.blocks pages.old) roots (λ g. w ≡ object_writer kind at path.now.dkey path.now.akey g)) }
    ensures kept { IsTrue P.tells → P.blocks pages.new ≡ P.blocks pages.old }
    ensures budget { P.budget pages.new ≡ P.budget pages.old }
    ensures goes { Goes P.stopped P.count P.burns pages.old pages.new }
    ensures stopped { OnErr result (P.stopped pages.new ≡ true) }
    ensures went_on { OnOk result (P.stopped pages.new ≡ P.stopped pages.old) }
{
    match &path.dkey {
        Some(dkey) => {
            let dkeys = Tree {
                kind: 2,
                root: roots.below,
            };
            dkeys_writer(dkeys, pages, dkey, &path.akey, kind, at, steps)
        }
        None => log_writer(roots.log, pages, at, steps),
    }
}

/// Whose the write of a kind and a moment is that is done, in an object or where a path leads below it.
///
/// # Errors
///
/// `Stopped` comes only where the pages answered it.
pub fn objects_writer<P: Pages, L: Ledger>(
    objects: Tree,
    pages: &mut P,
    object: ObjectKey,
    path: &Path,
    kind: WriteKind,
    at: Moment,
    steps: &mut Steps<L>,
) -> Result<Option<AttemptId>, Stopped>
    requires kind { objects.kind ≡ 1 }
    requires minor { at.minor < 64 }
    requires size { is_size Two object.obj.unit ≡ true }
    requires names { NamesAreKeys path.now }
    requires here { HasThing P.tells objects_owner hung_root (P.blocks pages.old) objects.root (λ g. ⊤) }
    ensures found { IfOk result (λ w. OfThing P.tells objects_owner hung_root (P.blocks pages.old) objects.root (λ g. w ≡ objects_writer kind at object path.now g)) }
    ensures object { IsObjectKey Two object }
    ensures moment { IsMoment at }
    ensures place { HasPlace kind }
    ensures kept { IsTrue P.tells → P.blocks pages.new ≡ P.blocks pages.old }
    ensures budget { P.budget pages.new ≡ P.budget pages.old }
    ensures goes { Goes P.stopped P.count P.burns pages.old pages.new }
    ensures stopped { OnErr result (P.stopped pages.new ≡ true) }
    ensures went_on { OnOk result (P.stopped pages.new ≡ P.stopped pages.old) }
{
    let key = key_of_object(object);
    let Some(roots) = find_roots(objects, pages, &key, steps)? else {
        return Ok(None);
    };
    object_writer(roots, pages, path, kind, at, steps)
}
