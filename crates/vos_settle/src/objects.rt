// What becomes of objects, of which a write names one.
ghost use Rattle.std.specs.Prelude.{◌≡◌, ◌<◌, ◌+◌, true, ℕ, IfOk, IfSome, OnOk, IsErrOf, ⊤};
ghost use Rattle.std.specs.Prelude.{Some as some_name, None as no_name};
ghost use Rattle.pmem_tree.specs.Calls.{IsShort};
ghost use Rattle.pmem_tree_base.specs.Calls.{Goes};
ghost use Rattle.pmem_tree_base.specs.declared.refusal.TreeNo.{TreeNo};
ghost use Rattle.vos_values.specs.declared.keys.Layout.TheVariants.{Two};
ghost use Rattle.vos_values.specs.Keys.{IsName, IsObjectKey, is_size};
ghost use Rattle.vos_levels.specs.Calls.{HasThing, OfThing};
ghost use Rattle.vos_levels.specs.Changes.{keeps};
ghost use Rattle.vos_levels.specs.Levels.{hung_root};
ghost use Rattle.vos_path.specs.Calls.{HasAt, OfAt};
ghost use Rattle.vos_path.specs.Objects.{below_owner, below_roots, dkey_level, objects_owner};
ghost use Rattle.vos_path.specs.Small.{BelowObjectOnPathIsSmall, ObjectsOnPathAreSmall};
ghost use Rattle.vos_path.specs.Writes.{IsSmall, NamesAreKeys};
ghost use Rattle.vos_settle.specs.Nodes.{ObjectTurn, OneObjectTurn, Turned, below_object_freed, one_object_freed};
ghost use Rattle.vos_settle.specs.Costs.{Lacks, Spends, below_object_cost, for_one, objects_cost};

use crate::dkeys::change_dkeys;
use crate::log::{change_entry, change_noted};
use crate::put::{are_roots, put_unless};
use crate::task::{Task, Which};
use base_types::key::Key;
use base_types::path::Path;
use pmem_pages::pages::Pages;
use pmem_pages::steps::Steps;
use pmem_tree::TreeNo;
use pmem_tree::tree::Tree;
use std::sync::ledger::Ledger;
use vos_path::find::find_roots;
use vos_path::name::key_of_object;
use vos_values::keys::ObjectKey;
use vos_values::values::{Roots, roots_value};

// The punch of an object.
fn change_punch<P: Pages, L: Ledger>(
    roots: Roots,
    pages: &mut P,
    task: Task,
    steps: &mut Steps<L>,
) -> Result<Roots, TreeNo>
    requires minor { task.at.minor < 64 }
    requires here { HasAt P.tells (below_owner dkey_level) below_roots (P.blocks pages.old) roots (λ g. ⊤) }
    ensures changed { IfOk result (λ now. OfAt P.tells (below_owner dkey_level) below_roots (P.blocks pages.old) roots (λ g. Turned (below_owner dkey_level) below_roots (P.blocks pages.old) g (P.blocks pages.new) now (ObjectTurn task no_name no_name))) }
    ensures no_block { IsErrOf result TreeNo.NoBlock → ⊥ }
    ensures too_much { IsErrOf result TreeNo.TooMuch → OfAt P.tells (below_owner dkey_level) below_roots (P.blocks pages.old) roots (λ g. (d : ℕ) → IsSmall d g.0 → Lacks (for_one d) d (P.budget pages.old)) }
    ensures few_left { IsErrOf result TreeNo.TooMuch → OfAt P.tells (below_owner dkey_level) below_roots (P.blocks pages.old) roots (λ g. (d : ℕ) → IsSmall d g.0 → IsShort d (P.budget pages.new)) }
    ensures staged { OnOk result (OfAt P.tells (below_owner dkey_level) below_roots (P.blocks pages.old) roots (λ g. (d : ℕ) → IsSmall d g.0 → Spends (for_one d) (P.budget pages.old) (P.budget pages.new))) }
    ensures root { keeps task.change ≡ true → IfOk result (λ now. now ≡ roots) }
    ensures committed { keeps task.change ≡ true → Spends 1 (P.budget pages.old) (P.budget pages.new) }
    ensures free { OnOk result (OfAt P.tells (below_owner dkey_level) below_roots (P.blocks pages.old) roots (λ g. (P.budget pages.new).free ≡ (P.budget pages.old).free + below_object_freed task no_name no_name g)) }
    ensures goes { Goes P.stopped P.count P.burns pages.old pages.new }
    ensures stopped { IsErrOf result TreeNo.Stopped → P.stopped pages.new ≡ true }
    ensures went_on { OnOk result (P.stopped pages.new ≡ P.stopped pages.old) }
{
    let log = change_entry(roots.log, pages, task.at, Which::Punch, task.change, steps)?;
    Ok(Roots {
        log,
        below: roots.below,
    })
}

// A write of a dkey of an object, and then for an update its creation in the object's log.
fn change_below<P: Pages, L: Ledger>(
    roots: Roots,
    pages: &mut P,
    task: Task,
    dkey: &Key,
    akey: &Option<Key>,
    steps: &mut Steps<L>,
) -> Result<Roots, TreeNo>
    requires minor { task.at.minor < 64 }
    requires name { IsName dkey.now }
    requires akey { IfSome akey.now IsName }
    requires here { HasAt P.tells (below_owner dkey_level) below_roots (P.blocks pages.old) roots (λ g. ⊤) }
    ensures changed { IfOk result (λ now. OfAt P.tells (below_owner dkey_level) below_roots (P.blocks pages.old) roots (λ g. Turned (below_owner dkey_level) below_roots (P.blocks pages.old) g (P.blocks pages.new) now (ObjectTurn task (some_name dkey.now) akey.now))) }
    ensures no_block { IsErrOf result TreeNo.NoBlock → ⊥ }
    ensures too_much { IsErrOf result TreeNo.TooMuch → OfAt P.tells (below_owner dkey_level) below_roots (P.blocks pages.old) roots (λ g. (d : ℕ) → BelowObjectOnPathIsSmall d (some_name dkey.now) akey.now g → Lacks (below_object_cost task.kind (some_name dkey.now) akey.now (for_one d) 1) d (P.budget pages.old)) }
    ensures few_left { IsErrOf result TreeNo.TooMuch → OfAt P.tells (below_owner dkey_level) below_roots (P.blocks pages.old) roots (λ g. (d : ℕ) → BelowObjectOnPathIsSmall d (some_name dkey.now) akey.now g → IsShort d (P.budget pages.new)) }
    ensures staged { OnOk result (OfAt P.tells (below_owner dkey_level) below_roots (P.blocks pages.old) roots (λ g. (d : ℕ) → BelowObjectOnPathIsSmall d (some_name dkey.now) akey.now g → Spends (below_object_cost task.kind (some_name dkey.now) akey.now (for_one d) 1) (P.budget pages.old) (P.budget pages.new))) }
    ensures root { keeps task.change ≡ true → IfOk result (λ now. now ≡ roots) }
    ensures committed { keeps task.change ≡ true → Spends (below_object_cost task.kind (some_name dkey.now) akey.now 1 0) (P.budget pages.old) (P.budget pages.new) }
    ensures free { OnOk result (OfAt P.tells (below_owner dkey_level) below_roots (P.blocks pages.old) roots (λ g. (P.budget pages.new).free ≡ (P.budget pages.old).free + below_object_freed task (some_name dkey.now) akey.now g)) }
    ensures goes { Goes P.stopped P.count P.burns pages.old pages.new }
    ensures stopped { IsErrOf result TreeNo.Stopped → P.stopped pages.new ≡ true }
    ensures went_on { OnOk result (P.stopped pages.new ≡ P.stopped pages.old) }
{
    let mut dkeys = Tree {
        kind: 2,
        root: roots.below,
    };
    change_dkeys(&mut dkeys, pages, task, dkey, akey, steps)?;
    let log = change_noted(roots.log, pages, task, steps)?;
    Ok(Roots {
        log,
        below: dkeys.root,
    })
}

// A write of an object, or of what a path leads to below it.
fn change_object<P: Pages, L: Ledger>(
    roots: Roots,
    pages: &mut P,
    task: Task,
    path: &Path,
    steps: &mut Steps<L>,
) -> Result<Roots, TreeNo>
    requires minor { task.at.minor < 64 }
    requires names { NamesAreKeys path.now }
    requires here { HasAt P.tells (below_owner dkey_level) below_roots (P.blocks pages.old) roots (λ g. ⊤) }
    ensures changed { IfOk result (λ now. OfAt P.tells (below_owner dkey_level) below_roots (P.blocks pages.old) roots (λ g. Turned (below_owner dkey_level) below_roots (P.blocks pages.old) g (P.blocks pages.new) now (ObjectTurn task path.now.dkey path.now.akey))) }
    ensures no_block { IsErrOf result TreeNo.NoBlock → ⊥ }
    ensures too_much { IsErrOf result TreeNo.TooMuch → OfAt P.tells (below_owner dkey_level) below_roots (P.blocks pages.old) roots (λ g. (d : ℕ) → BelowObjectOnPathIsSmall d path.now.dkey path.now.akey g → Lacks (below_object_cost task.kind path.now.dkey path.now.akey (for_one d) 1) d (P.budget pages.old)) }
    ensures few_left { IsErrOf result TreeNo.TooMuch → OfAt P.tells (below_owner dkey_level) below_roots (P.blocks pages.old) roots (λ g. (d : ℕ) → BelowObjectOnPathIsSmall d path.now.dkey path.now.akey g → IsShort d (P.budget pages.new)) }
    ensures staged { OnOk result (OfAt P.tells (below_owner dkey_level) below_roots (P.blocks pages.old) roots (λ g. (d : ℕ) → BelowObjectOnPathIsSmall d path.now.dkey path.now.akey g → Spends (below_object_cost task.kind path.now.dkey path.now.akey (for_one d) 1) (P.budget pages.old) (P.budget pages.new))) }
    ensures root { keeps task.change ≡ true → IfOk result (λ now. now ≡ roots) }
    ensures committed { keeps task.change ≡ true → Spends (below_object_cost task.kind path.now.dkey path.now.akey 1 0) (P.budget pages.old) (P.budget pages.new) }
    ensures free { OnOk result (OfAt P.tells (below_owner dkey_level) below_roots (P.blocks pages.old) roots (λ g. (P.budget pages.new).free ≡ (P.budget pages.old).free + below_object_freed task path.now.dkey path.now.akey g)) }
    ensures goes { Goes P.stopped P.count P.burns pages.old pages.new }
    ensures stopped { IsErrOf result TreeNo.Stopped → P.stopped pages.new ≡ true }
    ensures went_on { OnOk result (P.stopped pages.new ≡ P.stopped pages.old) }
{
    match &path.dkey {
        Some(dkey) => change_below(roots, pages, task, dkey, &path.akey, steps),
        None => change_punch(roots, pages, task, steps),
    }
}

/// Settles or prunes a write of an object, or of what a path leads to below it, where they are there. The
/// object stays, also where nothing is left below it.
///
/// # Errors
///
/// As `change_values`.
pub fn change_objects<P: Pages, L: Ledger>(
    objects: &mut Tree,
    pages: &mut P,
    task: Task,
    object: ObjectKey,
    path: &Path,
    steps: &mut Steps<L>,
) -> Result<(), TreeNo>
    requires kind { objects.old.kind ≡ 1 }
    requires minor { task.at.minor < 64 }
    requires size { is_size Two object.obj.unit ≡ true }
    requires names { NamesAreKeys path.now }
    requires here { HasThing P.tells objects_owner hung_root (P.blocks pages.old) objects.old.root (λ g. ⊤) }
    ensures changed { OnOk result (OfThing P.tells objects_owner hung_root (P.blocks pages.old) objects.old.root (λ g. Turned objects_owner hung_root (P.blocks pages.old) g (P.blocks pages.new) objects.new.root (OneObjectTurn task object path.now))) }
    ensures object { IsObjectKey Two object }
    ensures kind { objects.new.kind ≡ 1 }
    ensures no_block { IsErrOf result TreeNo.NoBlock → ⊥ }
    ensures too_much { IsErrOf result TreeNo.TooMuch → OfThing P.tells objects_owner hung_root (P.blocks pages.old) objects.old.root (λ g. (d : ℕ) → ObjectsOnPathAreSmall d object path.now.dkey path.now.akey g → Lacks (objects_cost task.kind path.now.dkey path.now.akey (for_one d) 1) d (P.budget pages.old)) }
    ensures few_left { IsErrOf result TreeNo.TooMuch → OfThing P.tells objects_owner hung_root (P.blocks pages.old) objects.old.root (λ g. (d : ℕ) → ObjectsOnPathAreSmall d object path.now.dkey path.now.akey g → IsShort d (P.budget pages.new)) }
    ensures staged { OnOk result (OfThing P.tells objects_owner hung_root (P.blocks pages.old) objects.old.root (λ g. (d : ℕ) → ObjectsOnPathAreSmall d object path.now.dkey path.now.akey g → Spends (objects_cost task.kind path.now.dkey path.now.akey (for_one d) 1) (P.budget pages.old) (P.budget pages.new))) }
    ensures root { objects.new.root ≡ objects.old.root }
    ensures committed { keeps task.change ≡ true → Spends (objects_cost task.kind path.now.dkey path.now.akey 1 0) (P.budget pages.old) (P.budget pages.new) }
    ensures free { OnOk result (OfThing P.tells objects_owner hung_root (P.blocks pages.old) objects.old.root (λ g. (P.budget pages.new).free ≡ (P.budget pages.old).free + one_object_freed task object path.now g)) }
    ensures goes { Goes P.stopped P.count P.burns pages.old pages.new }
    ensures stopped { IsErrOf result TreeNo.Stopped → P.stopped pages.new ≡ true }
    ensures went_on { OnOk result (P.stopped pages.new ≡ P.stopped pages.old) }
{
    let key = key_of_object(object);
    let Some(was) = find_roots(*objects, pages, &key, steps)? else {
        return Ok(());
    };
    let now = change_object(was, pages, task, path, steps)?;
    let had = are_roots(was, now);
    put_unless(objects, pages, &key, &roots_value(now), had, steps)
}
