// What a write makes of objects.
ghost use Rattle.std.specs.Prelude.{◌≡◌, ◌≤◌, ◌<◌, ◌+◌, true, ℕ, IfOk, OnOk, IsErrOf};
ghost use Rattle.base_types.specs.Operations.{write_path};
ghost use Rattle.base_types.specs.declared.operation.Write.TheVariants.{PunchObject as punch_write};
ghost use Rattle.base_types.specs.Paths.{record_size};
ghost use Rattle.daos_model.specs.Forms.{is_write_in_form, is_unit};
ghost use Rattle.pmem_tree.specs.Calls.{IsShort};
ghost use Rattle.pmem_tree_base.specs.Calls.{Goes};
ghost use Rattle.pmem_tree_base.specs.declared.refusal.TreeNo.{TreeNo};
ghost use Rattle.vos_extent.specs.vos_levels.Calls.{HasThing, OfThing};
ghost use Rattle.vos_extent.specs.vos_levels.Levels.{HasMore, hung_root};
ghost use Rattle.vos_values.specs.declared.keys.ObjectKey.{ObjectKey as ObjectKeyOf};
ghost use Rattle.vos_path.specs.Calls.{HasAt, LacksFor, OfAt, SpendsAtMost, Turns, for_pair};
ghost use Rattle.vos_path.specs.Nodes.{ObjectNoted, ObjectsNoted};
ghost use Rattle.std.specs.Prelude.{None as no_name};
ghost use Rattle.vos_path.specs.Objects.{below_object_versions, below_owner, below_roots, dkey_level, object_path, objects_owner, objects_versions};
ghost use Rattle.vos_path.specs.Small.{BelowObjectOnPathIsSmall, PathIsSmall};
ghost use Rattle.vos_path.specs.Writes.{BelowObjectIsNew, IsAtObject, IsNewIn, IsSmall, NamesAreKeys, below_object_pairs, data_blocks, dkey_pairs, fresh, goes_below_object, log_pairs, object_pairs};

use crate::dkeys::write_dkeys;
use crate::find::{find_roots, roots_or_zero};
use crate::log::{note, note_update};
use crate::name::key_of_object;
use crate::stamp::Stamp;
use base_types::operation::Write;
use pmem_pages::pages::Pages;
use pmem_pages::steps::Steps;
use pmem_tree::TreeNo;
use pmem_tree::tree::Tree;
use std::sync::ledger::Ledger;
use vos_values::keys::ObjectKey;
use vos_values::values::{Roots, roots_value};

// Whether a write goes on below an object's own log.
fn goes_below_object(write: &Write) -> bool
    ensures { result ≡ goes_below_object write.now }
{
    !matches!(write, Write::PunchObject(_))
}

// A write goes on below: a version more there, and for an update a creation in the log.
fn write_below<P: Pages, L: Ledger>(
    roots: Roots,
    pages: &mut P,
    stamp: Stamp,
    write: &Write,
    steps: &mut Steps<L>,
) -> Result<Roots, TreeNo>
    requires minor { stamp.at.minor < 64 }
    requires form { is_write_in_form write.now ≡ true }
    requires below { goes_below_object write.now ≡ true }
    requires names { NamesAreKeys (write_path write.now) }
    requires here { HasAt P.tells (below_owner dkey_level) below_roots (P.blocks pages.old) roots (BelowObjectIsNew stamp) }
    ensures written { IfOk result (λ now. OfAt P.tells (below_owner dkey_level) below_roots (P.blocks pages.old) roots (λ g. BelowObjectIsNew stamp g → (o : ObjectKeyOf) → IsAtObject o (write_path write.now) → Turns (below_owner dkey_level) below_roots (below_object_versions o) (P.blocks pages.old) g (P.blocks pages.new) now (HasMore (fresh stamp write.now)) (ObjectNoted stamp write.now (write_path write.now).dkey (write_path write.now).akey))) }
    ensures no_block { IsErrOf result TreeNo.NoBlock → (P.budget pages.old).free < data_blocks write.now + (dkey_pairs write.now 1 + log_pairs write.now 1) }
    ensures too_much { IsErrOf result TreeNo.TooMuch → OfAt P.tells (below_owner dkey_level) below_roots (P.blocks pages.old) roots (λ g. BelowObjectIsNew stamp g → (d : ℕ) → BelowObjectOnPathIsSmall d (write_path write.now).dkey (write_path write.now).akey g → LacksFor (data_blocks write.now) (dkey_pairs write.now (for_pair d) + log_pairs write.now (for_pair d)) d (P.budget pages.old)) }
    ensures few_left { IsErrOf result TreeNo.TooMuch → OfAt P.tells (below_owner dkey_level) below_roots (P.blocks pages.old) roots (λ g. BelowObjectIsNew stamp g → (d : ℕ) → BelowObjectOnPathIsSmall d (write_path write.now).dkey (write_path write.now).akey g → IsShort d (P.budget pages.new)) }
    ensures staged { OnOk result (OfAt P.tells (below_owner dkey_level) below_roots (P.blocks pages.old) roots (λ g. BelowObjectIsNew stamp g → (d : ℕ) → BelowObjectOnPathIsSmall d (write_path write.now).dkey (write_path write.now).akey g → SpendsAtMost (data_blocks write.now) (dkey_pairs write.now (for_pair d) + log_pairs write.now (for_pair d)) (P.budget pages.old) (P.budget pages.new))) }
    ensures free { OnOk result ((P.budget pages.old).free ≤ (P.budget pages.new).free + (data_blocks write.now + (dkey_pairs write.now 1 + log_pairs write.now 1))) }
    ensures goes { Goes P.stopped P.count P.burns pages.old pages.new }
    ensures stopped { IsErrOf result TreeNo.Stopped → P.stopped pages.new ≡ true }
    ensures went_on { OnOk result (P.stopped pages.new ≡ P.stopped pages.old) }
{
    let mut dkeys = Tree {
        kind: 2,
        root: roots.below,
    };
    write_dkeys(&mut dkeys, pages, stamp, write, steps)?;
    let log = note_update(roots.log, pages, stamp, write, steps)?;
    Ok(Roots {
        log,
        below: dkeys.root,
    })
}

// An object is punched.
fn punch_log<P: Pages, L: Ledger>(
    roots: Roots,
    pages: &mut P,
    stamp: Stamp,
    steps: &mut Steps<L>,
) -> Result<Roots, TreeNo>
    requires minor { stamp.at.minor < 64 }
    requires here { HasAt P.tells (below_owner dkey_level) below_roots (P.blocks pages.old) roots (BelowObjectIsNew stamp) }
    ensures written { IfOk result (λ now. OfAt P.tells (below_owner dkey_level) below_roots (P.blocks pages.old) roots (λ g. BelowObjectIsNew stamp g → (o : ObjectKeyOf) → Turns (below_owner dkey_level) below_roots (below_object_versions o) (P.blocks pages.old) g (P.blocks pages.new) now (HasMore (fresh stamp (punch_write (object_path o)))) (ObjectNoted stamp (punch_write (object_path o)) no_name no_name))) }
    ensures no_block { IsErrOf result TreeNo.NoBlock → (P.budget pages.old).free < 1 }
    ensures too_much { IsErrOf result TreeNo.TooMuch → OfAt P.tells (below_owner dkey_level) below_roots (P.blocks pages.old) roots (λ g. BelowObjectIsNew stamp g → (d : ℕ) → IsSmall d g.0 → LacksFor 0 0 d (P.budget pages.old)) }
    ensures few_left { IsErrOf result TreeNo.TooMuch → OfAt P.tells (below_owner dkey_level) below_roots (P.blocks pages.old) roots (λ g. BelowObjectIsNew stamp g → (d : ℕ) → IsSmall d g.0 → IsShort d (P.budget pages.new)) }
    ensures staged { OnOk result (OfAt P.tells (below_owner dkey_level) below_roots (P.blocks pages.old) roots (λ g. BelowObjectIsNew stamp g → (d : ℕ) → IsSmall d g.0 → SpendsAtMost 0 (for_pair d) (P.budget pages.old) (P.budget pages.new))) }
    ensures free { OnOk result ((P.budget pages.old).free ≤ (P.budget pages.new).free + 1) }
    ensures goes { Goes P.stopped P.count P.burns pages.old pages.new }
    ensures stopped { IsErrOf result TreeNo.Stopped → P.stopped pages.new ≡ true }
    ensures went_on { OnOk result (P.stopped pages.new ≡ P.stopped pages.old) }
{
    let log = note(roots.log, pages, stamp, true, steps)?;
    Ok(Roots {
        log,
        below: roots.below,
    })
}

// What a write makes of an object that it is for: a version more.
fn write_object<P: Pages, L: Ledger>(
    roots: Roots,
    pages: &mut P,
    stamp: Stamp,
    write: &Write,
    steps: &mut Steps<L>,
) -> Result<Roots, TreeNo>
    requires minor { stamp.at.minor < 64 }
    requires form { is_write_in_form write.now ≡ true }
    requires names { NamesAreKeys (write_path write.now) }
    requires here { HasAt P.tells (below_owner dkey_level) below_roots (P.blocks pages.old) roots (BelowObjectIsNew stamp) }
    ensures written { IfOk result (λ now. OfAt P.tells (below_owner dkey_level) below_roots (P.blocks pages.old) roots (λ g. BelowObjectIsNew stamp g → (o : ObjectKeyOf) → IsAtObject o (write_path write.now) → Turns (below_owner dkey_level) below_roots (below_object_versions o) (P.blocks pages.old) g (P.blocks pages.new) now (HasMore (fresh stamp write.now)) (ObjectNoted stamp write.now (write_path write.now).dkey (write_path write.now).akey))) }
    ensures no_block { IsErrOf result TreeNo.NoBlock → (P.budget pages.old).free < data_blocks write.now + below_object_pairs write.now 1 }
    ensures too_much { IsErrOf result TreeNo.TooMuch → OfAt P.tells (below_owner dkey_level) below_roots (P.blocks pages.old) roots (λ g. BelowObjectIsNew stamp g → (d : ℕ) → BelowObjectOnPathIsSmall d (write_path write.now).dkey (write_path write.now).akey g → LacksFor (data_blocks write.now) (below_object_pairs write.now (for_pair d)) d (P.budget pages.old)) }
    ensures few_left { IsErrOf result TreeNo.TooMuch → OfAt P.tells (below_owner dkey_level) below_roots (P.blocks pages.old) roots (λ g. BelowObjectIsNew stamp g → (d : ℕ) → BelowObjectOnPathIsSmall d (write_path write.now).dkey (write_path write.now).akey g → IsShort d (P.budget pages.new)) }
    ensures staged { OnOk result (OfAt P.tells (below_owner dkey_level) below_roots (P.blocks pages.old) roots (λ g. BelowObjectIsNew stamp g → (d : ℕ) → BelowObjectOnPathIsSmall d (write_path write.now).dkey (write_path write.now).akey g → SpendsAtMost (data_blocks write.now) (below_object_pairs write.now (for_pair d)) (P.budget pages.old) (P.budget pages.new))) }
    ensures free { OnOk result ((P.budget pages.old).free ≤ (P.budget pages.new).free + (data_blocks write.now + below_object_pairs write.now 1)) }
    ensures goes { Goes P.stopped P.count P.burns pages.old pages.new }
    ensures stopped { IsErrOf result TreeNo.Stopped → P.stopped pages.new ≡ true }
    ensures went_on { OnOk result (P.stopped pages.new ≡ P.stopped pages.old) }
{
    if goes_below_object(write) {
        write_below(roots, pages, stamp, write, steps)
    } else {
        punch_log(roots, pages, stamp, steps)
    }
}

/// What a write makes of objects: a version more, in the object that it names, which comes into the tree
/// if it isn't there.
///
/// # Errors
///
/// `NoBlock` comes only where fewer blocks are free than the bytes and the pairs may want, `TooMuch` only
/// where fewer ranges or bytes are left to stage than that, and `Stopped` only where the pages answered
/// it. After `TooMuch` fewer are left than one change of the largest tree may want. After one the
/// stage has to be dropped.
pub fn write_objects<P: Pages, L: Ledger>(
    objects: &mut Tree,
    pages: &mut P,
    stamp: Stamp,
    write: &Write,
    steps: &mut Steps<L>,
) -> Result<(), TreeNo>
    requires kind { objects.old.kind ≡ 1 }
    requires minor { stamp.at.minor < 64 }
    requires form { is_write_in_form write.now ≡ true }
    requires size { is_unit (record_size (write_path write.now)) ≡ true }
    requires names { NamesAreKeys (write_path write.now) }
    requires here { HasThing P.tells objects_owner hung_root (P.blocks pages.old) objects.old.root (IsNewIn (fresh stamp write.now)) }
    ensures written { OnOk result (OfThing P.tells objects_owner hung_root (P.blocks pages.old) objects.old.root (λ g. IsNewIn (fresh stamp write.now) g → (o : ObjectKeyOf) → IsAtObject o (write_path write.now) → Turns objects_owner hung_root objects_versions (P.blocks pages.old) g (P.blocks pages.new) objects.new.root (HasMore (fresh stamp write.now)) (ObjectsNoted stamp write.now o (write_path write.now).dkey (write_path write.now).akey))) }
    ensures kind { objects.new.kind ≡ 1 }
    ensures no_block { IsErrOf result TreeNo.NoBlock → (P.budget pages.old).free < data_blocks write.now + object_pairs write.now 1 }
    ensures too_much { IsErrOf result TreeNo.TooMuch → OfThing P.tells objects_owner hung_root (P.blocks pages.old) objects.old.root (λ g. IsNewIn (fresh stamp write.now) g → (d : ℕ) → PathIsSmall d (write_path write.now) g → LacksFor (data_blocks write.now) (below_object_pairs write.now (for_pair d)) d (P.budget pages.old)) }
    ensures few_left { IsErrOf result TreeNo.TooMuch → OfThing P.tells objects_owner hung_root (P.blocks pages.old) objects.old.root (λ g. IsNewIn (fresh stamp write.now) g → (d : ℕ) → PathIsSmall d (write_path write.now) g → IsShort d (P.budget pages.new)) }
    ensures staged { OnOk result (OfThing P.tells objects_owner hung_root (P.blocks pages.old) objects.old.root (λ g. IsNewIn (fresh stamp write.now) g → (d : ℕ) → PathIsSmall d (write_path write.now) g → SpendsAtMost (data_blocks write.now) (object_pairs write.now (for_pair d)) (P.budget pages.old) (P.budget pages.new))) }
    ensures free { OnOk result ((P.budget pages.old).free ≤ (P.budget pages.new).free + (data_blocks write.now + object_pairs write.now 1)) }
    ensures goes { Goes P.stopped P.count P.burns pages.old pages.new }
    ensures stopped { IsErrOf result TreeNo.Stopped → P.stopped pages.new ≡ true }
    ensures went_on { OnOk result (P.stopped pages.new ≡ P.stopped pages.old) }
{
    let Some(obj) = write.path().obj else {
        return Ok(());
    };
    let key = key_of_object(ObjectKey {
        cont: write.path().cont,
        obj,
    });
    let found = find_roots(*objects, pages, &key, steps)?;
    let roots = write_object(roots_or_zero(found), pages, stamp, write, steps)?;
    objects.set(pages, &key, &roots_value(roots), steps)
}
