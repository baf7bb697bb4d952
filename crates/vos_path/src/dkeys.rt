// What a write makes of the dkeys below an object.
ghost use Rattle.std.specs.Prelude.{◌≡◌, ◌≤◌, ◌<◌, ◌+◌, true, ℕ, IfOk, OnOk, IsErrOf, List};
ghost use Rattle.base_types.specs.Operations.{write_path};
ghost use Rattle.base_types.specs.declared.operation.Write.TheVariants.{PunchDkey as punch_write};
ghost use Rattle.daos_model.specs.Forms.{is_write_in_form};
ghost use Rattle.pmem_tree.specs.Calls.{IsShort};
ghost use Rattle.pmem_tree_base.specs.Calls.{Goes};
ghost use Rattle.pmem_tree_base.specs.declared.refusal.TreeNo.{TreeNo};
ghost use Rattle.vos_extent.specs.vos_levels.Calls.{HasThing, OfThing};
ghost use Rattle.vos_extent.specs.vos_levels.Levels.{HasMore, hung, hung_root};
ghost use Rattle.vos_values.specs.declared.keys.ObjectKey.{ObjectKey as ObjectKeyOf};
ghost use Rattle.vos_path.specs.Calls.{HasAt, LacksFor, OfAt, SpendsAtMost, Turns, for_pair};
ghost use Rattle.vos_path.specs.Nodes.{DkeyNoted, DkeysNoted};
ghost use Rattle.std.specs.Prelude.{None as no_name, Some as some_name};
ghost use Rattle.vos_path.specs.Objects.{akey_level, akey_path, below_dkey_versions, below_owner, below_roots, dkey_level, dkey_path, dkeys_versions};
ghost use Rattle.vos_path.specs.Small.{BelowDkeyOnPathIsSmall, DkeysOnPathAreSmall};
ghost use Rattle.vos_path.specs.Writes.{BelowDkeyIsNew, DkeysAreNew, IsAtDkey, IsSmall, NamesAreKeys, akey_pairs, below_dkey_pairs, data_blocks, dkey_pairs, fresh, goes_below_dkey, goes_below_object, log_pairs};

use crate::akeys::write_akeys;
use crate::find::{find_roots, roots_or_zero};
use crate::log::{note, note_update};
use crate::name::key_of;
use crate::stamp::Stamp;
use base_types::operation::Write;
use pmem_pages::pages::Pages;
use pmem_pages::steps::Steps;
use pmem_tree::TreeNo;
use pmem_tree::tree::Tree;
use std::sync::ledger::Ledger;
use vos_values::values::{Roots, roots_value};

// Whether a write goes on below a dkey's own log.
fn goes_below_dkey(write: &Write) -> bool
    ensures { result ≡ goes_below_dkey write.now }
{
    matches!(
        write,
        Write::Single(_, _) | Write::Extent(_, _, _) | Write::PunchAkey(_)
    )
}

// A write goes on below: a version more there, and for an update a creation in the log.
fn write_below<P: Pages, L: Ledger>(
    roots: Roots,
    pages: &mut P,
    stamp: Stamp,
    write: &Write,
    steps: &mut Steps<L>,
) -> Result<Roots, TreeNo>
    requires minor { stamp.at.minor < 64 }
    requires form { is_write_in_form write.now ≡ true }
    requires below { goes_below_dkey write.now ≡ true }
    requires names { NamesAreKeys (write_path write.now) }
    requires here { HasAt P.tells (below_owner akey_level) below_roots (P.blocks pages.old) roots (BelowDkeyIsNew stamp) }
    ensures written { IfOk result (λ now. OfAt P.tells (below_owner akey_level) below_roots (P.blocks pages.old) roots (λ g. BelowDkeyIsNew stamp g → (o : ObjectKeyOf) (d a : List ℕ) → write_path write.now ≡ akey_path o d a → Turns (below_owner akey_level) below_roots (below_dkey_versions o d) (P.blocks pages.old) g (P.blocks pages.new) now (HasMore (fresh stamp write.now)) (DkeyNoted stamp write.now (some_name a)))) }
    ensures no_block { IsErrOf result TreeNo.NoBlock → (P.budget pages.old).free < data_blocks write.now + (akey_pairs write.now 1 + log_pairs write.now 1) }
    ensures too_much { IsErrOf result TreeNo.TooMuch → OfAt P.tells (below_owner akey_level) below_roots (P.blocks pages.old) roots (λ g. BelowDkeyIsNew stamp g → (d : ℕ) → BelowDkeyOnPathIsSmall d (write_path write.now).akey g → LacksFor (data_blocks write.now) (akey_pairs write.now (for_pair d) + log_pairs write.now (for_pair d)) d (P.budget pages.old)) }
    ensures few_left { IsErrOf result TreeNo.TooMuch → OfAt P.tells (below_owner akey_level) below_roots (P.blocks pages.old) roots (λ g. BelowDkeyIsNew stamp g → (d : ℕ) → BelowDkeyOnPathIsSmall d (write_path write.now).akey g → IsShort d (P.budget pages.new)) }
    ensures staged { OnOk result (OfAt P.tells (below_owner akey_level) below_roots (P.blocks pages.old) roots (λ g. BelowDkeyIsNew stamp g → (d : ℕ) → BelowDkeyOnPathIsSmall d (write_path write.now).akey g → SpendsAtMost (data_blocks write.now) (akey_pairs write.now (for_pair d) + log_pairs write.now (for_pair d)) (P.budget pages.old) (P.budget pages.new))) }
    ensures free { OnOk result ((P.budget pages.old).free ≤ (P.budget pages.new).free + (data_blocks write.now + (akey_pairs write.now 1 + log_pairs write.now 1))) }
    ensures goes { Goes P.stopped P.count P.burns pages.old pages.new }
    ensures stopped { IsErrOf result TreeNo.Stopped → P.stopped pages.new ≡ true }
    ensures went_on { OnOk result (P.stopped pages.new ≡ P.stopped pages.old) }
{
    let mut akeys = Tree {
        kind: 3,
        root: roots.below,
    };
    write_akeys(&mut akeys, pages, stamp, write, steps)?;
    let log = note_update(roots.log, pages, stamp, write, steps)?;
    Ok(Roots {
        log,
        below: akeys.root,
    })
}

// A dkey is punched.
fn punch_log<P: Pages, L: Ledger>(
    roots: Roots,
    pages: &mut P,
    stamp: Stamp,
    steps: &mut Steps<L>,
) -> Result<Roots, TreeNo>
    requires minor { stamp.at.minor < 64 }
    requires here { HasAt P.tells (below_owner akey_level) below_roots (P.blocks pages.old) roots (BelowDkeyIsNew stamp) }
    ensures written { IfOk result (λ now. OfAt P.tells (below_owner akey_level) below_roots (P.blocks pages.old) roots (λ g. BelowDkeyIsNew stamp g → (o : ObjectKeyOf) (d : List ℕ) → Turns (below_owner akey_level) below_roots (below_dkey_versions o d) (P.blocks pages.old) g (P.blocks pages.new) now (HasMore (fresh stamp (punch_write (dkey_path o d)))) (DkeyNoted stamp (punch_write (dkey_path o d)) no_name))) }
    ensures no_block { IsErrOf result TreeNo.NoBlock → (P.budget pages.old).free < 1 }
    ensures too_much { IsErrOf result TreeNo.TooMuch → OfAt P.tells (below_owner akey_level) below_roots (P.blocks pages.old) roots (λ g. BelowDkeyIsNew stamp g → (d : ℕ) → IsSmall d g.0 → LacksFor 0 0 d (P.budget pages.old)) }
    ensures few_left { IsErrOf result TreeNo.TooMuch → OfAt P.tells (below_owner akey_level) below_roots (P.blocks pages.old) roots (λ g. BelowDkeyIsNew stamp g → (d : ℕ) → IsSmall d g.0 → IsShort d (P.budget pages.new)) }
    ensures staged { OnOk result (OfAt P.tells (below_owner akey_level) below_roots (P.blocks pages.old) roots (λ g. BelowDkeyIsNew stamp g → (d : ℕ) → IsSmall d g.0 → SpendsAtMost 0 (for_pair d) (P.budget pages.old) (P.budget pages.new))) }
    ensures free { OnOk result ((P.budget pages.old).free ≤ (P.budget pages.new).free + 1) }
    ensures goes { Goes P.stopped P.count P.burns pages.old pages.new }
    ensures stopped { IsErrOf result TreeNo.Stopped → P.stopped pages.new ≡ true }
    ensures went_on { OnOk result (P.stopped pages.new ≡ P.stopped pages.old) }
{
    let log = note(roots.log, pages, stamp, true, steps)?;
    Ok(Roots {
        log,
        below: roots.below,
    })
}

// What a write makes of a dkey that it is for: a version more.
fn write_dkey<P: Pages, L: Ledger>(
    roots: Roots,
    pages: &mut P,
    stamp: Stamp,
    write: &Write,
    steps: &mut Steps<L>,
) -> Result<Roots, TreeNo>
    requires minor { stamp.at.minor < 64 }
    requires form { is_write_in_form write.now ≡ true }
    requires below { goes_below_object write.now ≡ true }
    requires names { NamesAreKeys (write_path write.now) }
    requires here { HasAt P.tells (below_owner akey_level) below_roots (P.blocks pages.old) roots (BelowDkeyIsNew stamp) }
    ensures written { IfOk result (λ now. OfAt P.tells (below_owner akey_level) below_roots (P.blocks pages.old) roots (λ g. BelowDkeyIsNew stamp g → (o : ObjectKeyOf) (d : List ℕ) → IsAtDkey o d (write_path write.now) → Turns (below_owner akey_level) below_roots (below_dkey_versions o d) (P.blocks pages.old) g (P.blocks pages.new) now (HasMore (fresh stamp write.now)) (DkeyNoted stamp write.now (write_path write.now).akey))) }
    ensures no_block { IsErrOf result TreeNo.NoBlock → (P.budget pages.old).free < data_blocks write.now + below_dkey_pairs write.now 1 }
    ensures too_much { IsErrOf result TreeNo.TooMuch → OfAt P.tells (below_owner akey_level) below_roots (P.blocks pages.old) roots (λ g. BelowDkeyIsNew stamp g → (d : ℕ) → BelowDkeyOnPathIsSmall d (write_path write.now).akey g → LacksFor (data_blocks write.now) (below_dkey_pairs write.now (for_pair d)) d (P.budget pages.old)) }
    ensures few_left { IsErrOf result TreeNo.TooMuch → OfAt P.tells (below_owner akey_level) below_roots (P.blocks pages.old) roots (λ g. BelowDkeyIsNew stamp g → (d : ℕ) → BelowDkeyOnPathIsSmall d (write_path write.now).akey g → IsShort d (P.budget pages.new)) }
    ensures staged { OnOk result (OfAt P.tells (below_owner akey_level) below_roots (P.blocks pages.old) roots (λ g. BelowDkeyIsNew stamp g → (d : ℕ) → BelowDkeyOnPathIsSmall d (write_path write.now).akey g → SpendsAtMost (data_blocks write.now) (below_dkey_pairs write.now (for_pair d)) (P.budget pages.old) (P.budget pages.new))) }
    ensures free { OnOk result ((P.budget pages.old).free ≤ (P.budget pages.new).free + (data_blocks write.now + below_dkey_pairs write.now 1)) }
    ensures goes { Goes P.stopped P.count P.burns pages.old pages.new }
    ensures stopped { IsErrOf result TreeNo.Stopped → P.stopped pages.new ≡ true }
    ensures went_on { OnOk result (P.stopped pages.new ≡ P.stopped pages.old) }
{
    if goes_below_dkey(write) {
        write_below(roots, pages, stamp, write, steps)
    } else {
        punch_log(roots, pages, stamp, steps)
    }
}

/// What a write makes of the dkeys below the object that it is for: a version more, in the dkey that it
/// names, which comes into the tree if it isn't there.
///
/// # Errors
///
/// `NoBlock` comes only where fewer blocks are free than the bytes and the pairs may want, `TooMuch` only
/// where fewer ranges or bytes are left to stage than that, and `Stopped` only where the pages answered
/// it. After `TooMuch` fewer are left than one change of the largest tree may want. After one the
/// stage has to be dropped.
pub fn write_dkeys<P: Pages, L: Ledger>(
    dkeys: &mut Tree,
    pages: &mut P,
    stamp: Stamp,
    write: &Write,
    steps: &mut Steps<L>,
) -> Result<(), TreeNo>
    requires kind { dkeys.old.kind ≡ 2 }
    requires minor { stamp.at.minor < 64 }
    requires form { is_write_in_form write.now ≡ true }
    requires below { goes_below_object write.now ≡ true }
    requires names { NamesAreKeys (write_path write.now) }
    requires here { HasThing P.tells (hung dkey_level) hung_root (P.blocks pages.old) dkeys.old.root (DkeysAreNew stamp) }
    ensures written { OnOk result (OfThing P.tells (hung dkey_level) hung_root (P.blocks pages.old) dkeys.old.root (λ g. DkeysAreNew stamp g → (o : ObjectKeyOf) (d : List ℕ) → IsAtDkey o d (write_path write.now) → Turns (hung dkey_level) hung_root (dkeys_versions o) (P.blocks pages.old) g (P.blocks pages.new) dkeys.new.root (HasMore (fresh stamp write.now)) (DkeysNoted stamp write.now d (write_path write.now).akey))) }
    ensures kind { dkeys.new.kind ≡ 2 }
    ensures no_block { IsErrOf result TreeNo.NoBlock → (P.budget pages.old).free < data_blocks write.now + dkey_pairs write.now 1 }
    ensures too_much { IsErrOf result TreeNo.TooMuch → OfThing P.tells (hung dkey_level) hung_root (P.blocks pages.old) dkeys.old.root (λ g. DkeysAreNew stamp g → (d : ℕ) → DkeysOnPathAreSmall d (write_path write.now).dkey (write_path write.now).akey g → LacksFor (data_blocks write.now) (below_dkey_pairs write.now (for_pair d)) d (P.budget pages.old)) }
    ensures few_left { IsErrOf result TreeNo.TooMuch → OfThing P.tells (hung dkey_level) hung_root (P.blocks pages.old) dkeys.old.root (λ g. DkeysAreNew stamp g → (d : ℕ) → DkeysOnPathAreSmall d (write_path write.now).dkey (write_path write.now).akey g → IsShort d (P.budget pages.new)) }
    ensures staged { OnOk result (OfThing P.tells (hung dkey_level) hung_root (P.blocks pages.old) dkeys.old.root (λ g. DkeysAreNew stamp g → (d : ℕ) → DkeysOnPathAreSmall d (write_path write.now).dkey (write_path write.now).akey g → SpendsAtMost (data_blocks write.now) (dkey_pairs write.now (for_pair d)) (P.budget pages.old) (P.budget pages.new))) }
    ensures free { OnOk result ((P.budget pages.old).free ≤ (P.budget pages.new).free + (data_blocks write.now + dkey_pairs write.now 1)) }
    ensures goes { Goes P.stopped P.count P.burns pages.old pages.new }
    ensures stopped { IsErrOf result TreeNo.Stopped → P.stopped pages.new ≡ true }
    ensures went_on { OnOk result (P.stopped pages.new ≡ P.stopped pages.old) }
{
    let Some(name) = &write.path().dkey else {
        return Ok(());
    };
    let key = key_of(name);
    let found = find_roots(*dkeys, pages, &key, steps)?;
    let roots = write_dkey(roots_or_zero(found), pages, stamp, write, steps)?;
    dkeys.set(pages, &key, &roots_value(roots), steps)
}
