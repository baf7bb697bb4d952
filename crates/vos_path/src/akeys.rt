// What a write makes of the akeys below a dkey.
ghost use Rattle.std.specs.Prelude.{◌≡◌, ◌≤◌, ◌<◌, ◌+◌, true, ℕ, OnOk, IsErrOf, List};
ghost use Rattle.base_types.specs.Operations.{write_path};
ghost use Rattle.daos_model.specs.Forms.{is_write_in_form};
ghost use Rattle.pmem_tree.specs.Calls.{IsShort};
ghost use Rattle.pmem_tree_base.specs.Calls.{Goes};
ghost use Rattle.pmem_tree_base.specs.declared.refusal.TreeNo.{TreeNo};
ghost use Rattle.vos_extent.specs.vos_levels.Calls.{HasThing, OfThing};
ghost use Rattle.vos_extent.specs.vos_levels.Levels.{HasMore, hung, hung_root};
ghost use Rattle.vos_values.specs.declared.keys.ObjectKey.{ObjectKey as ObjectKeyOf};
ghost use Rattle.vos_path.specs.Calls.{LacksFor, SpendsAtMost, Turns, for_pair};
ghost use Rattle.vos_path.specs.Nodes.{AkeysNoted};
ghost use Rattle.vos_path.specs.Objects.{akey_level, akey_path, akeys_versions};
ghost use Rattle.vos_path.specs.Small.{AkeysOnPathAreSmall};
ghost use Rattle.vos_path.specs.Writes.{AkeysAreNew, NamesAreKeys, akey_pairs, data_blocks, fresh, goes_below_dkey, values_pairs};

use crate::find::{akey_or_zero, find_akey};
use crate::name::key_of;
use crate::stamp::Stamp;
use crate::values::write_values;
use base_types::operation::Write;
use pmem_pages::pages::Pages;
use pmem_pages::steps::Steps;
use pmem_tree::TreeNo;
use pmem_tree::tree::Tree;
use std::sync::ledger::Ledger;
use vos_values::values::akey_value;

/// What a write makes of the akeys below the dkey that it is for: a version more, in the akey that it
/// names, which comes into the tree if it isn't there.
///
/// # Errors
///
/// `NoBlock` comes only where fewer blocks are free than the bytes and the pairs may want, `TooMuch` only
/// where fewer ranges or bytes are left to stage than that, and `Stopped` only where the pages answered
/// it. After `TooMuch` fewer are left than one change of the largest tree may want. After one the
/// stage has to be dropped.
pub fn write_akeys<P: Pages, L: Ledger>(
    akeys: &mut Tree,
    pages: &mut P,
    stamp: Stamp,
    write: &Write,
    steps: &mut Steps<L>,
) -> Result<(), TreeNo>
    requires kind { akeys.old.kind ≡ 3 }
    requires minor { stamp.at.minor < 64 }
    requires form { is_write_in_form write.now ≡ true }
    requires below { goes_below_dkey write.now ≡ true }
    requires names { NamesAreKeys (write_path write.now) }
    requires here { HasThing P.tells (hung akey_level) hung_root (P.blocks pages.old) akeys.old.root (AkeysAreNew stamp) }
    ensures written { OnOk result (OfThing P.tells (hung akey_level) hung_root (P.blocks pages.old) akeys.old.root (λ g. AkeysAreNew stamp g → (o : ObjectKeyOf) (d a : List ℕ) → write_path write.now ≡ akey_path o d a → Turns (hung akey_level) hung_root (akeys_versions o d) (P.blocks pages.old) g (P.blocks pages.new) akeys.new.root (HasMore (fresh stamp write.now)) (AkeysNoted stamp write.now a))) }
    ensures kind { akeys.new.kind ≡ 3 }
    ensures no_block { IsErrOf result TreeNo.NoBlock → (P.budget pages.old).free < data_blocks write.now + akey_pairs write.now 1 }
    ensures too_much { IsErrOf result TreeNo.TooMuch → OfThing P.tells (hung akey_level) hung_root (P.blocks pages.old) akeys.old.root (λ g. AkeysAreNew stamp g → (d : ℕ) → AkeysOnPathAreSmall d (write_path write.now).akey g → LacksFor (data_blocks write.now) (values_pairs write.now (for_pair d)) d (P.budget pages.old)) }
    ensures few_left { IsErrOf result TreeNo.TooMuch → OfThing P.tells (hung akey_level) hung_root (P.blocks pages.old) akeys.old.root (λ g. AkeysAreNew stamp g → (d : ℕ) → AkeysOnPathAreSmall d (write_path write.now).akey g → IsShort d (P.budget pages.new)) }
    ensures staged { OnOk result (OfThing P.tells (hung akey_level) hung_root (P.blocks pages.old) akeys.old.root (λ g. AkeysAreNew stamp g → (d : ℕ) → AkeysOnPathAreSmall d (write_path write.now).akey g → SpendsAtMost (data_blocks write.now) (akey_pairs write.now (for_pair d)) (P.budget pages.old) (P.budget pages.new))) }
    ensures free { OnOk result ((P.budget pages.old).free ≤ (P.budget pages.new).free + (data_blocks write.now + akey_pairs write.now 1)) }
    ensures goes { Goes P.stopped P.count P.burns pages.old pages.new }
    ensures stopped { IsErrOf result TreeNo.Stopped → P.stopped pages.new ≡ true }
    ensures went_on { OnOk result (P.stopped pages.new ≡ P.stopped pages.old) }
{
    let Some(name) = &write.path().akey else {
        return Ok(());
    };
    let key = key_of(name);
    let found = find_akey(*akeys, pages, &key, steps)?;
    let roots = write_values(akey_or_zero(found), pages, stamp, write, steps)?;
    akeys.set(pages, &key, &akey_value(roots), steps)
}
