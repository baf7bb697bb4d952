// The akeys of a dkey that have a cell.
ghost use Rattle.std.specs.Prelude.{◌≡◌, ◌≤◌, ◌+◌, ◌++◌, ◌∷◌, [], length, true, ℕ, List, Option, Some, IfOk, OnOk, IsErrOf, IsTrue, ⊤, take};
ghost use Rattle.pmem_tree_base.specs.Calls.{Goes};
ghost use Rattle.vos_levels.specs.Calls.{HasThing, OfThing};
ghost use Rattle.vos_levels.specs.Levels.{hung, hung_root};
ghost use Rattle.vos_chain.specs.declared.refusal.PiecesNo.TheVariants.{Stopped as stopped_no};
ghost use Rattle.vos_values.specs.declared.keys.Moment.{Moment as MomentOf};
ghost use Rattle.vos_path.specs.Calls.{HasAt, OfAt};
ghost use Rattle.vos_path.specs.Objects.{akey_level, values_owner, values_roots};
ghost use Rattle.vos_punches.specs.Punches.{covering};
ghost use Rattle.vos_punches.specs.Rows.{moments_at};
ghost use Rattle.vos_lists.specs.Covers.{CoverAkeys};
ghost use Rattle.vos_lists.specs.Entries.{name_of};
ghost use Rattle.vos_lists.specs.Paths.{at_akey};
ghost use Rattle.vos_lists.specs.Stands.{akey_names, any_akey, has_value};

use crate::entry::{AkeyEntry, PAIRS, least_key, name_of, next_akey};
use crate::paths::{at_akey, name_in};
use crate::values::has_value;
use crate::view::View;
use base_types::answer::Keys;
use base_types::items::{Items, Memory};
use base_types::key::Key;
use base_types::path::Path;
use pmem_pages::pages::Pages;
use pmem_pages::steps::Steps;
use pmem_tree::TreeKey;
use pmem_tree::tree::Tree;
use std::alloc::{AllocError, Global};
use std::sync::ledger::Ledger;
use vos_chain::refusal::PiecesNo;
use vos_punches::punches::Punches;

/// Adds the name that a key says, if it says one.
pub fn push_name(alloc: Global, names: &mut Keys, key: &TreeKey) -> Result<(), Memory>
    ensures one { length names.new ≤ length names.old + 1 }
    ensures pushed { OnOk result ((name : List ℕ) → name_of key.now ≡ Some name → names.new ≡ names.old ++ name ∷ []) }
{
    let Some(text) = name_of(key) else {
        return Ok(());
    };
    let Ok(name) = Key::new(alloc, text) else {
        return Err(AllocError);
    };
    names.push(name)?;
    Ok(())
}

// Whether an akey of the dkey of a path has a cell.
fn akey_stands<P: Pages, L: Ledger>(
    akey: AkeyEntry,
    pages: &mut P,
    alloc: Global,
    view: View,
    above: &Path,
    punches: &Punches,
    steps: &mut Steps<L>,
) -> Result<bool, PiecesNo>
    requires here { HasAt P.tells values_owner values_roots (P.blocks pages.old) akey.roots (λ g. ⊤) }
    ensures found { IfOk result (λ b. OfAt P.tells values_owner values_roots (P.blocks pages.old) akey.roots (λ g. (name : List ℕ) → name_of akey.key ≡ Some name → b ≡ has_value view (covering view.below (at_akey above.now name) (moments_at punches.now)) g)) }
    ensures kept { IsTrue P.tells → P.blocks pages.new ≡ P.blocks pages.old }
    ensures budget { P.budget pages.new ≡ P.budget pages.old }
    ensures goes { Goes P.stopped P.count P.burns pages.old pages.new }
    ensures stopped { IsErrOf result stopped_no → P.stopped pages.new ≡ true }
    ensures went_on { OnOk result (P.stopped pages.new ≡ P.stopped pages.old) }
{
    let Some(name) = name_in(alloc, &akey.key)? else {
        return Ok(false);
    };
    let path = at_akey(above, name)?;
    let punched = punches.covering(&path, view.below);
    Ok(has_value(akey.roots, pages, view, punched, steps)?)
}

/// The names of the akeys below a root that have a cell, those of the dkey of a path: at most so many, the
/// first in byte order. The punches are those that the logs have.
///
/// # Errors
///
/// `Stopped` comes only where the pages answered it.
pub fn akey_names<P: Pages, L: Ledger>(
    root: u32,
    pages: &mut P,
    alloc: Global,
    view: View,
    path: &Path,
    punches: &Punches,
    most: u64,
    steps: &mut Steps<L>,
) -> Result<Keys, PiecesNo>
    requires here { HasThing P.tells (hung akey_level) hung_root (P.blocks pages.old) root (λ g. ⊤) }
    ensures found { IfOk result (λ names. OfThing P.tells (hung akey_level) hung_root (P.blocks pages.old) root (λ g. (punched : Option MomentOf) → CoverAkeys view (moments_at punches.now) path.now punched g → names ≡ take most (akey_names view punched g))) }
    ensures kept { IsTrue P.tells → P.blocks pages.new ≡ P.blocks pages.old }
    ensures budget { P.budget pages.new ≡ P.budget pages.old }
    ensures goes { Goes P.stopped P.count P.burns pages.old pages.new }
    ensures stopped { IsErrOf result stopped_no → P.stopped pages.new ≡ true }
    ensures went_on { OnOk result (P.stopped pages.new ≡ P.stopped pages.old) }
{
    let akeys = Tree { kind: 3, root };
    let mut names = Items::new(alloc);
    let mut key = least_key();
    for _ in 0..PAIRS {
        if names.len() as u64 >= most {
            return Ok(names);
        }
        let Some(akey) = next_akey(akeys, pages, &key, steps)? else {
            return Ok(names);
        };
        if akey_stands(akey, pages, alloc, view, path, punches, steps)? {
            push_name(alloc, &mut names, &akey.key)?;
        }
        key = akey.key;
    }
    Ok(names)
}

/// Whether one of the akeys below a root has a cell, of those of the dkey of a path.
///
/// # Errors
///
/// `Stopped` comes only where the pages answered it.
pub fn any_akey<P: Pages, L: Ledger>(
    root: u32,
    pages: &mut P,
    alloc: Global,
    view: View,
    path: &Path,
    punches: &Punches,
    steps: &mut Steps<L>,
) -> Result<bool, PiecesNo>
    requires here { HasThing P.tells (hung akey_level) hung_root (P.blocks pages.old) root (λ g. ⊤) }
    ensures found { IfOk result (λ b. OfThing P.tells (hung akey_level) hung_root (P.blocks pages.old) root (λ g. (punched : Option MomentOf) → CoverAkeys view (moments_at punches.now) path.now punched g → b ≡ any_akey view punched g)) }
    ensures kept { IsTrue P.tells → P.blocks pages.new ≡ P.blocks pages.old }
    ensures budget { P.budget pages.new ≡ P.budget pages.old }
    ensures goes { Goes P.stopped P.count P.burns pages.old pages.new }
    ensures stopped { IsErrOf result stopped_no → P.stopped pages.new ≡ true }
    ensures went_on { OnOk result (P.stopped pages.new ≡ P.stopped pages.old) }
{
    let names = akey_names(root, pages, alloc, view, path, punches, 1, steps)?;
    Ok(!names.is_empty())
}
