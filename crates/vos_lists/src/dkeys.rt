// The dkeys of an object that have a cell.
ghost use Rattle.std.specs.Prelude.{◌≡◌, true, ℕ, List, Option, Some, IfOk, OnOk, IsErrOf, IsTrue, ⊤, take};
ghost use Rattle.pmem_tree_base.specs.Calls.{Goes};
ghost use Rattle.vos_levels.specs.Calls.{HasThing, OfThing};
ghost use Rattle.vos_levels.specs.Levels.{hung, hung_root};
ghost use Rattle.vos_chain.specs.declared.refusal.PiecesNo.TheVariants.{Stopped as stopped_no};
ghost use Rattle.vos_values.specs.declared.keys.Moment.{Moment as MomentOf};
ghost use Rattle.vos_path.specs.Calls.{HasAt, OfAt};
ghost use Rattle.vos_path.specs.Objects.{akey_level, below_owner, below_roots, dkey_level};
ghost use Rattle.vos_punches.specs.Rows.{moments_at};
ghost use Rattle.vos_lists.specs.Covers.{CoverAkeys, CoverDkeys};
ghost use Rattle.vos_lists.specs.Entries.{name_of};
ghost use Rattle.vos_lists.specs.Paths.{at_dkey};
ghost use Rattle.vos_lists.specs.Stands.{any_dkey, below_stands, covered, dkey_names};

use crate::akeys::{any_akey, push_name};
use crate::entry::{DkeyEntry, PAIRS, least_key, next_dkey};
use crate::paths::{at_dkey, name_in};
use crate::view::View;
use base_types::answer::Keys;
use base_types::items::Items;
use base_types::path::Path;
use pmem_pages::pages::Pages;
use pmem_pages::steps::Steps;
use pmem_tree::tree::Tree;
use std::alloc::Global;
use std::sync::ledger::Ledger;
use vos_chain::refusal::PiecesNo;
use vos_punches::punches::Punches;

// Whether a dkey of the object of a path has a cell: whether one of its akeys has one.
fn dkey_stands<P: Pages, L: Ledger>(
    dkey: DkeyEntry,
    pages: &mut P,
    alloc: Global,
    view: View,
    above: &Path,
    punches: &Punches,
    steps: &mut Steps<L>,
) -> Result<bool, PiecesNo>
    requires here { HasAt P.tells (below_owner akey_level) below_roots (P.blocks pages.old) dkey.roots (λ g. ⊤) }
    ensures found { IfOk result (λ b. OfAt P.tells (below_owner akey_level) below_roots (P.blocks pages.old) dkey.roots (λ g. (name : List ℕ) (punched : Option MomentOf) → name_of dkey.key ≡ Some name → CoverAkeys view (moments_at punches.now) (at_dkey above.now name) (covered view punched g.0) g.1 → b ≡ below_stands view punched g)) }
    ensures kept { IsTrue P.tells → P.blocks pages.new ≡ P.blocks pages.old }
    ensures budget { P.budget pages.new ≡ P.budget pages.old }
    ensures goes { Goes P.stopped P.count P.burns pages.old pages.new }
    ensures stopped { IsErrOf result stopped_no → P.stopped pages.new ≡ true }
    ensures went_on { OnOk result (P.stopped pages.new ≡ P.stopped pages.old) }
{
    let Some(name) = name_in(alloc, &dkey.key)? else {
        return Ok(false);
    };
    let path = at_dkey(above, name);
    any_akey(dkey.roots.below, pages, alloc, view, &path, punches, steps)
}

/// The names of the dkeys below a root that have a cell, those of the object of a path: at most so many, the
/// first in byte order. The punches are those that the logs have.
///
/// # Errors
///
/// `Stopped` comes only where the pages answered it.
pub fn dkey_names<P: Pages, L: Ledger>(
    root: u32,
    pages: &mut P,
    alloc: Global,
    view: View,
    path: &Path,
    punches: &Punches,
    most: u64,
    steps: &mut Steps<L>,
) -> Result<Keys, PiecesNo>
    requires here { HasThing P.tells (hung dkey_level) hung_root (P.blocks pages.old) root (λ g. ⊤) }
    ensures found { IfOk result (λ names. OfThing P.tells (hung dkey_level) hung_root (P.blocks pages.old) root (λ g. (punched : Option MomentOf) → CoverDkeys view (moments_at punches.now) path.now punched g → names ≡ take most (dkey_names view punched g))) }
    ensures kept { IsTrue P.tells → P.blocks pages.new ≡ P.blocks pages.old }
    ensures budget { P.budget pages.new ≡ P.budget pages.old }
    ensures goes { Goes P.stopped P.count P.burns pages.old pages.new }
    ensures stopped { IsErrOf result stopped_no → P.stopped pages.new ≡ true }
    ensures went_on { OnOk result (P.stopped pages.new ≡ P.stopped pages.old) }
{
    let dkeys = Tree { kind: 2, root };
    let mut names = Items::new(alloc);
    let mut key = least_key();
    for _ in 0..PAIRS {
        if names.len() as u64 >= most {
            return Ok(names);
        }
        let Some(dkey) = next_dkey(dkeys, pages, &key, steps)? else {
            return Ok(names);
        };
        if dkey_stands(dkey, pages, alloc, view, path, punches, steps)? {
            push_name(alloc, &mut names, &dkey.key)?;
        }
        key = dkey.key;
    }
    Ok(names)
}

/// Whether one of the dkeys below a root has a cell, of those of the object of a path.
///
/// # Errors
///
/// `Stopped` comes only where the pages answered it.
pub fn any_dkey<P: Pages, L: Ledger>(
    root: u32,
    pages: &mut P,
    alloc: Global,
    view: View,
    path: &Path,
    punches: &Punches,
    steps: &mut Steps<L>,
) -> Result<bool, PiecesNo>
    requires here { HasThing P.tells (hung dkey_level) hung_root (P.blocks pages.old) root (λ g. ⊤) }
    ensures found { IfOk result (λ b. OfThing P.tells (hung dkey_level) hung_root (P.blocks pages.old) root (λ g. (punched : Option MomentOf) → CoverDkeys view (moments_at punches.now) path.now punched g → b ≡ any_dkey view punched g)) }
    ensures kept { IsTrue P.tells → P.blocks pages.new ≡ P.blocks pages.old }
    ensures budget { P.budget pages.new ≡ P.budget pages.old }
    ensures goes { Goes P.stopped P.count P.burns pages.old pages.new }
    ensures stopped { IsErrOf result stopped_no → P.stopped pages.new ≡ true }
    ensures went_on { OnOk result (P.stopped pages.new ≡ P.stopped pages.old) }
{
    let names = dkey_names(root, pages, alloc, view, path, punches, 1, steps)?;
    Ok(!names.is_empty())
}
