// The names of writes below the dkeys of an object.
ghost use Rattle.std.specs.Prelude.{◌≡◌, true, All, ℕ, List, Some, OnOk, IsErrOf, IsTrue, ⊤};
ghost use Rattle.pmem_tree_base.specs.Calls.{Goes};
ghost use Rattle.vos_levels.specs.Calls.{HasThing, OfThing};
ghost use Rattle.vos_levels.specs.Levels.{hung, hung_root};
ghost use Rattle.vos_chain.specs.declared.refusal.PiecesNo.TheVariants.{Stopped as stopped_no};
ghost use Rattle.vos_path.specs.Calls.{HasAt, OfAt};
ghost use Rattle.vos_path.specs.Objects.{akey_level, below_owner, below_roots, dkey_level};
ghost use Rattle.vos_settle.specs.Names.{IsNamed};
ghost use Rattle.vos_lists.specs.Entries.{name_of};
ghost use Rattle.vos_lists.specs.Paths.{at_dkey};
ghost use Rattle.vos_gather.specs.Gathered.{below_dkey_in, dkeys_in};
ghost use Rattle.vos_gather.specs.Wanted.{IsPlace, Listed, want_of};

use crate::akeys::list_akeys;
use crate::log::list_log;
use crate::wanted::Wanted;
use base_types::path::Path;
use pmem_pages::pages::Pages;
use pmem_pages::steps::Steps;
use pmem_tree::tree::Tree;
use std::alloc::Global;
use std::sync::ledger::Ledger;
use vos_chain::refusal::PiecesNo;
use vos_lists::entry::{DkeyEntry, PAIRS, least_key, next_dkey};
use vos_lists::paths::{at_dkey, name_in};
use vos_settle::name::WriteName;

// Puts the names of the wanted writes of a dkey of the object of a path, and of its akeys, behind others.
fn list_dkey<P: Pages, L: Ledger>(
    dkey: DkeyEntry,
    pages: &mut P,
    alloc: Global,
    above: &Path,
    wanted: &Wanted,
    names: &mut Vec<WriteName>,
    steps: &mut Steps<L>,
) -> Result<(), PiecesNo>
    requires place { IsPlace above.now }
    requires here { HasAt P.tells (below_owner akey_level) below_roots (P.blocks pages.old) dkey.roots (λ g. ⊤) }
    ensures listed { OnOk result (OfAt P.tells (below_owner akey_level) below_roots (P.blocks pages.old) dkey.roots (λ g. (name : List ℕ) → name_of dkey.key ≡ Some name → Listed (want_of wanted.now) (below_dkey_in (at_dkey above.now name) g) names.old.items names.new.items)) }
    ensures named { All IsNamed names.old.items → All IsNamed names.new.items }
    ensures kept { IsTrue P.tells → P.blocks pages.new ≡ P.blocks pages.old }
    ensures budget { P.budget pages.new ≡ P.budget pages.old }
    ensures goes { Goes P.stopped P.count P.burns pages.old pages.new }
    ensures stopped { IsErrOf result stopped_no → P.stopped pages.new ≡ true }
    ensures went_on { OnOk result (P.stopped pages.new ≡ P.stopped pages.old) }
{
    let Some(name) = name_in(alloc, &dkey.key)? else {
        return Ok(());
    };
    let path = at_dkey(above, name);
    list_log(dkey.roots.log, pages, &path, wanted, names, steps)?;
    list_akeys(dkey.roots.below, pages, alloc, &path, wanted, names, steps)
}

/// Puts the names of the wanted writes of the dkeys below a root, and of their akeys, behind others: of those
/// of the object of a path.
///
/// # Errors
///
/// `Stopped` comes only where the pages answered it.
pub(crate) fn list_dkeys<P: Pages, L: Ledger>(
    root: u32,
    pages: &mut P,
    alloc: Global,
    above: &Path,
    wanted: &Wanted,
    names: &mut Vec<WriteName>,
    steps: &mut Steps<L>,
) -> Result<(), PiecesNo>
    requires place { IsPlace above.now }
    requires here { HasThing P.tells (hung dkey_level) hung_root (P.blocks pages.old) root (λ g. ⊤) }
    ensures listed { OnOk result (OfThing P.tells (hung dkey_level) hung_root (P.blocks pages.old) root (λ g. Listed (want_of wanted.now) (dkeys_in above.now g) names.old.items names.new.items)) }
    ensures named { All IsNamed names.old.items → All IsNamed names.new.items }
    ensures kept { IsTrue P.tells → P.blocks pages.new ≡ P.blocks pages.old }
    ensures budget { P.budget pages.new ≡ P.budget pages.old }
    ensures goes { Goes P.stopped P.count P.burns pages.old pages.new }
    ensures stopped { IsErrOf result stopped_no → P.stopped pages.new ≡ true }
    ensures went_on { OnOk result (P.stopped pages.new ≡ P.stopped pages.old) }
{
    let dkeys = Tree { kind: 2, root };
    let mut key = least_key();
    for _ in 0..PAIRS {
        let Some(dkey) = next_dkey(dkeys, pages, &key, steps)? else {
            return Ok(());
        };
        list_dkey(dkey, pages, alloc, above, wanted, names, steps)?;
        key = dkey.key;
    }
    Ok(())
}
