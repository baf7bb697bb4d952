// The versions below the dkeys of an object.
ghost use Rattle.std.specs.Prelude.{◌≡◌, true, ℕ, List, Some, OnOk, IsErrOf, IsTrue, ⊤};
ghost use Rattle.pmem_tree_base.specs.Calls.{Goes};
ghost use Rattle.vos_levels.specs.Calls.{HasThing, OfThing};
ghost use Rattle.vos_levels.specs.Levels.{hung, hung_root};
ghost use Rattle.vos_chain.specs.declared.refusal.PiecesNo.TheVariants.{Stopped as stopped_no};
ghost use Rattle.vos_path.specs.Calls.{HasAt, OfAt};
ghost use Rattle.vos_path.specs.Objects.{akey_level, below_owner, below_roots, dkey_level};
ghost use Rattle.vos_lists.specs.Entries.{name_of};
ghost use Rattle.vos_lists.specs.Paths.{at_dkey};
ghost use Rattle.vos_gather.specs.Gathered.{below_dkey_in, dkeys_in};
ghost use Rattle.vos_load.specs.Read.{AreRead};

use crate::akeys::read_akeys;
use crate::log::read_log;
use base_types::operation::Write;
use base_types::path::Path;
use daos_model::durable::Version;
use pmem_pages::pages::Pages;
use pmem_pages::steps::Steps;
use pmem_tree::tree::Tree;
use std::alloc::Global;
use std::sync::ledger::Ledger;
use vos_chain::refusal::PiecesNo;
use vos_lists::entry::{DkeyEntry, PAIRS, least_key, next_dkey};
use vos_lists::paths::{at_dkey, name_in};

// Puts the versions of a dkey of the object of a path, and of its akeys, behind others.
fn read_dkey<P: Pages, L: Ledger>(
    dkey: DkeyEntry,
    pages: &mut P,
    alloc: Global,
    above: &Path,
    versions: &mut Vec<Version>,
    steps: &mut Steps<L>,
) -> Result<(), PiecesNo>
    requires here { HasAt P.tells (below_owner akey_level) below_roots (P.blocks pages.old) dkey.roots (λ g. ⊤) }
    ensures read { OnOk result (OfAt P.tells (below_owner akey_level) below_roots (P.blocks pages.old) dkey.roots (λ g. (name : List ℕ) → name_of dkey.key ≡ Some name → AreRead (below_dkey_in (at_dkey above.now name) g) versions.old.items versions.new.items)) }
    ensures kept { IsTrue P.tells → P.blocks pages.new ≡ P.blocks pages.old }
    ensures budget { P.budget pages.new ≡ P.budget pages.old }
    ensures goes { Goes P.stopped P.count P.burns pages.old pages.new }
    ensures stopped { IsErrOf result stopped_no → P.stopped pages.new ≡ true }
    ensures went_on { OnOk result (P.stopped pages.new ≡ P.stopped pages.old) }
{
    let Some(name) = name_in(alloc, &dkey.key)? else {
        return Ok(());
    };
    let path = at_dkey(above, name);
    let punch = Write::PunchDkey(path.copy()?);
    read_log(dkey.roots.log, pages, &punch, versions, steps)?;
    read_akeys(dkey.roots.below, pages, alloc, &path, versions, steps)
}

/// Puts the versions of the dkeys below a root, and of their akeys, behind others: of those of the object
/// of a path.
///
/// # Errors
///
/// `Stopped` comes only where the pages answered it.
pub(crate) fn read_dkeys<P: Pages, L: Ledger>(
    root: u32,
    pages: &mut P,
    alloc: Global,
    above: &Path,
    versions: &mut Vec<Version>,
    steps: &mut Steps<L>,
) -> Result<(), PiecesNo>
    requires here { HasThing P.tells (hung dkey_level) hung_root (P.blocks pages.old) root (λ g. ⊤) }
    ensures read { OnOk result (OfThing P.tells (hung dkey_level) hung_root (P.blocks pages.old) root (λ g. AreRead (dkeys_in above.now g) versions.old.items versions.new.items)) }
    ensures kept { IsTrue P.tells → P.blocks pages.new ≡ P.blocks pages.old }
    ensures budget { P.budget pages.new ≡ P.budget pages.old }
    ensures goes { Goes P.stopped P.count P.burns pages.old pages.new }
    ensures stopped { IsErrOf result stopped_no → P.stopped pages.new ≡ true }
    ensures went_on { OnOk result (P.stopped pages.new ≡ P.stopped pages.old) }
{
    let dkeys = Tree { kind: 2, root };
    let mut key = least_key();
    for _ in 0..PAIRS {
        let Some(dkey) = next_dkey(dkeys, pages, &key, steps)? else {
            return Ok(());
        };
        read_dkey(dkey, pages, alloc, above, versions, steps)?;
        key = dkey.key;
    }
    Ok(())
}
