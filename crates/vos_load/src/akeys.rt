// The versions below the akeys of a dkey.
ghost use Rattle.std.specs.Prelude.{◌≡◌, true, ℕ, List, Some, OnOk, IsErrOf, IsTrue, ⊤};
ghost use Rattle.pmem_tree_base.specs.Calls.{Goes};
ghost use Rattle.vos_levels.specs.Calls.{HasThing, OfThing};
ghost use Rattle.vos_levels.specs.Levels.{hung, hung_root};
ghost use Rattle.vos_chain.specs.declared.refusal.PiecesNo.TheVariants.{Stopped as stopped_no};
ghost use Rattle.vos_path.specs.Calls.{HasAt, OfAt};
ghost use Rattle.vos_path.specs.Objects.{akey_level, values_owner, values_roots, values_versions};
ghost use Rattle.vos_lists.specs.Entries.{name_of};
ghost use Rattle.vos_lists.specs.Paths.{at_akey};
ghost use Rattle.vos_gather.specs.Gathered.{akeys_in};
ghost use Rattle.vos_load.specs.Read.{AreRead};

use crate::log::read_log;
use crate::values::{read_extents, read_singles};
use base_types::operation::Write;
use base_types::path::Path;
use daos_model::durable::Version;
use pmem_pages::pages::Pages;
use pmem_pages::steps::Steps;
use pmem_tree::tree::Tree;
use std::alloc::Global;
use std::sync::ledger::Ledger;
use vos_chain::refusal::PiecesNo;
use vos_lists::entry::{AkeyEntry, PAIRS, least_key, next_akey};
use vos_lists::paths::{at_akey, name_in};

// Puts the versions of an akey of the dkey of a path behind others.
fn read_akey<P: Pages, L: Ledger>(
    akey: AkeyEntry,
    pages: &mut P,
    alloc: Global,
    above: &Path,
    versions: &mut Vec<Version>,
    steps: &mut Steps<L>,
) -> Result<(), PiecesNo>
    requires here { HasAt P.tells values_owner values_roots (P.blocks pages.old) akey.roots (λ g. ⊤) }
    ensures read { OnOk result (OfAt P.tells values_owner values_roots (P.blocks pages.old) akey.roots (λ g. (name : List ℕ) → name_of akey.key ≡ Some name → AreRead (values_versions (at_akey above.now name) g) versions.old.items versions.new.items)) }
    ensures kept { IsTrue P.tells → P.blocks pages.new ≡ P.blocks pages.old }
    ensures budget { P.budget pages.new ≡ P.budget pages.old }
    ensures goes { Goes P.stopped P.count P.burns pages.old pages.new }
    ensures stopped { IsErrOf result stopped_no → P.stopped pages.new ≡ true }
    ensures went_on { OnOk result (P.stopped pages.new ≡ P.stopped pages.old) }
{
    let Some(name) = name_in(alloc, &akey.key)? else {
        return Ok(());
    };
    let path = at_akey(above, name)?;
    let punch = Write::PunchAkey(path.copy()?);
    read_log(akey.roots.log, pages, &punch, versions, steps)?;
    read_singles(akey.roots.singles, pages, alloc, &path, versions, steps)?;
    read_extents(akey.roots.extents, pages, alloc, &path, versions, steps)
}

/// Puts the versions of the akeys below a root behind others: of those of the dkey of a path.
///
/// # Errors
///
/// `Stopped` comes only where the pages answered it.
pub(crate) fn read_akeys<P: Pages, L: Ledger>(
    root: u32,
    pages: &mut P,
    alloc: Global,
    above: &Path,
    versions: &mut Vec<Version>,
    steps: &mut Steps<L>,
) -> Result<(), PiecesNo>
    requires here { HasThing P.tells (hung akey_level) hung_root (P.blocks pages.old) root (λ g. ⊤) }
    ensures read { OnOk result (OfThing P.tells (hung akey_level) hung_root (P.blocks pages.old) root (λ g. AreRead (akeys_in above.now g) versions.old.items versions.new.items)) }
    ensures kept { IsTrue P.tells → P.blocks pages.new ≡ P.blocks pages.old }
    ensures budget { P.budget pages.new ≡ P.budget pages.old }
    ensures goes { Goes P.stopped P.count P.burns pages.old pages.new }
    ensures stopped { IsErrOf result stopped_no → P.stopped pages.new ≡ true }
    ensures went_on { OnOk result (P.stopped pages.new ≡ P.stopped pages.old) }
{
    let akeys = Tree { kind: 3, root };
    let mut key = least_key();
    for _ in 0..PAIRS {
        let Some(akey) = next_akey(akeys, pages, &key, steps)? else {
            return Ok(());
        };
        read_akey(akey, pages, alloc, above, versions, steps)?;
        key = akey.key;
    }
    Ok(())
}
