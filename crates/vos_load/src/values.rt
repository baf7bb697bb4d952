// The updates of one akey.
ghost use Rattle.std.specs.Prelude.{◌≡◌, true, [], ◌∷◌, List, map, OnOk, IsErrOf, IsTrue, ⊤};
ghost use Rattle.pmem_tree_base.specs.Calls.{Goes};
ghost use Rattle.vos_levels.specs.Calls.{HasThing, OfThing};
ghost use Rattle.vos_levels.specs.Levels.{hung_root};
ghost use Rattle.vos_chain.specs.Made.{HasChain, OfChain};
ghost use Rattle.vos_chain.specs.declared.refusal.PiecesNo.TheVariants.{Stopped as stopped_no};
ghost use Rattle.vos_single.specs.Singles.{single_owner, versions as single_versions_of};
ghost use Rattle.vos_extent.specs.Extents.{extent_owner, extents};
ghost use Rattle.vos_path.specs.Objects.{extent_version, single_version};
ghost use Rattle.vos_load.specs.Read.{AreRead};
ghost use Rattle.vos_load.specs.Updates.{extent_with, single_with};

use crate::rows::add_version;
use base_types::operation::Write;
use base_types::path::Path;
use daos_model::durable::Version;
use pmem_pages::pages::Pages;
use pmem_pages::steps::Steps;
use pmem_tree::tree::Tree;
use std::alloc::Global;
use std::sync::ledger::Ledger;
use vos_chain::chain::read_chain;
use vos_chain::refusal::PiecesNo;
use vos_extent::extent::Extents;
use vos_extent::pieces::{Placed as PlacedExtent, key_at as key_at_place};
use vos_lists::entry::{PAIRS, least_key};
use vos_single::single::{Placed, Single, key_at};

// Puts a version of a single value, with its bytes, behind others.
fn add_single<P: Pages, L: Ledger>(
    placed: &Placed,
    pages: &mut P,
    alloc: Global,
    path: &Path,
    versions: &mut Vec<Version>,
    steps: &mut Steps<L>,
) -> Result<(), PiecesNo>
    requires chain { HasChain P.tells (P.blocks pages.old) placed.now.mark.chain placed.now.mark.length }
    ensures read { OnOk result (OfChain P.tells (P.blocks pages.old) placed.now.mark.chain placed.now.mark.length (λ c. AreRead (single_with path.now placed.now c.bytes ∷ []) versions.old.items versions.new.items)) }
    ensures kept { IsTrue P.tells → P.blocks pages.new ≡ P.blocks pages.old }
    ensures budget { P.budget pages.new ≡ P.budget pages.old }
    ensures goes { Goes P.stopped P.count P.burns pages.old pages.new }
    ensures stopped { IsErrOf result stopped_no → P.stopped pages.new ≡ true }
    ensures went_on { OnOk result (P.stopped pages.new ≡ P.stopped pages.old) }
{
    let mark = placed.mark;
    let bytes = read_chain(pages, alloc, mark.chain, mark.length, steps)?;
    let path = path.copy()?;
    let version = Version {
        epoch: placed.moment.epoch,
        minor: placed.moment.minor,
        by: mark.by,
        done: mark.done,
        write: Write::Single(path, bytes),
    };
    add_version(versions, version)?;
    Ok(())
}

/// Puts the versions of a single value behind others.
///
/// # Errors
///
/// `Stopped` comes only where the pages answered it.
pub(crate) fn read_singles<P: Pages, L: Ledger>(
    root: u32,
    pages: &mut P,
    alloc: Global,
    path: &Path,
    versions: &mut Vec<Version>,
    steps: &mut Steps<L>,
) -> Result<(), PiecesNo>
    requires here { HasThing P.tells single_owner hung_root (P.blocks pages.old) root (λ g. ⊤) }
    ensures read { OnOk result (OfThing P.tells single_owner hung_root (P.blocks pages.old) root (λ g. AreRead (map (single_version path.now) (single_versions_of g)) versions.old.items versions.new.items)) }
    ensures kept { IsTrue P.tells → P.blocks pages.new ≡ P.blocks pages.old }
    ensures budget { P.budget pages.new ≡ P.budget pages.old }
    ensures goes { Goes P.stopped P.count P.burns pages.old pages.new }
    ensures stopped { IsErrOf result stopped_no → P.stopped pages.new ≡ true }
    ensures went_on { OnOk result (P.stopped pages.new ≡ P.stopped pages.old) }
{
    let singles = Single {
        tree: Tree { kind: 5, root },
    };
    let mut key = least_key();
    for _ in 0..PAIRS {
        let Some(placed) = singles.next_over(pages, &key, steps)? else {
            return Ok(());
        };
        add_single(&placed, pages, alloc, path, versions, steps)?;
        key = key_at(placed.moment);
    }
    Ok(())
}

// Puts an extent, with its bytes, behind other versions.
fn add_extent<P: Pages, L: Ledger>(
    placed: &PlacedExtent,
    pages: &mut P,
    alloc: Global,
    path: &Path,
    versions: &mut Vec<Version>,
    steps: &mut Steps<L>,
) -> Result<(), PiecesNo>
    requires chain { HasChain P.tells (P.blocks pages.old) placed.now.mark.chain placed.now.mark.length }
    ensures read { OnOk result (OfChain P.tells (P.blocks pages.old) placed.now.mark.chain placed.now.mark.length (λ c. AreRead (extent_with path.now placed.now c.bytes ∷ []) versions.old.items versions.new.items)) }
    ensures kept { IsTrue P.tells → P.blocks pages.new ≡ P.blocks pages.old }
    ensures budget { P.budget pages.new ≡ P.budget pages.old }
    ensures goes { Goes P.stopped P.count P.burns pages.old pages.new }
    ensures stopped { IsErrOf result stopped_no → P.stopped pages.new ≡ true }
    ensures went_on { OnOk result (P.stopped pages.new ≡ P.stopped pages.old) }
{
    let mark = placed.mark;
    let bytes = read_chain(pages, alloc, mark.chain, mark.length, steps)?;
    let path = path.copy()?;
    let version = Version {
        epoch: placed.at.epoch,
        minor: placed.at.minor,
        by: mark.by,
        done: mark.done,
        write: Write::Extent(path, placed.at.low, bytes),
    };
    add_version(versions, version)?;
    Ok(())
}

/// Puts the extents of an array behind other versions.
///
/// # Errors
///
/// `Stopped` comes only where the pages answered it.
pub(crate) fn read_extents<P: Pages, L: Ledger>(
    root: u32,
    pages: &mut P,
    alloc: Global,
    path: &Path,
    versions: &mut Vec<Version>,
    steps: &mut Steps<L>,
) -> Result<(), PiecesNo>
    requires here { HasThing P.tells extent_owner hung_root (P.blocks pages.old) root (λ g. ⊤) }
    ensures read { OnOk result (OfThing P.tells extent_owner hung_root (P.blocks pages.old) root (λ g. AreRead (map (extent_version path.now) (extents g)) versions.old.items versions.new.items)) }
    ensures kept { IsTrue P.tells → P.blocks pages.new ≡ P.blocks pages.old }
    ensures budget { P.budget pages.new ≡ P.budget pages.old }
    ensures goes { Goes P.stopped P.count P.burns pages.old pages.new }
    ensures stopped { IsErrOf result stopped_no → P.stopped pages.new ≡ true }
    ensures went_on { OnOk result (P.stopped pages.new ≡ P.stopped pages.old) }
{
    let extents = Extents {
        tree: Tree { kind: 6, root },
    };
    let mut key = least_key();
    for _ in 0..PAIRS {
        let Some(placed) = extents.next_over(pages, &key, steps)? else {
            return Ok(());
        };
        add_extent(&placed, pages, alloc, path, versions, steps)?;
        key = key_at_place(placed.at);
    }
    Ok(())
}
