// The updates of one akey.
ghost use Rattle.std.specs.Prelude.{◌≡◌, ◌<◌, true, [], ◌∷◌, All, List, ℕ, map, OnOk, IsErrOf, IsTrue, ⊤};
ghost use Rattle.daos_model.specs.Forms.{ends_at_akey};
ghost use Rattle.daos_model.specs.declared.durable.Version.{Version as VersionOf};
ghost use Rattle.pmem_tree_base.specs.Calls.{Goes};
ghost use Rattle.vos_levels.specs.Calls.{HasThing, OfThing};
ghost use Rattle.vos_levels.specs.Levels.{hung_root};
ghost use Rattle.vos_chain.specs.declared.refusal.PiecesNo.TheVariants.{Stopped as stopped_no};
ghost use Rattle.vos_single.specs.Singles.{single_owner, versions};
ghost use Rattle.vos_extent.specs.Extents.{extent_owner, extents};
ghost use Rattle.vos_path.specs.Objects.{extent_version, single_version};
ghost use Rattle.vos_settle.specs.Names.{IsNamed, name_of};
ghost use Rattle.vos_gather.specs.Wanted.{IsPlace, Listed, want_of};
ghost use Rattle.vos_gather.specs.Updates.{AreOfExtent, AreOfSingle};

use crate::log::add_name;
use crate::wanted::Wanted;
use base_types::items::Memory;
use base_types::path::Path;
use pmem_pages::pages::Pages;
use pmem_pages::steps::Steps;
use pmem_tree::tree::Tree;
use std::sync::ledger::Ledger;
use vos_chain::refusal::PiecesNo;
use vos_extent::extent::Extents;
use vos_extent::pieces::{Placed as PlacedExtent, key_at as key_at_place};
use vos_lists::entry::{PAIRS, least_key};
use vos_settle::name::WriteName;
use vos_settle::task::WriteKind;
use vos_single::single::{Placed, Single, key_at};
use vos_values::keys::Moment;

// Puts the name of a version of a single value, if it is a wanted one, behind others.
fn note_single(
    path: &Path,
    placed: &Placed,
    wanted: &Wanted,
    names: &mut Vec<WriteName>,
) -> Result<(), Memory>
    requires minor { placed.now.moment.minor < 64 }
    requires place { IsPlace path.now }
    requires akey { ends_at_akey path.now ≡ true }
    ensures noted { wanted.now.updates ≡ true → OnOk result ((v : VersionOf) → AreOfSingle path.now placed.now v → Listed (want_of wanted.now) (v ∷ []) names.old.items names.new.items) }
    ensures named { All IsNamed names.old.items → All IsNamed names.new.items }
{
    if !wanted.wants(path, placed.mark.by, placed.mark.done, placed.moment) {
        return Ok(());
    }
    add_name(path, WriteKind::Single, placed.moment, names)
}

/// Puts the names of the wanted versions of a single value behind others.
///
/// # Errors
///
/// `Stopped` comes only where the pages answered it.
pub(crate) fn list_singles<P: Pages, L: Ledger>(
    root: u32,
    pages: &mut P,
    path: &Path,
    wanted: &Wanted,
    names: &mut Vec<WriteName>,
    steps: &mut Steps<L>,
) -> Result<(), PiecesNo>
    requires place { IsPlace path.now }
    requires akey { ends_at_akey path.now ≡ true }
    requires updates { wanted.now.updates ≡ true }
    requires here { HasThing P.tells single_owner hung_root (P.blocks pages.old) root (λ g. ⊤) }
    ensures listed { OnOk result (OfThing P.tells single_owner hung_root (P.blocks pages.old) root (λ g. Listed (want_of wanted.now) (map (single_version path.now) (versions g)) names.old.items names.new.items)) }
    ensures named { All IsNamed names.old.items → All IsNamed names.new.items }
    ensures kept { IsTrue P.tells → P.blocks pages.new ≡ P.blocks pages.old }
    ensures budget { P.budget pages.new ≡ P.budget pages.old }
    ensures goes { Goes P.stopped P.count P.burns pages.old pages.new }
    ensures stopped { IsErrOf result stopped_no → P.stopped pages.new ≡ true }
    ensures went_on { OnOk result (P.stopped pages.new ≡ P.stopped pages.old) }
{
    let singles = Single {
        tree: Tree { kind: 5, root },
    };
    let mut key = least_key();
    for _ in 0..PAIRS {
        let Some(placed) = singles.next_over(pages, &key, steps)? else {
            return Ok(());
        };
        note_single(path, &placed, wanted, names)?;
        key = key_at(placed.moment);
    }
    Ok(())
}

// Puts the name of an extent, if it is a wanted one, behind others.
fn note_extent(
    path: &Path,
    placed: &PlacedExtent,
    wanted: &Wanted,
    names: &mut Vec<WriteName>,
) -> Result<(), Memory>
    requires minor { placed.now.at.minor < 64 }
    requires place { IsPlace path.now }
    requires akey { ends_at_akey path.now ≡ true }
    ensures noted { wanted.now.updates ≡ true → OnOk result ((v : VersionOf) → AreOfExtent path.now placed.now v → Listed (want_of wanted.now) (v ∷ []) names.old.items names.new.items) }
    ensures named { All IsNamed names.old.items → All IsNamed names.new.items }
{
    let at = Moment {
        epoch: placed.at.epoch,
        minor: placed.at.minor,
    };
    if !wanted.wants(path, placed.mark.by, placed.mark.done, at) {
        return Ok(());
    }
    add_name(path, WriteKind::Extent(placed.at.low), at, names)
}

/// Puts the names of the wanted extents of an array behind others.
///
/// # Errors
///
/// `Stopped` comes only where the pages answered it.
pub(crate) fn list_extents<P: Pages, L: Ledger>(
    root: u32,
    pages: &mut P,
    path: &Path,
    wanted: &Wanted,
    names: &mut Vec<WriteName>,
    steps: &mut Steps<L>,
) -> Result<(), PiecesNo>
    requires place { IsPlace path.now }
    requires akey { ends_at_akey path.now ≡ true }
    requires updates { wanted.now.updates ≡ true }
    requires here { HasThing P.tells extent_owner hung_root (P.blocks pages.old) root (λ g. ⊤) }
    ensures listed { OnOk result (OfThing P.tells extent_owner hung_root (P.blocks pages.old) root (λ g. Listed (want_of wanted.now) (map (extent_version path.now) (extents g)) names.old.items names.new.items)) }
    ensures named { All IsNamed names.old.items → All IsNamed names.new.items }
    ensures kept { IsTrue P.tells → P.blocks pages.new ≡ P.blocks pages.old }
    ensures budget { P.budget pages.new ≡ P.budget pages.old }
    ensures goes { Goes P.stopped P.count P.burns pages.old pages.new }
    ensures stopped { IsErrOf result stopped_no → P.stopped pages.new ≡ true }
    ensures went_on { OnOk result (P.stopped pages.new ≡ P.stopped pages.old) }
{
    let extents = Extents {
        tree: Tree { kind: 6, root },
    };
    let mut key = least_key();
    for _ in 0..PAIRS {
        let Some(placed) = extents.next_over(pages, &key, steps)? else {
            return Ok(());
        };
        note_extent(path, &placed, wanted, names)?;
        key = key_at_place(placed.at);
    }
    Ok(())
}
