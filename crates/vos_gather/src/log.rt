// The punches of one log.
ghost use Rattle.std.specs.Prelude.{◌≡◌, ◌<◌, ◌++◌, true, [], ◌∷◌, All, IfSome, OnOk, IsErrOf, IsTrue, ⊤};
ghost use Rattle.base_types.specs.Operations.{write_path};
ghost use Rattle.base_types.specs.declared.operation.Write.{Write as WriteOf};
ghost use Rattle.daos_model.specs.Prunes.{is_punch};
ghost use Rattle.pmem_tree_base.specs.Calls.{Goes};
ghost use Rattle.vos_levels.specs.Calls.{HasThing, OfThing};
ghost use Rattle.vos_levels.specs.Levels.{hung_root};
ghost use Rattle.vos_chain.specs.declared.refusal.PiecesNo.TheVariants.{Stopped as stopped_no};
ghost use Rattle.vos_ilog.specs.Logs.{log_owner};
ghost use Rattle.vos_path.specs.Objects.{punches};
ghost use Rattle.vos_settle.specs.Names.{IsNamed};
ghost use Rattle.vos_settle.specs.Versions.{fits_kind};
ghost use Rattle.vos_gather.specs.Gathered.{entries_punches};
ghost use Rattle.vos_gather.specs.Wanted.{IsPlace, Listed, want_of};

use crate::wanted::Wanted;
use base_types::items::Memory;
use base_types::path::Path;
use pmem_pages::pages::Pages;
use pmem_pages::steps::Steps;
use pmem_tree::tree::Tree;
use std::sync::ledger::Ledger;
use vos_chain::refusal::PiecesNo;
use vos_ilog::ilog::{Ilog, LogEntry, key_of};
use vos_lists::entry::{PAIRS, least_key};
use vos_settle::name::WriteName;
use vos_settle::task::WriteKind;
use vos_values::keys::Moment;

/// Puts the name of a write of a path behind others.
pub(crate) fn add_name(
    path: &Path,
    kind: WriteKind,
    at: Moment,
    names: &mut Vec<WriteName>,
) -> Result<(), Memory>
    requires minor { at.minor < 64 }
    requires fits { fits_kind kind path.now ≡ true }
    requires place { IsPlace path.now }
    ensures added { OnOk result (names.new.items ≡ names.old.items ++ record { path = path.now; kind = kind; epoch = at.epoch; minor = at.minor } ∷ []) }
    ensures named { All IsNamed names.old.items → All IsNamed names.new.items }
{
    let path = path.copy()?;
    names.push(WriteName {
        path,
        kind,
        epoch: at.epoch,
        minor: at.minor,
    })?;
    Ok(())
}

// Puts the name of the punch of a path that an entry is, if it is a wanted one, behind others.
fn note(
    path: &Path,
    entry: LogEntry,
    wanted: &Wanted,
    names: &mut Vec<WriteName>,
) -> Result<(), Memory>
    requires minor { entry.minor < 64 }
    requires place { IsPlace path.now }
    ensures noted { OnOk result ((w : WriteOf) → is_punch w ≡ true → write_path w ≡ path.now → Listed (want_of wanted.now) (entries_punches w (entry ∷ [])) names.old.items names.new.items) }
    ensures named { All IsNamed names.old.items → All IsNamed names.new.items }
{
    let at = Moment {
        epoch: entry.epoch,
        minor: entry.minor,
    };
    if !entry.punch || !wanted.wants(path, entry.by, entry.done, at) {
        return Ok(());
    }
    add_name(path, WriteKind::Punch, at, names)
}

/// Puts the names of the wanted punches of a log behind others. They are punches of this path.
///
/// # Errors
///
/// `Stopped` comes only where the pages answered it.
pub(crate) fn list_log<P: Pages, L: Ledger>(
    root: u32,
    pages: &mut P,
    path: &Path,
    wanted: &Wanted,
    names: &mut Vec<WriteName>,
    steps: &mut Steps<L>,
) -> Result<(), PiecesNo>
    requires place { IsPlace path.now }
    requires here { HasThing P.tells log_owner hung_root (P.blocks pages.old) root (λ g. ⊤) }
    ensures listed { OnOk result (OfThing P.tells log_owner hung_root (P.blocks pages.old) root (λ g. (w : WriteOf) → is_punch w ≡ true → write_path w ≡ path.now → Listed (want_of wanted.now) (punches w g) names.old.items names.new.items)) }
    ensures named { All IsNamed names.old.items → All IsNamed names.new.items }
    ensures kept { IsTrue P.tells → P.blocks pages.new ≡ P.blocks pages.old }
    ensures budget { P.budget pages.new ≡ P.budget pages.old }
    ensures goes { Goes P.stopped P.count P.burns pages.old pages.new }
    ensures stopped { IsErrOf result stopped_no → P.stopped pages.new ≡ true }
    ensures went_on { OnOk result (P.stopped pages.new ≡ P.stopped pages.old) }
{
    let log = Ilog {
        tree: Tree { kind: 4, root },
    };
    let mut key = least_key();
    for _ in 0..PAIRS {
        let Some(entry) = log.next_over(pages, &key, steps)? else {
            return Ok(());
        };
        note(path, entry, wanted, names)?;
        key = key_of(entry);
    }
    Ok(())
}
