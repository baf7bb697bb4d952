// The punches of one log.
ghost use Rattle.std.specs.Prelude.{◌≡◌, true, [], ◌∷◌, OnOk, IsErrOf, IsTrue, ⊤};
ghost use Rattle.pmem_tree_base.specs.Calls.{Goes};
ghost use Rattle.vos_levels.specs.Calls.{HasThing, OfThing};
ghost use Rattle.vos_levels.specs.Levels.{hung_root};
ghost use Rattle.vos_chain.specs.declared.refusal.PiecesNo.TheVariants.{Stopped as stopped_no};
ghost use Rattle.vos_ilog.specs.Logs.{log_owner};
ghost use Rattle.vos_path.specs.Objects.{punches};
ghost use Rattle.vos_gather.specs.Gathered.{entries_punches};
ghost use Rattle.vos_load.specs.Read.{AreRead};

use crate::rows::add_version;
use base_types::items::{Memory, TryCopy};
use base_types::operation::Write;
use daos_model::durable::Version;
use pmem_pages::pages::Pages;
use pmem_pages::steps::Steps;
use pmem_tree::tree::Tree;
use std::sync::ledger::Ledger;
use vos_chain::refusal::PiecesNo;
use vos_ilog::ilog::{Ilog, LogEntry, key_of};
use vos_lists::entry::{PAIRS, least_key};

// Puts the version that an entry is, if it is a punch, behind others.
fn add_punch(punch: &Write, entry: LogEntry, versions: &mut Vec<Version>) -> Result<(), Memory>
    ensures { OnOk result (AreRead (entries_punches punch.now (entry ∷ [])) versions.old.items versions.new.items) }
{
    if !entry.punch {
        return Ok(());
    }
    let write = punch.copy()?;
    let version = Version {
        epoch: entry.epoch,
        minor: entry.minor,
        by: entry.by,
        done: entry.done,
        write,
    };
    add_version(versions, version)
}

/// Puts the punches of a log behind other versions, each as the version of this write.
///
/// # Errors
///
/// `Stopped` comes only where the pages answered it.
pub(crate) fn read_log<P: Pages, L: Ledger>(
    root: u32,
    pages: &mut P,
    punch: &Write,
    versions: &mut Vec<Version>,
    steps: &mut Steps<L>,
) -> Result<(), PiecesNo>
    requires here { HasThing P.tells log_owner hung_root (P.blocks pages.old) root (λ g. ⊤) }
    ensures read { OnOk result (OfThing P.tells log_owner hung_root (P.blocks pages.old) root (λ g. AreRead (punches punch.now g) versions.old.items versions.new.items)) }
    ensures kept { IsTrue P.tells → P.blocks pages.new ≡ P.blocks pages.old }
    ensures budget { P.budget pages.new ≡ P.budget pages.old }
    ensures goes { Goes P.stopped P.count P.burns pages.old pages.new }
    ensures stopped { IsErrOf result stopped_no → P.stopped pages.new ≡ true }
    ensures went_on { OnOk result (P.stopped pages.new ≡ P.stopped pages.old) }
{
    let log = Ilog {
        tree: Tree { kind: 4, root },
    };
    let mut key = least_key();
    for _ in 0..PAIRS {
        let Some(entry) = log.next_over(pages, &key, steps)? else {
            return Ok(());
        };
        add_punch(punch, entry, versions)?;
        key = key_of(entry);
    }
    Ok(())
}
