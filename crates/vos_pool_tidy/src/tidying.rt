// A pool is made tidy once it is open.
ghost use Rattle.std.specs.Prelude.{◌≡◌, false, true, filter, map, All, IfOk, IsErrOf, IsTrue, OnOk};
ghost use Rattle.daos_model.specs.declared.durable.Version.{Version as VersionOf};
ghost use Rattle.vos_check_entries.specs.Rows.{entry_row};
ghost use Rattle.vos_counting.specs.Counting.{FewWait, entries_of};
ghost use Rattle.vos_counting.specs.Prepared.{counts_in};
ghost use Rattle.vos_keeping.specs.Keeping.{versions_in};
ghost use Rattle.vos_levels.specs.Levels.{things};
ghost use Rattle.vos_pool_stage.specs.Staged.{StandsInPool};
ghost use Rattle.vos_pool_stage.specs.vos_pool_base.Tidy.{IfTidy};
ghost use Rattle.vos_pool_steps.specs.Quiet.{IsQuietStep};
ghost use Rattle.vos_pool_tidy.specs.Answers.{answered};
ghost use Rattle.vos_pool_tidy.specs.declared.refusal.TidyNo.{TidyNo};
ghost use Rattle.vos_pool_turns.specs.vos_turns.Turns.{CanBeNamed};
ghost use Rattle.vos_pool_turns.specs.vos_turns.vos_image.Kept.{Stored, counts};

use crate::refusal::TidyNo;
use crate::removing::remove_uncounted;
use base_outside::region::Region;
use base_types::items::Memory;
use daos_model::durable::Version;
use std::alloc::Global;
use vos_check_entries::entry::EntryRow;
use vos_counting::prepared::Prepared;
use vos_counting::waiting::check_waiting;
use vos_pool_stage::below::pool_base::opened::Opened;
use vos_pool_unlist::unlisting::unlist_all;
use vos_store::refusal::Stopped;

// The prepared entries, where of no attempt more versions are unsettled than one commit can settle.
fn prepare(alloc: Global, rows: &[EntryRow], versions: &[Version]) -> Result<Prepared, Memory>
    ensures told { IfOk result (λ prepared. (v : VersionOf) → counts_in prepared v ≡ counts (entries_of rows.now) v) }
    ensures few { IfOk result (λ prepared. FewWait (filter (counts_in prepared) versions.now)) }
{
    let prepared = Prepared::new(alloc, rows)?;
    check_waiting(alloc, &prepared, versions)?;
    Ok(prepared)
}

// What is answered where versions went.
fn answered(removed: Result<(), Stopped>) -> Result<(), TidyNo>
    ensures { result ≡ answered removed }
{
    match removed {
        Ok(()) => Ok(()),
        Err(Stopped) => Err(TidyNo::Stopped),
    }
}

// Lists and versions go, where the pool hasn't stopped.
fn tidy_running<R: Region>(
    opened: Opened<R>,
    rows: &[EntryRow],
    prepared: &Prepared,
    versions: &[Version],
) -> (Opened<R>, Result<(), TidyNo>)
    requires layout { opened.table.header.layout ≡ 2 }
    requires named { All CanBeNamed versions.now }
    requires running { opened.blocks.undo.stopped ≡ false }
    requires here { IsTrue R.tells → (x : Stored) × (StandsInPool R.extent R.image opened x × ((rows.now ≡ map entry_row (things x.1)) × (versions.now ≡ versions_in x))) }
    requires told { (v : VersionOf) → counts_in prepared.now v ≡ counts (entries_of rows.now) v }
    requires few { FewWait (filter (counts_in prepared.now) versions.now) }
    ensures tidy { OnOk result.1 (IfTidy R.tells R.extent R.image result.0) }
    ensures quiet { IsQuietStep R.tells R.extent R.count R.burns R.image R.may_leave opened result.0 }
    ensures running { OnOk result.1 (result.0.blocks.undo.stopped ≡ false) }
    ensures stopped { IsErrOf result.1 TidyNo.Stopped → result.0.blocks.undo.stopped ≡ true }
    ensures memory { IsErrOf result.1 TidyNo.Memory → result.0.blocks.undo.stopped ≡ false }
{
    let (opened, unlisted) = unlist_all(opened, rows);
    if let Err(no) = unlisted {
        return (opened, Err(TidyNo::from(no)));
    }
    let (opened, removed) = remove_uncounted(opened, prepared, versions);
    (opened, answered(removed))
}

/// Makes a pool of the second layout tidy: these are its entries, with how many nodes each lists, and its versions. The
/// lists are given back, and then the versions go that don't count, each by one quiet commit.
///
/// # Errors
///
/// `Stopped` comes exactly where the pool has stopped then. More than 64 versions of one attempt that count and aren't
/// settled are told as want of memory, and a list that is too long for one commit.
pub fn tidy<R: Region>(
    alloc: Global,
    opened: Opened<R>,
    rows: &[EntryRow],
    versions: &[Version],
) -> (Opened<R>, Result<(), TidyNo>)
    requires layout { opened.table.header.layout ≡ 2 }
    requires named { All CanBeNamed versions.now }
    requires here { IsTrue R.tells → opened.blocks.undo.stopped ≡ false
        → (x : Stored) × (StandsInPool R.extent R.image opened x × ((rows.now ≡ map entry_row (things x.1)) × (versions.now ≡ versions_in x))) }
    ensures tidy { OnOk result.1 (IfTidy R.tells R.extent R.image result.0) }
    ensures quiet { IsQuietStep R.tells R.extent R.count R.burns R.image R.may_leave opened result.0 }
    ensures running { OnOk result.1 (result.0.blocks.undo.stopped ≡ false) }
    ensures stopped { IsErrOf result.1 TidyNo.Stopped → result.0.blocks.undo.stopped ≡ true }
    ensures memory { IsErrOf result.1 TidyNo.Memory → result.0.blocks.undo.stopped ≡ false }
{
    if opened.blocks.is_stopped() {
        return (opened, Err(TidyNo::Stopped));
    }
    match prepare(alloc, rows, versions) {
        Ok(prepared) => tidy_running(opened, rows, &prepared, versions),
        Err(_) => (opened, Err(TidyNo::Memory)),
    }
}
