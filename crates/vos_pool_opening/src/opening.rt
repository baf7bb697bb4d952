// A region is opened as a pool with what it keeps in memory.
ghost use Rattle.std.specs.Prelude.{◌≡◌, ◌^◌, ◌<◌, ◌≤◌, false, true, IfErr, IfOk, IsTrue};
ghost use Rattle.vos_pool_opening.specs.Opening.{HasBegun, HasNotBegun, IsBackOf, IsBegunOf, IsGivenUp, IsHeldOf};
ghost use Rattle.vos_pool_opening.specs.Tidied.{IsFoundIn};

use crate::beginning::Asked;
use crate::contents::{contents_in, entries_of};
use crate::counting::count_opening;
use crate::holding::{give_back, hold};
use crate::tidied::tidied;
use base_outside::region::Region;
use daos_model::durable::Version;
use std::alloc::Global;
use vos_check_entries::entry::EntryRow;
use vos_pool_base::opened::Opened;
use vos_pool_held::held::Held;
use vos_pool_make::attach::Attached;
use vos_pool_make::cause::OpenCause;
use vos_pool_make::make::{OpenNo, open_region};
use vos_pool_read::resting::rests;

// A tidy pool in which this was found is held.
fn keep<R: Region>(
    alloc: Global,
    opened: Opened<R>,
    rows: &[EntryRow],
    versions: Vec<Version>,
    asked: &Asked,
) -> Result<Held<R>, OpenNo<R>>
    requires found { IsFoundIn R.tells R.extent R.image opened rows.now versions.items }
    requires target { opened.table.header.target ≡ asked.now.target }
    requires targets { opened.table.header.targets ≡ asked.now.targets }
    ensures held { IfOk result (λ h. IsHeldOf asked.now opened h) }
    ensures given_back { IfErr result (λ no. IsBackOf R.tells R.extent R.may_leave opened no.region no.cause) }
{
    let Ok(entries) = entries_of(alloc, rows) else {
        return Err(give_back(opened, OpenCause::Memory));
    };
    match contents_in(alloc, &opened.tables, versions, entries) {
        Ok(contents) => Ok(hold(opened, contents, asked)),
        Err(_) => Err(give_back(opened, OpenCause::Memory)),
    }
}

// A tidy pool in which this was found is held, its opening counted unless its region was blank.
fn begin<R: Region>(
    alloc: Global,
    opened: Opened<R>,
    rows: &[EntryRow],
    versions: Vec<Version>,
    asked: &Asked,
    blank: bool,
) -> Result<Held<R>, OpenNo<R>>
    requires found { IsFoundIn R.tells R.extent R.image opened rows.now versions.items }
    requires target { opened.table.header.target ≡ asked.now.target }
    requires targets { opened.table.header.targets ≡ asked.now.targets }
    ensures begun { IfOk result (λ h. IsBegunOf R.tells R.extent R.count R.burns R.image asked.now blank opened h) }
    ensures given_back { IfErr result (λ no. IsGivenUp asked.now.beginning R.tells R.extent R.count R.burns R.image R.may_leave opened no.region no.cause) }
{
    rests(&opened);
    if blank {
        return keep(alloc, opened, rows, versions, asked);
    }
    let mut opened = opened;
    match count_opening(&mut opened, asked.beginning) {
        Ok(()) => keep(alloc, opened, rows, versions, asked),
        Err(_) => Err(give_back(opened, OpenCause::Stopped)),
    }
}

/// Opens a region as a pool, with what it keeps in memory. A blank one is formatted; any other is rolled back, checked, raised to the newer
/// layout and made tidy, and its opening is counted.
///
/// # Errors
///
/// `Foreign` gives the byte at fault: it comes exactly where the region isn't blank and isn't of the layout. `Shape`
/// comes exactly where it was made for another number of targets. So far as no read failed and memory was there.
/// `Stopped` comes only where a count of the region rose in this call.
pub fn open_held<R: Region>(alloc: Global, region: R, asked: &Asked) -> Result<Held<R>, OpenNo<R>>
    requires big { 323584 ≤ R.extent region }
    requires small { R.extent region < 2 ^ 32 }
    ensures begun { IfOk result (λ h. HasBegun R.tells R.extent R.count R.burns R.image asked.now region h) }
    ensures refused { IfErr result (λ no. HasNotBegun R.tells R.extent R.count R.burns R.image R.may_leave asked.now region no.region no.cause) }
{
    let attached = match open_region(alloc, region, asked.target, asked.targets) {
        Ok(attached) => attached,
        Err(no) => return Err(no),
    };
    let Attached {
        opened,
        entries,
        blank,
    } = attached;
    rests(&opened);
    let (opened, found) = tidied(alloc, opened, &entries, asked.beginning);
    match found {
        Ok(versions) => begin(alloc, opened, &entries, versions, asked, blank),
        Err(cause) => Err(give_back(opened, cause)),
    }
}
