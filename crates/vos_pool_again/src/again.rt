// A closed pool is opened again.
ghost use Rattle.std.specs.Prelude.{◌≡◌, ◌≤◌, ◌+◌, ◌<◌, ◌^◌, false, IsSome, IsTrue, OnOk};
ghost use Rattle.std.specs.Option.{ForSome};
ghost use Rattle.base_types.specs.Epochs.{restart_floor};
ghost use Rattle.base_types.specs.declared.outcome.FloorWhy.{FloorWhy};
ghost use Rattle.daos_model.specs.declared.durable.Durable.{Durable};
ghost use Rattle.vos_pool_again.specs.Again.{IsReopened, reopen_cause};
ghost use Rattle.vos_pool_site.specs.Site.{site_durable, site_may, site_region, site_state, site_target};
ghost use Rattle.vos_store.specs.Calls.{Finds, Opens};
ghost use Rattle.vos_store.specs.Refusals.{reopen_foreign, says};

use base_outside::Failed;
use base_outside::region::Region;
use std::alloc::Global;
use vos_check_content::laws::what_stands_is_found;
use vos_check_region::laws::logs_are_judged;
use vos_pool_make::cause::OpenCause;
use vos_pool_opening::beginning::{Asked, Beginning};
use vos_pool_opening::opening::open_held;
use vos_pool_site::closed::Closed;
use vos_pool_site::site::Site;
use vos_store::refusal::ReopenNo;

// Where the number of targets stands.
const TARGETS: u64 = 13;

// Why a pool isn't opened again.
fn reopen_no(cause: OpenCause) -> ReopenNo
    ensures { result ≡ reopen_cause cause }
{
    match cause {
        OpenCause::Stopped => ReopenNo::Stopped,
        OpenCause::Foreign { at, byte } => ReopenNo::Foreign { at, byte },
        OpenCause::Shape { found, .. } => ReopenNo::Foreign {
            at: TARGETS,
            byte: found,
        },
        OpenCause::Memory => ReopenNo::Memory,
    }
}

// The region of a closed pool is opened anew, as after a crash. The pool stays closed.
fn reopen_region<R: Region>(closed: &mut Closed<R>) -> Result<(), Failed>
    ensures region { IsReopened R.tells R.extent R.count R.burns R.image R.may_leave result closed.old.region closed.new.region }
    ensures free { closed.new.free ≡ closed.old.free }
    ensures target { closed.new.target ≡ closed.old.target }
    ensures targets { closed.new.targets ≡ closed.old.targets }
{
    closed.region.reopen()
}

// A closed pool, of which what its region reads may be left, is opened with what it keeps in memory. After a refusal it is
// closed.
fn open_closed<R: Region>(
    alloc: Global,
    closed: Closed<R>,
    number: u32,
) -> (Site<R>, Result<(), ReopenNo>)
    requires here { IsTrue R.tells → R.may_leave closed.region (R.image closed.region) }
    requires next { ForSome (site_durable R.tells R.extent R.image (Site.Closed closed)) (λ _. (x : Durable) → site_may R.tells R.extent R.may_leave (Site.Closed closed) x → x.incarnation + 1 < 2 ^ 64) }
    ensures call { Opens result.1 (site_state R.count R.burns R.can_burn (Site.Closed closed)) (site_state R.count R.burns R.can_burn result.0) }
    ensures kept { Finds result.1 (site_durable R.tells R.extent R.image (Site.Closed closed)) (site_durable R.tells R.extent R.image result.0)
        (site_may R.tells R.extent R.may_leave (Site.Closed closed)) (site_may R.tells R.extent R.may_leave result.0) }
    ensures size { R.extent (site_region result.0) ≡ R.extent closed.region }
    ensures target { site_target result.0 ≡ closed.target }
    ensures floor { OnOk result.1 (ForSome (site_durable R.tells R.extent R.image result.0) (λ d. (site_state R.count R.burns R.can_burn result.0).opening.0.0 ≡ restart_floor d.lease)) }
    ensures why { OnOk result.1 ((site_state R.count R.burns R.can_burn result.0).opening.1 ≡ FloorWhy.Restart number) }
    ensures free { IsSome (site_durable R.tells R.extent R.image (Site.Closed closed)) → closed.free ≤ (site_state R.count R.burns R.can_burn result.0).free }
    ensures native { IsSome (site_durable R.tells R.extent R.image (Site.Closed closed)) → says reopen_foreign result.1 ≡ false }
{
    logs_are_judged();
    what_stands_is_found();
    let Closed {
        region,
        free,
        floor,
        why,
        target,
        targets,
        ..
    } = closed;
    let asked = Asked {
        target,
        targets,
        beginning: Beginning::Again(number),
    };
    match open_held(alloc, region, &asked) {
        Ok(held) => (Site::Open(held), Ok(())),
        Err(no) => {
            let closed = Closed {
                region: no.region,
                free,
                floor,
                why,
                target,
                targets,
            };
            (Site::Closed(closed), Err(reopen_no(no.cause)))
        }
    }
}

/// Opens a closed pool again, by a restart of this number.
///
/// # Errors
///
/// `Stopped` only where a count of the region rose in this call. `Foreign` shows a byte of the region and its place, and
/// never comes where the region tells its bytes. After each refusal the pool is closed.
pub fn open_again<R: Region>(
    alloc: Global,
    closed: Closed<R>,
    number: u32,
) -> (Site<R>, Result<(), ReopenNo>)
    requires { ForSome (site_durable R.tells R.extent R.image (Site.Closed closed)) (λ _. (x : Durable) → site_may R.tells R.extent R.may_leave (Site.Closed closed) x → x.incarnation + 1 < 2 ^ 64) }
    ensures call { Opens result.1 (site_state R.count R.burns R.can_burn (Site.Closed closed)) (site_state R.count R.burns R.can_burn result.0) }
    ensures kept { Finds result.1 (site_durable R.tells R.extent R.image (Site.Closed closed)) (site_durable R.tells R.extent R.image result.0)
        (site_may R.tells R.extent R.may_leave (Site.Closed closed)) (site_may R.tells R.extent R.may_leave result.0) }
    ensures size { R.extent (site_region result.0) ≡ R.extent closed.region }
    ensures target { site_target result.0 ≡ closed.target }
    ensures floor { OnOk result.1 (ForSome (site_durable R.tells R.extent R.image result.0) (λ d. (site_state R.count R.burns R.can_burn result.0).opening.0.0 ≡ restart_floor d.lease)) }
    ensures why { OnOk result.1 ((site_state R.count R.burns R.can_burn result.0).opening.1 ≡ FloorWhy.Restart number) }
    ensures free { IsSome (site_durable R.tells R.extent R.image (Site.Closed closed)) → closed.free ≤ (site_state R.count R.burns R.can_burn result.0).free }
    ensures native { IsSome (site_durable R.tells R.extent R.image (Site.Closed closed)) → says reopen_foreign result.1 ≡ false }
{
    let mut closed = closed;
    if reopen_region(&mut closed).is_err() {
        return (Site::Closed(closed), Err(ReopenNo::Stopped));
    }
    open_closed(alloc, closed, number)
}
