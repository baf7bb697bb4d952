// A region is opened as a pool.
ghost use Rattle.std.specs.Prelude.{◌≡◌, ◌^◌, ◌<◌, ◌≤◌, false, true, IfErr, IfOk, IsTrue};
ghost use Rattle.vos_check_region.specs.Blank.{IsBlank};
ghost use Rattle.vos_pool_make.specs.Attached.{CanBeHeld, IsFoundOf};
ghost use Rattle.vos_pool_make.specs.Made.{IsFoundBack, IsFoundMade, IsFoundRefused, IsHandedOver, IsMade, IsRefused, LeavesUnopened};

use crate::attach::{Attached, attach};
use crate::cause::{OpenCause, cause_of_check, cause_of_undo};
use crate::format::format;
use base_outside::region::Region;
use base_types::epoch::TargetId;
use std::alloc::Global;
use vos_fresh::laws::fresh_is_empty;
use vos_pool_open::kept::{Kept, open_kept};
use vos_pool_open::look::{Looked, look};

/// The region that was handed in, and why it isn't opened.
#[derive(Drop)]
pub struct OpenNo<R> {
    pub region: R,
    pub cause: OpenCause,
}

// A region whose content was checked, for so many targets.
fn open_found<R: Region>(
    kept: Kept<R>,
    target: TargetId,
    targets: u8,
    blank: bool,
) -> Result<Attached<R>, OpenNo<R>>
    requires running { kept.undo.stopped ≡ false }
    requires found { IsTrue R.tells → IsFoundOf R.extent R.image target kept.undo kept.found }
    requires held { CanBeHeld R.extent target kept.undo kept.found }
    ensures made { IfOk result (λ a. IsFoundMade R.tells R.extent R.count R.burns R.image R.may_leave target targets kept.undo kept.found a.opened) }
    ensures entries { IfOk result (λ a. a.entries.items ≡ kept.found.entries.items) }
    ensures told { IfOk result (λ a. a.blank ≡ blank) }
    ensures refused { IfErr result (λ e. IsFoundRefused targets kept.found e.cause) }
    ensures handed_back { IfErr result (λ e. IsFoundBack R.tells R.extent R.count R.burns R.may_leave kept.undo e.region e.cause) }
{
    let found = kept.found.fixed.header.targets;
    if found != targets {
        return Err(OpenNo {
            region: kept.undo.into_region(),
            cause: OpenCause::Shape {
                found,
                asked: targets,
            },
        });
    }
    match attach(kept, target, blank) {
        Ok(attached) => Ok(attached),
        Err(no) => Err(OpenNo {
            region: no.region,
            cause: OpenCause::Stopped,
        }),
    }
}

// A blank region, which is formatted and then checked as any other.
fn open_blank<R: Region>(
    alloc: Global,
    region: R,
    target: TargetId,
    targets: u8,
) -> Result<Attached<R>, OpenNo<R>>
    requires big { 323584 ≤ R.extent region }
    requires small { R.extent region < 2 ^ 32 }
    requires blank { IsTrue R.tells → IsBlank (R.extent region) (R.image region) }
    ensures made { IfOk result (λ a. IsMade R.tells R.extent R.count R.burns R.image target targets region a.opened a.entries.items) }
    ensures told { IfOk result (λ a. a.blank ≡ true) }
    ensures refused { IfErr result (λ e. IsTrue R.tells → IsRefused target targets (R.extent region) (R.image region) e.cause) }
    ensures handed_over { IfErr result (λ e. IsHandedOver R.extent R.count R.burns region e.region e.cause) }
    ensures left { IfErr result (λ e. IsTrue R.tells → LeavesUnopened R.extent R.image R.may_leave target targets region e.region) }
{
    fresh_is_empty();
    let formatted = match format(alloc, region, target, targets) {
        Ok(formatted) => formatted,
        Err(no) => {
            return Err(OpenNo {
                region: no.region,
                cause: cause_of_undo(no.cause),
            });
        }
    };
    match open_kept(alloc, formatted, target) {
        Ok(kept) => open_found(kept, target, targets, true),
        Err(no) => Err(OpenNo {
            region: no.region,
            cause: cause_of_check(no.cause),
        }),
    }
}

/// Opens a region as a pool of a target of so many. A blank one is formatted; of any other the log is rolled back, and
/// its content checked. So the pool keeps what the region stood for.
///
/// # Errors
///
/// `Foreign` gives the byte at fault: it comes exactly where the region isn't blank and isn't of the layout. `Shape`
/// comes exactly where it was made for another number of targets. So far as no read failed and memory was there.
/// `Stopped` comes only where a count of the region rose in this call.
pub fn open_region<R: Region>(
    alloc: Global,
    region: R,
    target: TargetId,
    targets: u8,
) -> Result<Attached<R>, OpenNo<R>>
    requires big { 323584 ≤ R.extent region }
    requires small { R.extent region < 2 ^ 32 }
    ensures made { IfOk result (λ a. IsMade R.tells R.extent R.count R.burns R.image target targets region a.opened a.entries.items) }
    ensures blank { IfOk result (λ a. IsTrue R.tells → a.blank ≡ true → IsBlank (R.extent region) (R.image region)) }
    ensures written { IfOk result (λ a. IsTrue R.tells → a.blank ≡ false → IsBlank (R.extent region) (R.image region) → ⊥) }
    ensures refused { IfErr result (λ e. IsTrue R.tells → IsRefused target targets (R.extent region) (R.image region) e.cause) }
    ensures handed_over { IfErr result (λ e. IsHandedOver R.extent R.count R.burns region e.region e.cause) }
    ensures left { IfErr result (λ e. IsTrue R.tells → LeavesUnopened R.extent R.image R.may_leave target targets region e.region) }
{
    match look(alloc, region, target) {
        Ok(Looked::Blank(blank)) => open_blank(alloc, blank, target, targets),
        Ok(Looked::Kept(kept)) => open_found(kept, target, targets, false),
        Err(no) => Err(OpenNo {
            region: no.region,
            cause: cause_of_check(no.cause),
        }),
    }
}
