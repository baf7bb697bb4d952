// What a region is before a pool is opened in it.
ghost use Rattle.std.specs.Prelude.{◌≡◌, ◌⊎◌, ◌↔◌, ◌^◌, ◌<◌, ◌≤◌, false, IfErr, IfOk, IsTrue};
ghost use Rattle.base_outside.specs.Images.{Image};
ghost use Rattle.pmem_undo.specs.Settled.{IsAttachable, OnlyLooks, StandsFor, settled};
ghost use Rattle.vos_check_base.specs.Health.{says_stopped};
ghost use Rattle.vos_check_region.specs.Blank.{IsBlank};
ghost use Rattle.vos_check_region.specs.Fault.{IsCaused};
ghost use Rattle.vos_pool_open.specs.Kept.{IsGivenUp};
ghost use Rattle.vos_pool_open.specs.Looks.{IsImageFault, IsRawFault, IsSeen};

use crate::kept::{Kept, KeptNo, open_kept};
use base_outside::region::Region;
use base_types::epoch::TargetId;
use std::alloc::Global;
use vos_check_base::refusal::CheckNo;
use vos_check_region::blank::is_blank;
use vos_check_region::log::check_log;

/// A region: all its bytes are zero, or its content is of the layout.
#[derive(Drop)]
pub enum Looked<R: Region> {
    Blank(R),
    Kept(Kept<R>),
}

// Whether a region is blank. Else its log is checked.
fn judge<R: Region>(alloc: Global, region: &mut R) -> Result<bool, CheckNo>
    requires { 323584 ≤ R.extent region.old }
    ensures blank { IfOk result (λ t. IsTrue R.tells → (IsTrue t ↔ IsBlank (R.extent region.old) (R.image region.old))) }
    ensures attachable { IfOk result (λ t. t ≡ false → IsTrue R.tells → IsAttachable (R.extent region.new) (R.image region.new)) }
    ensures fault { IfErr result (λ e. IsTrue R.tells → IsRawFault (R.extent region.old) (R.image region.old) e) }
    ensures extent { R.extent region.new ≡ R.extent region.old }
    ensures stops { IsCaused (R.count region.old) (R.count region.new) (R.burns region.old) (R.burns region.new) (says_stopped result) }
    ensures looks { IsTrue R.tells → OnlyLooks (R.image region.old) (R.image region.new) (R.may_leave region.old) (R.may_leave region.new)
        (R.moment region.old) (R.moment region.new) (R.left_since region.old) (R.left_since region.new) }
{
    if is_blank(region)? {
        return Ok(true);
    }
    check_log(alloc, region)?;
    Ok(false)
}

/// Looks at a region: whether it is blank, and else what is found of its content, for a target. Before anything is written
/// its log is checked.
///
/// # Errors
///
/// `Foreign` gives the byte at fault: it comes exactly where the region isn't blank and its log isn't well formed, or its
/// content isn't of the layout once the log was rolled back, as far as no read failed and memory was there. `Stopped` comes
/// only where a count of the region rose in this call. Whatever may be left then could be left before, or stands for the
/// same content.
pub fn look<R: Region>(alloc: Global, region: R, target: TargetId) -> Result<Looked<R>, KeptNo<R>>
    requires big { 323584 ≤ R.extent region }
    requires small { R.extent region < 2 ^ 32 }
    ensures seen { IfOk result (λ x. IsSeen R.tells R.extent R.count R.burns R.image R.may_leave target region x) }
    ensures given_up { IfErr result (λ e. IsGivenUp R.extent R.count R.burns region e.region e.cause) }
    ensures fault { IfErr result (λ e. IsTrue R.tells → IsImageFault target (R.extent region) (R.image region) e.cause) }
    ensures left { IfErr result (λ e. IsTrue R.tells → (c : Image) → R.may_leave e.region c →
        R.may_leave region c ⊎ StandsFor (R.extent region) (settled (R.extent region) (R.image region)) c) }
{
    let mut region = region;
    match judge(alloc, &mut region) {
        Ok(true) => Ok(Looked::Blank(region)),
        Ok(false) => match open_kept(alloc, region, target) {
            Ok(kept) => Ok(Looked::Kept(kept)),
            Err(no) => Err(no),
        },
        Err(cause) => Err(KeptNo { region, cause }),
    }
}
