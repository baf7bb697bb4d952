// A region that isn't blank is attached to, and its content checked.
ghost use Rattle.std.specs.Prelude.{◌≡◌, ◌⊎◌, ◌^◌, ◌<◌, ◌≤◌, [], IfErr, IfOk, IsTrue};
ghost use Rattle.base_outside.specs.Images.{Image};
ghost use Rattle.pmem_undo.specs.Settled.{IsAttachable, StandsFor, settled};
ghost use Rattle.pmem_undo.specs.Undo.{IsUndo};
ghost use Rattle.vos_check_content.specs.Region.{region_content};
ghost use Rattle.vos_check_content.specs.Whole.{IsFaulty, IsHeldSomewhere, IsWholeFound};
ghost use Rattle.vos_check_content.specs.vos_check_places.Fixed.{table_of};
ghost use Rattle.vos_pool_open.specs.Kept.{IsFoundFrom, IsGivenUp, IsKeptFrom, IsRefusedFrom, cause_of};

use base_outside::region::Region;
use base_types::epoch::TargetId;
use pmem_undo::opening::{UndoCause, UndoNo};
use pmem_undo::undo_region::UndoRegion;
use std::alloc::Global;
use vos_check_base::refusal::CheckNo;
use vos_check_content::content::{ContentFound, check_content};
use vos_check_content::region::RegionContent;

/// An undo region, and what was found of its content.
#[derive(Drop)]
pub struct Kept<R: Region> {
    pub undo: UndoRegion<R>,
    pub found: ContentFound,
}

/// The region that was handed in, and why nothing was found of it.
#[derive(Drop)]
pub struct KeptNo<R> {
    pub region: R,
    pub cause: CheckNo,
}

// Checks the content of an undo region of which nothing is staged.
fn find<R: Region>(
    alloc: Global,
    undo: UndoRegion<R>,
    target: TargetId,
) -> Result<Kept<R>, KeptNo<R>>
    requires unstaged { undo.staged ≡ [] }
    ensures kept { IfOk result (λ k. IsFoundFrom R.tells R.extent R.count R.burns R.image R.may_leave R.moment R.left_since target undo k.undo k.found) }
    ensures holds { IfOk result (λ k. IsUndo (R.extent k.undo.region) R.tells (R.image k.undo.region) (R.may_leave k.undo.region) k.undo.staged k.undo.stopped) }
    ensures given_up { IfErr result (λ e. IsRefusedFrom R.tells R.extent R.count R.burns R.image R.may_leave target undo e.region e.cause) }
{
    let mut content = RegionContent::new(undo);
    let size = content.size();
    match check_content(alloc, &mut content, target, size) {
        Ok(found) => {
            let undo = content.into_undo();
            let _size = undo.size();
            Ok(Kept { undo, found })
        }
        Err(cause) => Err(KeptNo {
            region: content.into_undo().into_region(),
            cause,
        }),
    }
}

// Why nothing was attached to.
fn cause_of(cause: UndoCause) -> CheckNo
    ensures { result ≡ cause_of cause }
{
    match cause {
        UndoCause::Stopped => CheckNo::Stopped,
        UndoCause::Memory => CheckNo::Memory,
    }
}

/// Attaches to a region whose log is well formed, and checks its content, for a target. It writes only what its log
/// tells.
///
/// # Errors
///
/// `Foreign` gives the byte at fault of the content once its log was rolled back: it comes exactly where that
/// isn't of the layout, as far as no read failed and memory was there. `Stopped` comes only where a count of
/// the region rose in this call. Whatever may be left then could be left before, or stands for the same content.
pub fn open_kept<R: Region>(
    alloc: Global,
    region: R,
    target: TargetId,
) -> Result<Kept<R>, KeptNo<R>>
    requires big { 323584 ≤ R.extent region }
    requires small { R.extent region < 2 ^ 32 }
    requires log { IsTrue R.tells → IsAttachable (R.extent region) (R.image region) }
    ensures kept { IfOk result (λ k. IsKeptFrom R.extent R.count R.burns region k.undo) }
    ensures holds { IfOk result (λ k. IsUndo (R.extent k.undo.region) R.tells (R.image k.undo.region) (R.may_leave k.undo.region) k.undo.staged k.undo.stopped) }
    ensures image { IfOk result (λ k. IsTrue R.tells → R.image k.undo.region ≡ settled (R.extent region) (R.image region)) }
    ensures found { IfOk result (λ k. IsTrue R.tells → IsWholeFound target (R.extent region) (region_content (R.extent region) (settled (R.extent region) (R.image region))) k.found) }
    ensures held { IfOk result (λ k. IsHeldSomewhere target (R.extent region) (table_of k.found.fixed)) }
    ensures given_up { IfErr result (λ e. IsGivenUp R.extent R.count R.burns region e.region e.cause) }
    ensures faulty { IfErr result (λ e. IsTrue R.tells → IsFaulty target (R.extent region) (region_content (R.extent region) (settled (R.extent region) (R.image region))) e.cause) }
    ensures left { IfErr result (λ e. IsTrue R.tells → (c : Image) → R.may_leave e.region c →
        R.may_leave region c ⊎ StandsFor (R.extent region) (settled (R.extent region) (R.image region)) c) }
{
    match UndoRegion::attach(alloc, region) {
        Ok(undo) => find(alloc, undo, target),
        Err(no) => {
            let UndoNo { region, cause } = no;
            Err(KeptNo {
                region,
                cause: cause_of(cause),
            })
        }
    }
}
