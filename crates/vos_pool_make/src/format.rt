// A blank region gets what a pool writes first.
ghost use Rattle.std.specs.Prelude.{◌≡◌, ◌⊎◌, ◌^◌, ◌<◌, ◌≤◌, false, [], ◌∷◌, length, IfErr, IfOk, IsTrue, OnOk};
ghost use Rattle.base_outside.specs.Images.{Image, all_over};
ghost use Rattle.pmem_undo.specs.Layout.{SameContent};
ghost use Rattle.pmem_undo.specs.Opening.{IsGivenBack};
ghost use Rattle.pmem_undo.specs.Settled.{IsBeforeOrAfter};
ghost use Rattle.pmem_undo.specs.Undo.{IsUndo};
ghost use Rattle.vos_check_region.specs.Blank.{IsBlank};
ghost use Rattle.vos_pool_make.specs.Format.{IsFormatted, LeavesFormatted, fresh_ranges};

use base_outside::region::Region;
use base_types::epoch::TargetId;
use pmem_undo::opening::{UndoCause, UndoNo};
use pmem_undo::undo_region::UndoRegion;
use std::alloc::Global;
use vos_fresh::fresh::{header_bytes, map_bytes};

// Where the map of blocks stands.
const MAP: u64 = 307_200;

// Stages the header and the map of blocks.
fn stage_fresh<R: Region>(undo: &mut UndoRegion<R>, header: &[u8], map: &[u8])
    requires unstaged { undo.old.staged ≡ [] }
    requires header { length header.now ≡ 32 }
    requires map { length map.now ≡ 16384 }
    ensures { undo.new ≡ record undo.old { staged = record { place = 0; bytes = header.now } ∷ record { place = 307200; bytes = map.now } ∷ [] } }
{
    let _size = undo.size();
    undo.stage(0, header).unwrap();
    undo.stage(MAP, map).unwrap();
}

// Commits the header and the map of blocks.
fn write_fresh<R: Region>(
    alloc: Global,
    undo: &mut UndoRegion<R>,
    target: TargetId,
    targets: u8,
) -> Result<(), UndoCause>
    requires unstaged { undo.old.staged ≡ [] }
    requires running { undo.old.stopped ≡ false }
    ensures committed { OnOk result (IsTrue R.tells → SameContent (R.image undo.new.region) (all_over (fresh_ranges (R.extent undo.old.region) target targets) (R.image undo.old.region))) }
    ensures left { IsTrue R.tells → (c : Image) → R.may_leave undo.new.region c → R.may_leave undo.old.region c
        ⊎ IsBeforeOrAfter (R.extent undo.old.region) (R.image undo.old.region) (fresh_ranges (R.extent undo.old.region) target targets) c }
    ensures extent { R.extent undo.new.region ≡ R.extent undo.old.region }
    ensures later_faults { R.count undo.old.region ≤ R.count undo.new.region }
    ensures later_burns { R.burns undo.old.region ≤ R.burns undo.new.region }
    ensures given_back { IfErr result (λ cause. IsGivenBack R.extent R.count R.burns undo.old.region undo.new.region cause) }
    ensures went_on { OnOk result (undo.new.stopped ≡ false) }
    ensures holds { IsUndo (R.extent undo.new.region) R.tells (R.image undo.new.region) (R.may_leave undo.new.region) undo.new.staged undo.new.stopped }
{
    let size = undo.size();
    let Ok(map) = map_bytes(alloc, size) else {
        return Err(UndoCause::Memory);
    };
    let header = header_bytes(size, target, targets);
    stage_fresh(undo, &header, map.as_slice());
    match undo.commit() {
        Ok(()) => Ok(()),
        Err(_) => Err(UndoCause::Stopped),
    }
}

/// Writes what a pool writes first over a region of zeros, for a target of so many, by one commit.
///
/// # Errors
///
/// `Stopped` comes only where a count of the region rose in this call. Where memory is wanting the region may
/// have been flushed. Whatever may be left then could be left before, or stands for zeros or for what was to be
/// written.
pub fn format<R: Region>(
    alloc: Global,
    region: R,
    target: TargetId,
    targets: u8,
) -> Result<R, UndoNo<R>>
    requires big { 323584 ≤ R.extent region }
    requires small { R.extent region < 2 ^ 32 }
    requires blank { IsTrue R.tells → IsBlank (R.extent region) (R.image region) }
    ensures formatted { IfOk result (λ r. IsFormatted R.tells R.extent R.count R.burns R.image R.may_leave target targets region r) }
    ensures given_back { IfErr result (λ e. IsGivenBack R.extent R.count R.burns region e.region e.cause) }
    ensures left { IfErr result (λ e. IsTrue R.tells → LeavesFormatted R.extent R.image R.may_leave target targets region e.region) }
{
    let mut undo = match UndoRegion::attach(alloc, region) {
        Ok(undo) => undo,
        Err(no) => {
            let UndoNo { region, cause } = no;
            return Err(UndoNo { region, cause });
        }
    };
    match write_fresh(alloc, &mut undo, target, targets) {
        Ok(()) => Ok(undo.into_region()),
        Err(cause) => Err(UndoNo {
            region: undo.into_region(),
            cause,
        }),
    }
}
