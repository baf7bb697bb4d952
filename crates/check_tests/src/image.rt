// Images of regions that are written by hand, and what is found of them.
ghost use Rattle.std.specs.Prelude.{◌<◌, ◌≤◌, ◌^◌};

use base_outside::region::Region;
use base_outside::sure_region::SureRegion;
use pmem_undo::undo_region::UndoRegion;
use std::alloc::Global;
use vos_check_base::refusal::CheckNo;
use vos_check_content::content::check_content;
use vos_check_content::region::RegionContent;
use vos_check_region::blank::is_blank;
use vos_check_region::log::check_log;
use vos_fresh::fresh::{header_bytes, map_bytes};

/// How many bytes the regions have.
pub(crate) const SIZE: u64 = 2097152;

/// What is found of a region: it is blank, or of the layout with so many entries that list so many nodes
/// together, or a byte at a place is at fault, or a read failed or memory was wanting.
#[derive(Clone, Copy, PartialEq)]
pub(crate) enum Seen {
    Blank,
    Entries(usize, usize),
    Foreign(u64, u8),
    Nothing,
}

fn refused(no: CheckNo) -> Seen {
    match no {
        CheckNo::Foreign { at, byte } => Seen::Foreign(at, byte),
        CheckNo::Stopped | CheckNo::Memory => Seen::Nothing,
    }
}

// What is found of the content of an undo region of target 1.
fn found<R: Region>(alloc: Global, content: &mut RegionContent<R>) -> Seen {
    let size = content.size();
    match check_content(alloc, content, 1, size) {
        Ok(found) => {
            let mut listed: usize = 0;
            for row in &found.entries {
                listed = listed.saturating_add(row.listed);
            }
            Seen::Entries(found.entries.len(), listed)
        }
        Err(no) => refused(no),
    }
}

// What is found of a region of target 1.
fn look_in<R: Region + Drop>(alloc: Global, region: R) -> Seen
    requires big { 323584 ≤ R.extent region }
    requires small { R.extent region < 2 ^ 32 }
{
    let mut region = region;
    match is_blank(&mut region) {
        Ok(true) => return Seen::Blank,
        Ok(false) => {}
        Err(_) => return Seen::Nothing,
    }
    if let Err(no) = check_log(alloc, &mut region) {
        return refused(no);
    }
    match UndoRegion::attach(alloc, region) {
        Ok(undo) => found(alloc, &mut RegionContent::new(undo)),
        Err(_) => Seen::Nothing,
    }
}

/// What is found of a region of target 1, which is large enough.
pub(crate) fn look(alloc: Global, region: SureRegion) -> Seen {
    let size = region.size();
    if size < 323584 || 1 << 32 <= size {
        return Seen::Nothing;
    }
    look_in(alloc, region)
}

/// A region of zeros.
pub(crate) fn blank(alloc: Global) -> Option<SureRegion> {
    SureRegion::new(alloc, SIZE).ok()
}

/// Bytes are written from a place on, as far as they lie in the region.
pub(crate) fn put(region: &mut SureRegion, at: u64, bytes: &[u8]) {
    let size = region.size();
    if bytes.len() as u64 <= size && at <= size - bytes.len() as u64 {
        let _written = region.write(at, bytes);
    }
}

/// A region that a pool of target 1 of three has formatted.
pub(crate) fn fresh(alloc: Global) -> Option<SureRegion> {
    let mut region = blank(alloc)?;
    put(&mut region, 0, &header_bytes(SIZE, 1, 3));
    let map = map_bytes(alloc, SIZE).ok()?;
    put(&mut region, 307200, map.as_slice());
    Some(region)
}
