// Regions in memory that are opened as pools, and what comes of it.
use base_outside::region::Region;
use base_outside::sure_region::SureRegion;
use base_types::id::ContId;
use std::alloc::Global;
use vos_pool_make::attach::Attached;
use vos_pool_make::cause::OpenCause;
use vos_pool_make::make::open_region;

/// How many bytes the regions have.
const SIZE: u64 = 2_097_152;

/// What opening a region comes to: a pool with so many free blocks, and whether a container is there; or why it isn't
/// opened.
#[derive(Clone, Copy, PartialEq)]
pub(crate) enum Opening {
    Open { free: u32, has: bool },
    Foreign { at: u64, byte: u8 },
    Shape { found: u8, asked: u8 },
    Nothing,
}

fn refused(cause: OpenCause) -> Opening {
    match cause {
        OpenCause::Foreign { at, byte } => Opening::Foreign { at, byte },
        OpenCause::Shape { found, asked } => Opening::Shape { found, asked },
        OpenCause::Stopped | OpenCause::Memory => Opening::Nothing,
    }
}

// A region that is large enough is opened for a target of so many.
fn pool_in(
    alloc: Global,
    region: SureRegion,
    target: u8,
    targets: u8,
) -> Result<Attached<SureRegion>, Opening> {
    let size = region.size();
    if size < 323584 || 1 << 32 <= size {
        return Err(Opening::Nothing);
    }
    match open_region(alloc, region, target, targets) {
        Ok(attached) => Ok(attached),
        Err(no) => Err(refused(no.cause)),
    }
}

/// A region of zeros.
pub(crate) fn zeros(alloc: Global) -> Option<SureRegion> {
    SureRegion::new(alloc, SIZE).ok()
}

/// A region of zeros but for its first byte.
pub(crate) fn begun_with(alloc: Global, byte: u8) -> Option<SureRegion> {
    let mut region = zeros(alloc)?;
    let size = region.size();
    if size < 1 {
        return None;
    }
    region.write(0, &[byte]).ok()?;
    Some(region)
}

/// A region in which a pool of target 1 of three has a container.
pub(crate) fn with_container(alloc: Global, cont: ContId) -> Option<SureRegion> {
    let attached = pool_in(alloc, zeros(alloc)?, 1, 3).ok()?;
    let mut opened = attached.opened;
    opened.enlist(alloc, &[cont]).ok()?;
    Some(opened.blocks.into_undo().into_region())
}

/// What opening a region comes to, for target 1 of so many.
pub(crate) fn opened_with(
    alloc: Global,
    region: Option<SureRegion>,
    targets: u8,
    cont: ContId,
) -> Opening {
    let Some(region) = region else {
        return Opening::Nothing;
    };
    match pool_in(alloc, region, 1, targets) {
        Ok(attached) => Opening::Open {
            free: attached.opened.blocks.free(),
            has: attached.opened.tables.has_cont(cont),
        },
        Err(why) => why,
    }
}
