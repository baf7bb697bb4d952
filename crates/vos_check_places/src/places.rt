// All fixed places of an image, and its map of blocks.
ghost use Rattle.std.specs.Prelude.{◌≡◌, length, [], IfOk, IfErr};
ghost use Rattle.base_outside.specs.Images.{Image};
ghost use Rattle.vos_image.specs.Content.{content_of};
ghost use Rattle.vos_image.specs.Places.{read_places};
ghost use Rattle.vos_check_places.specs.Shown.{Shows, StopsAt};
ghost use Rattle.vos_check_places.specs.Fixed.{IsFixed};

use crate::blocks::read_map;
use crate::conts::read_conts;
use crate::fault::Fault;
use crate::fields::zeros_at;
use crate::header::{Header, read_header};
use crate::judge::judge;
use crate::snaps::read_snaps;
use base_types::epoch::TargetId;
use base_types::snapshot::Snap;
use daos_model::durable::ContRow;
use std::alloc::Global;

/// What an image says of itself, and what each of its 256 places of containers and of snapshots holds.
#[derive(Drop)]
pub struct Fixed {
    pub header: Header,
    pub conts: Vec<Option<ContRow>>,
    pub snaps: Vec<Option<Snap>>,
}

/// What the fixed places of an image hold, from its first 36,864 bytes and the 16,384 bytes of its map of
/// blocks, for a target and a region's size. The gate byte isn't looked at.
pub fn read_fixed(
    alloc: Global,
    fixed: &[u8],
    map: &[u8],
    size: u64,
    target: TargetId,
) -> Result<Fixed, Fault>
    requires fixed { length fixed.now ≡ 36864 }
    requires map { length map.now ≡ 16384 }
    ensures read { IfOk result (λ x. (f : Image) → Shows f fixed.now map.now → IsFixed target size f x) }
    ensures foreign { IfErr result (λ e. (f : Image) → Shows f fixed.now map.now → StopsAt (read_places target (content_of size f) []) f e) }
{
    let header = read_header(fixed, map, size, target)?;
    let conts = read_conts(alloc, fixed, header.lease * 256 + 255)?;
    let snaps = read_snaps(alloc, fixed, &conts)?;
    judge(
        fixed,
        &[zeros_at(fixed, 28672, 4096), zeros_at(fixed, 32769, 4095)],
    )?;
    read_map(map, size)?;
    Ok(Fixed {
        header,
        conts,
        snaps,
    })
}
