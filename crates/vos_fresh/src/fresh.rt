// The two ranges that a pool writes first over a region of zeros.
ghost use Rattle.std.specs.Prelude.{◌≡◌, IfOk};
ghost use Rattle.vos_fresh.specs.Fresh.{header_bytes, map_byte, map_bytes};

use base_types::epoch::TargetId;
use base_types::items::{Items, Memory, Vec8};
use byteorder::{BigEndian, ByteOrder};
use std::alloc::Global;

/// The bytes of the header, which stand from 0 on.
#[tactic(auto, unfolding(crate::specs::Fresh::header_bytes))]
pub fn header_bytes(size: u64, target: TargetId, targets: u8) -> [u8; 32]
    ensures { result ≡ header_bytes size target targets }
{
    let mut bytes = [0; 32];
    bytes[..8].copy_from_slice(b"DAOSVOS1");
    bytes[11] = 2;
    bytes[12] = target;
    bytes[13] = targets;
    BigEndian::write_u64(&mut bytes[16..24], size);
    bytes[31] = 1;
    bytes
}

// A byte of the map of blocks.
fn map_byte(size: u64, at: u64) -> u8
    ensures { result ≡ map_byte size at }
{
    if 158 <= at && at < size / 2048 {
        0
    } else {
        255
    }
}

/// The bytes of the map of blocks, which stand from 307200 on.
pub fn map_bytes(alloc: Global, size: u64) -> Result<Vec8, Memory>
    ensures { IfOk result (λ bytes. bytes ≡ map_bytes size) }
{
    let mut bytes = Vec::with_capacity(alloc, 16384)?;
    for at in 0..16384 {
        bytes.push(map_byte(size, at))?;
    }
    Ok(Items::from_vec(bytes))
}
