// The map of blocks.
ghost use Rattle.std.specs.Prelude.{◌≡◌, ℕ, ◌+◌, ◌*◌, ◌/◌, ◌<◌, ◌≤◌, ◌==◌, ◌&&◌, ◌||◌, nat_le, nat_lt, min, length, List, OnOk, IfErr, [], Ok};
ghost use Rattle.std.specs.Int.{bit_at};
ghost use Rattle.base_outside.specs.Images.{Image, bytes_at};
ghost use Rattle.vos_image.specs.Content.{Content, content_of, is_taken};
ghost use Rattle.vos_image.specs.Places.{are_bits_right};
ghost use Rattle.vos_check_places.specs.Parts.{map_reading};
ghost use Rattle.vos_check_places.specs.Shown.{StopsAt};

use crate::fault::Fault;

// The first block that may be free, where the map stands, and how many bytes it has.
const FIRST: u32 = 1264;

const MAP: usize = 307200;

// One more than the last block that lies in the region whole and that the map has a bit for.
fn end_of(size: u64) -> u32
    ensures { result ≡ min (size / 256) 131072 }
{
    (size / 256).min(131072) as u32
}

// Whether a bit of a byte is set.
fn is_set(byte: u8, bit: u32) -> bool
    requires { bit < 8 }
    ensures { result ≡ (bit_at byte bit == 1) }
{
    (byte >> bit) & 1 == 1
}

/// Whether a block is taken.
pub fn is_taken(map: &[u8], size: u64, block: u32) -> bool
    requires { length map.now ≡ 16384 }
    ensures { (f : Image) → bytes_at f 307200 16384 ≡ map.now → result ≡ is_taken (content_of size f) block }
{
    if block < FIRST || end_of(size) <= block {
        return false;
    }
    is_set(map[(block / 8) as usize], block % 8)
}

// Whether the bit of a block is as it has to be.
fn is_bit_right(byte: u8, bit: u32, block: u32, end: u32) -> bool
    requires { bit < 8 }
    ensures { result ≡ ((nat_le 1264 block && nat_lt block end) || (bit_at byte bit == 1)) }
{
    (FIRST <= block && block < end) || is_set(byte, bit)
}

// Whether all bits of a byte are.
fn are_bits_right(byte: u8, at: u32, end: u32) -> bool
    requires { at < 16384 }
    ensures { (c : Content) → c.bytes (307200 + at) ≡ byte → min (c.size / 256) 131072 ≡ end → result ≡ are_bits_right c (8 * at) 8 }
{
    for bit in 0..8 {
        if !is_bit_right(byte, bit, 8 * at + bit, end) {
            return false;
        }
    }
    true
}

/// The map has the bits set of all blocks that can't be free; the first byte where one isn't is at fault.
pub(crate) fn read_map(map: &[u8], size: u64) -> Result<(), Fault>
    requires { length map.now ≡ 16384 }
    ensures read { OnOk result ((f : Image) → bytes_at f 307200 16384 ≡ map.now → map_reading (content_of size f) [] ≡ Ok (tt, [])) }
    ensures foreign { IfErr result (λ e. (f : Image) → bytes_at f 307200 16384 ≡ map.now → (led : List ℕ) → StopsAt (map_reading (content_of size f) led) f e) }
{
    let end = end_of(size);
    for (at, byte) in map.iter().enumerate() {
        if !are_bits_right(*byte, at as u32, end) {
            return Err(Fault::Foreign {
                at: (MAP + at) as u64,
                byte: *byte,
            });
        }
    }
    Ok(())
}
