// Blocks of chains.
ghost use Rattle.std.specs.Prelude.{◌≡◌, ◌≤◌, ◌++◌, ◌∷◌, [], length, drop, take};
ghost use Rattle.std.specs.List.{list_all};
ghost use Rattle.byteorder.specs.Endian.{big_bytes};
ghost use Rattle.vos_values.specs.Fields.{padded};
ghost use Rattle.vos_values.specs.Links.{is_link, is_zero, link_bytes, next_in};

use crate::fields::{four_at, one_at};
use byteorder::{BigEndian, ByteOrder};
use pmem_pages::BLOCK;

/// How many bytes a block of a chain holds.
pub const PART: usize = 248;

// A number in four bytes.
fn four_bytes(n: u32) -> [u8; 4]
    ensures { result ≡ big_bytes 4 n }
{
    let mut four = [0; 4];
    BigEndian::write_u32(&mut four, n);
    four
}

// Writes bytes at the front.
fn put_front(bytes: &mut [u8; 248], part: &[u8])
    requires { length part.now ≤ 248 }
    ensures { bytes.new ≡ part.now ++ drop (length part.now) bytes.old }
{
    bytes[0..part.len()].copy_from_slice(part);
}

// Bytes with zeros behind them.
fn padded(part: &[u8]) -> [u8; 248]
    requires { length part.now ≤ 248 }
    ensures { result ≡ padded 248 part.now }
{
    let mut bytes = [0; PART];
    put_front(&mut bytes, part);
    bytes
}

// Writes a block of a chain.
fn put_parts(next: &[u8; 4], tail: &[u8; 248], to: &mut [u8; 256])
    ensures { to.new ≡ (8 ∷ 0 ∷ 0 ∷ 0 ∷ []) ++ (next.now ++ tail.now) }
{
    to[0..4].copy_from_slice(&[8, 0, 0, 0]);
    to[4..8].copy_from_slice(next);
    to[8..256].copy_from_slice(tail);
}

/// A block of a chain that holds these bytes, at most 248, and leads to the next one, or to 0.
#[tactic(auto, unfolding(crate::specs::Links::link_bytes))]
pub fn link_bytes(next: u32, part: &[u8]) -> [u8; 256]
    requires { length part.now ≤ 248 }
    ensures { result ≡ link_bytes next part.now }
{
    let mut block = [0; BLOCK];
    put_parts(&four_bytes(next), &padded(part), &mut block);
    block
}

// Whether all bytes are zero.
fn are_zero(bytes: &[u8]) -> bool
    ensures { result ≡ list_all is_zero bytes.now }
{
    bytes.iter().all(|byte| *byte == 0)
}

// Whether bytes are a block of a chain that holds so many bytes.
fn is_link(from: &[u8; 256], count: usize) -> bool
    requires { count ≤ 248 }
    ensures { result ≡ is_link count from.now }
{
    one_at(from, 0) == 8 && are_zero(&from[1..4]) && are_zero(&from[8 + count..])
}

/// The block that a block of a chain leads to, or 0, where the bytes are such a block that holds so
/// many bytes.
#[tactic(auto, unfolding(crate::specs::Links::next_in))]
pub fn read_next(from: &[u8; 256], count: usize) -> Option<u32>
    requires { count ≤ 248 }
    ensures { result ≡ next_in count from.now }
{
    if is_link(from, count) {
        Some(four_at(from, 4))
    } else {
        None
    }
}
