// Numbers that stand behind one another in bytes, each in a width of its own.
ghost use Rattle.std.specs.Prelude.{◌≡◌, ◌≤◌, ◌+◌, ℕ, List, length, drop, ◌++◌, replicate};
ghost use Rattle.byteorder.specs.Endian.{big_bytes, big_number};
ghost use Rattle.vos_values.specs.Fields.{AreNarrow, packed, padded};

use byteorder::{BigEndian, ByteOrder};

// Writes a number in so many bytes behind a text.
fn write_number(to: &mut [u8], at: usize, width: usize, number: u128)
    requires narrow { width ≤ 16 }
    requires room { at + width ≤ length to.old }
    ensures written { (text : List ℕ) → length text ≡ at → to.old ≡ padded (length to.old) text → to.new ≡ padded (length to.old) (text ++ big_bytes width number) }
    ensures room_kept { length to.new ≡ length to.old }
{
    let bytes = number.to_be_bytes();
    to[at..at + width].copy_from_slice(&bytes[16 - width..]);
}

/// Writes fields to the front of zeros, each a width and a number: how many bytes they take.
pub(crate) fn write_fields(to: &mut [u8], fields: &[(usize, u128)]) -> usize
    requires zeros { to.old ≡ replicate (length to.old) 0 }
    requires small { length to.old ≤ 256 }
    requires narrow { AreNarrow fields.now }
    requires room { length (packed fields.now) ≤ length to.old }
    ensures written { to.new ≡ padded (length to.old) (packed fields.now) }
    ensures taken { result ≡ length (packed fields.now) }
{
    let mut at = 0;
    for field in fields {
        let (width, number) = *field;
        write_number(to, at, width, number);
        at += width;
    }
    at
}

pub(crate) fn one_at(bytes: &[u8], at: usize) -> u8
    requires { at + 1 ≤ length bytes.now }
    ensures { result ≡ big_number 1 (drop at bytes.now) }
{
    bytes[at]
}

pub(crate) fn two_at(bytes: &[u8], at: usize) -> u16
    requires { at + 2 ≤ length bytes.now }
    ensures { result ≡ big_number 2 (drop at bytes.now) }
{
    BigEndian::read_u16(&bytes[at..])
}

pub(crate) fn four_at(bytes: &[u8], at: usize) -> u32
    requires { at + 4 ≤ length bytes.now }
    ensures { result ≡ big_number 4 (drop at bytes.now) }
{
    BigEndian::read_u32(&bytes[at..])
}

pub(crate) fn eight_at(bytes: &[u8], at: usize) -> u64
    requires { at + 8 ≤ length bytes.now }
    ensures { result ≡ big_number 8 (drop at bytes.now) }
{
    BigEndian::read_u64(&bytes[at..])
}

pub(crate) fn sixteen_at(bytes: &[u8], at: usize) -> u128
    requires { at + 16 ≤ length bytes.now }
    ensures { result ≡ big_number 16 (drop at bytes.now) }
{
    BigEndian::read_u128(&bytes[at..])
}
