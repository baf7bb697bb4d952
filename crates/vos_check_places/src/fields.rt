// Numbers and zeros in bytes, at their places.
ghost use Rattle.std.specs.Prelude.{◌≡◌, ◌≤◌, ◌<◌, ◌+◌, ℕ, length, drop};
ghost use Rattle.base_outside.specs.Images.{Image};
ghost use Rattle.byteorder.specs.Endian.{big_number};
ghost use Rattle.vos_image.specs.Places.{zeros_at};
ghost use Rattle.vos_image.specs.Steps.{rule};
ghost use Rattle.vos_check_places.specs.Shown.{IsShown};

use crate::judge::Rule;
use byteorder::{BigEndian, ByteOrder};

/// So many bytes from a place on are zero; the first that isn't is at fault.
pub(crate) fn zeros_at(fixed: &[u8], at: usize, n: usize) -> Rule
    requires inside { at + n ≤ length fixed.now }
    requires some { 0 < n }
    ensures zeros { (f : Image) → IsShown f fixed.now at (at + n) → zeros_at f at n ≡ rule result.0 result.1 }
    ensures low { at ≤ result.0 }
    ensures high { result.0 < at + n }
{
    for i in at..at + n {
        if fixed[i] != 0 {
            return Rule(i, false);
        }
    }
    Rule(at, true)
}

/// The number in four bytes.
pub(crate) fn four_at(fixed: &[u8], at: usize) -> u32
    requires { at + 4 ≤ length fixed.now }
    ensures { result ≡ big_number 4 (drop at fixed.now) }
{
    BigEndian::read_u32(&fixed[at..])
}

/// The number in eight bytes.
pub(crate) fn eight_at(fixed: &[u8], at: usize) -> u64
    requires { at + 8 ≤ length fixed.now }
    ensures { result ≡ big_number 8 (drop at fixed.now) }
{
    BigEndian::read_u64(&fixed[at..])
}

/// The number in sixteen bytes.
pub(crate) fn sixteen_at(fixed: &[u8], at: usize) -> u128
    requires { at + 16 ≤ length fixed.now }
    ensures { result ≡ big_number 16 (drop at fixed.now) }
{
    BigEndian::read_u128(&fixed[at..])
}
