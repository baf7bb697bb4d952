// Bits of a byte, from the lowest.
ghost use Rattle.std.specs.Prelude.{◌≡◌, ◌≢◌, ℕ, ◌<◌, ◌==◌};
ghost use Rattle.std.specs.Int.{bit_at};

/// Whether a bit is 0.
pub(crate) fn is_clear(byte: u8, bit: u32) -> bool
    requires { bit < 8 }
    ensures { result ≡ (bit_at byte bit == 0) }
{
    (byte >> bit) & 1 == 0
}

/// The byte with a bit cleared.
pub(crate) fn without_bit(byte: u8, bit: u32) -> u8
    requires { bit < 8 }
    ensures same { bit_at result bit ≡ 0 }
    ensures others { (i : ℕ) → i < 8 → i ≢ bit → bit_at result i ≡ bit_at byte i }
{
    byte & !(1 << bit)
}
