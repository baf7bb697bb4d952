// Numbers that stand behind one another in bytes, each in a width of its own.
ghost use Rattle.std.specs.Prelude.{◌≡◌, ◌≤◌, ◌+◌, ℕ, List, length, ◌++◌, replicate};
ghost use Rattle.byteorder.specs.Endian.{big_bytes};
ghost use Rattle.vos_values.specs.Fields.{AreNarrow, packed, padded};

// Writes a number in so many bytes behind a text.
fn write_number(to: &mut [u8], at: usize, width: usize, number: u128)
    requires narrow { width ≤ 16 }
    requires room { at + width ≤ length to.old }
    ensures written { (text : List ℕ) → length text ≡ at → to.old ≡ padded (length to.old) text → to.new ≡ padded (length to.old) (text ++ big_bytes width number) }
    ensures room_kept { length to.new ≡ length to.old }
{
    let bytes = number.to_be_bytes();
    to[at..at + width].copy_from_slice(&bytes[16 - width..]);
}

/// Writes fields to the front of zeros, each a width and a number.
pub(crate) fn write_fields(to: &mut [u8], fields: &[(usize, u128)])
    requires zeros { to.old ≡ replicate (length to.old) 0 }
    requires small { length to.old ≤ 256 }
    requires narrow { AreNarrow fields.now }
    requires room { length (packed fields.now) ≤ length to.old }
    ensures written { to.new ≡ padded (length to.old) (packed fields.now) }
{
    let mut at = 0;
    for field in fields {
        let (width, number) = *field;
        write_number(to, at, width, number);
        at += width;
    }
}
