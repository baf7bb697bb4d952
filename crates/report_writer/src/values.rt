// Values in words.
ghost use Rattle.std.specs.Prelude.{◌≡◌, ◌++◌, ◌∷◌, ◌<◌, OnOk, flat_map};
ghost use Rattle.std.specs.List.{list_all};
ghost use Rattle.report_writer.specs.Values.{hex_byte, hex_digit, is_printable, value_word};

use base_types::items::Memory;

// Whether all bytes are printable and no space.
fn is_printable(bytes: &[u8]) -> bool
    ensures { result ≡ list_all is_printable bytes.now }
{
    bytes.iter().all(|byte| 33 <= *byte && *byte <= 126)
}

// A hexadecimal digit, in lower case.
fn hex_digit(n: u8) -> u8
    requires { n < 16 }
    ensures { result ≡ hex_digit n }
{
    if n < 10 { 48 + n } else { 87 + n }
}

// Adds each byte in two hexadecimal digits.
fn push_hex(out: &mut Vec<u8>, bytes: &[u8]) -> Result<(), Memory>
    ensures { OnOk result (out.new.items ≡ out.old.items ++ flat_map hex_byte bytes.now) }
{
    for byte in bytes {
        out.push(hex_digit(*byte / 16))?;
        out.push(hex_digit(*byte % 16))?;
    }
    Ok(())
}

/// Adds the word of a value.
#[tactic(auto, unfolding(crate::specs::Values::value_word))]
pub fn push_value(out: &mut Vec<u8>, bytes: &[u8]) -> Result<(), Memory>
    ensures { OnOk result (out.new.items ≡ out.old.items ++ value_word bytes.now) }
{
    if is_printable(bytes) {
        out.push(b'=')?;
        out.extend_from_slice(bytes)?;
    } else {
        out.push(b'#')?;
        push_hex(out, bytes)?;
    }
    Ok(())
}
