// Reads values.
ghost use Rattle.std.specs.Prelude.{◌≡◌, IfOk, length};
ghost use Rattle.std.specs.List.{list_all};
ghost use Rattle.hex.specs.Hex.{decode_of};
ghost use Rattle.base_types.specs.Scripts.{IsLength};
ghost use Rattle.script_words.specs.Reads.{Gives};
ghost use Rattle.script_words.specs.Values.{hex_value, hidden_value, is_lower_digit, is_printable, paired, plain_value, value_of};

use crate::fault::LineNo;
use base_types::fault::Why;
use base_types::items::{Items, Vec8, bytes_of};
use hex::FromHexError;
use std::alloc::Global;

/// The most bytes that a value has.
pub const VALUE_MAX: u32 = 1024;

fn are_printable(bytes: &[u8]) -> bool
    ensures { result ≡ list_all is_printable bytes.now }
{
    bytes.iter().all(|b| *b >= 33 && *b <= 126)
}

fn are_lower_digits(bytes: &[u8]) -> bool
    ensures { result ≡ list_all is_lower_digit bytes.now }
{
    bytes.iter().all(|b| (*b >= b'0' && *b <= b'9') || (*b >= b'a' && *b <= b'f'))
}

// The bytes behind `=`.
fn plain_value(bytes: &[u8]) -> Result<&[u8], LineNo>
    ensures exact { Gives (λ v. v.now) result (plain_value bytes.now) }
    ensures length { IfOk result (λ v. IsLength (length v.now)) }
{
    if bytes.is_empty() || !are_printable(bytes) {
        return Err(LineNo::Fault(Why::BadHex));
    }
    if bytes.len() > VALUE_MAX as usize {
        return Err(LineNo::Fault(Why::TooLong(VALUE_MAX)));
    }
    Ok(bytes)
}

// The bytes that hexadecimal digits spell, unless they are too many or could be shown as they are.
fn hidden_value(bytes: &[u8]) -> Result<(), LineNo>
    ensures exact { Gives (λ x. bytes.now) result (hidden_value bytes.now) }
    ensures length { IfOk result (λ x. IsLength (length bytes.now)) }
{
    if bytes.len() > VALUE_MAX as usize {
        return Err(LineNo::Fault(Why::TooLong(VALUE_MAX)));
    }
    if are_printable(bytes) {
        return Err(LineNo::Fault(Why::BadHex));
    }
    Ok(())
}

// The bytes of pairs of digits.
fn decoded(alloc: Global, digits: &[u8]) -> Result<Vec<u8>, LineNo>
    ensures { Gives (λ bytes. bytes.items) result (paired (decode_of digits.now)) }
{
    match hex::decode(alloc, digits) {
        Ok(bytes) => Ok(bytes),
        Err(FromHexError::OutOfMemory) => Err(LineNo::Memory),
        Err(_) => Err(LineNo::Fault(Why::BadHex)),
    }
}

// The bytes behind `#`.
#[tactic(auto, unfolding(crate::specs::Values::hex_value))]
fn hex_value(alloc: Global, digits: &[u8]) -> Result<Vec8, LineNo>
    ensures exact { Gives (λ v. v) result (hex_value digits.now) }
    ensures length { IfOk result (λ v. IsLength (length v)) }
{
    if !are_lower_digits(digits) {
        return Err(LineNo::Fault(Why::BadHex));
    }
    let bytes = decoded(alloc, digits)?;
    hidden_value(&bytes)?;
    Ok(Items::from_vec(bytes))
}

/// The bytes that a word spells.
#[tactic(auto, unfolding(crate::specs::Values::value_of))]
pub fn value_of(alloc: Global, word: &[u8]) -> Result<Vec8, LineNo>
    ensures exact { Gives (λ v. v) result (value_of word.now) }
    ensures length { IfOk result (λ v. IsLength (length v)) }
{
    let Some((first, rest)) = word.split_first() else {
        return Err(LineNo::Fault(Why::BadHex));
    };
    if *first == b'=' {
        let bytes = plain_value(rest)?;
        return Ok(bytes_of(alloc, bytes)?);
    }
    if *first == b'#' {
        return hex_value(alloc, rest);
    }
    Err(LineNo::Fault(Why::BadHex))
}
