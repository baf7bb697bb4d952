// Numbers in a text.
ghost use Rattle.std.specs.Prelude.{◌≡◌, ◌≤◌, ℕ, IfSome, Some};
ghost use Rattle.std.specs.Fmt.{decimal};
ghost use Rattle.base_text.specs.Number.{NumbersAreDecimals, is_canonical, number_from, number_in, with_digit};

// The number after a further digit, where it is at most this.
fn with_digit(most: u64, value: u64, byte: u8) -> Option<u64>
    ensures exact { result ≡ with_digit most value byte }
    ensures range { IfSome result (λ n. n ≤ most) }
{
    if !byte.is_ascii_digit() {
        return None;
    }
    let next = value.checked_mul(10)?.checked_add(u64::from(byte - b'0'))?;
    if next <= most { Some(next) } else { None }
}

// The value of digits, where it is at most this.
fn number_from(most: u64, word: &[u8]) -> Option<u64>
    ensures exact { result ≡ number_from most 0 word.now }
    ensures range { IfSome result (λ n. n ≤ most) }
{
    let mut value: u64 = 0;
    for byte in word {
        value = with_digit(most, value, *byte)?;
    }
    Some(value)
}

// Whether a word begins as numbers do.
fn is_canonical(word: &[u8]) -> bool
    ensures { result ≡ is_canonical word.now }
{
    !word.is_empty() && (word.len() == 1 || word[0] != b'0')
}

/// The number from `lo` to `hi` that a word spells, in decimal digits without a sign or a leading
/// zero.
#[tactic(auto, unfolding(crate::specs::Number::number_in))]
pub fn number_in(lo: u64, hi: u64, word: &[u8]) -> Option<u64>
    ensures exact { result ≡ number_in lo hi word.now }
    ensures range { IfSome result (λ n. (lo ≤ n) × (n ≤ hi)) }
{
    if !is_canonical(word) {
        return None;
    }
    let value = number_from(hi, word)?;
    if lo <= value { Some(value) } else { None }
}

/// A word spells a number exactly where it is what that number is written as.
pub fn numbers_are_decimals()
    ensures { NumbersAreDecimals }
{}
