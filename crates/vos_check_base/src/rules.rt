// Rules of fields, and zeros.
ghost use Rattle.std.specs.Prelude.{◌≡◌, ◌≤◌, ◌+◌, ◌*◌, ◌<◌, ◌^◌, ℕ, List, length, drop};
ghost use Rattle.std.specs.List.{position};
ghost use Rattle.vos_check_base.specs.Sets.{is_some_byte};
ghost use Rattle.vos_image.specs.Steps.{rule, says, zeros};
ghost use Rattle.vos_check_base.specs.Answers.{Plain, nothing, same};

/// A rule of the field at a place.
///
/// # Errors
///
/// It gives the place where the rule doesn't hold.
#[tactic(auto, unfolding(vos_image::specs::Steps::rule))]
pub fn rule(at: u64, holds: bool) -> Result<(), u64>
    ensures { (l : List ℕ) → Plain (rule at holds l) l nothing result }
{
    if holds { Ok(()) } else { Err(at) }
}

/// A rule of the field at an offset in a block.
///
/// # Errors
///
/// It gives the place where the rule doesn't hold.
#[tactic(auto, unfolding(vos_image::specs::Steps::rule))]
pub fn rule_in(block: u32, offset: u8, holds: bool) -> Result<(), u64>
    ensures { (l : List ℕ) → Plain (rule (256 * block + offset) holds l) l nothing result }
{
    if holds {
        Ok(())
    } else {
        Err(256 * u64::from(block) + u64::from(offset))
    }
}

/// What the field at an offset in a block says, where it says something.
///
/// # Errors
///
/// It gives the place where the field says nothing.
#[tactic(auto, unfolding(vos_image::specs::Steps::says))]
pub fn said_in<T: Copy>(block: u32, offset: u8, field: Option<T>) -> Result<T, u64>
    ensures { (l : List ℕ) → Plain (says (256 * block + offset) field l) l same result }
{
    match field {
        Some(value) => Ok(value),
        None => Err(256 * u64::from(block) + u64::from(offset)),
    }
}

// The place of the first byte that isn't zero.
fn first_byte(bytes: &[u8]) -> Option<usize>
    ensures { result ≡ position is_some_byte bytes.now }
{
    bytes.iter().position(|byte| *byte != 0)
}

/// The bytes from a place on are zero.
///
/// # Errors
///
/// It gives the place of the first that isn't.
pub fn zeros(at: u64, bytes: &[u8]) -> Result<(), u64>
    requires { at + length bytes.now < 2 ^ 64 }
    ensures { (l : List ℕ) → Plain (zeros at bytes.now l) l nothing result }
{
    match first_byte(bytes) {
        None => Ok(()),
        Some(i) => Err(at + i as u64),
    }
}

/// Bytes of which the first stands at a place are zero from an index on.
///
/// # Errors
///
/// It gives the place of the first that isn't.
pub fn zeros_from(at: u64, bytes: &[u8], from: usize) -> Result<(), u64>
    requires fits { at + length bytes.now < 2 ^ 64 }
    requires inside { from ≤ length bytes.now }
    ensures { (led : List ℕ) → Plain (zeros (at + from) (drop from bytes.now) led) led nothing result }
{
    zeros(at + from as u64, &bytes[from..])
}
