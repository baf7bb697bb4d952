// Keys and values of entries.
ghost use Rattle.std.specs.Prelude.{◌≡◌, ◌+◌, ◌*◌, Bool};
ghost use Rattle.base_types.specs.declared.id.AttemptId.{AttemptId as AttemptIdOf};
ghost use Rattle.vos_image.specs.Kinds.{fits_targets, read_attempt, read_entry};
ghost use Rattle.vos_image.specs.Content.{Content};
ghost use Rattle.vos_check_base.specs.declared.ground.Ground.{Ground as GroundOf};
ghost use Rattle.vos_check_base.specs.Answers.{Leads, Plainly, content, same};
ghost use Rattle.vos_check_base.specs.Sets.{open_of};
ghost use Rattle.base_outside.specs.Images.{Image};

use crate::codec::{eight_at, has_state, one_at};
use base_types::id::AttemptId;
use pmem_pages::node::{TreeKey, Value};
use vos_check_base::fresh::Fresh;
use vos_check_base::ground::Ground;
use vos_check_base::rules::{rule_in, said_in};
use vos_values::keys;
use vos_values::values::{self, EntryMark};

/// The attempt that the key of the entry in a block says.
///
/// # Errors
///
/// It gives the place where the key says none.
pub fn attempt_in(block: u32, key: &TreeKey) -> Result<AttemptId, u64>
    ensures { (g : GroundOf) → Plainly g (λ c. read_attempt c (256 * block + 12) key.now) same result }
{
    said_in(block, 12, keys::read_attempt(key))
}

// Whether a number has a bit for no target but those there are.
fn fits_targets(ground: &Ground, bits: u64) -> bool
    ensures { (f : Image) → result ≡ fits_targets (content ground.now f) bits }
{
    if ground.targets >= 64 {
        return true;
    }
    bits < 1 << ground.targets
}

/// What the value of the entry in a block says, and the block of its list that it leads to.
///
/// # Errors
///
/// It gives the place of the byte at fault.
pub fn entry_in(
    ground: &Ground,
    fresh: &mut Fresh,
    block: u32,
    value: &Value,
) -> Result<EntryMark, u64>
    ensures { (a : AttemptIdOf) → Leads ground.now (λ c. read_entry c (256 * block + 76) a value.now) (open_of fresh.old) (open_of fresh.new) same result }
{
    rule_in(block, 76, has_state(value))?;
    rule_in(block, 77, one_at(&value.bytes, 1) < ground.targets)?;
    rule_in(block, 78, fits_targets(ground, eight_at(&value.bytes, 2)))?;
    rule_in(block, 86, fits_targets(ground, eight_at(&value.bytes, 10)))?;
    rule_in(block, 94, eight_at(&value.bytes, 18) <= ground.covered)?;
    let mark = said_in(block, 102, values::read_entry(value))?;
    fresh.lead_in(block, 102, mark.chain)?;
    Ok(mark)
}
