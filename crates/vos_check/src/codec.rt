// Numbers in keys and values, and what fields of them say.
ghost use Rattle.std.specs.Prelude.{◌≡◌, ◌≤◌, ◌+◌, ◌*◌, [], drop, length};
ghost use Rattle.byteorder.specs.Endian.{big_number};
ghost use Rattle.daos_model.specs.Forms.{fits_records};
ghost use Rattle.pmem_pages.specs.Node.{key_text};
ghost use Rattle.vos_image.specs.Content.{Content};
ghost use Rattle.vos_image.specs.Kinds.{is_class, is_name_length, read_akey_roots, read_extent, read_mark, read_moment, read_name, read_object, read_roots};
ghost use Rattle.vos_values.specs.Values.{is_state};
ghost use Rattle.vos_check_base.specs.declared.ground.Ground.{Ground as GroundOf};
ghost use Rattle.vos_check_base.specs.Answers.{Leads, Plainly, nothing, same};
ghost use Rattle.vos_check_base.specs.Sets.{open_of};
ghost use Rattle.vos_check.specs.Steps.{read_first, read_version_mark};

use byteorder::{BigEndian, ByteOrder};
use pmem_pages::node::{TreeKey, Value};
use vos_check_base::fresh::Fresh;
use vos_check_base::ground::Ground;
use vos_check_base::rules::{rule_in, said_in};
use vos_values::keys::{self, ExtentKey, Moment, ObjectKey};
use vos_values::values::{AkeyRoots, LogMark, Roots, VersionMark, read_akey, read_log, read_roots};

pub(crate) fn one_at(bytes: &[u8], at: usize) -> u8
    requires { at + 1 ≤ length bytes.now }
    ensures { result ≡ big_number 1 (drop at bytes.now) }
{
    bytes[at]
}

pub(crate) fn four_at(bytes: &[u8], at: usize) -> u32
    requires { at + 4 ≤ length bytes.now }
    ensures { result ≡ big_number 4 (drop at bytes.now) }
{
    BigEndian::read_u32(&bytes[at..])
}

pub(crate) fn eight_at(bytes: &[u8], at: usize) -> u64
    requires { at + 8 ≤ length bytes.now }
    ensures { result ≡ big_number 8 (drop at bytes.now) }
{
    BigEndian::read_u64(&bytes[at..])
}

// Whether the first byte of a value says one of two.
pub(crate) fn has_state(value: &Value) -> bool
    ensures { result ≡ is_state (big_number 1 value.now.bytes) }
{
    let state = one_at(&value.bytes, 0);
    state == 1 || state == 2
}

// Whether bytes from an index on are whole records, which end at the index 2^32 - 1 at most.
pub(crate) fn fits_records(unit: u8, low: u32, length: u16) -> bool
    ensures { result ≡ fits_records unit low length }
{
    if unit < 1 || 64 < unit {
        return false;
    }
    let unit = u16::from(unit);
    length % unit == 0 && u64::from(low) + u64::from(length / unit) < 1 << 32
}

// The moment that the key of the node in a block says.
pub(crate) fn moment_in(ground: &Ground, block: u32, key: &TreeKey) -> Result<Moment, u64>
    ensures { Plainly ground.now (λ c. read_moment c (256 * block + 12) key.now) same result }
{
    rule_in(block, 12, eight_at(&key.bytes, 0) <= ground.covered)?;
    said_in(block, 20, keys::read_moment(key))
}

// The place and moment that the key of the node in a block says.
pub(crate) fn extent_in(ground: &Ground, block: u32, key: &TreeKey) -> Result<ExtentKey, u64>
    ensures { Plainly ground.now (λ c. read_extent c (256 * block + 12) key.now) same result }
{
    rule_in(block, 16, eight_at(&key.bytes, 4) <= ground.covered)?;
    said_in(block, 24, keys::read_extent(key))
}

// What the value of the log entry in a block says.
pub(crate) fn mark_in(block: u32, moment: Moment, value: &Value) -> Result<LogMark, u64>
    ensures { (g : GroundOf) → Plainly g (λ c. read_mark c (256 * block + 76) moment value.now) same result }
{
    rule_in(block, 76, has_state(value))?;
    said_in(block, 77, read_log(value))
}

// What the value of the version in a block says, but for the chain that it leads to.
pub(crate) fn version_in(block: u32, value: &Value) -> Result<VersionMark, u64>
    ensures { (g : GroundOf) → Plainly g (λ c. read_version_mark (256 * block + 76) value.now) same result }
{
    rule_in(block, 76, has_state(value))?;
    said_in(block, 84, vos_values::values::read_version(value))
}

// The chain of the version in a block, whose length fits or not.
pub(crate) fn first_in(fresh: &mut Fresh, block: u32, fits: bool, first: u32) -> Result<(), u64>
    ensures { (g : GroundOf) → Leads g (λ c. read_first c (256 * block + 76) fits first) (open_of fresh.old) (open_of fresh.new) nothing result }
{
    rule_in(block, 84, fits)?;
    fresh.lead_in(block, 86, first)?;
    rule_in(block, 86, first != 0)
}

// The name that the key of the node in a block says: the key itself.
pub(crate) fn name_in(block: u32, key: &TreeKey) -> Result<TreeKey, u64>
    requires { key.now.len ≤ 64 }
    ensures { (g : GroundOf) → Plainly g (λ c. read_name c (256 * block + 12) key.now) key_text result }
{
    match keys::read_name(key) {
        Some(_) => Ok(*key),
        None => Err(256 * u64::from(block) + 12),
    }
}

// Whether a name may have so many bytes.
pub(crate) fn is_name_length(length: u16) -> bool
    ensures { (c : Content) → result ≡ is_name_length c length }
{
    1 <= length && length <= 64
}

// The two roots that the value of the node in a block says, and leads to.
pub(crate) fn roots_in(fresh: &mut Fresh, block: u32, value: &Value) -> Result<Roots, u64>
    ensures { (g : GroundOf) → Leads g (λ c. read_roots c (256 * block + 76) (tt {0}) value.now) (open_of fresh.old) (open_of fresh.new) same result }
{
    let roots = said_in(block, 76, read_roots(value))?;
    fresh.lead_in(block, 76, roots.log)?;
    fresh.lead_in(block, 80, roots.below)?;
    Ok(roots)
}

// The three roots that the value of the akey in a block says, and leads to.
pub(crate) fn akey_in(fresh: &mut Fresh, block: u32, value: &Value) -> Result<AkeyRoots, u64>
    ensures { (g : GroundOf) → Leads g (λ c. read_akey_roots c (256 * block + 76) [] value.now) (open_of fresh.old) (open_of fresh.new) same result }
{
    let roots = said_in(block, 76, read_akey(value))?;
    fresh.lead_in(block, 76, roots.log)?;
    fresh.lead_in(block, 80, roots.singles)?;
    fresh.lead_in(block, 84, roots.extents)?;
    Ok(roots)
}

// Whether a byte is the number of a class.
fn is_class(number: u8) -> bool
    ensures { result ≡ is_class number }
{
    1 <= number && number <= 8
}

// The object that the key of the node in a block says.
pub(crate) fn object_in(ground: &Ground, block: u32, key: &TreeKey) -> Result<ObjectKey, u64>
    ensures { Plainly ground.now (λ c. read_object c (256 * block + 12) key.now) same result }
{
    rule_in(block, 28, is_class(one_at(&key.bytes, 16)))?;
    said_in(block, 37, keys::read_object(ground.layout, key))
}
