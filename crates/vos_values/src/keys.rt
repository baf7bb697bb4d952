// Keys of the trees of a target.
ghost use Rattle.std.specs.Prelude.{◌≡◌, ◌<◌, ◌≤◌, length, drop, ◌++◌, is_none, IfSome, true};
ghost use Rattle.std.specs.Option.{option_copied};
ghost use Rattle.base_types.specs.Keys.{first_bad_byte, key_fault};
ghost use Rattle.pmem_pages.specs.Node.{IsKey, key_text};
ghost use Rattle.vos_values.specs.Fields.{AreNarrow, key_of, packed, padded};
ghost use Rattle.vos_values.specs.declared.keys.Layout.TheVariants.{Two};
ghost use Rattle.vos_values.specs.Keys.{attempt_in, attempt_key, class_of, extent_in, extent_key, has_sizes, is_said_size, moment_in, moment_key, name_in, name_key, object_in, object_key, sized_object, is_size};

use crate::fields::{eight_at, four_at, one_at, sixteen_at, two_at, write_fields};
use base_types::epoch::Epoch;
use base_types::id::{AttemptId, Class, ContId, ObjId};
use base_types::key::{KEY_MAX, is_key_byte};
use pmem_pages::node::TreeKey;

/// The two layouts of a region. The first has objects of the record size 1 alone.
#[derive(Clone, Copy)]
pub enum Layout {
    One,
    Two,
}

/// When a version was written: the epoch of its transaction, and its number there, below 64.
#[derive(Clone, Copy)]
pub struct Moment {
    pub epoch: Epoch,
    pub minor: u8,
}

/// Where an extent begins, and when it was written.
#[derive(Clone, Copy)]
pub struct ExtentKey {
    pub low: u32,
    pub epoch: Epoch,
    pub minor: u8,
}

/// An object of a container.
#[derive(Clone, Copy)]
pub struct ObjectKey {
    pub cont: ContId,
    pub obj: ObjId,
}

// The key of fields.
fn packed_key(fields: &[(usize, u128)]) -> TreeKey
    requires narrow { AreNarrow fields.now }
    requires room { length (packed fields.now) ≤ 64 }
    ensures key { result ≡ key_of (packed fields.now) }
    ensures is { IsKey result }
{
    let mut bytes = [0; KEY_MAX];
    let len = write_fields(&mut bytes, fields);
    TreeKey {
        len: len as u8,
        bytes,
    }
}

/// The key of a log entry or of a single version.
#[tactic(auto, unfolding(crate::specs::Keys::moment_key))]
pub fn moment_key(moment: Moment) -> TreeKey
    ensures key { result ≡ moment_key moment }
    ensures is { IsKey result }
{
    packed_key(&[
        (8, u128::from(moment.epoch.0)),
        (1, u128::from(moment.minor)),
    ])
}

/// The moment that a key says, if it says one.
#[tactic(auto, unfolding(crate::specs::Keys::moment_in))]
pub fn read_moment(key: &TreeKey) -> Option<Moment>
    ensures moment { result ≡ moment_in key.now }
    ensures minor { IfSome result (λ m. m.minor < 64) }
{
    let minor = one_at(&key.bytes, 8);
    if key.len != 9 || minor >= 64 {
        return None;
    }
    let epoch = Epoch(eight_at(&key.bytes, 0));
    Some(Moment { epoch, minor })
}

/// The key of an extent.
#[tactic(auto, unfolding(crate::specs::Keys::extent_key))]
pub fn extent_key(extent: ExtentKey) -> TreeKey
    ensures key { result ≡ extent_key extent }
    ensures is { IsKey result }
{
    packed_key(&[
        (4, u128::from(extent.low)),
        (8, u128::from(extent.epoch.0)),
        (1, u128::from(extent.minor)),
    ])
}

/// Where and when an extent was written, by its key, if that says so.
#[tactic(auto, unfolding(crate::specs::Keys::extent_in))]
pub fn read_extent(key: &TreeKey) -> Option<ExtentKey>
    ensures place { result ≡ extent_in key.now }
    ensures minor { IfSome result (λ e. e.minor < 64) }
{
    let minor = one_at(&key.bytes, 12);
    if key.len != 13 || minor >= 64 {
        return None;
    }
    Some(ExtentKey {
        low: four_at(&key.bytes, 0),
        epoch: Epoch(eight_at(&key.bytes, 4)),
        minor,
    })
}

// The class of a number, from 1 to 8.
fn class_of(number: u8) -> Option<Class>
    ensures { result ≡ class_of number }
{
    match number {
        1 => Some(Class::S1),
        2 => Some(Class::S2),
        3 => Some(Class::S4),
        4 => Some(Class::SX),
        5 => Some(Class::RP2G1),
        6 => Some(Class::RP2GX),
        7 => Some(Class::RP3G1),
        8 => Some(Class::RP3GX),
        _ => None,
    }
}

/// The key of an object.
#[tactic(auto, unfolding(crate::specs::Keys::object_key))]
pub fn object_key(object: ObjectKey) -> TreeKey
    ensures key { result ≡ object_key object }
    ensures is { IsKey result }
{
    let fields = [
        (16, object.cont.0),
        (1, u128::from(object.obj.class.number())),
        (8, u128::from(object.obj.number)),
        (1, u128::from(object.obj.unit)),
    ];
    if object.obj.unit == 1 {
        packed_key(&fields[..3])
    } else {
        packed_key(&fields)
    }
}

// The object of a key, whose record size is known.
fn sized_object(key: &TreeKey, unit: u8) -> Option<ObjectKey>
    ensures { result ≡ sized_object key.now unit }
{
    let class = class_of(one_at(&key.bytes, 16))?;
    Some(ObjectKey {
        cont: ContId(sixteen_at(&key.bytes, 0)),
        obj: ObjId {
            class,
            number: eight_at(&key.bytes, 17),
            unit,
        },
    })
}

impl Layout {
    /// Whether keys may say record sizes.
    pub fn has_sizes(self) -> bool
        ensures { result ≡ has_sizes self }
    {
        matches!(self, Layout::Two)
    }
}

/// The object that a key says in a layout, if it says one.
#[tactic(auto, unfolding(crate::specs::Keys::object_in))]
pub fn read_object(layout: Layout, key: &TreeKey) -> Option<ObjectKey>
    ensures object { result ≡ object_in layout key.now }
    ensures size { IfSome result (λ o. is_size Two o.obj.unit ≡ true) }
{
    let unit = one_at(&key.bytes, 25);
    if key.len == 25 {
        sized_object(key, 1)
    } else if layout.has_sizes() && key.len == 26 && 2 <= unit && unit <= 64 {
        sized_object(key, unit)
    } else {
        None
    }
}

/// The key of an entry.
#[tactic(auto, unfolding(crate::specs::Keys::attempt_key))]
pub fn attempt_key(attempt: AttemptId) -> TreeKey
    ensures key { result ≡ attempt_key attempt }
    ensures is { IsKey result }
{
    packed_key(&[
        (2, u128::from(attempt.client)),
        (4, u128::from(attempt.command)),
        (1, u128::from(attempt.attempt)),
    ])
}

/// The attempt that a key says, if it says one.
#[tactic(auto, unfolding(crate::specs::Keys::attempt_in))]
pub fn read_attempt(key: &TreeKey) -> Option<AttemptId>
    ensures { result ≡ attempt_in key.now }
{
    if key.len != 7 {
        return None;
    }
    Some(AttemptId {
        client: two_at(&key.bytes, 0),
        command: four_at(&key.bytes, 2),
        attempt: one_at(&key.bytes, 6),
    })
}

/// The key of a dkey or an akey.
#[tactic(auto, using(crate::proofs::Reading::key_of_is), unfolding(crate::specs::Keys::name_key, crate::specs::Fields::key_of))]
pub fn name_key(name: &[u8]) -> TreeKey
    requires { length name.now ≤ 64 }
    ensures key { result ≡ name_key name.now }
    ensures is { IsKey result }
{
    TreeKey {
        len: name.len() as u8,
        bytes: padded(name),
    }
}

// Bytes with zeros behind them.
fn padded(name: &[u8]) -> [u8; 64]
    requires { length name.now ≤ 64 }
    ensures { result ≡ padded 64 name.now }
{
    let mut bytes = [0; KEY_MAX];
    put_front(&mut bytes, name);
    bytes
}

// Writes bytes at the front.
fn put_front(bytes: &mut [u8; 64], name: &[u8])
    requires { length name.now ≤ 64 }
    ensures { bytes.new ≡ name.now ++ drop (length name.now) bytes.old }
{
    bytes[0..name.len()].copy_from_slice(name);
}

// The place of the first byte that may not stand in a key.
fn first_bad_byte(bytes: &[u8]) -> Option<usize>
    ensures { result ≡ first_bad_byte bytes.now }
{
    bytes.iter().position(|byte| !is_key_byte(*byte))
}

// Whether bytes, of which there are at most 64, are a key.
fn is_name(text: &[u8]) -> bool
    requires { length text.now ≤ 64 }
    ensures { result ≡ is_none (key_fault text.now) }
{
    !text.is_empty() && first_bad_byte(text).is_none()
}

/// The name that a key says, if it says one.
#[tactic(auto, unfolding(crate::specs::Keys::name_in))]
pub fn read_name(key: &TreeKey) -> Option<&[u8]>
    requires { key.now.len ≤ 64 }
    ensures { option_copied result ≡ name_in key.now }
{
    let text = &key.bytes[..usize::from(key.len)];
    if is_name(text) { Some(text) } else { None }
}
