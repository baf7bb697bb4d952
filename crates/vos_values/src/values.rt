// Values of the trees of a target.
ghost use Rattle.std.specs.Prelude.{◌≡◌, ◌≤◌, ℕ, length};
ghost use Rattle.pmem_pages.specs.Node.{IsValue, value_len};
ghost use Rattle.vos_values.specs.Fields.{AreNarrow, packed, value_of};
ghost use Rattle.vos_values.specs.Keys.{attempt_at};
ghost use Rattle.vos_values.specs.Values.{akey_in, akey_value, entry_in, entry_value, is_length, is_state, log_in, log_value, roots_in, roots_value, state_of, version_in, version_value};

use crate::fields::{eight_at, four_at, one_at, two_at, write_fields};
use base_types::epoch::{Epoch, TargetId};
use base_types::id::AttemptId;
use pmem_pages::node::Value;

/// The value of an object or a dkey: the roots of its log, and of the dkeys or akeys below it.
#[derive(Clone, Copy)]
pub struct Roots {
    pub log: u32,
    pub below: u32,
}

/// The value of an akey: the roots of its log, its single versions and its extents.
#[derive(Clone, Copy)]
pub struct AkeyRoots {
    pub log: u32,
    pub singles: u32,
    pub extents: u32,
}

/// The value of a log entry: a punch or else a creation, done or else unsettled, and whose it is.
#[derive(Clone, Copy)]
pub struct LogMark {
    pub punch: bool,
    pub done: bool,
    pub by: AttemptId,
}

/// The value of a single version or an extent: done or else unsettled, whose it is, how many bytes it
/// has, from 1 to 1,024, and the first block of their chain.
#[derive(Clone, Copy)]
pub struct VersionMark {
    pub done: bool,
    pub by: AttemptId,
    pub length: u16,
    pub chain: u32,
}

/// The value of an entry of an attempt: committed or else prepared, and the first block of the list of
/// its nodes, which a committed one doesn't have.
#[derive(Clone, Copy)]
pub struct EntryMark {
    pub committed: bool,
    pub leader: TargetId,
    pub members: u64,
    pub confirmed: u64,
    pub epoch: Epoch,
    pub chain: u32,
}

// 2 where it holds, else 1.
fn state_of(holds: bool) -> u128
    ensures { result ≡ state_of holds }
{
    if holds { 2 } else { 1 }
}

fn is_state(byte: u8) -> bool
    ensures { result ≡ is_state byte }
{
    byte == 1 || byte == 2
}

fn is_length(length: u16) -> bool
    ensures { result ≡ is_length length }
{
    1 <= length && length <= 1024
}

// The attempt in the bytes of a value from a place on.
fn attempt_at(value: &Value, at: usize) -> AttemptId
    requires { at ≤ 100 }
    ensures { result ≡ attempt_at at value.now.bytes }
{
    AttemptId {
        client: two_at(&value.bytes, at),
        command: four_at(&value.bytes, at + 2),
        attempt: one_at(&value.bytes, at + 6),
    }
}

// The value of fields.
fn packed_value(fields: &[(usize, u128)]) -> Value
    requires narrow { AreNarrow fields.now }
    requires room { length (packed fields.now) ≤ 180 }
    ensures value { result ≡ value_of (packed fields.now) }
    ensures is { (kind : ℕ) → length (packed fields.now) ≡ value_len kind → IsValue kind result }
{
    let mut bytes = [0; 180];
    let len = write_fields(&mut bytes, fields);
    Value {
        len: len as u8,
        bytes,
    }
}

/// The value of an object or a dkey.
#[tactic(auto, unfolding(crate::specs::Values::roots_value))]
pub fn roots_value(roots: Roots) -> Value
    ensures value { result ≡ roots_value roots }
    ensures of_object { IsValue 1 result }
    ensures of_dkey { IsValue 2 result }
{
    packed_value(&[(4, u128::from(roots.log)), (4, u128::from(roots.below))])
}

/// The roots that the value of an object or a dkey says, if it says them.
#[tactic(auto, unfolding(crate::specs::Values::roots_in))]
pub fn read_roots(value: &Value) -> Option<Roots>
    ensures { result ≡ roots_in value.now }
{
    if value.len != 8 {
        return None;
    }
    Some(Roots {
        log: four_at(&value.bytes, 0),
        below: four_at(&value.bytes, 4),
    })
}

/// The value of an akey.
#[tactic(auto, unfolding(crate::specs::Values::akey_value))]
pub fn akey_value(roots: AkeyRoots) -> Value
    ensures value { result ≡ akey_value roots }
    ensures is { IsValue 3 result }
{
    packed_value(&[
        (4, u128::from(roots.log)),
        (4, u128::from(roots.singles)),
        (4, u128::from(roots.extents)),
    ])
}

/// The roots that the value of an akey says, if it says them.
#[tactic(auto, unfolding(crate::specs::Values::akey_in))]
pub fn read_akey(value: &Value) -> Option<AkeyRoots>
    ensures { result ≡ akey_in value.now }
{
    if value.len != 12 {
        return None;
    }
    Some(AkeyRoots {
        log: four_at(&value.bytes, 0),
        singles: four_at(&value.bytes, 4),
        extents: four_at(&value.bytes, 8),
    })
}

/// The value of a log entry.
#[tactic(auto, unfolding(crate::specs::Values::log_value))]
pub fn log_value(mark: LogMark) -> Value
    ensures value { result ≡ log_value mark }
    ensures is { IsValue 4 result }
{
    packed_value(&[
        (1, state_of(mark.punch)),
        (1, state_of(mark.done)),
        (2, u128::from(mark.by.client)),
        (4, u128::from(mark.by.command)),
        (1, u128::from(mark.by.attempt)),
    ])
}

/// What the value of a log entry says, if it says something.
#[tactic(auto, unfolding(crate::specs::Values::log_in))]
pub fn read_log(value: &Value) -> Option<LogMark>
    ensures { result ≡ log_in value.now }
{
    let punch = one_at(&value.bytes, 0);
    let done = one_at(&value.bytes, 1);
    if value.len != 9 || !is_state(punch) || !is_state(done) {
        return None;
    }
    Some(LogMark {
        punch: punch == 2,
        done: done == 2,
        by: attempt_at(value, 2),
    })
}

/// The value of a single version or an extent.
#[tactic(auto, unfolding(crate::specs::Values::version_value))]
pub fn version_value(mark: VersionMark) -> Value
    ensures value { result ≡ version_value mark }
    ensures single { IsValue 5 result }
    ensures extent { IsValue 6 result }
{
    packed_value(&[
        (1, state_of(mark.done)),
        (2, u128::from(mark.by.client)),
        (4, u128::from(mark.by.command)),
        (1, u128::from(mark.by.attempt)),
        (2, u128::from(mark.length)),
        (4, u128::from(mark.chain)),
    ])
}

/// What the value of a single version or an extent says, if it says something.
#[tactic(auto, unfolding(crate::specs::Values::version_in))]
pub fn read_version(value: &Value) -> Option<VersionMark>
    ensures { result ≡ version_in value.now }
{
    let done = one_at(&value.bytes, 0);
    let length = two_at(&value.bytes, 8);
    if value.len != 14 || !is_state(done) || !is_length(length) {
        return None;
    }
    Some(VersionMark {
        done: done == 2,
        by: attempt_at(value, 1),
        length,
        chain: four_at(&value.bytes, 10),
    })
}

/// The value of an entry of an attempt.
#[tactic(auto, unfolding(crate::specs::Values::entry_value))]
pub fn entry_value(mark: EntryMark) -> Value
    ensures value { result ≡ entry_value mark }
    ensures is { IsValue 7 result }
{
    packed_value(&[
        (1, state_of(mark.committed)),
        (1, u128::from(mark.leader)),
        (8, u128::from(mark.members)),
        (8, u128::from(mark.confirmed)),
        (8, u128::from(mark.epoch.0)),
        (4, u128::from(mark.chain)),
    ])
}

/// What the value of an entry of an attempt says, if it says something.
#[tactic(auto, unfolding(crate::specs::Values::entry_in))]
pub fn read_entry(value: &Value) -> Option<EntryMark>
    ensures { result ≡ entry_in value.now }
{
    let state = one_at(&value.bytes, 0);
    let chain = four_at(&value.bytes, 26);
    let is_committed = state == 2;
    if value.len != 30 || !is_state(state) || (is_committed && chain != 0) {
        return None;
    }
    Some(EntryMark {
        committed: is_committed,
        leader: one_at(&value.bytes, 1),
        members: eight_at(&value.bytes, 2),
        confirmed: eight_at(&value.bytes, 10),
        epoch: Epoch(eight_at(&value.bytes, 18)),
        chain,
    })
}
