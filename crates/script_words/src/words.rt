// Reads the words of a line from the left.
ghost use Rattle.std.specs.Prelude.{◌≡◌, ◌<◌, ◌≤◌, false, is_none, length, IfOk, None, Some};
ghost use Rattle.base_types.specs.Placement.{ClassFits};
ghost use Rattle.base_types.specs.Scripts.{IsContOf, IsLength, IsUnit};
ghost use Rattle.script_words.specs.Lookups.{IsObj, cont_named, obj_named, old_named};
ghost use Rattle.script_words.specs.Reads.{Gives, or_fault};
ghost use Rattle.script_words.specs.Snaps.{is_dropped, is_snap, snap_named};
ghost use Rattle.script_words.specs.Words.{IsWithin, class_at, class_of, cont_at, drop_at, fitting, is_outside, key_at, key_of, more_key_at, name_of, new_cont_at, new_obj_at, new_snap_at, nothing_at, number_at, obj_at, parsed_id, snap_at, target_at, unit_at, uuid_at, uuid_of, value_at, word_at};

use crate::decls::Decls;
use crate::fault::LineNo;
use crate::values::value_of;
use base_text::number::number_in;
use base_text::parts::Parts;
use base_types::epoch::TargetId;
use base_types::fault::Why;
use base_types::id::{Class, ContId, ObjId};
use base_types::items::Vec8;
use base_types::key::{Key, KeyNo};
use daos_class::class::Placed;
use std::alloc::Global;
use std::str;
use uuid::Uuid;

// What is there, or else this fault.
fn or_fault<T>(why: Why, found: Option<T>) -> Result<T, LineNo>
    ensures { Gives (λ x. x) result (or_fault why found) }
{
    match found {
        Some(x) => Ok(x),
        None => Err(LineNo::Fault(why)),
    }
}

/// A word that isn't empty.
#[tactic(auto, unfolding(crate::specs::Words::word_at))]
pub fn word_at<'a>(words: &mut Parts<'a>) -> Result<&'a [u8], LineNo>
    ensures { Gives (λ w. (w.now, words.new)) result (word_at words.old) }
{
    let Some(word) = words.take_part() else {
        return Err(LineNo::Fault(Why::MissingWord));
    };
    if word.is_empty() {
        return Err(LineNo::Fault(Why::MissingWord));
    }
    Ok(word)
}

/// No word.
#[tactic(auto, unfolding(crate::specs::Words::nothing_at))]
pub fn nothing_at(words: &mut Parts<'_>) -> Result<(), LineNo>
    ensures { Gives (λ x. x) result (nothing_at words.old) }
{
    match words.take_part() {
        None => Ok(()),
        Some(_) => Err(LineNo::Fault(Why::ExtraWord)),
    }
}

// The key that a word is.
fn key_of(alloc: Global, word: &[u8]) -> Result<Key, LineNo>
    ensures { Gives (λ key. key) result (key_of word.now) }
{
    match Key::new(alloc, word) {
        Ok(key) => Ok(key),
        Err(KeyNo::Memory) => Err(LineNo::Memory),
        Err(_) => Err(LineNo::Fault(Why::BadKey)),
    }
}

/// A key of a cell.
#[tactic(auto, unfolding(crate::specs::Words::key_at))]
pub fn key_at(alloc: Global, words: &mut Parts<'_>) -> Result<Key, LineNo>
    ensures { Gives (λ key. (key, words.new)) result (key_at words.old) }
{
    let word = word_at(words)?;
    key_of(alloc, word)
}

/// A further key of a cell, or none at the end of the line.
#[tactic(auto, unfolding(crate::specs::Words::more_key_at))]
pub fn more_key_at(alloc: Global, words: &mut Parts<'_>) -> Result<Option<Key>, LineNo>
    ensures { Gives (λ key. (key, words.new)) result (more_key_at words.old) }
{
    let Some(word) = words.take_part() else {
        return Ok(None);
    };
    if word.is_empty() {
        return Err(LineNo::Fault(Why::MissingWord));
    }
    let key = key_of(alloc, word)?;
    Ok(Some(key))
}

/// A number in a range.
#[tactic(auto, unfolding(crate::specs::Words::number_at))]
pub fn number_at(lo: u64, hi: u64, words: &mut Parts<'_>) -> Result<u64, LineNo>
    ensures exact { Gives (λ n. (n, words.new)) result (number_at lo hi words.old) }
    ensures range { IfOk result (λ n. (lo ≤ n) × (n ≤ hi)) }
{
    let word = word_at(words)?;
    match number_in(lo, hi, word) {
        Some(number) => Ok(number),
        None => Err(LineNo::Fault(Why::BadNumber)),
    }
}

/// A record size from 2 to 64, or 1 at the end of the line.
#[tactic(auto, unfolding(crate::specs::Words::unit_at))]
pub fn unit_at(words: &mut Parts<'_>) -> Result<u8, LineNo>
    ensures exact { Gives (λ n. (n, words.new)) result (unit_at words.old) }
    ensures range { IfOk result IsUnit }
{
    let Some(word) = words.take_part() else {
        return Ok(1);
    };
    if word.is_empty() {
        return Err(LineNo::Fault(Why::MissingWord));
    }
    match number_in(2, 64, word) {
        Some(size) => Ok(size as u8),
        None => Err(LineNo::Fault(Why::BadNumber)),
    }
}

/// The number of one of so many targets.
#[tactic(auto, unfolding(crate::specs::Words::target_at))]
pub fn target_at(targets: u8, words: &mut Parts<'_>) -> Result<TargetId, LineNo>
    ensures exact { Gives (λ n. (n, words.new)) result (target_at targets words.old) }
    ensures range { IfOk result (λ n. n < targets) }
{
    let target = number_at(0, 255, words)?;
    if target < u64::from(targets) {
        Ok(target as u8)
    } else {
        Err(LineNo::Fault(Why::BadNumber))
    }
}

fn parsed_id(text: &str) -> Option<ContId>
    ensures { result ≡ parsed_id text.now }
{
    match Uuid::parse_str(text) {
        Ok(id) => Some(ContId(id.as_u128())),
        Err(_) => None,
    }
}

fn uuid_of(word: &[u8]) -> Option<ContId>
    ensures { result ≡ uuid_of word.now }
{
    match str::from_utf8(word) {
        Ok(text) => parsed_id(text),
        Err(_) => None,
    }
}

/// A UUID.
#[tactic(auto, unfolding(crate::specs::Words::uuid_at))]
pub fn uuid_at(words: &mut Parts<'_>) -> Result<ContId, LineNo>
    ensures { Gives (λ id. (id, words.new)) result (uuid_at words.old) }
{
    let word = word_at(words)?;
    or_fault(Why::BadUuid, uuid_of(word))
}

/// A value.
#[tactic(auto, unfolding(crate::specs::Words::value_at))]
pub fn value_at(alloc: Global, words: &mut Parts<'_>) -> Result<Vec8, LineNo>
    ensures exact { Gives (λ v. (v, words.new)) result (value_at words.old) }
    ensures length { IfOk result (λ v. IsLength (length v)) }
{
    let word = word_at(words)?;
    value_of(alloc, word)
}

// The class that a word names.
fn class_of(word: &[u8]) -> Option<Class>
    ensures { result ≡ class_of word.now }
{
    if word == b"S1".as_slice() {
        Some(Class::S1)
    } else if word == b"S2".as_slice() {
        Some(Class::S2)
    } else if word == b"S4".as_slice() {
        Some(Class::S4)
    } else if word == b"SX".as_slice() {
        Some(Class::SX)
    } else if word == b"RP_2G1".as_slice() {
        Some(Class::RP2G1)
    } else if word == b"RP_2GX".as_slice() {
        Some(Class::RP2GX)
    } else if word == b"RP_3G1".as_slice() {
        Some(Class::RP3G1)
    } else if word == b"RP_3GX".as_slice() {
        Some(Class::RP3GX)
    } else {
        None
    }
}

// The class, where there are targets enough for it.
fn fitting(targets: u8, class: Class) -> Result<Class, LineNo>
    ensures exact { Gives (λ c. c) result (fitting targets class) }
    ensures fits { IfOk result (λ c. ClassFits c targets) }
{
    match class.fits(targets) {
        Ok(()) => Ok(class),
        Err(_) => Err(LineNo::Fault(Why::BadClass)),
    }
}

/// A class of objects that fits so many targets.
#[tactic(auto, unfolding(crate::specs::Words::class_at))]
pub fn class_at(targets: u8, words: &mut Parts<'_>) -> Result<Class, LineNo>
    ensures exact { Gives (λ c. (c, words.new)) result (class_at targets words.old) }
    ensures fits { IfOk result (λ c. ClassFits c targets) }
{
    let word = word_at(words)?;
    let class = or_fault(Why::BadClass, class_of(word))?;
    fitting(targets, class)
}

/// The name of a declared container.
#[tactic(auto, unfolding(crate::specs::Words::cont_at))]
pub fn cont_at(decls: &Decls, words: &mut Parts<'_>) -> Result<ContId, LineNo>
    ensures exact { Gives (λ id. (id, words.new)) result (cont_at decls.now words.old) }
    ensures known { IfOk result (IsContOf decls.now.conts) }
{
    let word = word_at(words)?;
    match decls.conts.find(word) {
        Some(id) => Ok(id),
        None => Err(LineNo::Fault(Why::BadName)),
    }
}

// Whether a container is another one than that within which a line must keep.
fn is_outside(within: Option<ContId>, cont: ContId) -> bool
    ensures exact { result ≡ is_outside within cont }
    ensures inside { result ≡ false → IsWithin within cont }
{
    match within {
        None => false,
        Some(within) => cont.0 != within.0,
    }
}

/// The name of a declared object, within a container where one is given.
#[tactic(auto, unfolding(crate::specs::Words::obj_at))]
pub fn obj_at(
    decls: &Decls,
    within: Option<ContId>,
    words: &mut Parts<'_>,
) -> Result<(ContId, ObjId), LineNo>
    ensures exact { Gives (λ o. (o, words.new)) result (obj_at decls.now within words.old) }
    ensures known { IfOk result (IsObj decls.now.objs) }
    ensures unit { IfOk result (λ o. IsUnit o.1.unit) }
    ensures inside { IfOk result (λ o. IsWithin within o.0) }
{
    let word = word_at(words)?;
    let Some((cont, obj)) = decls.objs.find(word) else {
        return Err(LineNo::Fault(Why::BadName));
    };
    if is_outside(within, cont) {
        return Err(LineNo::Fault(Why::BadName));
    }
    Ok((cont, obj))
}

// The name that a word is.
fn name_of(alloc: Global, word: &[u8]) -> Result<Key, LineNo>
    ensures { Gives (λ name. name) result (name_of word.now) }
{
    match Key::new(alloc, word) {
        Ok(key) => Ok(key),
        Err(KeyNo::Memory) => Err(LineNo::Memory),
        Err(_) => Err(LineNo::Fault(Why::BadName)),
    }
}

/// The name of a snapshot that the present client may read, and its container.
#[tactic(auto, unfolding(crate::specs::Words::snap_at))]
pub fn snap_at(alloc: Global, decls: &Decls, words: &mut Parts<'_>) -> Result<(Key, ContId), LineNo>
    ensures exact { Gives (λ s. ((s.0, s.1), words.new)) result (snap_at decls.now words.old) }
    ensures known { IfOk result (λ s. snap_named decls.now s.0 ≡ Some s.1) }
{
    let word = word_at(words)?;
    let name = name_of(alloc, word)?;
    let Some(cont) = decls.find_snap(name.bytes()) else {
        return Err(LineNo::Fault(Why::BadName));
    };
    Ok((name, cont))
}

/// The name of a snapshot of an earlier run that isn't dropped yet.
#[tactic(auto, unfolding(crate::specs::Words::drop_at))]
pub fn drop_at(alloc: Global, decls: &Decls, words: &mut Parts<'_>) -> Result<Key, LineNo>
    ensures exact { Gives (λ name. (name, words.new)) result (drop_at decls.now words.old) }
    ensures known { IfOk result (λ name. is_none (old_named decls.now.olds name) ≡ false) }
    ensures new { IfOk result (λ name. is_dropped decls.now name ≡ false) }
{
    let word = word_at(words)?;
    let name = name_of(alloc, word)?;
    if decls.olds.find(name.bytes()).is_none() || decls.is_dropped(name.bytes()) {
        return Err(LineNo::Fault(Why::BadName));
    }
    Ok(name)
}

/// A name that no container has.
#[tactic(auto, unfolding(crate::specs::Words::new_cont_at))]
pub fn new_cont_at(alloc: Global, decls: &Decls, words: &mut Parts<'_>) -> Result<Key, LineNo>
    ensures exact { Gives (λ name. (name, words.new)) result (new_cont_at decls.now words.old) }
    ensures new { IfOk result (λ name. cont_named decls.now.conts name ≡ None) }
{
    let word = word_at(words)?;
    let name = name_of(alloc, word)?;
    if decls.conts.find(name.bytes()).is_some() {
        return Err(LineNo::Fault(Why::BadName));
    }
    Ok(name)
}

/// A name that no object has.
#[tactic(auto, unfolding(crate::specs::Words::new_obj_at))]
pub fn new_obj_at(alloc: Global, decls: &Decls, words: &mut Parts<'_>) -> Result<Key, LineNo>
    ensures exact { Gives (λ name. (name, words.new)) result (new_obj_at decls.now words.old) }
    ensures new { IfOk result (λ name. obj_named decls.now.objs name ≡ None) }
{
    let word = word_at(words)?;
    let name = name_of(alloc, word)?;
    if decls.objs.find(name.bytes()).is_some() {
        return Err(LineNo::Fault(Why::BadName));
    }
    Ok(name)
}

/// A name that no snapshot has.
#[tactic(auto, unfolding(crate::specs::Words::new_snap_at))]
pub fn new_snap_at(alloc: Global, decls: &Decls, words: &mut Parts<'_>) -> Result<Key, LineNo>
    ensures exact { Gives (λ name. (name, words.new)) result (new_snap_at decls.now words.old) }
    ensures new { IfOk result (λ name. is_snap decls.now name ≡ false) }
{
    let word = word_at(words)?;
    let name = name_of(alloc, word)?;
    if decls.is_snap(name.bytes()) {
        return Err(LineNo::Fault(Why::BadName));
    }
    Ok(name)
}
