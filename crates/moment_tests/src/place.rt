// Where something is in a container: two objects with two dkeys, and two akeys in each of these.
ghost use Rattle.std.specs.Prelude.{◌≡◌, true, IfSome, is_some};
ghost use Rattle.base_types.specs.Paths.{record_size};
ghost use Rattle.daos_model.specs.Forms.{ends_at_akey, ends_at_dkey, ends_at_object, is_path_in_form, is_unit};
ghost use Rattle.vos_path.specs.Writes.{NamesAreKeys};

use base_types::id::{Class, ContId, ObjId};
use base_types::key::Key;
use base_types::path::Path;
use std::alloc::Global;

/// All of the container, one of its objects, a dkey, or an akey.
#[derive(Clone, Copy)]
pub(crate) enum Place {
    Cont,
    Object(u8),
    Dkey(u8, u8),
    Akey(u8, u8, u8),
}

/// Whether a place is another one or lies above it.
pub(crate) fn leads(one: Place, other: Place) -> bool {
    match (one, other) {
        (Place::Cont, _) => true,
        (Place::Object(a), Place::Object(x) | Place::Dkey(x, _) | Place::Akey(x, _, _)) => a == x,
        (Place::Dkey(a, b), Place::Dkey(x, y) | Place::Akey(x, y, _)) => a == x && b == y,
        (Place::Akey(a, b, c), Place::Akey(x, y, z)) => a == x && b == y && c == z,
        _ => false,
    }
}

/// The akey of a number below 8: below 4 of the first object.
pub(crate) fn akey(number: u8) -> Place {
    Place::Akey(number / 4 % 2, number / 2 % 2, number % 2)
}

/// The place that two numbers draw: an akey, or what lies above it.
pub(crate) fn place_of(number: u8, level: u8) -> Place {
    let (object, dkey) = (number / 4 % 2, number / 2 % 2);
    match level {
        0 => Place::Cont,
        1 => Place::Object(object),
        2 => Place::Dkey(object, dkey),
        _ => akey(number),
    }
}

// The path of an object whose records have a size, or of something below it.
fn below(unit: u8, object: u8, dkey: Option<Key>, akey: Option<Key>) -> Path
    requires { is_unit unit ≡ true }
    ensures obj { is_some result.obj ≡ true }
    ensures dkey { result.dkey ≡ dkey }
    ensures akey { result.akey ≡ akey }
    ensures size { record_size result ≡ unit }
{
    Path {
        cont: ContId(5),
        obj: Some(ObjId {
            class: Class::RP2G1,
            number: u64::from(object),
            unit,
        }),
        dkey,
        akey,
    }
}

/// The path of an object.
pub(crate) fn object_path(unit: u8, object: u8) -> Path
    requires { is_unit unit ≡ true }
    ensures ends { ends_at_object result ≡ true }
    ensures form { is_path_in_form result ≡ true }
    ensures size { record_size result ≡ unit }
    ensures names { NamesAreKeys result }
{
    below(unit, object, None, None)
}

/// The path of a dkey.
pub(crate) fn dkey_path(alloc: Global, unit: u8, object: u8, dkey: u8) -> Option<Path>
    requires { is_unit unit ≡ true }
    ensures ends { IfSome result (λ p. ends_at_dkey p ≡ true) }
    ensures form { IfSome result (λ p. is_path_in_form p ≡ true) }
    ensures size { IfSome result (λ p. record_size p ≡ unit) }
    ensures names { IfSome result NamesAreKeys }
{
    let dkey = Key::new(alloc, &[b'd', dkey % 2 + b'0']).ok()?;
    Some(below(unit, object, Some(dkey), None))
}

/// The path of an akey.
pub(crate) fn akey_path(alloc: Global, unit: u8, object: u8, dkey: u8, akey: u8) -> Option<Path>
    requires { is_unit unit ≡ true }
    ensures ends { IfSome result (λ p. ends_at_akey p ≡ true) }
    ensures form { IfSome result (λ p. is_path_in_form p ≡ true) }
    ensures size { IfSome result (λ p. record_size p ≡ unit) }
    ensures names { IfSome result NamesAreKeys }
{
    let dkey = Key::new(alloc, &[b'd', dkey % 2 + b'0']).ok()?;
    let akey = Key::new(alloc, &[b'a', akey % 2 + b'0']).ok()?;
    Some(below(unit, object, Some(dkey), Some(akey)))
}

/// The path of a place.
pub(crate) fn path(alloc: Global, unit: u8, place: Place) -> Option<Path>
    requires { is_unit unit ≡ true }
    ensures form { IfSome result (λ p. is_path_in_form p ≡ true) }
    ensures size { IfSome result (λ p. is_unit (record_size p) ≡ true) }
    ensures names { IfSome result NamesAreKeys }
{
    match place {
        Place::Cont => Some(Path {
            cont: ContId(5),
            obj: None,
            dkey: None,
            akey: None,
        }),
        Place::Object(object) => Some(object_path(unit, object)),
        Place::Dkey(object, dkey) => dkey_path(alloc, unit, object, dkey),
        Place::Akey(object, dkey, akey) => akey_path(alloc, unit, object, dkey, akey),
    }
}
