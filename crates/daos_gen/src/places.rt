// What a drawn number picks: an object, a dkey and an akey.
ghost use Rattle.std.specs.Prelude.{◌≡◌, ◌∷◌, IfOk, decimal, Some};
ghost use Rattle.daos_gen.specs.Commands.{akey_path, class_of, load_cont, numbered, obj_of, obj_path};

use base_types::id::{Class, ContId, ObjId};
use base_types::items::Memory;
use base_types::key::Key;
use base_types::path::Path;
use itoa::Buffer;
use std::alloc::{AllocError, Global};

/// The container of all objects.
pub const LOAD: ContId = ContId(15);

/// The class of the object of this number, from 0 to 3.
pub fn class_of(targets: u8, number: u64) -> Class
    ensures { result ≡ class_of targets number }
{
    if number == 0 {
        Class::SX
    } else if number == 2 || targets == 1 {
        Class::S1
    } else if number == 1 {
        Class::RP2G1
    } else {
        Class::RP2GX
    }
}

/// The object of this number.
pub fn obj_of(targets: u8, number: u64) -> ObjId
    ensures { result ≡ obj_of targets number }
{
    ObjId {
        class: class_of(targets, number),
        number,
        unit: 1,
    }
}

/// A letter, and a number behind it.
pub fn numbered(alloc: Global, letter: u8, number: u64) -> Result<Vec<u8>, Memory>
    ensures { IfOk result (λ text. text.items ≡ numbered letter number) }
{
    let mut text = Vec::new(alloc);
    text.push(letter)?;
    let mut buffer = Buffer::new();
    text.extend_from_slice(buffer.format(number).as_bytes())?;
    Ok(text)
}

// The key of a letter and a number. These bytes are a key, so that memory alone may be wanting.
fn key(alloc: Global, letter: u8, number: u64) -> Result<Key, Memory>
    ensures { IfOk result (λ key. key ≡ numbered letter number) }
{
    let text = numbered(alloc, letter, number)?;
    match Key::new(alloc, text.as_slice()) {
        Ok(key) => Ok(key),
        Err(_) => Err(AllocError),
    }
}

/// The path of the object that a drawn number picks.
pub fn obj_path(targets: u8, drawn: u64) -> Path
    ensures { result ≡ obj_path targets drawn }
{
    Path {
        cont: LOAD,
        obj: Some(obj_of(targets, (drawn >> 8) % 4)),
        dkey: None,
        akey: None,
    }
}

/// The path of the akey of this number, of the object and the dkey that a drawn number picks.
pub fn akey_path(alloc: Global, targets: u8, drawn: u64, akey: u64) -> Result<Path, Memory>
    ensures { IfOk result (λ path. path ≡ akey_path targets drawn akey) }
{
    let dkey = key(alloc, b'd', (drawn >> 16) % 16)?;
    let akey = key(alloc, b'a', akey)?;
    Ok(Path {
        cont: LOAD,
        obj: Some(obj_of(targets, (drawn >> 8) % 4)),
        dkey: Some(dkey),
        akey: Some(akey),
    })
}
