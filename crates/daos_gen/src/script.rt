// The script of a load.
ghost use Rattle.std.specs.Prelude.{◌≡◌, ◌∷◌, ◌<◌, ◌≤◌, [], IfOk, codes};
ghost use Rattle.base_types.specs.Scripts.{IsInForm};
ghost use Rattle.daos_gen.specs.Scripts.{clients_of, conts_of_load, obj_named, objs_of_load, script_of};

use crate::commands::commands_of;
use crate::places::{LOAD, obj_of};
use base_types::items::{Items, Memory};
use base_types::key::Key;
use base_types::script::{ClientLists, ContDecl, Conts, ObjDecl, Objs, Script};
use std::alloc::{AllocError, Global};

// A name. These bytes are a key, so that memory alone may be wanting.
fn name(alloc: Global, bytes: &[u8]) -> Result<Key, Memory>
    ensures { IfOk result (λ key. key ≡ bytes.now) }
{
    match Key::new(alloc, bytes) {
        Ok(key) => Ok(key),
        Err(_) => Err(AllocError),
    }
}

// The object of a number, under a name.
fn obj_named(alloc: Global, targets: u8, bytes: &[u8], number: u64) -> Result<ObjDecl, Memory>
    ensures { IfOk result (λ decl. decl ≡ obj_named targets bytes.now number) }
{
    Ok(ObjDecl {
        name: name(alloc, bytes)?,
        cont: LOAD,
        id: obj_of(targets, number),
    })
}

fn conts_of_load(alloc: Global) -> Result<Conts, Memory>
    ensures { IfOk result (λ conts. conts ≡ conts_of_load) }
{
    let mut conts: Conts = Items::new(alloc);
    conts.push(ContDecl {
        name: name(alloc, b"load")?,
        id: LOAD,
    })?;
    Ok(conts)
}

fn objs_of_load(alloc: Global, targets: u8) -> Result<Objs, Memory>
    ensures { IfOk result (λ objs. objs ≡ objs_of_load targets) }
{
    let mut objs: Objs = Items::new(alloc);
    objs.push(obj_named(alloc, targets, b"o0", 0)?)?;
    objs.push(obj_named(alloc, targets, b"o1", 1)?)?;
    objs.push(obj_named(alloc, targets, b"o2", 2)?)?;
    objs.push(obj_named(alloc, targets, b"o3", 3)?)?;
    Ok(objs)
}

fn clients_of(alloc: Global, targets: u8, count: u32) -> Result<ClientLists, Memory>
    ensures { IfOk result (λ clients. clients ≡ clients_of targets count) }
{
    let mut clients: ClientLists = Items::new(alloc);
    clients.push(commands_of(alloc, targets, count, 0)?)?;
    clients.push(commands_of(alloc, targets, count, 1)?)?;
    clients.push(commands_of(alloc, targets, count, 2)?)?;
    clients.push(commands_of(alloc, targets, count, 3)?)?;
    Ok(clients)
}

/// The generated script of so many commands, 1 to 10,000, for so many targets, 1 to 64: one
/// container, four objects, and four clients that take the commands in turn. The same numbers give
/// the same script.
///
/// # Errors
///
/// For want of memory alone.
#[tactic(auto, unfolding(crate::specs::Scripts::script_of))]
pub fn make_script(alloc: Global, count: u32, targets: u8) -> Result<Script, Memory>
    requires some { 0 < count }
    requires few { count ≤ 10000 }
    requires some_targets { 0 < targets }
    requires few_targets { targets ≤ 64 }
    ensures exact { IfOk result (λ script. script ≡ script_of targets count) }
    ensures form { IfOk result (λ script. IsInForm targets script) }
{
    Ok(Script {
        targets,
        conts: conts_of_load(alloc)?,
        objs: objs_of_load(alloc, targets)?,
        olds: Items::new(alloc),
        drops: Items::new(alloc),
        stops: Items::new(alloc),
        clients: clients_of(alloc, targets, count)?,
    })
}
