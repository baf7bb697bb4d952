// Containers, objects and paths by their names.
ghost use Rattle.std.specs.Prelude.{◌≡◌, ◌++◌, ◌∷◌, OnOk};
ghost use Rattle.report_writer.specs.Names.{cont_word, key_part, obj_part, obj_word, path_word};

use base_types::id::{ContId, ObjId};
use base_types::items::Memory;
use base_types::key::Key;
use base_types::path::Path;
use base_types::script::{ContDecl, ObjDecl, Script};

/// Adds the name of a container.
pub fn push_cont(out: &mut Vec<u8>, decls: &[ContDecl], cont: ContId) -> Result<(), Memory>
    ensures { OnOk result (out.new.items ≡ out.old.items ++ cont_word decls.now cont) }
{
    for decl in decls {
        if decl.id.0 == cont.0 {
            out.extend_from_slice(decl.name.bytes())?;
            return Ok(());
        }
    }
    Ok(())
}

// Adds the name of an object of a container.
fn push_obj(out: &mut Vec<u8>, decls: &[ObjDecl], cont: ContId, obj: ObjId) -> Result<(), Memory>
    ensures { OnOk result (out.new.items ≡ out.old.items ++ obj_word decls.now cont obj) }
{
    for decl in decls {
        if decl.cont.0 == cont.0 && decl.id.same(obj) {
            out.extend_from_slice(decl.name.bytes())?;
            return Ok(());
        }
    }
    Ok(())
}

// Adds a slash and the name of an object, if there is one.
fn push_obj_part(
    out: &mut Vec<u8>,
    decls: &[ObjDecl],
    cont: ContId,
    obj: Option<ObjId>,
) -> Result<(), Memory>
    ensures { OnOk result (out.new.items ≡ out.old.items ++ obj_part decls.now cont obj) }
{
    if let Some(obj) = obj {
        out.push(b'/')?;
        push_obj(out, decls, cont, obj)?;
    }
    Ok(())
}

// Adds a slash and a key, if there is one.
fn push_key_part(out: &mut Vec<u8>, key: &Option<Key>) -> Result<(), Memory>
    ensures { OnOk result (out.new.items ≡ out.old.items ++ key_part key.now) }
{
    if let Some(key) = key {
        out.push(b'/')?;
        out.extend_from_slice(key.bytes())?;
    }
    Ok(())
}

/// Adds the names of a path, as far as it goes.
#[tactic(auto, unfolding(crate::specs::Names::path_word))]
pub fn push_path(out: &mut Vec<u8>, script: &Script, path: &Path) -> Result<(), Memory>
    ensures { OnOk result (out.new.items ≡ out.old.items ++ path_word script.now path.now) }
{
    push_cont(out, script.conts.as_slice(), path.cont)?;
    push_obj_part(out, script.objs.as_slice(), path.cont, path.obj)?;
    push_key_part(out, &path.dkey)?;
    push_key_part(out, &path.akey)?;
    Ok(())
}
