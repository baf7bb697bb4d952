// Containers and paths by the names that a script gives them.
ghost use Rattle.std.specs.Prelude.{◌≡◌};
ghost use Rattle.report_grammar.specs.Names.{cont_at, cont_of, key_or_none_at, obj_of, obj_or_none_at, path_at, path_of};
ghost use Rattle.report_grammar.specs.Reads.{Reads};

use crate::fault::RowNo;
use crate::words::{key_of, nothing_at, or_bad, word_at};
use base_text::parts::Parts;
use base_types::id::{ContId, ObjId};
use base_types::key::Key;
use base_types::path::Path;
use base_types::script::{ContDecl, ObjDecl, Script};
use std::alloc::Global;

// The first container of this name.
fn cont_of(decls: &[ContDecl], name: &[u8]) -> Option<ContId>
    ensures { result ≡ cont_of decls.now name.now }
{
    for decl in decls {
        if decl.name.bytes() == name {
            return Some(decl.id);
        }
    }
    None
}

// The first object of this name in a container.
fn obj_of(decls: &[ObjDecl], cont: ContId, name: &[u8]) -> Option<ObjId>
    ensures { result ≡ obj_of decls.now cont name.now }
{
    for decl in decls {
        if decl.cont.0 == cont.0 && decl.name.bytes() == name {
            return Some(decl.id);
        }
    }
    None
}

/// A container, by its name.
#[tactic(auto, unfolding(crate::specs::Names::cont_at))]
pub fn cont_at(script: &Script, words: &mut Parts<'_>) -> Result<ContId, RowNo>
    ensures { Reads (λ id. (id, words.new)) result (cont_at script.now words.old) }
{
    let word = word_at(words)?;
    or_bad(cont_of(script.conts.as_slice(), word))
}

// An object by its name, if a further part stands.
fn obj_or_none_at(
    script: &Script,
    cont: ContId,
    parts: &mut Parts<'_>,
) -> Result<Option<ObjId>, RowNo>
    ensures { Reads (λ id. (id, parts.new)) result (obj_or_none_at script.now cont parts.old) }
{
    match parts.take_part() {
        None => Ok(None),
        Some(name) => match obj_of(script.objs.as_slice(), cont, name) {
            Some(id) => Ok(Some(id)),
            None => Err(RowNo::Bad),
        },
    }
}

// A key, if a further part stands.
fn key_or_none_at(alloc: Global, parts: &mut Parts<'_>) -> Result<Option<Key>, RowNo>
    ensures { Reads (λ key. (key, parts.new)) result (key_or_none_at parts.old) }
{
    match parts.take_part() {
        None => Ok(None),
        Some(word) => {
            let key = key_of(alloc, word)?;
            Ok(Some(key))
        }
    }
}

// The path that a word spells.
#[tactic(auto, unfolding(crate::specs::Names::path_of))]
fn path_of(alloc: Global, script: &Script, word: &[u8]) -> Result<Path, RowNo>
    ensures { Reads (λ path. path) result (path_of script.now word.now) }
{
    let mut parts = Parts::new(b'/', word);
    let cont = cont_at(script, &mut parts)?;
    let obj = obj_or_none_at(script, cont, &mut parts)?;
    let dkey = key_or_none_at(alloc, &mut parts)?;
    let akey = key_or_none_at(alloc, &mut parts)?;
    nothing_at(&mut parts)?;
    Ok(Path {
        cont,
        obj,
        dkey,
        akey,
    })
}

/// A path.
#[tactic(auto, unfolding(crate::specs::Names::path_at))]
pub fn path_at(alloc: Global, script: &Script, words: &mut Parts<'_>) -> Result<Path, RowNo>
    ensures { Reads (λ path. (path, words.new)) result (path_at script.now words.old) }
{
    let word = word_at(words)?;
    path_of(alloc, script, word)
}
