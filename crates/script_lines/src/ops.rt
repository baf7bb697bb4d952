// Reads the words of operations.
ghost use Rattle.std.specs.Prelude.{◌≡◌, ◌+◌, ◌*◌, ◌/◌, ◌<◌, ◌^◌, IfOk, length};
ghost use Rattle.base_types.specs.Paths.{record_size};
ghost use Rattle.base_types.specs.Scripts.{AreRecords, IsActInForm, IsAkeyOf, IsDkeyOf, IsLength, IsObjectOf, IsPathOf, IsUnit};
ghost use Rattle.script_words.specs.Reads.{Gives};
ghost use Rattle.script_lines.specs.Ops.{ActFits, PathFits, act_by, akeys_at, cell_at, dkey_at, dkeys_at, get_at, has_at, object_at, offset_at, path_at, piece_at, punch_at, punch_of, put_at, range_at, read_at, write_at};

use crate::verbs::OpVerb;
use base_text::parts::Parts;
use base_types::fault::Why;
use base_types::id::ContId;
use base_types::items::Vec8;
use base_types::operation::{Act, Read, Write};
use base_types::path::Path;
use script_words::decls::Decls;
use script_words::fault::LineNo;
use script_words::words::{key_at, more_key_at, number_at, obj_at, value_at};
use std::alloc::Global;

/// The greatest index, in records, at which an extent may end.
pub const INDEX_MAX: u32 = 4_294_967_295;

// O
#[tactic(auto, unfolding(crate::specs::Ops::object_at))]
fn object_at(decls: &Decls, within: Option<ContId>, words: &mut Parts<'_>) -> Result<Path, LineNo>
    ensures exact { Gives (λ p. (p, words.new)) result (object_at decls.now within words.old) }
    ensures form { IfOk result (IsObjectOf decls.now.objs) }
    ensures inside { IfOk result (PathFits within) }
{
    let (cont, obj) = obj_at(decls, within, words)?;
    Ok(Path {
        cont,
        obj: Some(obj),
        dkey: None,
        akey: None,
    })
}

// O D
#[tactic(auto, unfolding(crate::specs::Ops::dkey_at))]
fn dkey_at(
    alloc: Global,
    decls: &Decls,
    within: Option<ContId>,
    words: &mut Parts<'_>,
) -> Result<Path, LineNo>
    ensures exact { Gives (λ p. (p, words.new)) result (dkey_at decls.now within words.old) }
    ensures form { IfOk result (IsDkeyOf decls.now.objs) }
    ensures inside { IfOk result (PathFits within) }
{
    let (cont, obj) = obj_at(decls, within, words)?;
    let dkey = key_at(alloc, words)?;
    Ok(Path {
        cont,
        obj: Some(obj),
        dkey: Some(dkey),
        akey: None,
    })
}

// O D A
#[tactic(auto, unfolding(crate::specs::Ops::cell_at))]
fn cell_at(
    alloc: Global,
    decls: &Decls,
    within: Option<ContId>,
    words: &mut Parts<'_>,
) -> Result<Path, LineNo>
    ensures exact { Gives (λ p. (p, words.new)) result (cell_at decls.now within words.old) }
    ensures form { IfOk result (IsAkeyOf decls.now.objs) }
    ensures unit { IfOk result (λ p. IsUnit (record_size p)) }
    ensures inside { IfOk result (PathFits within) }
{
    let (cont, obj) = obj_at(decls, within, words)?;
    let dkey = key_at(alloc, words)?;
    let akey = key_at(alloc, words)?;
    Ok(Path {
        cont,
        obj: Some(obj),
        dkey: Some(dkey),
        akey: Some(akey),
    })
}

// O, or O D, or O D A
#[tactic(auto, unfolding(crate::specs::Ops::path_at))]
fn path_at(
    alloc: Global,
    decls: &Decls,
    within: Option<ContId>,
    words: &mut Parts<'_>,
) -> Result<Path, LineNo>
    ensures exact { Gives (λ p. (p, words.new)) result (path_at decls.now within words.old) }
    ensures form { IfOk result (IsPathOf decls.now.objs) }
    ensures inside { IfOk result (PathFits within) }
{
    let (cont, id) = obj_at(decls, within, words)?;
    let obj = Some(id);
    let Some(dkey) = more_key_at(alloc, words)? else {
        return Ok(Path {
            cont,
            obj,
            dkey: None,
            akey: None,
        });
    };
    let akey = more_key_at(alloc, words)?;
    Ok(Path {
        cont,
        obj,
        dkey: Some(dkey),
        akey,
    })
}

// put O D A V
#[tactic(auto, unfolding(crate::specs::Ops::put_at))]
fn put_at(
    alloc: Global,
    decls: &Decls,
    within: Option<ContId>,
    words: &mut Parts<'_>,
) -> Result<Act, LineNo>
    ensures exact { Gives (λ a. (a, words.new)) result (put_at decls.now within words.old) }
    ensures form { IfOk result (IsActInForm decls.now.objs) }
    ensures inside { IfOk result (ActFits within OpVerb.Put) }
{
    let cell = cell_at(alloc, decls, within, words)?;
    let value = value_at(alloc, words)?;
    Ok(Act::Change(Write::Single(cell, value)))
}

// get O D A
#[tactic(auto, unfolding(crate::specs::Ops::get_at))]
fn get_at(
    alloc: Global,
    decls: &Decls,
    within: Option<ContId>,
    words: &mut Parts<'_>,
) -> Result<Act, LineNo>
    ensures exact { Gives (λ a. (a, words.new)) result (get_at decls.now within words.old) }
    ensures form { IfOk result (IsActInForm decls.now.objs) }
    ensures inside { IfOk result (ActFits within OpVerb.Get) }
{
    let cell = cell_at(alloc, decls, within, words)?;
    Ok(Act::Fetch(Read::Single(cell)))
}

// OFFSET
#[tactic(auto, unfolding(crate::specs::Ops::offset_at))]
fn offset_at(words: &mut Parts<'_>) -> Result<u32, LineNo>
    ensures { Gives (λ n. (n, words.new)) result (offset_at words.old) }
{
    let offset = number_at(0, u64::from(INDEX_MAX), words)?;
    Ok(offset as u32)
}

// OFFSET V, of whole records of a size
#[tactic(auto, unfolding(crate::specs::Ops::piece_at))]
fn piece_at(alloc: Global, size: u8, words: &mut Parts<'_>) -> Result<(u32, Vec8), LineNo>
    requires { IsUnit size }
    ensures exact { Gives (λ p. ((p.0, p.1), words.new)) result (piece_at size words.old) }
    ensures length { IfOk result (λ p. IsLength (length p.1)) }
    ensures records { IfOk result (λ p. AreRecords size p.1) }
    ensures end { IfOk result (λ p. p.0 + length p.1 / size < 2 ^ 32) }
{
    let offset = offset_at(words)?;
    let value = value_at(alloc, words)?;
    let (len, size) = (value.len() as u64, u64::from(size));
    if len % size != 0 {
        return Err(LineNo::Fault(Why::BadRecord));
    }
    if u64::from(offset) + len / size > u64::from(INDEX_MAX) {
        return Err(LineNo::Fault(Why::BadNumber));
    }
    Ok((offset, value))
}

// OFFSET LEN, of records of a size
#[tactic(auto, unfolding(crate::specs::Ops::range_at))]
fn range_at(size: u8, words: &mut Parts<'_>) -> Result<(u32, u32), LineNo>
    requires { IsUnit size }
    ensures exact { Gives (λ r. ((r.0, r.1), words.new)) result (range_at size words.old) }
    ensures length { IfOk result (λ r. IsLength (r.1 * size)) }
    ensures end { IfOk result (λ r. r.0 + r.1 < 2 ^ 32) }
{
    let offset = offset_at(words)?;
    let len = number_at(1, 1024 / u64::from(size), words)?;
    if u64::from(offset) + len > u64::from(INDEX_MAX) {
        return Err(LineNo::Fault(Why::BadNumber));
    }
    Ok((offset, len as u32))
}

// write O D A OFFSET V
#[tactic(auto, unfolding(crate::specs::Ops::write_at))]
fn write_at(
    alloc: Global,
    decls: &Decls,
    within: Option<ContId>,
    words: &mut Parts<'_>,
) -> Result<Act, LineNo>
    ensures exact { Gives (λ a. (a, words.new)) result (write_at decls.now within words.old) }
    ensures form { IfOk result (IsActInForm decls.now.objs) }
    ensures inside { IfOk result (ActFits within OpVerb.Write) }
{
    let cell = cell_at(alloc, decls, within, words)?;
    let (offset, value) = piece_at(alloc, cell.record_size(), words)?;
    Ok(Act::Change(Write::Extent(cell, offset, value)))
}

// read O D A OFFSET LEN
#[tactic(auto, unfolding(crate::specs::Ops::read_at))]
fn read_at(
    alloc: Global,
    decls: &Decls,
    within: Option<ContId>,
    words: &mut Parts<'_>,
) -> Result<Act, LineNo>
    ensures exact { Gives (λ a. (a, words.new)) result (read_at decls.now within words.old) }
    ensures form { IfOk result (IsActInForm decls.now.objs) }
    ensures inside { IfOk result (ActFits within OpVerb.Read) }
{
    let cell = cell_at(alloc, decls, within, words)?;
    let (offset, len) = range_at(cell.record_size(), words)?;
    Ok(Act::Fetch(Read::Extent(cell, offset, len)))
}

// dkeys O
#[tactic(auto, unfolding(crate::specs::Ops::dkeys_at))]
fn dkeys_at(decls: &Decls, within: Option<ContId>, words: &mut Parts<'_>) -> Result<Act, LineNo>
    ensures exact { Gives (λ a. (a, words.new)) result (dkeys_at decls.now within words.old) }
    ensures form { IfOk result (IsActInForm decls.now.objs) }
    ensures inside { IfOk result (ActFits within OpVerb.Dkeys) }
{
    let object = object_at(decls, within, words)?;
    Ok(Act::Fetch(Read::Dkeys(object)))
}

// akeys O D
#[tactic(auto, unfolding(crate::specs::Ops::akeys_at))]
fn akeys_at(
    alloc: Global,
    decls: &Decls,
    within: Option<ContId>,
    words: &mut Parts<'_>,
) -> Result<Act, LineNo>
    ensures exact { Gives (λ a. (a, words.new)) result (akeys_at decls.now within words.old) }
    ensures form { IfOk result (IsActInForm decls.now.objs) }
    ensures inside { IfOk result (ActFits within OpVerb.Akeys) }
{
    let dkey = dkey_at(alloc, decls, within, words)?;
    Ok(Act::Fetch(Read::Akeys(dkey)))
}

// has O, has O D, has O D A
#[tactic(auto, unfolding(crate::specs::Ops::has_at))]
fn has_at(
    alloc: Global,
    decls: &Decls,
    within: Option<ContId>,
    words: &mut Parts<'_>,
) -> Result<Act, LineNo>
    ensures exact { Gives (λ a. (a, words.new)) result (has_at decls.now within words.old) }
    ensures form { IfOk result (IsActInForm decls.now.objs) }
    ensures inside { IfOk result (ActFits within OpVerb.Has) }
{
    let path = path_at(alloc, decls, within, words)?;
    Ok(Act::Fetch(Read::Exists(path)))
}

// The punch at the level of a path.
fn punch_of(path: Path) -> Write
    ensures { result ≡ punch_of path }
{
    if path.akey.is_some() {
        Write::PunchAkey(path)
    } else if path.dkey.is_some() {
        Write::PunchDkey(path)
    } else {
        Write::PunchObject(path)
    }
}

// punch O, punch O D, punch O D A
#[tactic(auto, unfolding(crate::specs::Ops::punch_at))]
fn punch_at(
    alloc: Global,
    decls: &Decls,
    within: Option<ContId>,
    words: &mut Parts<'_>,
) -> Result<Act, LineNo>
    ensures exact { Gives (λ a. (a, words.new)) result (punch_at decls.now within words.old) }
    ensures form { IfOk result (IsActInForm decls.now.objs) }
    ensures inside { IfOk result (ActFits within OpVerb.Punch) }
{
    let path = path_at(alloc, decls, within, words)?;
    Ok(Act::Change(punch_of(path)))
}

/// The words of an operation after its verb.
pub fn act_by(
    alloc: Global,
    decls: &Decls,
    within: Option<ContId>,
    verb: OpVerb,
    words: &mut Parts<'_>,
) -> Result<Act, LineNo>
    ensures exact { Gives (λ a. (a, words.new)) result (act_by decls.now within verb words.old) }
    ensures form { IfOk result (IsActInForm decls.now.objs) }
    ensures inside { IfOk result (ActFits within verb) }
{
    match verb {
        OpVerb::Put => put_at(alloc, decls, within, words),
        OpVerb::Get => get_at(alloc, decls, within, words),
        OpVerb::Write => write_at(alloc, decls, within, words),
        OpVerb::Read => read_at(alloc, decls, within, words),
        OpVerb::Dkeys => dkeys_at(decls, within, words),
        OpVerb::Akeys => akeys_at(alloc, decls, within, words),
        OpVerb::Has => has_at(alloc, decls, within, words),
        OpVerb::Punch => punch_at(alloc, decls, within, words),
    }
}
