// Reads what a line says.
ghost use Rattle.std.specs.Prelude.{◌≡◌, true, IfOk};
ghost use Rattle.script_words.specs.Reads.{Gives};
ghost use Rattle.script_lines.specs.Fits.{AtFits, FitsAlways, FitsAnywhere, LineFits};
ghost use Rattle.script_lines.specs.Verbs.{is_read};
ghost use Rattle.script_lines.specs.Lines.{aggregate_line, at_by, at_line, cond_line, cont_line, do_at, drop_line, line_at, line_by, obj_line, old_line, op_line, skip_line, snap_line, stop_line, tell_line};

use crate::line::{At, Line};
use crate::ops::act_by;
use crate::verbs::{OpVerb, Verb, cond_verb_at, is_read, verb_at};
use base_text::parts::Parts;
use base_types::epoch::Epoch;
use base_types::fault::Why;
use base_types::id::{ContId, ObjId};
use base_types::operation::{Cond, Op};
use base_types::script::{ContDecl, ObjDecl, OldDecl, StopDecl};
use script_words::decls::Decls;
use script_words::fault::LineNo;
use script_words::words::{
    class_at, cont_at, drop_at, new_cont_at, new_obj_at, new_snap_at, nothing_at, number_at,
    snap_at, target_at, unit_at, uuid_at,
};
use std::alloc::Global;

// cont C UUID
#[tactic(auto, unfolding(crate::specs::Lines::cont_line))]
fn cont_line(alloc: Global, decls: &Decls, words: &mut Parts<'_>) -> Result<Line, LineNo>
    ensures exact { Gives (λ l. (l, words.new)) result (cont_line decls.now words.old) }
    ensures fits { IfOk result (FitsAnywhere decls.now) }
{
    let name = new_cont_at(alloc, decls, words)?;
    let id = uuid_at(words)?;
    if decls.conts.has(id) {
        return Err(LineNo::Fault(Why::BadName));
    }
    Ok(Line::Cont(ContDecl { name, id }))
}

// obj O C CLASS NUMBER, obj O C CLASS NUMBER SIZE
#[tactic(auto, unfolding(crate::specs::Lines::obj_line))]
fn obj_line(alloc: Global, decls: &Decls, words: &mut Parts<'_>) -> Result<Line, LineNo>
    ensures exact { Gives (λ l. (l, words.new)) result (obj_line decls.now words.old) }
    ensures fits { IfOk result (FitsAnywhere decls.now) }
{
    let name = new_obj_at(alloc, decls, words)?;
    let cont = cont_at(decls, words)?;
    let class = class_at(decls.targets, words)?;
    let number = number_at(0, u64::MAX, words)?;
    let unit = unit_at(words)?;
    let id = ObjId {
        class,
        number,
        unit,
    };
    if decls.objs.has(cont, id) {
        return Err(LineNo::Fault(Why::BadName));
    }
    Ok(Line::Obj(ObjDecl { name, cont, id }))
}

// old S C EPOCH
#[tactic(auto, unfolding(crate::specs::Lines::old_line))]
fn old_line(alloc: Global, decls: &Decls, words: &mut Parts<'_>) -> Result<Line, LineNo>
    ensures exact { Gives (λ l. (l, words.new)) result (old_line decls.now words.old) }
    ensures fits { IfOk result (FitsAnywhere decls.now) }
{
    let name = new_snap_at(alloc, decls, words)?;
    let cont = cont_at(decls, words)?;
    let epoch = Epoch(number_at(0, u64::MAX, words)?);
    Ok(Line::Old(OldDecl { name, cont, epoch }))
}

// drop S
#[tactic(auto, unfolding(crate::specs::Lines::drop_line))]
fn drop_line(alloc: Global, decls: &Decls, words: &mut Parts<'_>) -> Result<Line, LineNo>
    ensures exact { Gives (λ l. (l, words.new)) result (drop_line decls.now words.old) }
    ensures fits { IfOk result (FitsAnywhere decls.now) }
{
    let name = drop_at(alloc, decls, words)?;
    Ok(Line::Drop(name))
}

// stop T K
#[tactic(auto, unfolding(crate::specs::Lines::stop_line))]
fn stop_line(decls: &Decls, words: &mut Parts<'_>) -> Result<Line, LineNo>
    ensures exact { Gives (λ l. (l, words.new)) result (stop_line decls.now words.old) }
    ensures fits { IfOk result (FitsAnywhere decls.now) }
{
    let target = target_at(decls.targets, words)?;
    let write = number_at(1, 1_000_000, words)? as u32;
    Ok(Line::Stop(StopDecl { target, write }))
}

// An operation without a condition.
#[tactic(auto, unfolding(crate::specs::Lines::op_line))]
fn op_line(
    alloc: Global,
    decls: &Decls,
    within: Option<ContId>,
    verb: OpVerb,
    words: &mut Parts<'_>,
) -> Result<Line, LineNo>
    ensures exact { Gives (λ l. (l, words.new)) result (op_line decls.now within verb words.old) }
    ensures fits { IfOk result (LineFits decls.now within) }
{
    let act = act_by(alloc, decls, within, verb, words)?;
    Ok(Line::Do(Op {
        act,
        cond: Cond::Free,
    }))
}

// must LINE, mustnot LINE
#[tactic(auto, unfolding(crate::specs::Lines::cond_line))]
fn cond_line(
    alloc: Global,
    decls: &Decls,
    within: Option<ContId>,
    condition: Cond,
    words: &mut Parts<'_>,
) -> Result<Line, LineNo>
    ensures exact { Gives (λ l. (l, words.new)) result (cond_line decls.now within condition words.old) }
    ensures fits { IfOk result (LineFits decls.now within) }
{
    let verb = cond_verb_at(condition, words)?;
    let act = act_by(alloc, decls, within, verb, words)?;
    Ok(Line::Do(Op {
        act,
        cond: condition,
    }))
}

// A read of a snapshot.
#[tactic(auto, unfolding(crate::specs::Lines::do_at))]
fn do_at(
    alloc: Global,
    decls: &Decls,
    at: At,
    verb: OpVerb,
    words: &mut Parts<'_>,
) -> Result<Line, LineNo>
    requires known { AtFits decls.now at }
    requires read { is_read verb ≡ true }
    ensures exact { Gives (λ l. (l, words.new)) result (do_at decls.now at verb words.old) }
    ensures fits { IfOk result (FitsAnywhere decls.now) }
{
    let act = act_by(alloc, decls, Some(at.cont), verb, words)?;
    Ok(Line::DoAt(
        at,
        Op {
            act,
            cond: Cond::Free,
        },
    ))
}

// What may follow `at S`.
fn at_by(
    alloc: Global,
    decls: &Decls,
    at: At,
    verb: Verb,
    words: &mut Parts<'_>,
) -> Result<Line, LineNo>
    requires { AtFits decls.now at }
    ensures exact { Gives (λ l. (l, words.new)) result (at_by decls.now at verb words.old) }
    ensures fits { IfOk result (FitsAnywhere decls.now) }
{
    match verb {
        Verb::Op(verb) if is_read(verb) => do_at(alloc, decls, at, verb, words),
        Verb::Tx => Ok(Line::TxAt(at)),
        _ => Err(LineNo::Fault(Why::UnknownWord)),
    }
}

// at S LINE, at S tx
#[tactic(auto, unfolding(crate::specs::Lines::at_line))]
fn at_line(alloc: Global, decls: &Decls, words: &mut Parts<'_>) -> Result<Line, LineNo>
    ensures exact { Gives (λ l. (l, words.new)) result (at_line decls.now words.old) }
    ensures fits { IfOk result (FitsAnywhere decls.now) }
{
    let (name, cont) = snap_at(alloc, decls, words)?;
    let verb = verb_at(words)?;
    at_by(alloc, decls, At { name, cont }, verb, words)
}

// snap S C
#[tactic(auto, unfolding(crate::specs::Lines::snap_line))]
fn snap_line(alloc: Global, decls: &Decls, words: &mut Parts<'_>) -> Result<Line, LineNo>
    ensures exact { Gives (λ l. (l, words.new)) result (snap_line decls.now words.old) }
    ensures fits { IfOk result (FitsAnywhere decls.now) }
{
    let name = new_snap_at(alloc, decls, words)?;
    let cont = cont_at(decls, words)?;
    Ok(Line::Snap(name, cont))
}

// aggregate C
#[tactic(auto, unfolding(crate::specs::Lines::aggregate_line))]
fn aggregate_line(decls: &Decls, words: &mut Parts<'_>) -> Result<Line, LineNo>
    ensures exact { Gives (λ l. (l, words.new)) result (aggregate_line decls.now words.old) }
    ensures fits { IfOk result (FitsAnywhere decls.now) }
{
    let cont = cont_at(decls, words)?;
    Ok(Line::Aggregate(cont))
}

// tell N
#[tactic(auto, unfolding(crate::specs::Lines::tell_line))]
fn tell_line(words: &mut Parts<'_>) -> Result<Line, LineNo>
    ensures exact { Gives (λ l. (l, words.new)) result (tell_line words.old) }
    ensures fits { IfOk result FitsAlways }
{
    let client = number_at(0, 65535, words)?;
    Ok(Line::Tell(client as u16))
}

// skip N
#[tactic(auto, unfolding(crate::specs::Lines::skip_line))]
fn skip_line(words: &mut Parts<'_>) -> Result<Line, LineNo>
    ensures exact { Gives (λ l. (l, words.new)) result (skip_line words.old) }
    ensures fits { IfOk result FitsAlways }
{
    let turns = number_at(1, 10_000, words)?;
    Ok(Line::Skip(turns as u32))
}

// The words after the first.
fn line_by(
    alloc: Global,
    decls: &Decls,
    within: Option<ContId>,
    verb: Verb,
    words: &mut Parts<'_>,
) -> Result<Line, LineNo>
    ensures exact { Gives (λ l. (l, words.new)) result (line_by decls.now within verb words.old) }
    ensures fits { IfOk result (LineFits decls.now within) }
{
    match verb {
        Verb::Cont => cont_line(alloc, decls, words),
        Verb::Obj => obj_line(alloc, decls, words),
        Verb::Old => old_line(alloc, decls, words),
        Verb::Drop => drop_line(alloc, decls, words),
        Verb::Stop => stop_line(decls, words),
        Verb::Client => Ok(Line::Client),
        Verb::Op(verb) => op_line(alloc, decls, within, verb, words),
        Verb::Must => cond_line(alloc, decls, within, Cond::Must, words),
        Verb::MustNot => cond_line(alloc, decls, within, Cond::MustNot, words),
        Verb::Tx => Ok(Line::Tx),
        Verb::End => Ok(Line::End),
        Verb::At => at_line(alloc, decls, words),
        Verb::Snap => snap_line(alloc, decls, words),
        Verb::Aggregate => aggregate_line(decls, words),
        Verb::Tell => tell_line(words),
        Verb::Skip => skip_line(words),
    }
}

/// What the words of a line say, by what is declared before it. In a transaction that reads a
/// snapshot, objects keep within the snapshot's container.
#[tactic(auto, unfolding(crate::specs::Lines::line_at))]
pub fn line_at(
    alloc: Global,
    decls: &Decls,
    within: Option<ContId>,
    words: &mut Parts<'_>,
) -> Result<Line, LineNo>
    ensures exact { Gives (λ l. l) result (line_at decls.now within words.old) }
    ensures fits { IfOk result (LineFits decls.now within) }
{
    let verb = verb_at(words)?;
    let line = line_by(alloc, decls, within, verb, words)?;
    match nothing_at(words) {
        Ok(()) => Ok(line),
        Err(no) => {
            drop(line);
            Err(no)
        }
    }
}
