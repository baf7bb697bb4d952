// Whether what a row tells may be told of a script, and is spelled so.
ghost use Rattle.std.specs.Prelude.{◌≡◌, ◌++◌, ◌∷◌, [], IfOk, OnOk, None};
ghost use Rattle.std.specs.Str.{bytes_eq};
ghost use Rattle.report_reader.specs.Marks.{ops_of};
ghost use Rattle.report_grammar.specs.Reads.{Reads};
ghost use Rattle.report_reader.specs.Told.{answer_fits, attempt_fits, cause_fits, has_attempt, is_bare, is_hole, is_length, is_made, is_old, is_other, is_next, is_snap, is_snap_of, is_target, is_whole, line_fits, outcome_fits, outcome_fits_in, piece_fits, pieces_fit, spelled, told_in, told_text};

use crate::marks::{Marks, ops_of};
use base_text::parts::Parts;
use base_types::answer::{Answer, Piece};
use base_types::id::AttemptId;
use base_types::items::{Items, Memory};
use base_types::outcome::{Cause, Outcome};
use base_types::report::{Attempt, Line};
use base_types::script::{Command, OldDecl, Script};
use report_grammar::fault::RowNo;
use report_grammar::rows::{Told, told_of};
use report_writer::attempts::{push_cond, push_got, push_try};
use report_writer::lines::push_line;
use std::alloc::Global;

// Adds the text of what a row tells.
fn push_told(out: &mut Vec<u8>, script: &Script, told: &Told) -> Result<(), Memory>
    ensures { OnOk result (out.new.items ≡ out.old.items ++ told_text script.now told.now) }
{
    match told {
        Told::Try(attempt) => push_try(out, script, attempt),
        Told::Cond(cond) => push_cond(out, *cond),
        Told::Got(got) => push_got(out, got),
        Told::Other(line) => push_line(out, script, line),
    }
}

// Whether a line is what a row that tells this is spelled as.
fn is_spelled(alloc: Global, script: &Script, line: &[u8], told: &Told) -> Result<bool, Memory>
    ensures { IfOk result (λ yes. yes ≡ bytes_eq (told_text script.now told.now) (line.now ++ 10 ∷ [])) }
{
    let mut text = Vec::new(alloc);
    push_told(&mut text, script, told)?;
    let mut wanted = line.to_vec(alloc)?;
    wanted.push(b'\n')?;
    Ok(text.as_slice() == wanted.as_slice())
}

// What a row tells, where the line is what that is spelled as.
fn spelled(alloc: Global, script: &Script, line: &[u8], told: Told) -> Result<Told, RowNo>
    ensures { Reads (λ t. t) result (spelled script.now line.now told) }
{
    if is_spelled(alloc, script, line, &told)? {
        Ok(told)
    } else {
        Err(RowNo::Bad)
    }
}

/// What a line tells, whatever stands above it.
#[tactic(auto, unfolding(crate::specs::Told::told_in))]
pub fn told_in(alloc: Global, script: &Script, line: &[u8]) -> Result<Told, RowNo>
    ensures { Reads (λ t. t) result (told_in script.now line.now) }
{
    let mut words = Parts::new(b' ', line);
    let told = told_of(alloc, script, &mut words)?;
    spelled(alloc, script, line, told)
}

fn is_target(script: &Script, target: u8) -> bool
    ensures { result ≡ is_target script.now target }
{
    target < script.targets
}

fn has_attempt(table: &[Items<Marks>], id: AttemptId) -> bool
    ensures { result ≡ has_attempt table.now id }
{
    ops_of(table, id).is_some()
}

fn cause_fits(script: &Script, table: &[Items<Marks>], cause: &Cause) -> bool
    ensures { result ≡ cause_fits script.now table.now cause.now }
{
    match cause {
        Cause::ReadLater { by, .. } => has_attempt(table, *by),
        Cause::WriteLater { by, .. } => has_attempt(table, *by),
        Cause::Unresolved { by } => has_attempt(table, *by),
        Cause::Floor { target, .. } => is_target(script, *target),
    }
}

fn outcome_fits(script: &Script, table: &[Items<Marks>], ops: usize, outcome: &Outcome) -> bool
    ensures { result ≡ outcome_fits script.now table.now ops outcome.now }
{
    match outcome {
        Outcome::Committed => true,
        Outcome::CondFailed { op } => (*op as usize) < ops,
        Outcome::Restart(cause) => cause_fits(script, table, cause),
        Outcome::NoSpace { target, .. } => is_target(script, *target),
        Outcome::EpochsSpent => true,
        Outcome::NoSnapshot => true,
        Outcome::Unknown { target } => is_target(script, *target),
    }
}

// Whether no rows stand below an attempt.
fn is_bare(attempt: &Attempt) -> bool
    ensures { result ≡ is_bare attempt.now }
{
    attempt.conds.is_empty() && attempt.gots.is_empty()
}

// Whether an attempt ended in a way that its command can.
fn ends_right(script: &Script, table: &[Items<Marks>], attempt: &Attempt) -> bool
    ensures { result ≡ outcome_fits_in script.now table.now (ops_of table.now attempt.now.id) attempt.now.outcome }
{
    match ops_of(table, attempt.id) {
        Some(ops) => outcome_fits(script, table, ops, &attempt.outcome),
        None => false,
    }
}

/// Whether an attempt, as its row tells it, may be told of a script.
pub fn attempt_fits(script: &Script, table: &[Items<Marks>], attempt: &Attempt) -> bool
    ensures { result ≡ attempt_fits script.now table.now attempt.now }
{
    is_bare(attempt) && ends_right(script, table, attempt)
}

fn is_length(len: usize) -> bool
    ensures { result ≡ is_length len }
{
    len >= 1 && len <= 1024
}

// Whether so many bytes are whole records of a size; of none is the size 0.
fn is_whole(unit: u8, len: usize) -> bool
    ensures { result ≡ is_whole unit len }
{
    match unit {
        0 => len == 0,
        size => len % usize::from(size) == 0,
    }
}

fn is_hole(piece: &Piece) -> bool
    ensures { result ≡ is_hole piece.now }
{
    match piece {
        Piece::Bytes(_) => false,
        Piece::Hole(_) => true,
    }
}

// Whether the last run, if there is one, is of another kind.
fn is_other(last: Option<bool>, hole: bool) -> bool
    ensures { result ≡ is_other last hole }
{
    match last {
        None => true,
        Some(last) => last != hole,
    }
}

// Whether a run of an array, with records of a size, may stand behind one of this kind, if one is there.
fn piece_fits(unit: u8, last: Option<bool>, piece: &Piece) -> bool
    ensures { result ≡ piece_fits unit last piece.now }
{
    match piece {
        Piece::Bytes(bytes) => {
            is_length(bytes.len()) && is_whole(unit, bytes.len()) && is_other(last, false)
        }
        Piece::Hole(_) => is_other(last, true),
    }
}

fn pieces_fit(unit: u8, pieces: &[Piece]) -> bool
    ensures { result ≡ pieces_fit unit None pieces.now }
{
    let mut last: Option<bool> = None;
    for piece in pieces {
        if !piece_fits(unit, last, piece) {
            return false;
        }
        last = Some(is_hole(piece));
    }
    true
}

/// Whether an answer may be told of a read of an object whose arrays have records of this size.
pub fn answer_fits(unit: u8, answer: &Answer) -> bool
    ensures { result ≡ answer_fits unit answer.now }
{
    match answer {
        Answer::Bytes(bytes) => is_length(bytes.len()),
        Answer::Parts(pieces) => !pieces.is_empty() && pieces_fit(unit, pieces.as_slice()),
        Answer::Names(_) => true,
        Answer::Yes => true,
        Answer::No => true,
        Answer::Absent => true,
    }
}

fn is_old(olds: &[OldDecl], name: &[u8]) -> bool
    ensures { result ≡ is_old olds.now name.now }
{
    for decl in olds {
        if decl.name.bytes() == name {
            return true;
        }
    }
    false
}

fn is_made(command: &Command, made: &[u8]) -> bool
    ensures { result ≡ is_made made.now command.now }
{
    match command {
        Command::Snap { name, .. } => name.bytes() == made,
        _ => false,
    }
}

fn is_snap_of(commands: &[Command], name: &[u8]) -> bool
    ensures { result ≡ is_snap_of commands.now name.now }
{
    for command in commands {
        if is_made(command, name) {
            return true;
        }
    }
    false
}

// Whether a name is that of a snapshot of the script.
fn is_snap(script: &Script, name: &[u8]) -> bool
    ensures { result ≡ is_snap script.now name.now }
{
    if is_old(script.olds.as_slice(), name) {
        return true;
    }
    for commands in script.clients.as_slice() {
        if is_snap_of(commands.as_slice(), name) {
            return true;
        }
    }
    false
}

fn is_next(next_stop: Option<u32>, number: u32) -> bool
    ensures { result ≡ is_next next_stop number }
{
    match next_stop {
        None => false,
        Some(next) => next == number,
    }
}

/// Whether a line may be told of a script, where the next stop has this number.
pub fn line_fits(script: &Script, next_stop: Option<u32>, line: &Line) -> bool
    ensures { result ≡ line_fits script.now next_stop line.now }
{
    match line {
        Line::Try(_) => false,
        Line::Stop { number, target } => is_next(next_stop, *number) && is_target(script, *target),
        Line::Restart { target, .. } => is_target(script, *target),
        Line::Freeze { target, .. } => is_target(script, *target),
        Line::Snapshot { name, .. } => is_snap(script, name.bytes()),
        Line::Aggregate { target, .. } => is_target(script, *target),
        Line::Down { target } => is_target(script, *target),
    }
}
