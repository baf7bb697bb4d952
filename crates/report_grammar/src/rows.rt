// The rows of a report, each without its first word.
ghost use Rattle.std.specs.Prelude.{◌≡◌};
ghost use Rattle.report_grammar.specs.Reads.{Reads};
ghost use Rattle.report_grammar.specs.Rows.{aggregate_of, attempt_of, cond_of, down_of, freeze_of, got_of, restart_of, snapshot_of, stop_of, told_of, yes_at, yes_of};

use crate::answers::answer_of;
use crate::fault::RowNo;
use crate::names::cont_at;
use crate::outcomes::outcome_of;
use crate::words::{
    attempt_id_at, epoch_at, epoch_or_none_at, key_at, nothing_at, number_at, or_bad, word_at,
};
use base_text::parts::Parts;
use base_types::answer::Answer;
use base_types::items::Items;
use base_types::report::{Attempt, Line};
use base_types::script::Script;
use std::alloc::Global;

/// What a row tells: an attempt, a condition or an answer of the attempt above it, or another line.
#[derive(Drop)]
pub enum Told {
    Try(Attempt),
    Cond((u8, bool)),
    Got((u8, Answer)),
    Other(Line),
}

// An attempt.
#[tactic(auto, unfolding(crate::specs::Rows::attempt_of))]
fn attempt_of(alloc: Global, script: &Script, words: &mut Parts<'_>) -> Result<Told, RowNo>
    ensures { Reads (λ t. t) result (attempt_of script.now words.old) }
{
    let id = attempt_id_at(words)?;
    let epoch = epoch_or_none_at(words)?;
    let outcome = outcome_of(alloc, script, words)?;
    Ok(Told::Try(Attempt {
        id,
        epoch,
        conds: Items::new(alloc),
        gots: Items::new(alloc),
        outcome,
    }))
}

fn yes_of(word: &[u8]) -> Option<bool>
    ensures { result ≡ yes_of word.now }
{
    if word == b"yes".as_slice() {
        Some(true)
    } else if word == b"no".as_slice() {
        Some(false)
    } else {
        None
    }
}

#[tactic(auto, unfolding(crate::specs::Rows::yes_at))]
fn yes_at(words: &mut Parts<'_>) -> Result<bool, RowNo>
    ensures { Reads (λ b. (b, words.new)) result (yes_at words.old) }
{
    let word = word_at(words)?;
    or_bad(yes_of(word))
}

// Whether the path of an operation had a cell.
#[tactic(auto, unfolding(crate::specs::Rows::cond_of))]
fn cond_of(words: &mut Parts<'_>) -> Result<Told, RowNo>
    ensures { Reads (λ t. t) result (cond_of words.old) }
{
    let op = number_at(0, 255, words)? as u8;
    let holds = yes_at(words)?;
    nothing_at(words)?;
    Ok(Told::Cond((op, holds)))
}

// What the read of an operation was answered.
#[tactic(auto, unfolding(crate::specs::Rows::got_of))]
fn got_of(alloc: Global, words: &mut Parts<'_>) -> Result<Told, RowNo>
    ensures { Reads (λ t. t) result (got_of words.old) }
{
    let op = number_at(0, 255, words)? as u8;
    let answer = answer_of(alloc, words)?;
    Ok(Told::Got((op, answer)))
}

#[tactic(auto, unfolding(crate::specs::Rows::stop_of))]
fn stop_of(words: &mut Parts<'_>) -> Result<Told, RowNo>
    ensures { Reads (λ t. t) result (stop_of words.old) }
{
    let number = number_at(0, 4_294_967_295, words)? as u32;
    let target = number_at(0, 255, words)? as u8;
    nothing_at(words)?;
    Ok(Told::Other(Line::Stop { number, target }))
}

#[tactic(auto, unfolding(crate::specs::Rows::restart_of))]
fn restart_of(words: &mut Parts<'_>) -> Result<Told, RowNo>
    ensures { Reads (λ t. t) result (restart_of words.old) }
{
    let number = number_at(0, 4_294_967_295, words)? as u32;
    let target = number_at(0, 255, words)? as u8;
    let incarnation = number_at(0, u64::MAX, words)?;
    let floor = epoch_at(words)?;
    nothing_at(words)?;
    Ok(Told::Other(Line::Restart {
        number,
        target,
        incarnation,
        floor,
    }))
}

#[tactic(auto, unfolding(crate::specs::Rows::freeze_of))]
fn freeze_of(script: &Script, words: &mut Parts<'_>) -> Result<Told, RowNo>
    ensures { Reads (λ t. t) result (freeze_of script.now words.old) }
{
    let target = number_at(0, 255, words)? as u8;
    let cont = cont_at(script, words)?;
    let epoch = epoch_at(words)?;
    nothing_at(words)?;
    Ok(Told::Other(Line::Freeze {
        target,
        cont,
        epoch,
    }))
}

#[tactic(auto, unfolding(crate::specs::Rows::snapshot_of))]
fn snapshot_of(alloc: Global, script: &Script, words: &mut Parts<'_>) -> Result<Told, RowNo>
    ensures { Reads (λ t. t) result (snapshot_of script.now words.old) }
{
    let name = key_at(alloc, words)?;
    let cont = cont_at(script, words)?;
    let epoch = epoch_at(words)?;
    nothing_at(words)?;
    Ok(Told::Other(Line::Snapshot { name, cont, epoch }))
}

#[tactic(auto, unfolding(crate::specs::Rows::aggregate_of))]
fn aggregate_of(script: &Script, words: &mut Parts<'_>) -> Result<Told, RowNo>
    ensures { Reads (λ t. t) result (aggregate_of script.now words.old) }
{
    let number = number_at(0, 4_294_967_295, words)? as u32;
    let target = number_at(0, 255, words)? as u8;
    let cont = cont_at(script, words)?;
    let upto = epoch_at(words)?;
    nothing_at(words)?;
    Ok(Told::Other(Line::Aggregate {
        number,
        target,
        cont,
        upto,
    }))
}

#[tactic(auto, unfolding(crate::specs::Rows::down_of))]
fn down_of(words: &mut Parts<'_>) -> Result<Told, RowNo>
    ensures { Reads (λ t. t) result (down_of words.old) }
{
    let target = number_at(0, 255, words)? as u8;
    nothing_at(words)?;
    Ok(Told::Other(Line::Down { target }))
}

/// What a row tells, whatever stands above it.
#[tactic(auto, unfolding(crate::specs::Rows::told_of))]
pub fn told_of(alloc: Global, script: &Script, words: &mut Parts<'_>) -> Result<Told, RowNo>
    ensures { Reads (λ t. t) result (told_of script.now words.old) }
{
    let kind = word_at(words)?;
    if kind == b"try".as_slice() {
        attempt_of(alloc, script, words)
    } else if kind == b"cond".as_slice() {
        cond_of(words)
    } else if kind == b"got".as_slice() {
        got_of(alloc, words)
    } else if kind == b"stop".as_slice() {
        stop_of(words)
    } else if kind == b"restart".as_slice() {
        restart_of(words)
    } else if kind == b"freeze".as_slice() {
        freeze_of(script, words)
    } else if kind == b"snapshot".as_slice() {
        snapshot_of(alloc, script, words)
    } else if kind == b"aggregate".as_slice() {
        aggregate_of(script, words)
    } else if kind == b"down".as_slice() {
        down_of(words)
    } else {
        Err(RowNo::Bad)
    }
}
