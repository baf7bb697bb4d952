// Outcomes in words.
ghost use Rattle.std.specs.Prelude.{◌≡◌};
ghost use Rattle.report_grammar.specs.Outcomes.{access_of, cause_of, floor_cause_of, floor_of, no_space_of, numbered_of, outcome_of, plain_of};
ghost use Rattle.report_grammar.specs.Reads.{Reads};

use crate::fault::RowNo;
use crate::names::path_at;
use crate::words::{attempt_id_at, epoch_at, nothing_at, number_at, word_at};
use base_text::parts::Parts;
use base_types::epoch::Epoch;
use base_types::outcome::{Cause, FloorWhy, Outcome};
use base_types::script::Script;
use base_types::shown::Shown;
use std::alloc::Global;

// What set a floor.
#[tactic(auto, unfolding(crate::specs::Outcomes::floor_of))]
fn floor_of(words: &mut Parts<'_>) -> Result<FloorWhy, RowNo>
    ensures { Reads (λ w. w) result (floor_of words.old) }
{
    let kind = word_at(words)?;
    if kind == b"snapshot".as_slice() {
        let epoch: Epoch = epoch_at(words)?;
        nothing_at(words)?;
        return Ok(FloorWhy::Snapshot(epoch));
    }
    let number = number_at(0, 4_294_967_295, words)? as u32;
    nothing_at(words)?;
    if kind == b"restart".as_slice() {
        Ok(FloorWhy::Restart(number))
    } else if kind == b"aggregate".as_slice() {
        Ok(FloorWhy::Aggregate(number))
    } else {
        Err(RowNo::Bad)
    }
}

// Another attempt's access.
#[tactic(auto, unfolding(crate::specs::Outcomes::access_of))]
fn access_of(alloc: Global, script: &Script, words: &mut Parts<'_>) -> Result<Shown, RowNo>
    ensures { Reads (λ a. a) result (access_of script.now words.old) }
{
    let by = attempt_id_at(words)?;
    let epoch = epoch_at(words)?;
    let path = path_at(alloc, script, words)?;
    nothing_at(words)?;
    Ok(Shown { by, epoch, path })
}

// A floor that was met.
#[tactic(auto, unfolding(crate::specs::Outcomes::floor_cause_of))]
fn floor_cause_of(words: &mut Parts<'_>) -> Result<Cause, RowNo>
    ensures { Reads (λ c. c) result (floor_cause_of words.old) }
{
    let target = number_at(0, 255, words)? as u8;
    let epoch = epoch_at(words)?;
    let why = floor_of(words)?;
    Ok(Cause::Floor { target, epoch, why })
}

// Why an attempt was told to restart.
#[tactic(auto, unfolding(crate::specs::Outcomes::cause_of))]
fn cause_of(alloc: Global, script: &Script, words: &mut Parts<'_>) -> Result<Cause, RowNo>
    ensures { Reads (λ c. c) result (cause_of script.now words.old) }
{
    let kind = word_at(words)?;
    if kind == b"floor".as_slice() {
        return floor_cause_of(words);
    }
    if kind == b"unresolved".as_slice() {
        let by = attempt_id_at(words)?;
        nothing_at(words)?;
        return Ok(Cause::Unresolved { by });
    }
    let Shown { by, epoch, path } = access_of(alloc, script, words)?;
    if kind == b"readlater".as_slice() {
        Ok(Cause::ReadLater { by, epoch, path })
    } else if kind == b"writelater".as_slice() {
        Ok(Cause::WriteLater { by, epoch, path })
    } else {
        Err(RowNo::Bad)
    }
}

// A want of blocks.
#[tactic(auto, unfolding(crate::specs::Outcomes::no_space_of))]
fn no_space_of(words: &mut Parts<'_>) -> Result<Outcome, RowNo>
    ensures { Reads (λ o. o) result (no_space_of words.old) }
{
    let target = number_at(0, 255, words)? as u8;
    let need = number_at(0, 4_294_967_295, words)? as u32;
    let free = number_at(0, 4_294_967_295, words)? as u32;
    nothing_at(words)?;
    Ok(Outcome::NoSpace { target, need, free })
}

// An outcome of one number.
#[tactic(auto, unfolding(crate::specs::Outcomes::numbered_of))]
fn numbered_of(kind: &[u8], words: &mut Parts<'_>) -> Result<Outcome, RowNo>
    ensures { Reads (λ o. o) result (numbered_of kind.now words.old) }
{
    let number = number_at(0, 255, words)? as u8;
    nothing_at(words)?;
    if kind == b"condfailed".as_slice() {
        Ok(Outcome::CondFailed { op: number })
    } else if kind == b"unknown".as_slice() {
        Ok(Outcome::Unknown { target: number })
    } else {
        Err(RowNo::Bad)
    }
}

// An outcome of one word.
fn plain_of(kind: &[u8]) -> Option<Outcome>
    ensures { result ≡ plain_of kind.now }
{
    if kind == b"committed".as_slice() {
        Some(Outcome::Committed)
    } else if kind == b"spent".as_slice() {
        Some(Outcome::EpochsSpent)
    } else if kind == b"nosnap".as_slice() {
        Some(Outcome::NoSnapshot)
    } else {
        None
    }
}

/// How an attempt ended, of all the words that are left.
#[tactic(auto, unfolding(crate::specs::Outcomes::outcome_of))]
pub fn outcome_of(alloc: Global, script: &Script, words: &mut Parts<'_>) -> Result<Outcome, RowNo>
    ensures { Reads (λ o. o) result (outcome_of script.now words.old) }
{
    let kind = word_at(words)?;
    if kind == b"restart".as_slice() {
        let cause = cause_of(alloc, script, words)?;
        return Ok(Outcome::Restart(cause));
    }
    if kind == b"nospace".as_slice() {
        return no_space_of(words);
    }
    match plain_of(kind) {
        Some(outcome) => {
            nothing_at(words)?;
            Ok(outcome)
        }
        None => numbered_of(kind, words),
    }
}
