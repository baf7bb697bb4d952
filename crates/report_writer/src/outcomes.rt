// Outcomes in words.
ghost use Rattle.std.specs.Prelude.{◌≡◌, ◌++◌, ◌∷◌, OnOk};
ghost use Rattle.report_writer.specs.Outcomes.{access_words, cause_words, floor_words, outcome_words};
ghost use Rattle.report_writer.specs.Words.{spaced};

use crate::names::push_path;
use crate::words::{push_attempt_id, push_number, push_word};
use base_types::epoch::Epoch;
use base_types::id::AttemptId;
use base_types::items::Memory;
use base_types::outcome::{Cause, FloorWhy, Outcome};
use base_types::path::Path;
use base_types::script::Script;

// Adds another attempt's access.
fn push_access(
    out: &mut Vec<u8>,
    script: &Script,
    by: AttemptId,
    epoch: Epoch,
    path: &Path,
) -> Result<(), Memory>
    ensures { OnOk result (out.new.items ≡ out.old.items ++ spaced (access_words script.now by epoch path.now)) }
{
    push_attempt_id(out, by)?;
    push_number(out, epoch.0)?;
    out.push(b' ')?;
    push_path(out, script, path)?;
    Ok(())
}

// Adds what set a floor.
fn push_floor(out: &mut Vec<u8>, why: FloorWhy) -> Result<(), Memory>
    ensures { OnOk result (out.new.items ≡ out.old.items ++ spaced (floor_words why)) }
{
    match why {
        FloorWhy::Opening => push_word(out, b"opening")?,
        FloorWhy::Restart(number) => {
            push_word(out, b"restart")?;
            push_number(out, u64::from(number))?;
        }
        FloorWhy::Snapshot(epoch) => {
            push_word(out, b"snapshot")?;
            push_number(out, epoch.0)?;
        }
        FloorWhy::Aggregate(number) => {
            push_word(out, b"aggregate")?;
            push_number(out, u64::from(number))?;
        }
    }
    Ok(())
}

// Adds why an attempt was told to restart.
#[tactic(auto, using(crate::proofs::Joins::joins))]
fn push_cause(out: &mut Vec<u8>, script: &Script, cause: &Cause) -> Result<(), Memory>
    ensures { OnOk result (out.new.items ≡ out.old.items ++ spaced (cause_words script.now cause.now)) }
{
    match cause {
        Cause::ReadLater { by, epoch, path } => {
            push_word(out, b"readlater")?;
            push_access(out, script, *by, *epoch, path)?;
        }
        Cause::WriteLater { by, epoch, path } => {
            push_word(out, b"writelater")?;
            push_access(out, script, *by, *epoch, path)?;
        }
        Cause::Unresolved { by } => {
            push_word(out, b"unresolved")?;
            push_attempt_id(out, *by)?;
        }
        Cause::Floor { target, epoch, why } => {
            push_word(out, b"floor")?;
            push_number(out, u64::from(*target))?;
            push_number(out, epoch.0)?;
            push_floor(out, *why)?;
        }
    }
    Ok(())
}

/// Adds the words of an outcome.
pub fn push_outcome(out: &mut Vec<u8>, script: &Script, outcome: &Outcome) -> Result<(), Memory>
    ensures { OnOk result (out.new.items ≡ out.old.items ++ spaced (outcome_words script.now outcome.now)) }
{
    match outcome {
        Outcome::Committed => push_word(out, b"committed")?,
        Outcome::CondFailed { op } => {
            push_word(out, b"condfailed")?;
            push_number(out, u64::from(*op))?;
        }
        Outcome::Restart(cause) => {
            push_word(out, b"restart")?;
            push_cause(out, script, cause)?;
        }
        Outcome::NoSpace { target, need, free } => {
            push_word(out, b"nospace")?;
            push_number(out, u64::from(*target))?;
            push_number(out, u64::from(*need))?;
            push_number(out, u64::from(*free))?;
        }
        Outcome::EpochsSpent => push_word(out, b"spent")?,
        Outcome::NoSnapshot => push_word(out, b"nosnap")?,
        Outcome::Unknown { target } => {
            push_word(out, b"unknown")?;
            push_number(out, u64::from(*target))?;
        }
    }
    Ok(())
}
