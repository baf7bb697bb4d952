// A line as it is added to the report.
ghost use Rattle.std.specs.Prelude.{◌≡◌, IfOk, map};
ghost use Rattle.world_base.specs.Events.{epoch_issued, with_epoch};

use base_types::epoch::Epoch;
use base_types::id::AttemptId;
use base_types::items::Memory;
use base_types::report::{Attempt, Line, Lines};
use daos_model::durable::is_same_attempt;
use std::alloc::Global;

// The epoch that was issued to an attempt, if one was.
fn epoch_issued(issued: &[(AttemptId, Epoch)], attempt: AttemptId) -> Option<Epoch>
    ensures { result ≡ epoch_issued issued.now attempt }
{
    let found = issued
        .iter()
        .find(|issue| is_same_attempt(issue.0, attempt));
    match found {
        Some(issue) => Some(issue.1),
        None => None,
    }
}

/// A line as it is added: where a client knows no epoch of its attempt, the line has the one that
/// was issued, if one was.
pub fn with_epoch(issued: &[(AttemptId, Epoch)], line: Line) -> Line
    ensures { result ≡ with_epoch issued.now line }
{
    match line {
        Line::Try(attempt) => {
            let epoch = match attempt.epoch {
                Some(epoch) => Some(epoch),
                None => epoch_issued(issued, attempt.id),
            };
            Line::Try(Attempt { epoch, ..attempt })
        }
        other => other,
    }
}

/// The same, for these lines.
///
/// # Errors
///
/// For want of memory.
pub(crate) fn with_epochs(
    alloc: Global,
    issued: &[(AttemptId, Epoch)],
    lines: Lines,
) -> Result<Vec<Line>, Memory>
    ensures { IfOk result (λ told. told.items ≡ map (with_epoch issued.now) lines) }
{
    let mut told = Vec::with_capacity(alloc, lines.len())?;
    for line in lines.into_vec() {
        told.push(with_epoch(issued, line))?;
    }
    Ok(told)
}
