// Counts over the lines of a report.
ghost use Rattle.std.specs.Prelude.{◌≡◌, count_by, IfOk};
ghost use Rattle.daos_summary.specs.Counts.{command_of, commands_of, ending_of, ends_so, is_issued_by, is_try, number_of};

use base_types::epoch::TargetId;
use base_types::items::Memory;
use base_types::outcome::{Cause, Outcome};
use base_types::report::Line;
use std::alloc::Global;
use std::collections::HashSet;

/// How an attempt ended, and for a restart why.
#[derive(Clone, Copy)]
pub enum Ending {
    Committed,
    CondFailed,
    ReadLater,
    WriteLater,
    Unresolved,
    Floor,
    NoSpace,
    Spent,
    NoSnap,
    Unknown,
}

/// All ways to end.
pub const ENDINGS: [Ending; 10] = [
    Ending::Committed,
    Ending::CondFailed,
    Ending::ReadLater,
    Ending::WriteLater,
    Ending::Unresolved,
    Ending::Floor,
    Ending::NoSpace,
    Ending::Spent,
    Ending::NoSnap,
    Ending::Unknown,
];

// How an attempt of this outcome ended.
fn ending_of(outcome: &Outcome) -> Ending
    ensures { result ≡ ending_of outcome.now }
{
    match outcome {
        Outcome::Committed => Ending::Committed,
        Outcome::CondFailed { .. } => Ending::CondFailed,
        Outcome::Restart(Cause::ReadLater { .. }) => Ending::ReadLater,
        Outcome::Restart(Cause::WriteLater { .. }) => Ending::WriteLater,
        Outcome::Restart(Cause::Unresolved { .. }) => Ending::Unresolved,
        Outcome::Restart(Cause::Floor { .. }) => Ending::Floor,
        Outcome::NoSpace { .. } => Ending::NoSpace,
        Outcome::EpochsSpent => Ending::Spent,
        Outcome::NoSnapshot => Ending::NoSnap,
        Outcome::Unknown { .. } => Ending::Unknown,
    }
}

// The place of an ending among them all.
fn number_of(ending: Ending) -> u8
    ensures { result ≡ number_of ending }
{
    match ending {
        Ending::Committed => 0,
        Ending::CondFailed => 1,
        Ending::ReadLater => 2,
        Ending::WriteLater => 3,
        Ending::Unresolved => 4,
        Ending::Floor => 5,
        Ending::NoSpace => 6,
        Ending::Spent => 7,
        Ending::NoSnap => 8,
        Ending::Unknown => 9,
    }
}

fn is_try(line: &Line) -> bool
    ensures { result ≡ is_try line.now }
{
    matches!(line, Line::Try(_))
}

// Whether an attempt ended so.
fn ends_so(ending: Ending, line: &Line) -> bool
    ensures { result ≡ ends_so ending line.now }
{
    match line {
        Line::Try(attempt) => number_of(ending) == number_of(ending_of(&attempt.outcome)),
        _ => false,
    }
}

// Whether a target issued the epoch of an attempt.
fn is_issued_by(target: TargetId, line: &Line) -> bool
    ensures { result ≡ is_issued_by target line.now }
{
    match line {
        Line::Try(attempt) => match attempt.epoch {
            Some(epoch) => epoch.issuer() == target,
            None => false,
        },
        _ => false,
    }
}

// The command of an attempt: its client and its number.
fn command_of(line: &Line) -> Option<(u16, u32)>
    ensures { result ≡ command_of line.now }
{
    match line {
        Line::Try(attempt) => Some((attempt.id.client, attempt.id.command)),
        _ => None,
    }
}

/// How many attempts there are.
pub fn attempts(lines: &[Line]) -> usize
    ensures { result ≡ count_by is_try lines.now }
{
    let mut count = 0;
    for line in lines {
        if is_try(line) {
            count += 1;
        }
    }
    count
}

/// How many attempts ended so.
pub fn ended(lines: &[Line], ending: Ending) -> usize
    ensures { result ≡ count_by (ends_so ending) lines.now }
{
    lines.iter().filter(|line| ends_so(ending, line)).count()
}

/// How many attempts have an epoch that a target issued.
pub fn issued(lines: &[Line], target: TargetId) -> usize
    ensures { result ≡ count_by (is_issued_by target) lines.now }
{
    lines
        .iter()
        .filter(|line| is_issued_by(target, line))
        .count()
}

/// How many commands have an attempt.
pub fn commands(alloc: Global, lines: &[Line]) -> Result<usize, Memory>
    ensures { IfOk result (λ count. count ≡ commands_of lines.now) }
{
    let mut seen: HashSet<(u16, u32)> = HashSet::new(alloc);
    for line in lines {
        if let Some(command) = command_of(line) {
            seen.insert(command)?;
        }
    }
    Ok(seen.len())
}
