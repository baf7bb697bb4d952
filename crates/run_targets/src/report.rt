// The report of a run's lines.
ghost use Rattle.std.specs.Prelude.{◌≡◌, Some};
ghost use Rattle.daos_model.specs.Stops.{down_targets, least, least_with};
ghost use Rattle.run_loop.specs.Below.{AreTyped, HasTypedNumbers, report_with};
ghost use Rattle.report_round_trip.specs.Values.{AllTellBytes};

use crate::values::tells_bytes;
use base_types::epoch::TargetId;
use base_types::report::{Line, Lines, Report};
use base_types::script::Script;

// The numbers of a line are as small as their types hold: each is read, and does nothing.
fn read_numbers(line: &Line)
    ensures { HasTypedNumbers line.now }
{
    match line {
        Line::Stop { number, .. } => {
            let _number = *number;
        }
        Line::Restart {
            number,
            incarnation,
            ..
        } => {
            let _number = *number;
            let _incarnation = *incarnation;
        }
        Line::Aggregate { number, .. } => {
            let _number = *number;
        }
        _ => {}
    }
}

// The lower one of two targets, where there is a first one.
fn lower(first: Option<TargetId>, target: TargetId) -> TargetId
    ensures { Some result ≡ least_with target first }
{
    match first {
        Some(before) => target.min(before),
        None => target,
    }
}

// The least of the targets of which a line tells that they were given up.
fn first_down(lines: &[Line]) -> Option<TargetId>
    ensures least { result ≡ least (down_targets lines.now) }
    ensures typed { AreTyped lines.now }
    ensures bytes { AllTellBytes lines.now }
{
    let mut first: Option<TargetId> = None;
    for line in lines {
        read_numbers(line);
        tells_bytes(line);
        if let Line::Down { target } = line {
            first = Some(lower(first, *target));
        }
    }
    first
}

// The report of these lines of a run of a script.
pub fn report_of(script: &Script, lines: Lines) -> Report
    ensures report { result ≡ report_with script.now lines }
    ensures typed { AreTyped lines }
    ensures bytes { AllTellBytes lines }
{
    let down = first_down(lines.as_slice());
    Report {
        targets: script.targets,
        lines,
        down,
    }
}
