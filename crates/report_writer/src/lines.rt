// The rows of a line.
ghost use Rattle.std.specs.Prelude.{◌≡◌, ◌++◌, ◌∷◌, [], OnOk, decimal};
ghost use Rattle.base_text.specs.Rows.{rows_text};
ghost use Rattle.report_writer.specs.Names.{cont_word};
ghost use Rattle.report_writer.specs.Reports.{aggregate_row, down_row, freeze_row, line_rows, restart_row, snapshot_row, stop_row};

use crate::attempts::push_attempt;
use crate::names::push_cont;
use crate::words::{push_number, push_word};
use base_types::epoch::{Epoch, TargetId};
use base_types::id::ContId;
use base_types::items::Memory;
use base_types::report::Line;
use base_types::script::Script;

// Adds the name of a container and an epoch, and ends the row.
fn push_cont_epoch(
    out: &mut Vec<u8>,
    script: &Script,
    cont: ContId,
    epoch: Epoch,
) -> Result<(), Memory>
    ensures { OnOk result (out.new.items ≡ out.old.items ++ 32 ∷ cont_word script.now.conts cont ++ 32 ∷ decimal epoch.0 ++ 10 ∷ []) }
{
    out.push(b' ')?;
    push_cont(out, script.conts.as_slice(), cont)?;
    push_number(out, epoch.0)?;
    out.push(b'\n')?;
    Ok(())
}

// Adds the row of a stop.
fn push_stop(out: &mut Vec<u8>, number: u32, target: TargetId) -> Result<(), Memory>
    ensures { OnOk result (out.new.items ≡ out.old.items ++ rows_text (stop_row number target ∷ [])) }
{
    out.extend_from_slice(b"stop")?;
    push_number(out, u64::from(number))?;
    push_number(out, u64::from(target))?;
    out.push(b'\n')?;
    Ok(())
}

// Adds the row of a restart.
fn push_restart(
    out: &mut Vec<u8>,
    number: u32,
    target: TargetId,
    incarnation: u64,
    floor: Epoch,
) -> Result<(), Memory>
    ensures { OnOk result (out.new.items ≡ out.old.items ++ rows_text (restart_row number target incarnation floor ∷ [])) }
{
    out.extend_from_slice(b"restart")?;
    push_number(out, u64::from(number))?;
    push_number(out, u64::from(target))?;
    push_number(out, incarnation)?;
    push_number(out, floor.0)?;
    out.push(b'\n')?;
    Ok(())
}

// Adds the row of a freeze.
fn push_freeze(
    out: &mut Vec<u8>,
    script: &Script,
    target: TargetId,
    cont: ContId,
    epoch: Epoch,
) -> Result<(), Memory>
    ensures { OnOk result (out.new.items ≡ out.old.items ++ rows_text (freeze_row script.now target cont epoch ∷ [])) }
{
    out.extend_from_slice(b"freeze")?;
    push_number(out, u64::from(target))?;
    push_cont_epoch(out, script, cont, epoch)?;
    Ok(())
}

// Adds the row of a snapshot.
fn push_snapshot(
    out: &mut Vec<u8>,
    script: &Script,
    name: &[u8],
    cont: ContId,
    epoch: Epoch,
) -> Result<(), Memory>
    ensures { OnOk result (out.new.items ≡ out.old.items ++ rows_text (snapshot_row script.now name.now cont epoch ∷ [])) }
{
    out.extend_from_slice(b"snapshot")?;
    push_word(out, name)?;
    push_cont_epoch(out, script, cont, epoch)?;
    Ok(())
}

// Adds the row of an aggregation.
fn push_aggregate(
    out: &mut Vec<u8>,
    script: &Script,
    number: u32,
    target: TargetId,
    cont: ContId,
    upto: Epoch,
) -> Result<(), Memory>
    ensures { OnOk result (out.new.items ≡ out.old.items ++ rows_text (aggregate_row script.now number target cont upto ∷ [])) }
{
    out.extend_from_slice(b"aggregate")?;
    push_number(out, u64::from(number))?;
    push_number(out, u64::from(target))?;
    push_cont_epoch(out, script, cont, upto)?;
    Ok(())
}

// Adds the row of a target that was given up.
fn push_down(out: &mut Vec<u8>, target: TargetId) -> Result<(), Memory>
    ensures { OnOk result (out.new.items ≡ out.old.items ++ rows_text (down_row target ∷ [])) }
{
    out.extend_from_slice(b"down")?;
    push_number(out, u64::from(target))?;
    out.push(b'\n')?;
    Ok(())
}

/// Adds the rows of a line.
pub fn push_line(out: &mut Vec<u8>, script: &Script, line: &Line) -> Result<(), Memory>
    ensures { OnOk result (out.new.items ≡ out.old.items ++ rows_text (line_rows script.now line.now)) }
{
    match line {
        Line::Try(attempt) => push_attempt(out, script, attempt),
        Line::Stop { number, target } => push_stop(out, *number, *target),
        Line::Restart {
            number,
            target,
            incarnation,
            floor,
        } => push_restart(out, *number, *target, *incarnation, *floor),
        Line::Freeze {
            target,
            cont,
            epoch,
        } => push_freeze(out, script, *target, *cont, *epoch),
        Line::Snapshot { name, cont, epoch } => push_snapshot(
            out,
            script,
            name.bytes(),
            *cont,
            *epoch,
        ),
        Line::Aggregate {
            number,
            target,
            cont,
            upto,
        } => push_aggregate(out, script, *number, *target, *cont, *upto),
        Line::Down { target } => push_down(out, *target),
    }
}
