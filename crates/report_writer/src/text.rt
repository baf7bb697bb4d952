// The text of a report.
ghost use Rattle.std.specs.Prelude.{◌≡◌, ◌++◌, ◌∷◌, [], OnOk, IfOk, flat_map};
ghost use Rattle.base_text.specs.Rows.{rows_text};
ghost use Rattle.report_writer.specs.Forms.{TextsDetermineReports};
ghost use Rattle.report_writer.specs.Reports.{end_row, head_row, line_rows, report_text};

use crate::lines::push_line;
use crate::words::push_number;
use base_types::epoch::TargetId;
use base_types::items::Memory;
use base_types::report::{Line, Report};
use base_types::script::Script;
use std::alloc::Global;

// Adds the number of targets.
#[tactic(auto, using(crate::proofs::Joins::joins))]
fn push_head(out: &mut Vec<u8>, targets: u8) -> Result<(), Memory>
    ensures { OnOk result (out.new.items ≡ out.old.items ++ rows_text (head_row targets ∷ [])) }
{
    out.extend_from_slice(b"daos 1 targets")?;
    push_number(out, u64::from(targets))?;
    out.push(b'\n')?;
    Ok(())
}

// Adds the end.
fn push_end(out: &mut Vec<u8>, down: Option<TargetId>) -> Result<(), Memory>
    ensures { OnOk result (out.new.items ≡ out.old.items ++ rows_text (end_row down ∷ [])) }
{
    match down {
        Some(_) => out.extend_from_slice(b"end 8\n")?,
        None => out.extend_from_slice(b"end 0\n")?,
    }
    Ok(())
}

// Adds lines.
#[tactic(auto, using(crate::proofs::Joins::joins))]
fn push_lines(out: &mut Vec<u8>, script: &Script, lines: &[Line]) -> Result<(), Memory>
    ensures { OnOk result (out.new.items ≡ out.old.items ++ rows_text (flat_map (line_rows script.now) lines.now)) }
{
    for line in lines {
        push_line(out, script, line)?;
    }
    Ok(())
}

/// The text of a report: a row for each line and for what follows it, each ended by byte 10.
/// Containers, objects and paths have the names of their first declarations in the script.
#[tactic(auto, using(crate::proofs::Joins::joins), unfolding(crate::specs::Reports::report_text, crate::specs::Reports::report_rows))]
pub fn report_text(alloc: Global, report: &Report, script: &Script) -> Result<Vec<u8>, Memory>
    ensures { IfOk result (λ text. text.items ≡ report_text script.now report.now) }
{
    let mut out = Vec::new(alloc);
    push_head(&mut out, report.targets)?;
    push_lines(&mut out, script, report.lines.as_slice())?;
    push_end(&mut out, report.down)?;
    Ok(out)
}

/// The text of a report determines it, and no text goes on from another's, where the numbers in reports
/// are as large as their types hold and the script names their containers and objects.
pub fn texts_determine_reports()
    ensures { TextsDetermineReports }
{}
