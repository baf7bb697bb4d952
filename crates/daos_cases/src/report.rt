// A report of a script, read and written again.
use crate::outcome::Outcome;
use anyhow::anyhow;
use daos_script::script::read_script;
use report_reader::fault::ReportNo;
use report_reader::report::read_report;
use report_writer::text::report_text;
use std::alloc::Global;

// The line between a script and its report.
const BETWEEN: &[u8] = b"---\n";

// The bytes before the first line of dashes, and those behind it.
fn parts_of(given: &[u8]) -> Option<(&[u8], &[u8])> {
    for at in 0..given.len() {
        if let Some(report) = given[at..].strip_prefix(BETWEEN) {
            return Some((&given[..at], report));
        }
    }
    None
}

/// Reads a script for so many targets and a report of it. Where the report is one of it, it ends with `read` and
/// writes the report again, else with the first bad line.
pub(crate) fn reported(alloc: Global, targets: &str, given: &[u8]) -> anyhow::Result<Outcome> {
    let targets: u8 = targets.parse()?;
    if targets < 1 || targets > 64 {
        return Err(anyhow!("no number of targets"));
    }
    let (script, report) = parts_of(given).ok_or(anyhow!("no report"))?;
    let script = read_script(alloc, script, targets)?;
    match read_report(alloc, report, &script) {
        Ok(report) => Ok(Outcome {
            ends: String::from_str(alloc, "read")?,
            writes: report_text(alloc, &report, &script)?,
        }),
        Err(ReportNo::BadLine(line)) => Ok(Outcome {
            ends: format!(in alloc; "bad line {line}")?,
            writes: Vec::new(alloc),
        }),
        Err(ReportNo::Memory) => Err(anyhow!("out of memory")),
    }
}
