// Reads a report.
ghost use Rattle.std.specs.Prelude.{◌≡◌, ◌+◌, ◌^◌, ◌<◌, ◌++◌, ◌∷◌, [], IfOk, length};
ghost use Rattle.base_text.specs.Rows.{row_line};
ghost use Rattle.report_writer.specs.Reports.{end_row, head_row, report_text};
ghost use Rattle.report_reader.specs.Law.{AreBytes, IsNamed, IsReadAs, IsReportFor, ReadsTexts, TellsFirstBad};
ghost use Rattle.report_reader.specs.Reads.{ReadsAt, told_line};
ghost use Rattle.report_grammar.specs.Reads.{Reads};
ghost use Rattle.report_reader.specs.Reading.{at_end, at_head, bad_at, finished, inside, next_of, put_row, report_of, row_of, step};

use crate::fault::ReportNo;
use crate::marks::{Marks, table_of};
use crate::reading::Reading;
use crate::told::told_in;
use base_text::parts::Parts;
use base_types::epoch::TargetId;
use base_types::items::{Items, Memory};
use base_types::report::Report;
use base_types::script::Script;
use itoa::Buffer;
use report_grammar::fault::RowNo;
use report_grammar::rows::Told;
use std::alloc::Global;

/// Where in a report a line stands.
#[derive(Drop)]
pub enum Stage {
    /// At the first line.
    Start,
    /// Behind it.
    Inside(Reading),
    /// Behind the last line, whose end was not seen yet.
    Ended(Report),
    /// Behind the end of the last line.
    Whole(Report),
}

fn head_line(alloc: Global, targets: u8) -> Result<Vec<u8>, Memory>
    ensures { IfOk result (λ line. line.items ≡ row_line (head_row targets)) }
{
    let mut buffer = Buffer::new();
    let mut line = Vec::new(alloc);
    line.extend_from_slice(b"daos 1 targets ")?;
    line.extend_from_slice(buffer.format(targets).as_bytes())?;
    Ok(line)
}

fn end_line(down: Option<TargetId>) -> &'static [u8]
    ensures { result.now ≡ row_line (end_row down) }
{
    match down {
        Some(_) => b"end 8",
        None => b"end 0",
    }
}

// The first line.
#[tactic(auto, unfolding(crate::specs::Reading::at_head))]
fn at_head(alloc: Global, script: &Script, line: &[u8]) -> Result<Stage, RowNo>
    ensures { Reads (λ s. s) result (at_head script.now line.now) }
{
    let head = head_line(alloc, script.targets)?;
    if head.as_slice() == line {
        Ok(Stage::Inside(Reading {
            lines: Items::new(alloc),
            last: None,
            next_stop: Some(0),
            down: None,
        }))
    } else {
        Err(RowNo::Bad)
    }
}

// The last line.
#[tactic(auto, unfolding(crate::specs::Reading::at_end))]
fn at_end(script: &Script, reading: Reading) -> Result<Stage, RowNo>
    ensures { Reads (λ s. s) result (at_end script.now reading) }
{
    let down = reading.down;
    let lines = reading.into_lines()?;
    Ok(Stage::Ended(Report {
        targets: script.targets,
        lines,
        down,
    }))
}

// What a line between them tells.
fn put_row(
    script: &Script,
    table: &[Items<Marks>],
    reading: Reading,
    told: Told,
) -> Result<Stage, RowNo>
    ensures { Reads (λ s. s) result (put_row script.now table.now reading told) }
{
    let reading = reading.put(script, table, told)?;
    Ok(Stage::Inside(reading))
}

// A line between them.
#[tactic(auto, unfolding(crate::specs::Reading::row_of))]
fn row_of(
    alloc: Global,
    script: &Script,
    table: &[Items<Marks>],
    reading: Reading,
    line: &[u8],
) -> Result<Stage, RowNo>
    ensures { Reads (λ s. s) result (row_of script.now table.now reading line.now) }
{
    let told = told_in(alloc, script, line)?;
    put_row(script, table, reading, told)
}

fn inside(
    alloc: Global,
    script: &Script,
    table: &[Items<Marks>],
    reading: Reading,
    line: &[u8],
) -> Result<Stage, RowNo>
    ensures { Reads (λ s. s) result (inside script.now table.now reading line.now) }
{
    if line == end_line(reading.down) {
        at_end(script, reading)
    } else {
        row_of(alloc, script, table, reading, line)
    }
}

// One line more.
fn next_of(
    alloc: Global,
    script: &Script,
    table: &[Items<Marks>],
    stage: Stage,
    line: &[u8],
) -> Result<Stage, RowNo>
    ensures { Reads (λ s. s) result (next_of script.now table.now stage line.now) }
{
    match stage {
        Stage::Start => at_head(alloc, script, line),
        Stage::Inside(reading) => inside(alloc, script, table, reading, line),
        Stage::Ended(report) => {
            if line.is_empty() {
                Ok(Stage::Whole(report))
            } else {
                Err(RowNo::Bad)
            }
        }
        Stage::Whole(_) => Err(RowNo::Bad),
    }
}

// The line that is bad where the one of this number can't be read.
fn bad_at(at: usize, stage: &Stage) -> usize
    ensures { result ≡ bad_at at stage.now }
{
    match stage {
        Stage::Start => at,
        Stage::Inside(_) => at,
        Stage::Ended(_) => at,
        Stage::Whole(_) => at.saturating_sub(1),
    }
}

// A bad line, whose number is held at its last value.
fn bad_line(at: usize) -> ReportNo
    ensures { result ≡ ReportNo.BadLine (told_line at) }
{
    ReportNo::BadLine(at.min(u32::MAX as usize) as u32)
}

// One line more, which has this number.
#[tactic(auto, unfolding(crate::specs::Reading::step))]
fn step(
    alloc: Global,
    script: &Script,
    table: &[Items<Marks>],
    at: usize,
    stage: Stage,
    line: &[u8],
) -> Result<Stage, ReportNo>
    ensures { ReadsAt (λ s. s) result (step script.now table.now at stage line.now) }
{
    let bad = bad_at(at, &stage);
    match next_of(alloc, script, table, stage, line) {
        Ok(stage) => Ok(stage),
        Err(RowNo::Bad) => Err(bad_line(bad)),
        Err(RowNo::Memory) => Err(ReportNo::Memory),
    }
}

// The report, where all was read with the line of this number.
fn finished(at: usize, stage: Stage) -> Result<Report, ReportNo>
    ensures { ReadsAt (λ q. q) result (finished at stage) }
{
    match stage {
        Stage::Whole(report) => Ok(report),
        Stage::Start => Err(bad_line(at)),
        Stage::Inside(_) => Err(bad_line(at)),
        Stage::Ended(_) => Err(bad_line(at)),
    }
}

/// The report of a text for a script.
///
/// # Errors
///
/// `BadLine` with the first line, counted from 1, that is none of the format: for a text whose end
/// is missing the line behind the last, and for one that goes on behind its end the line there. A
/// number of more than 32 bits is told as 2^32 - 1.
pub fn read_report(alloc: Global, bytes: &[u8], script: &Script) -> Result<Report, ReportNo>
    ensures exact { ReadsAt (λ q. q) result (report_of script.now bytes.now) }
    ensures text { IfOk result (λ q. bytes.now ≡ report_text script.now q) }
    ensures back { (q : Report) → IsReportFor script.now q → bytes.now ≡ report_text script.now q → IsReadAs q result }
    ensures form { IsNamed script.now → AreBytes bytes.now → IfOk result (λ q. IsReportFor script.now q) }
    ensures first_bad { IsNamed script.now → AreBytes bytes.now → TellsFirstBad script.now bytes.now result }
{
    let table = table_of(alloc, script)?;
    let marks = table.as_slice();
    let mut lines = Parts::new(b'\n', bytes);
    let mut stage = Stage::Start;
    let mut at: usize = 0;
    while let Some(line) = lines.take_part() {
        at += 1;
        stage = step(alloc, script, marks, at, stage, line)?;
    }
    finished(at, stage)
}

/// A report is read of its own text alone.
pub fn reads_texts()
    ensures { ReadsTexts }
{}
