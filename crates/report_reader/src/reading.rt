// What was read of a report so far, and what one more row adds.
ghost use Rattle.std.specs.Prelude.{◌≡◌, ◌++◌, ◌∷◌, [], IfOk, Some};
ghost use Rattle.report_grammar.specs.Reads.{Reads};
ghost use Rattle.report_reader.specs.Reading.{asked, asked_in, cond_added, down_after, got_added, line_added, lines_of, next_number, opened, put, reads, reads_in, stop_after, takes_cond, takes_got, unit_at, with_cond, with_cond_last, with_got, with_got_last, with_line, with_try};

use crate::marks::{Mark, Marks, mark_at};
use crate::told::{answer_fits, attempt_fits, line_fits};
use base_types::answer::Answer;
use base_types::epoch::TargetId;
use base_types::id::AttemptId;
use base_types::items::{Items, Memory};
use base_types::report::{Attempt, Line, Lines};
use base_types::script::Script;
use report_grammar::fault::RowNo;
use report_grammar::rows::Told;

/// An attempt of which more may be told, and the least place that its next row may have: twice the
/// number of the operation for a condition, and one more for an answer.
#[derive(Drop)]
pub struct Open {
    pub attempt: Attempt,
    pub next: u16,
}

/// The lines that are whole, the attempt behind them, the number of the next stop, and the least
/// target that is down.
#[derive(Drop)]
pub struct Reading {
    pub lines: Lines,
    pub last: Option<Open>,
    pub next_stop: Option<u32>,
    pub down: Option<TargetId>,
}

fn asked_in(mark: Option<Mark>) -> bool
    ensures { result ≡ asked_in mark }
{
    match mark {
        Some(mark) => mark.asked,
        None => false,
    }
}

fn reads_in(mark: Option<Mark>) -> bool
    ensures { result ≡ reads_in mark }
{
    match mark {
        Some(mark) => mark.reads,
        None => false,
    }
}

// Whether an operation has a condition.
fn asked(table: &[Items<Marks>], id: AttemptId, op: u8) -> bool
    ensures { result ≡ asked table.now id op }
{
    asked_in(mark_at(table, id, op))
}

// Whether an operation reads.
fn reads(table: &[Items<Marks>], id: AttemptId, op: u8) -> bool
    ensures { result ≡ reads table.now id op }
{
    reads_in(mark_at(table, id, op))
}

// The record size of the object that an operation is on.
fn unit_at(table: &[Items<Marks>], id: AttemptId, op: u8) -> u8
    ensures { result ≡ unit_at table.now id op }
{
    match mark_at(table, id, op) {
        Some(mark) => mark.unit,
        None => 1,
    }
}

impl Open {
    // Whether the row of a condition may come next.
    fn takes_cond(&self, table: &[Items<Marks>], op: u8) -> bool
        ensures { result ≡ takes_cond table.now self.now op }
    {
        asked(table, self.attempt.id, op) && self.next <= u16::from(op) * 2
    }

    fn add_cond(self, cond: (u8, bool)) -> Result<Open, RowNo>
        ensures { Reads (λ o. o) result (Some (cond_added self cond)) }
    {
        let mut open = self;
        open.attempt.conds.push(cond)?;
        open.next = u16::from(cond.0) * 2 + 1;
        Ok(open)
    }

    #[tactic(auto, unfolding(crate::specs::Reading::with_cond))]
    fn with_cond(self, table: &[Items<Marks>], cond: (u8, bool)) -> Result<Open, RowNo>
        ensures { Reads (λ o. o) result (with_cond table.now self cond) }
    {
        if self.takes_cond(table, cond.0) {
            self.add_cond(cond)
        } else {
            Err(RowNo::Bad)
        }
    }

    // Whether the row of an answer may come next.
    fn takes_got(&self, table: &[Items<Marks>], got: &(u8, Answer)) -> bool
        ensures { result ≡ takes_got table.now self.now got.now }
    {
        reads(table, self.attempt.id, got.0)
            && self.next <= u16::from(got.0) * 2 + 1
            && answer_fits(unit_at(table, self.attempt.id, got.0), &got.1)
    }

    fn add_got(self, got: (u8, Answer)) -> Result<Open, RowNo>
        ensures { Reads (λ o. o) result (Some (got_added self got)) }
    {
        let mut open = self;
        open.next = u16::from(got.0) * 2 + 2;
        open.attempt.gots.push(got)?;
        Ok(open)
    }

    #[tactic(auto, unfolding(crate::specs::Reading::with_got))]
    fn with_got(self, table: &[Items<Marks>], got: (u8, Answer)) -> Result<Open, RowNo>
        ensures { Reads (λ o. o) result (with_got table.now self got) }
    {
        if self.takes_got(table, &got) {
            self.add_got(got)
        } else {
            Err(RowNo::Bad)
        }
    }
}

fn next_number(number: u32) -> Option<u32>
    ensures { result ≡ next_number number }
{
    if number < u32::MAX {
        Some(number + 1)
    } else {
        None
    }
}

// The number of the stop behind a line.
fn stop_after(next: Option<u32>, line: &Line) -> Option<u32>
    ensures { result ≡ stop_after next line.now }
{
    match line {
        Line::Stop { number, .. } => next_number(*number),
        _ => next,
    }
}

// The least target that is down behind a line.
fn down_after(down: Option<TargetId>, line: &Line) -> Option<TargetId>
    ensures { result ≡ down_after down line.now }
{
    match line {
        Line::Down { target } => match down {
            Some(other) => {
                if other < *target {
                    Some(other)
                } else {
                    Some(*target)
                }
            }
            None => Some(*target),
        },
        _ => down,
    }
}

// Lines, and an attempt behind them if there is one.
fn closed(lines: Lines, last: Option<Open>) -> Result<Lines, Memory>
    ensures { IfOk result (λ ls. ls ≡ lines_of lines last) }
{
    let mut lines = lines;
    if let Some(open) = last {
        lines.push(Line::Try(open.attempt))?;
    }
    Ok(lines)
}

// Lines, an attempt behind them if there is one, and a line behind that.
fn closed_with(lines: Lines, last: Option<Open>, line: Line) -> Result<Lines, Memory>
    ensures { IfOk result (λ ls. ls ≡ lines_of lines last ++ line ∷ []) }
{
    let mut lines = closed(lines, last)?;
    lines.push(line)?;
    Ok(lines)
}

impl Reading {
    // An attempt of which more may be told, behind all lines.
    fn opened(self, attempt: Attempt) -> Result<Reading, RowNo>
        ensures { Reads (λ r. r) result (Some (opened self attempt)) }
    {
        let Reading {
            lines,
            last,
            next_stop,
            down,
        } = self;
        let lines = closed(lines, last)?;
        Ok(Reading {
            lines,
            last: Some(Open { attempt, next: 0 }),
            next_stop,
            down,
        })
    }

    #[tactic(auto, unfolding(crate::specs::Reading::with_try))]
    fn with_try(
        self,
        script: &Script,
        table: &[Items<Marks>],
        attempt: Attempt,
    ) -> Result<Reading, RowNo>
        ensures { Reads (λ r. r) result (with_try script.now table.now self attempt) }
    {
        if attempt_fits(script, table, &attempt) {
            self.opened(attempt)
        } else {
            Err(RowNo::Bad)
        }
    }

    // A line behind all lines.
    fn added(self, line: Line) -> Result<Reading, RowNo>
        ensures { Reads (λ r. r) result (Some (line_added self line)) }
    {
        let Reading {
            lines,
            last,
            next_stop,
            down,
        } = self;
        let next_stop = stop_after(next_stop, &line);
        let down = down_after(down, &line);
        let lines = closed_with(lines, last, line)?;
        Ok(Reading {
            lines,
            last: None,
            next_stop,
            down,
        })
    }

    #[tactic(auto, unfolding(crate::specs::Reading::with_line))]
    fn with_line(self, script: &Script, line: Line) -> Result<Reading, RowNo>
        ensures { Reads (λ r. r) result (with_line script.now self line) }
    {
        if line_fits(script, self.next_stop, &line) {
            self.added(line)
        } else {
            Err(RowNo::Bad)
        }
    }

    fn with_cond(self, table: &[Items<Marks>], cond: (u8, bool)) -> Result<Reading, RowNo>
        ensures { Reads (λ r. r) result (with_cond_last table.now self self.last cond) }
    {
        let Reading {
            lines,
            last,
            next_stop,
            down,
        } = self;
        match last {
            None => Err(RowNo::Bad),
            Some(open) => {
                let open = open.with_cond(table, cond)?;
                Ok(Reading {
                    lines,
                    last: Some(open),
                    next_stop,
                    down,
                })
            }
        }
    }

    fn with_got(self, table: &[Items<Marks>], got: (u8, Answer)) -> Result<Reading, RowNo>
        ensures { Reads (λ r. r) result (with_got_last table.now self self.last got) }
    {
        let Reading {
            lines,
            last,
            next_stop,
            down,
        } = self;
        match last {
            None => Err(RowNo::Bad),
            Some(open) => {
                let open = open.with_got(table, got)?;
                Ok(Reading {
                    lines,
                    last: Some(open),
                    next_stop,
                    down,
                })
            }
        }
    }

    /// What was read with what one more row tells.
    pub fn put(self, script: &Script, table: &[Items<Marks>], told: Told) -> Result<Reading, RowNo>
        ensures { Reads (λ r. r) result (put script.now table.now self told) }
    {
        match told {
            Told::Try(attempt) => self.with_try(script, table, attempt),
            Told::Cond(cond) => self.with_cond(table, cond),
            Told::Got(got) => self.with_got(table, got),
            Told::Other(line) => self.with_line(script, line),
        }
    }

    /// All lines.
    pub fn into_lines(self) -> Result<Lines, Memory>
        ensures { IfOk result (λ ls. ls ≡ lines_of self.lines self.last) }
    {
        let Reading { lines, last, .. } = self;
        closed(lines, last)
    }
}
