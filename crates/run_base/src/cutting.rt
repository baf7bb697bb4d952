// What follows where a target stops, or is given up. A run in which targets stop calls it.
ghost use Rattle.std.specs.Prelude.{◌≡◌, ◌++◌, ◌∷◌, [], IfErr, IfOk, OnOk, filter, false, true};
ghost use Rattle.base_types.specs.declared.report.Line.TheVariants as line;
ghost use Rattle.world_base.specs.CutTurns.{listed_issue};
ghost use Rattle.world_base.specs.Stops.{is_not_to, is_stop, resets, stops_so_far};

use crate::between::Between;
use crate::losing::lose;
use base_types::epoch::{Epoch, TargetId};
use base_types::id::AttemptId;
use base_types::items::Memory;
use base_types::report::{Line, Lines};
use std::alloc::{AllocError, Global};

// Whether a line tells of a stop.
fn is_stop(line: &Line) -> bool
    ensures { result ≡ is_stop line.now }
{
    matches!(line, Line::Stop { .. })
}

// How many stops there were.
fn count_stops(lines: &[Line]) -> usize
    ensures { result ≡ stops_so_far lines.now }
{
    let mut stops = 0;
    for line in lines {
        if is_stop(line) {
            stops += 1;
        }
    }
    stops
}

// The number of the next stop, which is how many there were. Where there are more stops than numbers,
// this is told as want of memory.
fn next_stop(lines: &[Line]) -> Result<u32, Memory>
    ensures { IfOk result (λ number. number ≡ stops_so_far lines.now) }
{
    match u32::try_from(count_stops(lines)) {
        Ok(number) => Ok(number),
        Err(_) => Err(AllocError),
    }
}

impl Between {
    /// A target's turn was cut: the epoch that it issued is noted; the lines of the turn are added as they
    /// are, and behind them that the target stopped, by the next number of a stop; and what is in flight
    /// to it is lost.
    ///
    /// # Errors
    ///
    /// For want of memory; nothing is changed then.
    pub(crate) fn cut(
        &mut self,
        alloc: Global,
        target: TargetId,
        issued: Option<(AttemptId, Epoch)>,
        lines: Lines,
    ) -> Result<(), Memory>
        ensures messages { OnOk result (self.new.messages ≡ filter (is_not_to target) self.old.messages ++ resets target false self.old.asked) }
        ensures asked { OnOk result (self.new.asked ≡ filter (is_not_to target) self.old.asked) }
        ensures issued { OnOk result (self.new.issued ≡ self.old.issued ++ listed_issue issued) }
        ensures lines { OnOk result (self.new.lines ≡ self.old.lines ++ lines ++ line.Stop (stops_so_far self.old.lines) target ∷ []) }
        ensures kept { IfErr result (λ no. self.new ≡ self.old) }
    {
        let number = next_stop(&self.lines)?;
        let mut told = lines.into_vec();
        told.push(Line::Stop { number, target })?;
        self.lines.reserve(told.len())?;
        self.issued.reserve(1)?;
        lose(alloc, &mut self.messages, &mut self.asked, target, false)?;
        self.lines.append(&mut told).unwrap();
        if let Some(issue) = issued {
            self.issued.push(issue).unwrap();
        }
        Ok(())
    }

    /// A target is given up, and a line tells so: what is in flight to it is lost for good.
    ///
    /// # Errors
    ///
    /// For want of memory; nothing is changed then.
    pub(crate) fn give_up(&mut self, alloc: Global, target: TargetId) -> Result<(), Memory>
        ensures messages { OnOk result (self.new.messages ≡ filter (is_not_to target) self.old.messages ++ resets target true self.old.asked) }
        ensures asked { OnOk result (self.new.asked ≡ filter (is_not_to target) self.old.asked) }
        ensures issued { self.new.issued ≡ self.old.issued }
        ensures lines { OnOk result (self.new.lines ≡ self.old.lines ++ line.Down target ∷ []) }
        ensures kept { IfErr result (λ no. self.new ≡ self.old) }
    {
        self.lines.reserve(1)?;
        lose(alloc, &mut self.messages, &mut self.asked, target, true)?;
        self.lines.push(Line::Down { target }).unwrap();
        Ok(())
    }
}
