// The number of the next aggregation.
ghost use Rattle.std.specs.Prelude.{◌≡◌, ◌≤◌, ◌<◌, ◌^◌, IfErr, IfOk, None, Some, Ok, false, filter, length, true};
ghost use Rattle.run_base.specs.Numbers.{is_aggregation, next_aggregate};
ghost use Rattle.world_base.specs.Stops.{is_prune_message};

use crate::between::Between;
use base_messages::message::Message;
use base_types::items::Memory;
use base_types::report::Line;
use std::alloc::AllocError;

// Whether a line tells of an aggregation.
fn is_aggregation(line: &Line) -> bool
    ensures { result ≡ is_aggregation line.now }
{
    matches!(line, Line::Aggregate { .. })
}

// How many lines tell of aggregations.
fn count_aggregations(lines: &[Line]) -> usize
    ensures { result ≡ length (filter is_aggregation lines.now) }
{
    let mut aggregations = 0;
    for line in lines {
        if is_aggregation(line) {
            aggregations += 1;
        }
    }
    aggregations
}

// Which number is the next one.
fn next_number(lines: &[Line]) -> usize
    ensures { result ≡ next_aggregate lines.now }
{
    count_aggregations(lines)
}

// Whether a message asks for an aggregation.
fn asks_aggregation(message: &Message) -> bool
    ensures { result ≡ is_prune_message message.now }
{
    matches!(message, Message::Prune { .. })
}

impl Between {
    // The number of the next aggregation, which is how many the lines tell of. Where there are more than
    // numbers, this is told as want of memory.
    fn next_aggregate(&self) -> Result<u32, Memory>
        ensures number { IfOk result (λ number. number ≡ next_aggregate self.now.lines) }
        ensures few { IfOk result (λ number. next_aggregate self.now.lines < 2 ^ 32) }
        ensures many { IfErr result (λ _. 2 ^ 32 ≤ next_aggregate self.now.lines) }
    {
        match u32::try_from(next_number(&self.lines)) {
            Ok(number) => Ok(number),
            Err(_) => Err(AllocError),
        }
    }

    /// The number that goes with a message: where it asks for an aggregation, the next one.
    ///
    /// # Errors
    ///
    /// Where there are more aggregations than numbers; this is told as want of memory.
    pub fn number_for(&self, message: &Message) -> Result<Option<u32>, Memory>
        ensures drawn { IfOk result (λ number. is_prune_message message.now ≡ true → number ≡ Some (next_aggregate self.now.lines)) }
        ensures few { IfOk result (λ number. is_prune_message message.now ≡ true → next_aggregate self.now.lines < 2 ^ 32) }
        ensures none { is_prune_message message.now ≡ false → result ≡ Ok None }
        ensures many { IfErr result (λ _. 2 ^ 32 ≤ next_aggregate self.now.lines) }
    {
        if asks_aggregation(message) {
            Ok(Some(self.next_aggregate()?))
        } else {
            Ok(None)
        }
    }
}
