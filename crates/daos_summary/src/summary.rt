// The summary of a load.
ghost use Rattle.std.specs.Prelude.{◌≡◌, IfOk};
ghost use Rattle.daos_summary.specs.Summaries.{summary_text};

use crate::counts::{ENDINGS, attempts, commands};
use crate::rows::{push_count, push_end, push_endings, push_head, push_issued};
use base_types::items::Memory;
use base_types::report::Report;
use std::alloc::Global;

/// The summary of the report of a load of so many commands: how many commands were tried, how many
/// attempts there were, how they ended, how many have an epoch of each target, and whether a
/// target is down. Each line ends with byte 10.
///
/// # Errors
///
/// For want of memory alone.
#[tactic(auto, unfolding(crate::specs::Summaries::summary_text))]
pub fn summary_text(alloc: Global, report: &Report, count: u32) -> Result<Vec<u8>, Memory>
    ensures { IfOk result (λ text. text.items ≡ summary_text report.now count) }
{
    let lines = report.lines.as_slice();
    let mut out = Vec::new(alloc);
    push_head(&mut out, count, report.targets)?;
    push_count(&mut out, b"commands", commands(alloc, lines)?)?;
    push_count(&mut out, b"attempts", attempts(lines))?;
    push_endings(&mut out, lines, &ENDINGS)?;
    push_issued(&mut out, lines, report.targets)?;
    push_end(&mut out, report.down)?;
    Ok(out)
}
