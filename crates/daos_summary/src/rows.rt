// The rows of a summary.
ghost use Rattle.std.specs.Prelude.{◌≡◌, ◌++◌, ◌∷◌, [], OnOk, decimal, map};
ghost use Rattle.base_text.specs.Rows.{rows_text};
ghost use Rattle.daos_summary.specs.Summaries.{count_row, end_row, ending_row, ending_word, head_row, issued_row, issued_rows};

use crate::counts::{Ending, ended, issued};
use base_types::epoch::TargetId;
use base_types::items::Memory;
use base_types::report::Line;
use itoa::Buffer;

// Adds a space and a number.
fn push_number(out: &mut Vec<u8>, number: u64) -> Result<(), Memory>
    ensures { OnOk result (out.new.items ≡ out.old.items ++ 32 ∷ decimal number) }
{
    let mut buffer = Buffer::new();
    out.push(b' ')?;
    out.extend_from_slice(buffer.format(number).as_bytes())?;
    Ok(())
}

/// Adds the count of the commands and the number of targets that were asked for.
pub fn push_head(out: &mut Vec<u8>, count: u32, targets: u8) -> Result<(), Memory>
    ensures { OnOk result (out.new.items ≡ out.old.items ++ rows_text (head_row count targets ∷ [])) }
{
    out.extend_from_slice(b"load")?;
    push_number(out, u64::from(count))?;
    out.extend_from_slice(b" targets")?;
    push_number(out, u64::from(targets))?;
    out.push(b'\n')?;
    Ok(())
}

/// Adds a word and a count.
pub fn push_count(out: &mut Vec<u8>, word: &[u8], count: usize) -> Result<(), Memory>
    ensures { OnOk result (out.new.items ≡ out.old.items ++ rows_text (count_row word.now count ∷ [])) }
{
    out.extend_from_slice(word)?;
    push_number(out, count as u64)?;
    out.push(b'\n')?;
    Ok(())
}

fn ending_word(ending: Ending) -> &'static [u8]
    ensures { result.now ≡ ending_word ending }
{
    match ending {
        Ending::Committed => b"committed",
        Ending::CondFailed => b"condfailed",
        Ending::ReadLater => b"readlater",
        Ending::WriteLater => b"writelater",
        Ending::Unresolved => b"unresolved",
        Ending::Floor => b"floor",
        Ending::NoSpace => b"nospace",
        Ending::Spent => b"spent",
        Ending::NoSnap => b"nosnap",
        Ending::Unknown => b"unknown",
    }
}

// Adds how many attempts ended so.
fn push_ending(out: &mut Vec<u8>, lines: &[Line], ending: Ending) -> Result<(), Memory>
    ensures { OnOk result (out.new.items ≡ out.old.items ++ rows_text (ending_row lines.now ending ∷ [])) }
{
    push_count(out, ending_word(ending), ended(lines, ending))
}

/// Adds how many attempts ended in each of these ways.
pub fn push_endings(out: &mut Vec<u8>, lines: &[Line], endings: &[Ending]) -> Result<(), Memory>
    ensures { OnOk result (out.new.items ≡ out.old.items ++ rows_text (map (ending_row lines.now) endings.now)) }
{
    for ending in endings {
        push_ending(out, lines, *ending)?;
    }
    Ok(())
}

// Adds how many attempts have an epoch of this target.
fn push_issued_by(out: &mut Vec<u8>, lines: &[Line], target: TargetId) -> Result<(), Memory>
    ensures { OnOk result (out.new.items ≡ out.old.items ++ rows_text (issued_row lines.now target ∷ [])) }
{
    out.extend_from_slice(b"issued")?;
    push_number(out, u64::from(target))?;
    push_number(out, issued(lines, target) as u64)?;
    out.push(b'\n')?;
    Ok(())
}

/// Adds how many attempts have an epoch of each target.
pub fn push_issued(out: &mut Vec<u8>, lines: &[Line], targets: u8) -> Result<(), Memory>
    ensures { OnOk result (out.new.items ≡ out.old.items ++ rows_text (issued_rows lines.now targets)) }
{
    for target in 0..targets {
        push_issued_by(out, lines, target)?;
    }
    Ok(())
}

/// Adds whether a target is down.
pub fn push_end(out: &mut Vec<u8>, down: Option<TargetId>) -> Result<(), Memory>
    ensures { OnOk result (out.new.items ≡ out.old.items ++ rows_text (end_row down ∷ [])) }
{
    match down {
        Some(_) => out.extend_from_slice(b"end 8\n")?,
        None => out.extend_from_slice(b"end 0\n")?,
    }
    Ok(())
}
