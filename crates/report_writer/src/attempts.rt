// The rows of an attempt.
ghost use Rattle.std.specs.Prelude.{◌≡◌, ◌++◌, ◌∷◌, [], OnOk, IfOk, map};
ghost use Rattle.base_text.specs.Rows.{rows_text};
ghost use Rattle.report_writer.specs.Reports.{attempt_rows, cond_row, conds_after, conds_until, detail_rows, got_row, try_row, yes_word};

use crate::answers::push_answer;
use crate::outcomes::push_outcome;
use crate::words::{push_attempt_id, push_epoch, push_number, push_word};
use base_types::answer::Answer;
use base_types::items::Memory;
use base_types::report::Attempt;
use base_types::script::Script;

/// Adds the row of how an attempt ended.
#[tactic(auto, using(crate::proofs::Joins::joins))]
pub fn push_try(out: &mut Vec<u8>, script: &Script, attempt: &Attempt) -> Result<(), Memory>
    ensures { OnOk result (out.new.items ≡ out.old.items ++ rows_text (try_row script.now attempt.now ∷ [])) }
{
    out.extend_from_slice(b"try")?;
    push_attempt_id(out, attempt.id)?;
    push_epoch(out, attempt.epoch)?;
    push_outcome(out, script, &attempt.outcome)?;
    out.push(b'\n')?;
    Ok(())
}

// Adds a space and whether a path had a cell.
fn push_yes(out: &mut Vec<u8>, holds: bool) -> Result<(), Memory>
    ensures { OnOk result (out.new.items ≡ out.old.items ++ 32 ∷ yes_word holds) }
{
    if holds {
        push_word(out, b"yes")?;
    } else {
        push_word(out, b"no")?;
    }
    Ok(())
}

/// Adds the row of a condition.
pub fn push_cond(out: &mut Vec<u8>, cond: (u8, bool)) -> Result<(), Memory>
    ensures { OnOk result (out.new.items ≡ out.old.items ++ rows_text (cond_row cond ∷ [])) }
{
    out.extend_from_slice(b"cond")?;
    push_number(out, u64::from(cond.0))?;
    push_yes(out, cond.1)?;
    out.push(b'\n')?;
    Ok(())
}

/// Adds the row of an answer.
#[tactic(auto, using(crate::proofs::Joins::joins))]
pub fn push_got(out: &mut Vec<u8>, got: &(u8, Answer)) -> Result<(), Memory>
    ensures { OnOk result (out.new.items ≡ out.old.items ++ rows_text (got_row got.now ∷ [])) }
{
    out.extend_from_slice(b"got")?;
    push_number(out, u64::from(got.0))?;
    push_answer(out, &got.1)?;
    out.push(b'\n')?;
    Ok(())
}

// Adds the rows of the first conditions, of operations up to this one, and returns the others.
fn push_conds_until<'a>(
    out: &mut Vec<u8>,
    op: u8,
    conds: &'a [(u8, bool)],
) -> Result<&'a [(u8, bool)], Memory>
    ensures rows { OnOk result (out.new.items ≡ out.old.items ++ rows_text (map cond_row (conds_until op conds.now))) }
    ensures rest { IfOk result (λ rest. rest.now ≡ conds_after op conds.now) }
{
    let mut rest = conds;
    while let Some((cond, behind)) = rest.split_first() {
        if cond.0 > op {
            break;
        }
        push_cond(out, *cond)?;
        rest = behind;
    }
    Ok(rest)
}

// Adds the rows of conditions.
fn push_conds(out: &mut Vec<u8>, conds: &[(u8, bool)]) -> Result<(), Memory>
    ensures { OnOk result (out.new.items ≡ out.old.items ++ rows_text (map cond_row conds.now)) }
{
    for cond in conds {
        push_cond(out, *cond)?;
    }
    Ok(())
}

// Adds the rows of conditions and answers, in order of operations.
#[tactic(auto, using(crate::proofs::Joins::joins))]
fn push_details(
    out: &mut Vec<u8>,
    conds: &[(u8, bool)],
    gots: &[(u8, Answer)],
) -> Result<(), Memory>
    ensures { OnOk result (out.new.items ≡ out.old.items ++ rows_text (detail_rows conds.now gots.now)) }
{
    let mut rest = conds;
    for got in gots {
        rest = push_conds_until(out, got.0, rest)?;
        push_got(out, got)?;
    }
    push_conds(out, rest)?;
    Ok(())
}

/// Adds the rows of an attempt.
pub fn push_attempt(out: &mut Vec<u8>, script: &Script, attempt: &Attempt) -> Result<(), Memory>
    ensures { OnOk result (out.new.items ≡ out.old.items ++ rows_text (attempt_rows script.now attempt.now)) }
{
    push_try(out, script, attempt)?;
    push_details(out, attempt.conds.as_slice(), attempt.gots.as_slice())?;
    Ok(())
}
