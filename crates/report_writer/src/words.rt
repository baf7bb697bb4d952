// Words behind spaces.
ghost use Rattle.std.specs.Prelude.{◌≡◌, ◌++◌, ◌∷◌, OnOk, decimal};
ghost use Rattle.report_writer.specs.Words.{attempt_words, epoch_word, spaced};

use base_types::epoch::Epoch;
use base_types::id::AttemptId;
use base_types::items::Memory;
use itoa::Buffer;

/// Adds a space and a word.
pub fn push_word(out: &mut Vec<u8>, word: &[u8]) -> Result<(), Memory>
    ensures { OnOk result (out.new.items ≡ out.old.items ++ 32 ∷ word.now) }
{
    out.push(b' ')?;
    out.extend_from_slice(word)?;
    Ok(())
}

/// Adds a space and a number.
pub fn push_number(out: &mut Vec<u8>, number: u64) -> Result<(), Memory>
    ensures { OnOk result (out.new.items ≡ out.old.items ++ 32 ∷ decimal number) }
{
    let mut buffer = Buffer::new();
    push_word(out, buffer.format(number).as_bytes())?;
    Ok(())
}

/// Adds a space and an epoch, or a dash where there is none.
pub fn push_epoch(out: &mut Vec<u8>, epoch: Option<Epoch>) -> Result<(), Memory>
    ensures { OnOk result (out.new.items ≡ out.old.items ++ 32 ∷ epoch_word epoch) }
{
    match epoch {
        Some(epoch) => push_number(out, epoch.0)?,
        None => push_word(out, b"-")?,
    }
    Ok(())
}

/// Adds the words of an attempt.
pub fn push_attempt_id(out: &mut Vec<u8>, id: AttemptId) -> Result<(), Memory>
    ensures { OnOk result (out.new.items ≡ out.old.items ++ spaced (attempt_words id)) }
{
    push_number(out, u64::from(id.client))?;
    push_number(out, u64::from(id.command))?;
    push_number(out, u64::from(id.attempt))?;
    Ok(())
}
