// Words that stand for numbers, keys, epochs and attempts.
ghost use Rattle.std.specs.Prelude.{◌≡◌, ◌≤◌, IfOk};
ghost use Rattle.report_grammar.specs.Reads.{Reads};
ghost use Rattle.report_grammar.specs.Words.{attempt_id_at, epoch_at, epoch_of, epoch_or_none_at, key_at, key_of, nothing_at, number_at, word_at};

use crate::fault::RowNo;
use base_text::number::number_in;
use base_text::parts::Parts;
use base_types::epoch::Epoch;
use base_types::id::AttemptId;
use base_types::key::{Key, KeyNo};
use std::alloc::Global;

/// What is there.
pub fn or_bad<T>(found: Option<T>) -> Result<T, RowNo>
    ensures { Reads (λ x. x) result found }
{
    match found {
        Some(x) => Ok(x),
        None => Err(RowNo::Bad),
    }
}

/// The next word.
pub fn word_at<'a>(words: &mut Parts<'a>) -> Result<&'a [u8], RowNo>
    ensures { Reads (λ w. (w.now, words.new)) result (word_at words.old) }
{
    match words.take_part() {
        Some(word) => Ok(word),
        None => Err(RowNo::Bad),
    }
}

/// No further word.
pub fn nothing_at(words: &mut Parts<'_>) -> Result<(), RowNo>
    ensures { Reads (λ x. x) result (nothing_at words.old) }
{
    match words.take_part() {
        None => Ok(()),
        Some(_) => Err(RowNo::Bad),
    }
}

/// A number in a range.
#[tactic(auto, unfolding(crate::specs::Words::number_at))]
pub fn number_at(lo: u64, hi: u64, words: &mut Parts<'_>) -> Result<u64, RowNo>
    ensures exact { Reads (λ n. (n, words.new)) result (number_at lo hi words.old) }
    ensures range { IfOk result (λ n. n ≤ hi) }
{
    let word = word_at(words)?;
    match number_in(lo, hi, word) {
        Some(number) => Ok(number),
        None => Err(RowNo::Bad),
    }
}

/// The key that a word is.
pub fn key_of(alloc: Global, word: &[u8]) -> Result<Key, RowNo>
    ensures { Reads (λ k. k) result (key_of word.now) }
{
    match Key::new(alloc, word) {
        Ok(key) => Ok(key),
        Err(KeyNo::Memory) => Err(RowNo::Memory),
        Err(_) => Err(RowNo::Bad),
    }
}

/// A key.
#[tactic(auto, unfolding(crate::specs::Words::key_at))]
pub fn key_at(alloc: Global, words: &mut Parts<'_>) -> Result<Key, RowNo>
    ensures { Reads (λ k. (k, words.new)) result (key_at words.old) }
{
    let word = word_at(words)?;
    key_of(alloc, word)
}

/// An epoch.
#[tactic(auto, unfolding(crate::specs::Words::epoch_at))]
pub fn epoch_at(words: &mut Parts<'_>) -> Result<Epoch, RowNo>
    ensures { Reads (λ e. (e, words.new)) result (epoch_at words.old) }
{
    Ok(Epoch(number_at(0, u64::MAX, words)?))
}

// The epoch that a word spells, or none where it is a dash.
fn epoch_of(word: &[u8]) -> Result<Option<Epoch>, RowNo>
    ensures { Reads (λ e. e) result (epoch_of word.now) }
{
    if word == b"-".as_slice() {
        return Ok(None);
    }
    match number_in(0, u64::MAX, word) {
        Some(number) => Ok(Some(Epoch(number))),
        None => Err(RowNo::Bad),
    }
}

/// An epoch, or a dash where there is none.
#[tactic(auto, unfolding(crate::specs::Words::epoch_or_none_at))]
pub fn epoch_or_none_at(words: &mut Parts<'_>) -> Result<Option<Epoch>, RowNo>
    ensures { Reads (λ e. (e, words.new)) result (epoch_or_none_at words.old) }
{
    let word = word_at(words)?;
    epoch_of(word)
}

/// An attempt.
#[tactic(auto, unfolding(crate::specs::Words::attempt_id_at))]
pub fn attempt_id_at(words: &mut Parts<'_>) -> Result<AttemptId, RowNo>
    ensures { Reads (λ id. (id, words.new)) result (attempt_id_at words.old) }
{
    let client = number_at(0, 65_535, words)? as u16;
    let command = number_at(0, 4_294_967_295, words)? as u32;
    let attempt = number_at(0, 255, words)? as u8;
    Ok(AttemptId {
        client,
        command,
        attempt,
    })
}
