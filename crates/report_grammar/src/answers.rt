// Answers in words.
ghost use Rattle.std.specs.Prelude.{◌≡◌, ◌<◌, [], IfSome};
ghost use Rattle.report_grammar.specs.Answers.{answer_of, digit_of, hex_of, names_from, piece_of, pieces_from, plain_of, value_of};
ghost use Rattle.report_grammar.specs.Reads.{Reads};

use crate::fault::RowNo;
use crate::words::{key_of, nothing_at, word_at};
use base_text::number::number_in;
use base_text::parts::Parts;
use base_types::answer::{Answer, Keys, Piece, Pieces};
use base_types::items::{Items, Vec8, bytes_of};
use std::alloc::Global;

// The value of a hexadecimal digit in lower case.
fn digit_of(digit: u8) -> Option<u8>
    ensures exact { result ≡ digit_of digit }
    ensures range { IfSome result (λ n. n < 16) }
{
    if digit >= b'0' && digit <= b'9' {
        Some(digit - b'0')
    } else if digit >= b'a' && digit <= b'f' {
        Some(digit - 87)
    } else {
        None
    }
}

// The bytes that hexadecimal digits spell, two a byte.
fn hex_of(alloc: Global, digits: &[u8]) -> Result<Vec8, RowNo>
    ensures { Reads (λ v. v) result (hex_of [] digits.now) }
{
    let mut bytes: Vec8 = Items::new(alloc);
    let mut rest = digits;
    while let Some((high, behind)) = rest.split_first() {
        let Some((low, behind)) = behind.split_first() else {
            return Err(RowNo::Bad);
        };
        let Some(high) = digit_of(*high) else {
            return Err(RowNo::Bad);
        };
        let Some(low) = digit_of(*low) else {
            return Err(RowNo::Bad);
        };
        bytes.push(high * 16 + low)?;
        rest = behind;
    }
    Ok(bytes)
}

// The bytes that a word spells.
fn value_of(alloc: Global, word: &[u8]) -> Result<Vec8, RowNo>
    ensures { Reads (λ v. v) result (value_of word.now) }
{
    let Some((mark, spelled)) = word.split_first() else {
        return Err(RowNo::Bad);
    };
    if *mark == b'=' {
        return Ok(bytes_of(alloc, spelled)?);
    }
    if *mark == b'#' {
        return hex_of(alloc, spelled);
    }
    Err(RowNo::Bad)
}

// The run of an array that a word spells.
fn piece_of(alloc: Global, word: &[u8]) -> Result<Piece, RowNo>
    ensures { Reads (λ p. p) result (piece_of word.now) }
{
    if !word.is_empty() && word[0] == b'~' {
        return match number_in(1, 4_294_967_295, &word[1..]) {
            Some(count) => Ok(Piece::Hole(count as u32)),
            None => Err(RowNo::Bad),
        };
    }
    let bytes = value_of(alloc, word)?;
    Ok(Piece::Bytes(bytes))
}

// The runs of an array.
fn pieces_from(alloc: Global, words: &mut Parts<'_>) -> Result<Pieces, RowNo>
    ensures { Reads (λ ps. ps) result (pieces_from [] words.old) }
{
    let mut pieces: Pieces = Items::new(alloc);
    while let Some(word) = words.take_part() {
        let piece = piece_of(alloc, word)?;
        pieces.push(piece)?;
    }
    Ok(pieces)
}

// Names.
fn names_from(alloc: Global, words: &mut Parts<'_>) -> Result<Keys, RowNo>
    ensures { Reads (λ ks. ks) result (names_from [] words.old) }
{
    let mut names: Keys = Items::new(alloc);
    while let Some(word) = words.take_part() {
        let name = key_of(alloc, word)?;
        names.push(name)?;
    }
    Ok(names)
}

// An answer of one word.
fn plain_of(word: &[u8]) -> Result<Answer, RowNo>
    ensures { Reads (λ a. a) result (plain_of word.now) }
{
    if word == b"yes".as_slice() {
        Ok(Answer::Yes)
    } else if word == b"no".as_slice() {
        Ok(Answer::No)
    } else if word == b"absent".as_slice() {
        Ok(Answer::Absent)
    } else {
        Err(RowNo::Bad)
    }
}

/// An answer, of all the words that are left.
#[tactic(auto, unfolding(crate::specs::Answers::answer_of))]
pub fn answer_of(alloc: Global, words: &mut Parts<'_>) -> Result<Answer, RowNo>
    ensures { Reads (λ a. a) result (answer_of words.old) }
{
    let kind = word_at(words)?;
    if kind == b"value".as_slice() {
        let word = word_at(words)?;
        let bytes = value_of(alloc, word)?;
        nothing_at(words)?;
        return Ok(Answer::Bytes(bytes));
    }
    if kind == b"parts".as_slice() {
        let pieces = pieces_from(alloc, words)?;
        return Ok(Answer::Parts(pieces));
    }
    if kind == b"names".as_slice() {
        let names = names_from(alloc, words)?;
        return Ok(Answer::Names(names));
    }
    let answer = plain_of(kind)?;
    nothing_at(words)?;
    Ok(answer)
}
