// Answers in words.
ghost use Rattle.std.specs.Prelude.{◌≡◌, ◌++◌, ◌∷◌, OnOk, map};
ghost use Rattle.report_writer.specs.Answers.{answer_words, piece_word};
ghost use Rattle.report_writer.specs.Words.{spaced};

use crate::values::push_value;
use crate::words::push_word;
use base_types::answer::{Answer, Piece};
use base_types::items::Memory;
use base_types::key::Key;
use itoa::Buffer;

// Adds a space and a run of an array.
fn push_piece(out: &mut Vec<u8>, piece: &Piece) -> Result<(), Memory>
    ensures { OnOk result (out.new.items ≡ out.old.items ++ 32 ∷ piece_word piece.now) }
{
    out.push(b' ')?;
    match piece {
        Piece::Bytes(bytes) => push_value(out, bytes.as_slice())?,
        Piece::Hole(count) => {
            let mut buffer = Buffer::new();
            out.push(b'~')?;
            out.extend_from_slice(buffer.format(*count).as_bytes())?;
        }
    }
    Ok(())
}

// Adds runs of an array.
fn push_pieces(out: &mut Vec<u8>, pieces: &[Piece]) -> Result<(), Memory>
    ensures { OnOk result (out.new.items ≡ out.old.items ++ spaced (map piece_word pieces.now)) }
{
    for piece in pieces {
        push_piece(out, piece)?;
    }
    Ok(())
}

// Adds names.
fn push_names(out: &mut Vec<u8>, names: &[Key]) -> Result<(), Memory>
    ensures { OnOk result (out.new.items ≡ out.old.items ++ spaced names.now) }
{
    for name in names {
        push_word(out, name.bytes())?;
    }
    Ok(())
}

/// Adds the words of an answer.
pub fn push_answer(out: &mut Vec<u8>, answer: &Answer) -> Result<(), Memory>
    ensures { OnOk result (out.new.items ≡ out.old.items ++ spaced (answer_words answer.now)) }
{
    match answer {
        Answer::Bytes(bytes) => {
            out.extend_from_slice(b" value ")?;
            push_value(out, bytes.as_slice())?;
        }
        Answer::Parts(pieces) => {
            push_word(out, b"parts")?;
            push_pieces(out, pieces.as_slice())?;
        }
        Answer::Names(names) => {
            push_word(out, b"names")?;
            push_names(out, names.as_slice())?;
        }
        Answer::Yes => push_word(out, b"yes")?,
        Answer::No => push_word(out, b"no")?,
        Answer::Absent => push_word(out, b"absent")?,
    }
    Ok(())
}
