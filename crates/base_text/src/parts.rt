// A text in parts.
ghost use Rattle.std.specs.Prelude.{◌≡◌, ◌<◌, ◌==◌, [], ◌∷◌, length, position, MatchOption, IfSome};
ghost use Rattle.base_text.specs.Parts.{ended_parts, parts_left, parts_of};

use std::marker::Model;

/// The parts of a text that is cut at each mark, as far as they aren't taken: a line is cut at
/// spaces into words.
#[derive(Drop)]
pub struct Parts<'a> {
    rest: Option<&'a [u8]>,
    mark: u8,
}

impl<'a> Model for Parts<'a> {
    ghost use Rattle.std.specs.Prelude.{List, ℕ};
    ghost use Rattle.base_text.specs.Parts.{parts_left};

    ghost Value = { List (List ℕ) };

    ghost view = { λ a. parts_left a.mark a.rest };
}

// The place of the first mark.
fn mark_at(mark: u8, bytes: &[u8]) -> Option<usize>
    ensures exact { result ≡ position (λ b. b == mark) bytes.now }
    ensures within { IfSome result (λ i. i < length bytes.now) }
{
    bytes.iter().position(|b| *b == mark)
}

// The text up to the first mark, and what stands behind that mark.
fn cut(mark: u8, bytes: &[u8]) -> (&[u8], Option<&[u8]>)
    ensures { parts_of mark bytes.now ≡ result.0.now ∷ parts_left mark result.1 }
{
    match mark_at(mark, bytes) {
        Some(at) => (&bytes[..at], Some(&bytes[at + 1..])),
        None => (bytes, None),
    }
}

// The text without a mark at its end, or none where it is empty.
fn without_end(mark: u8, bytes: &[u8]) -> Option<&[u8]>
    ensures { parts_left mark result ≡ ended_parts mark bytes.now }
{
    let Some((last, front)) = bytes.split_last() else {
        return None;
    };
    if *last == mark {
        Some(front)
    } else {
        Some(bytes)
    }
}

impl<'a> Parts<'a> {
    /// All parts of a text: one more than it has marks.
    pub fn new(mark: u8, bytes: &'a [u8]) -> Self
        ensures { result ≡ parts_of mark bytes.now }
    {
        Parts {
            rest: Some(bytes),
            mark,
        }
    }

    /// The parts of a text in which each ends with the mark, but the last may lack it. The empty
    /// text has none.
    pub fn ended(mark: u8, bytes: &'a [u8]) -> Self
        ensures { result ≡ ended_parts mark bytes.now }
    {
        Parts {
            rest: without_end(mark, bytes),
            mark,
        }
    }

    /// Takes the next part.
    pub fn take_part(&mut self) -> Option<&'a [u8]>
        ensures { MatchOption result ((self.old ≡ []) × (self.new ≡ [])) (λ part. self.old ≡ part.now ∷ self.new) }
    {
        let bytes = self.rest?;
        let (part, rest) = cut(self.mark, bytes);
        self.rest = rest;
        Some(part)
    }
}
