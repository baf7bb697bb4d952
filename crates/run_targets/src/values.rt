// That values which lines tell of are bytes.
ghost use Rattle.std.specs.Prelude.{All};
ghost use Rattle.report_reader.specs.Law.{AreBytes};
ghost use Rattle.report_round_trip.specs.Values.{HasBytes, IsRunOfBytes, TellsBytes};

use base_types::answer::{Answer, Piece};
use base_types::report::Line;

// A slice of bytes has numbers of eight bits, by its type; none is read for that.
fn are_bytes(_bytes: &[u8])
    ensures { AreBytes _bytes.now }
{}

// So is a run of an array, where it isn't a hole,
fn is_run_of_bytes(piece: &Piece)
    ensures { IsRunOfBytes piece.now }
{
    if let Piece::Bytes(bytes) = piece {
        are_bytes(bytes.as_slice());
    }
}

// and all runs of one,
fn are_runs_of_bytes(pieces: &[Piece])
    ensures { All IsRunOfBytes pieces.now }
{
    for piece in pieces {
        is_run_of_bytes(piece);
    }
}

// the values of an answer,
fn has_bytes(answer: &Answer)
    ensures { HasBytes answer.now }
{
    match answer {
        Answer::Bytes(bytes) => are_bytes(bytes.as_slice()),
        Answer::Parts(pieces) => are_runs_of_bytes(pieces.as_slice()),
        _ => {}
    }
}

// and of all that an attempt was answered.
fn have_bytes(gots: &[(u8, Answer)])
    ensures { All (λ got. HasBytes got.1) gots.now }
{
    for got in gots {
        has_bytes(&got.1);
    }
}

/// The values of a line's answers are bytes, as their type says.
pub fn tells_bytes(line: &Line)
    ensures { TellsBytes line.now }
{
    if let Line::Try(attempt) = line {
        have_bytes(attempt.gots.as_slice());
    }
}
