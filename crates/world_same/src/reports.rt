// Whether two answers or lines of a report are the same.
ghost use Rattle.std.specs.Prelude.{◌≡◌, Decides};

use crate::same::Same;
use base_types::answer::{Answer, Piece};
use base_types::report::{Attempt, Line};

impl Same for Piece {
    fn is_same(&self, other: &Piece) -> bool {
        match (self, other) {
            (Piece::Bytes(one), Piece::Bytes(two)) => one.is_same(two),
            (Piece::Hole(one), Piece::Hole(two)) => one.is_same(two),
            _ => false,
        }
    }
}

impl Same for Answer {
    fn is_same(&self, other: &Answer) -> bool {
        match (self, other) {
            (Answer::Bytes(one), Answer::Bytes(two)) => one.is_same(two),
            (Answer::Parts(one), Answer::Parts(two)) => one.is_same(two),
            (Answer::Names(one), Answer::Names(two)) => one.is_same(two),
            (Answer::Yes, Answer::Yes) => true,
            (Answer::No, Answer::No) => true,
            (Answer::Absent, Answer::Absent) => true,
            _ => false,
        }
    }
}

impl Same for Attempt {
    fn is_same(&self, other: &Attempt) -> bool {
        self.id.is_same(&other.id)
            && self.epoch.is_same(&other.epoch)
            && self.conds.is_same(&other.conds)
            && self.gots.is_same(&other.gots)
            && self.outcome.is_same(&other.outcome)
    }
}

impl Same for Line {
    fn is_same(&self, other: &Line) -> bool {
        match (self, other) {
            (Line::Try(one), Line::Try(two)) => one.is_same(two),
            (
                Line::Stop { number, target },
                Line::Stop {
                    number: other_number,
                    target: other_target,
                },
            ) => number.is_same(other_number) && target.is_same(other_target),
            (
                Line::Restart {
                    number,
                    target,
                    incarnation,
                    floor,
                },
                Line::Restart {
                    number: other_number,
                    target: other_target,
                    incarnation: other_incarnation,
                    floor: other_floor,
                },
            ) => number.is_same(other_number)
                && target.is_same(other_target)
                && incarnation.is_same(other_incarnation)
                && floor.is_same(other_floor),
            (
                Line::Freeze {
                    target,
                    cont,
                    epoch,
                },
                Line::Freeze {
                    target: other_target,
                    cont: other_cont,
                    epoch: other_epoch,
                },
            ) => target.is_same(other_target)
                && cont.is_same(other_cont)
                && epoch.is_same(other_epoch),
            (
                Line::Snapshot { name, cont, epoch },
                Line::Snapshot {
                    name: other_name,
                    cont: other_cont,
                    epoch: other_epoch,
                },
            ) => name.is_same(other_name) && cont.is_same(other_cont) && epoch.is_same(other_epoch),
            (
                Line::Aggregate {
                    number,
                    target,
                    cont,
                    upto,
                },
                Line::Aggregate {
                    number: other_number,
                    target: other_target,
                    cont: other_cont,
                    upto: other_upto,
                },
            ) => number.is_same(other_number)
                && target.is_same(other_target)
                && cont.is_same(other_cont)
                && upto.is_same(other_upto),
            (
                Line::Down { target },
                Line::Down {
                    target: other_target,
                },
            ) => target.is_same(other_target),
            _ => false,
        }
    }
}
