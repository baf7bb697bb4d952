// Whether two writes or reads are the same.
ghost use Rattle.std.specs.Prelude.{◌≡◌, Decides};

use crate::same::{Same, both, three};
use base_types::operation::{MinorWrite, Read, Write};

impl Same for Write {
    fn is_same(&self, other: &Write) -> bool {
        match (self, other) {
            (Write::Single(path, bytes), Write::Single(other_path, other_bytes)) => both(
                (path, bytes),
                (other_path, other_bytes),
            ),
            (Write::Extent(path, low, bytes), Write::Extent(other_path, other_low, other_bytes)) =>
                three((path, low, bytes), (other_path, other_low, other_bytes)),
            (Write::PunchObject(one), Write::PunchObject(two)) => one.is_same(two),
            (Write::PunchDkey(one), Write::PunchDkey(two)) => one.is_same(two),
            (Write::PunchAkey(one), Write::PunchAkey(two)) => one.is_same(two),
            _ => false,
        }
    }
}

impl Same for MinorWrite {
    fn is_same(&self, other: &MinorWrite) -> bool {
        self.minor.is_same(&other.minor) && self.write.is_same(&other.write)
    }
}

impl Same for Read {
    fn is_same(&self, other: &Read) -> bool {
        match (self, other) {
            (Read::Single(one), Read::Single(two)) => one.is_same(two),
            (Read::Extent(path, low, len), Read::Extent(other_path, other_low, other_len)) => three(
                (path, low, len),
                (other_path, other_low, other_len),
            ),
            (Read::Dkeys(one), Read::Dkeys(two)) => one.is_same(two),
            (Read::Akeys(one), Read::Akeys(two)) => one.is_same(two),
            (Read::Exists(one), Read::Exists(two)) => one.is_same(two),
            _ => false,
        }
    }
}
