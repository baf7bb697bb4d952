// What is written to a fixed place.
ghost use Rattle.std.specs.Prelude.{◌≡◌, ◌≤◌, length};

use std::marker::Model;

/// Bytes, at most 64, and the place of a region from which on they are written.
#[derive(Drop)]
pub struct Written {
    place: u64,
    bytes: [u8; 64],
    len: usize,
}

impl Model for Written {
    ghost use Rattle.std.specs.Prelude.{◌≤◌, take};
    ghost use Rattle.base_outside.specs.Images.{Range};

    ghost Value = { Range };

    ghost view = { λ w. record { place = w.place; bytes = take w.len w.bytes } };

    ghost invariant = { λ w. w.len ≤ 64 };
}

impl Written {
    // These bytes, from a place on.
    pub(crate) fn new(place: u64, bytes: &[u8]) -> Written
        requires { length bytes.now ≤ 64 }
        ensures { result ≡ record { place = place; bytes = bytes.now } }
    {
        let len = bytes.len();
        let mut all = [0; 64];
        all[..len].copy_from_slice(bytes);
        Written {
            place,
            bytes: all,
            len,
        }
    }

    /// The place of the first byte.
    pub fn place(&self) -> u64
        ensures { result ≡ self.now.place }
    {
        self.place
    }

    /// The bytes.
    pub fn bytes(&self) -> &[u8]
        ensures { result.now ≡ self.now.bytes }
    {
        &self.bytes[..self.len]
    }
}
