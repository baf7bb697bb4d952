// The records of an array: bytes of one size.
ghost use Rattle.std.specs.Prelude.{◌≡◌, ◌/◌, ◌*◌, ◌+◌, ◌≤◌, length, take, drop};
ghost use Rattle.base_types.specs.Paths.{record_size};

use base_types::path::Path;

/// The record size of the arrays under a path, in bytes; 1 where the path names no object.
pub fn record_size(path: &Path) -> u8
    ensures { result ≡ record_size path.now }
{
    match path.obj {
        Some(obj) => obj.unit,
        None => 1,
    }
}

/// How many records of an array under a path so many bytes are made of.
pub fn count_records(path: &Path, len: usize) -> usize
    ensures { result ≡ len / record_size path.now }
{
    match record_size(path) {
        0 => 0,
        size => len / usize::from(size),
    }
}

// A record among bytes, by its number from 0.
pub(crate) fn nth_record(bytes: &[u8], size: usize, number: usize) -> &[u8]
    requires { (number + 1) * size ≤ length bytes.now }
    ensures { result.now ≡ take size (drop (number * size) bytes.now) }
{
    let from = number * size;
    &bytes[from..from + size]
}
