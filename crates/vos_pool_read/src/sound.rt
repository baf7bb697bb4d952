// Whether versions are such that objects can have them.
ghost use Rattle.std.specs.Prelude.{◌≡◌, ◌==◌, ◌%◌, All, Decides, IfSome, length};
ghost use Rattle.base_types.specs.Keys.{first_bad_byte};
ghost use Rattle.base_types.specs.Paths.{record_size};
ghost use Rattle.daos_model.specs.Forms.{ends_at_akey, ends_at_dkey, ends_at_object, fits_array, fits_records, is_length, is_unit, is_write_in_form};
ghost use Rattle.vos_pool_read.specs.Sound.{HasKeys, IsSound};
ghost use Rattle.vos_pool_base.specs.vos_path.Writes.{NamesAreKeys};
ghost use Rattle.vos_values.specs.Keys.{IsName};

use base_types::key::{KEY_MAX, Key, is_key_byte};
use base_types::operation::Write;
use base_types::path::Path;
use daos_model::durable::Version;
use daos_model::records::{count_records, record_size};

// The place of the first byte that may not stand in a key.
fn first_bad_byte(bytes: &[u8]) -> Option<usize>
    ensures { result ≡ first_bad_byte bytes.now }
{
    bytes.iter().position(|byte| !is_key_byte(*byte))
}

// Whether bytes are a name.
fn is_name(bytes: &[u8]) -> bool
    ensures { Decides result (IsName bytes.now) }
{
    !bytes.is_empty() && bytes.len() <= KEY_MAX && first_bad_byte(bytes).is_none()
}

// Whether a key, if there is one, is a name.
fn is_name_or_none(key: &Option<Key>) -> bool
    ensures { Decides result (IfSome key.now IsName) }
{
    match key {
        Some(key) => is_name(key.bytes()),
        None => true,
    }
}

// Whether the names of a path are keys.
fn are_keys(path: &Path) -> bool
    ensures { Decides result (NamesAreKeys path.now) }
{
    is_name_or_none(&path.dkey) && is_name_or_none(&path.akey)
}

fn ends_at_akey(path: &Path) -> bool
    ensures { result ≡ ends_at_akey path.now }
{
    path.obj.is_some() && path.dkey.is_some() && path.akey.is_some()
}

fn ends_at_dkey(path: &Path) -> bool
    ensures { result ≡ ends_at_dkey path.now }
{
    path.obj.is_some() && path.dkey.is_some() && path.akey.is_none()
}

fn ends_at_object(path: &Path) -> bool
    ensures { result ≡ ends_at_object path.now }
{
    path.obj.is_some() && path.dkey.is_none() && path.akey.is_none()
}

fn is_length(len: usize) -> bool
    ensures { result ≡ is_length len }
{
    1 <= len && len <= 1024
}

fn is_unit(size: u8) -> bool
    ensures { result ≡ is_unit size }
{
    1 <= size && size <= 64
}

// Whether so many records of a size, from an index on, fit an array.
fn fits_array(size: u8, low: u32, count: usize) -> bool
    ensures { result ≡ fits_array size low count }
{
    is_unit(size) && (count as u64) < 4_294_967_296 - u64::from(low)
}

// Whether so many bytes are whole records of a size.
fn is_whole(size: u8, len: usize) -> bool
    ensures { result ≡ (len % size == 0) }
{
    match size {
        0 => len == 0,
        size => len % usize::from(size) == 0,
    }
}

// Whether so many bytes, from an index on, are whole records of the array under a path and fit it.
fn fits_records(path: &Path, low: u32, len: usize) -> bool
    ensures { result ≡ fits_records (record_size path.now) low len }
{
    let size = record_size(path);
    is_whole(size, len) && fits_array(size, low, count_records(path, len))
}

// Whether a write is in form.
#[tactic(auto, unfolding(daos_model::specs::Forms::is_write_in_form))]
fn is_write_in_form(write: &Write) -> bool
    ensures { result ≡ is_write_in_form write.now }
{
    match write {
        Write::Single(path, bytes) => ends_at_akey(path) && is_length(bytes.len()),
        Write::Extent(path, low, bytes) => {
            ends_at_akey(path) && is_length(bytes.len()) && fits_records(path, *low, bytes.len())
        }
        Write::PunchObject(path) => ends_at_object(path),
        Write::PunchDkey(path) => ends_at_dkey(path),
        Write::PunchAkey(path) => ends_at_akey(path),
    }
}

// Whether the number of a version, its record size and its names are such that keys can say them.
fn has_keys(version: &Version) -> bool
    ensures { Decides result (HasKeys version.now) }
{
    let path = version.write.path();
    version.minor < 64 && is_unit(record_size(path)) && are_keys(path)
}

// Whether an object can have a version.
fn is_sound(version: &Version) -> bool
    ensures { Decides result (IsSound version.now) }
{
    has_keys(version) && is_write_in_form(&version.write)
}

/// Whether objects can have each of these versions.
pub(crate) fn are_sound(versions: &[Version]) -> bool
    ensures { Decides result (All IsSound versions.now) }
{
    for version in versions {
        if !is_sound(version) {
            return false;
        }
    }
    true
}
