// Whether writes are in form, and can be asked of a target.
ghost use Rattle.std.specs.Prelude.{◌≡◌, ◌==◌, ◌%◌, All, Decides, map};
ghost use Rattle.std.specs.List.Sorted.{IsStrictlyIncreasing};
ghost use Rattle.base_types.specs.Paths.{record_size};
ghost use Rattle.daos_model.specs.Forms.{AreWritesInForm, ends_at_akey, ends_at_dkey, ends_at_object, fits_array, fits_records, is_length, is_unit, is_write_in_form, minor_of};
ghost use Rattle.replay_base.specs.Heard.{CanCommit};
ghost use Rattle.replay_writes.specs.Committed.{FitsIn, IsOne};

use base_types::operation::{MinorWrite, Write};
use base_types::path::Path;
use daos_class::class::Placed;
use daos_model::records::{count_records, record_size};
use world_base::target::TargetPlan;

fn ends_at_akey(path: &Path) -> bool
    ensures { result ≡ ends_at_akey path.now }
{
    path.obj.is_some() && path.dkey.is_some() && path.akey.is_some()
}

fn ends_at_dkey(path: &Path) -> bool
    ensures { result ≡ ends_at_dkey path.now }
{
    path.obj.is_some() && path.dkey.is_some() && path.akey.is_none()
}

fn ends_at_object(path: &Path) -> bool
    ensures { result ≡ ends_at_object path.now }
{
    path.obj.is_some() && path.dkey.is_none() && path.akey.is_none()
}

fn is_length(len: usize) -> bool
    ensures { result ≡ is_length len }
{
    1 <= len && len <= 1024
}

fn is_unit(size: u8) -> bool
    ensures { result ≡ is_unit size }
{
    1 <= size && size <= 64
}

// Whether so many records of a size, from an index on, fit an array.
fn fits_array(size: u8, low: u32, count: usize) -> bool
    ensures { result ≡ fits_array size low count }
{
    is_unit(size) && (count as u64) < 4_294_967_296 - u64::from(low)
}

// Whether so many bytes are whole records of a size.
fn is_whole(size: u8, len: usize) -> bool
    ensures { result ≡ (len % size == 0) }
{
    match size {
        0 => len == 0,
        size => len % usize::from(size) == 0,
    }
}

// Whether so many bytes, from an index on, are whole records of the array under a path and fit it.
fn fits_records(path: &Path, low: u32, len: usize) -> bool
    ensures { result ≡ fits_records (record_size path.now) low len }
{
    let size = record_size(path);
    is_whole(size, len) && fits_array(size, low, count_records(path, len))
}

/// Whether a write is in form.
#[tactic(auto, unfolding(daos_model::specs::Forms::is_write_in_form))]
pub fn is_write_in_form(write: &Write) -> bool
    ensures { result ≡ is_write_in_form write.now }
{
    match write {
        Write::Single(path, bytes) => ends_at_akey(path) && is_length(bytes.len()),
        Write::Extent(path, low, bytes) => {
            ends_at_akey(path) && is_length(bytes.len()) && fits_records(path, *low, bytes.len())
        }
        Write::PunchObject(path) => ends_at_object(path),
        Write::PunchDkey(path) => ends_at_dkey(path),
        Write::PunchAkey(path) => ends_at_akey(path),
    }
}

// Whether a write of an attempt is in form.
fn is_one(write: &MinorWrite) -> bool
    ensures { Decides result (IsOne write.now) }
{
    is_write_in_form(&write.write) && write.minor < 64
}

// Whether each write is.
fn are_ones(writes: &[MinorWrite]) -> bool
    ensures { Decides result (All IsOne writes.now) }
{
    for write in writes {
        if !is_one(write) {
            return false;
        }
    }
    true
}

// Whether the object of a write, if it has one, fits so many targets.
fn fits(write: &MinorWrite, targets: u8) -> bool
    ensures { Decides result (FitsIn targets write.now) }
{
    match write.write.path().obj {
        Some(object) => object.class.fits(targets).is_ok(),
        None => true,
    }
}

// Whether each write's does.
fn all_fit(writes: &[MinorWrite], targets: u8) -> bool
    ensures { Decides result (All (FitsIn targets) writes.now) }
{
    for write in writes {
        if !fits(write, targets) {
            return false;
        }
    }
    true
}

// Whether the numbers of writes rise.
fn are_rising(writes: &[MinorWrite]) -> bool
    ensures { Decides result (IsStrictlyIncreasing (map minor_of writes.now)) }
{
    for i in 1..writes.len() {
        if writes[i - 1].minor >= writes[i].minor {
            return false;
        }
    }
    true
}

/// Whether writes are those of an attempt, in form.
pub fn are_writes(writes: &[MinorWrite]) -> bool
    ensures { Decides result (AreWritesInForm writes.now) }
{
    writes.len() <= 64 && are_ones(writes) && are_rising(writes)
}

/// Whether a target can commit writes.
pub fn can_commit(plan: TargetPlan, writes: &[MinorWrite]) -> bool
    ensures { Decides result (CanCommit plan writes.now) }
{
    plan.targets <= 64 && are_writes(writes) && all_fit(writes, plan.targets)
}
