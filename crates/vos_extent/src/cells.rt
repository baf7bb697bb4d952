// What each index holds so far.
ghost use Rattle.std.specs.Prelude.{◌≡◌, ◌≤◌, ◌<◌, ◌+◌, ◌*◌, ◌^◌, ℕ, None, length, take, drop, get_or};
ghost use Rattle.vos_moments.specs.vos_levels.Moments.{is_earlier};
ghost use Rattle.vos_extent.specs.Cells.{dated_in, dated_with, painted};

use vos_values::keys::Moment;

/// A record that an index holds, and when it was written.
#[derive(Clone, Copy)]
pub struct Cell {
    pub moment: Moment,
    pub held: [u8; 64],
}

/// Whether one moment is before another.
pub(crate) fn is_earlier(one: Moment, other: Moment) -> bool
    ensures { result ≡ is_earlier one other }
{
    one.epoch.0 < other.epoch.0 || (one.epoch.0 == other.epoch.0 && one.minor < other.minor)
}

// The cell of a record.
fn cell_of(moment: Moment, held: &[u8]) -> Cell
    requires { length held.now ≤ 64 }
    ensures moment { result.moment ≡ moment }
    ensures held { take (length held.now) result.held ≡ held.now }
{
    let mut bytes = [0; 64];
    bytes[..held.len()].copy_from_slice(held);
    Cell {
        moment,
        held: bytes,
    }
}

// What an index holds after a record, where what it held isn't later.
fn later(cell: Option<Cell>, moment: Moment, held: &[u8]) -> Option<Cell>
    requires { length held.now ≤ 64 }
    ensures { (unit : ℕ) → unit ≡ length held.now → dated_in unit result ≡ dated_with (dated_in unit cell) (moment, held.now) }
{
    match cell {
        Some(there) if is_earlier(moment, there.moment) => cell,
        _ => Some(cell_of(moment, held)),
    }
}

// A record among bytes, by its number from 0.
fn nth_record(bytes: &[u8], size: usize, number: usize) -> &[u8]
    requires { (number + 1) * size ≤ length bytes.now }
    ensures held { result.now ≡ take size (drop (number * size) bytes.now) }
    ensures long { length result.now ≡ size }
{
    let from = number * size;
    &bytes[from..from + size]
}

/// Lays the records of an extent over what the indexes from one on hold, where that isn't later.
pub(crate) fn paint(
    cells: &mut [Option<Cell>],
    first: u32,
    unit: u8,
    low: u32,
    moment: Moment,
    bytes: &[u8],
)
    requires some { 1 ≤ unit }
    requires few { unit ≤ 64 }
    requires room { first + length cells.old ≤ 2 ^ 32 }
    ensures painted { (i : ℕ) → i < length cells.old → dated_in unit (get_or cells.new i None) ≡ painted unit (first + i) low moment bytes.now (dated_in unit (get_or cells.old i None)) }
    ensures long { length cells.new ≡ length cells.old }
{
    let size = usize::from(unit);
    let end = u64::from(low) + (bytes.len() / size) as u64;
    let to = cells
        .len()
        .min(end.saturating_sub(u64::from(first)) as usize);
    let mut i = low.saturating_sub(first) as usize;
    while i < to {
        let number = (u64::from(first) + i as u64 - u64::from(low)) as usize;
        cells[i] = later(cells[i], moment, nth_record(bytes, size, number));
        i += 1;
    }
}
