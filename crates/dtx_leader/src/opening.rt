// What a leader begins with.
ghost use Rattle.std.specs.Prelude.{◌≡◌, filter, map, IfOk};
ghost use Rattle.dtx_base.specs.Leading.{entry_attempt, is_open, is_open_alone, reopened_undecided};

use base_types::entry::Entry;
use base_types::id::AttemptId;
use base_types::items::Memory;
use dtx_base::leading::Undecided;
use dtx_table::bits::other_members;
use std::alloc::Global;

/// Whether an entry isn't committed, and there are others to ask.
pub fn is_open(alloc: Global, entry: &Entry) -> Result<bool, Memory>
    ensures { IfOk result (λ is. is ≡ is_open entry.now) }
{
    Ok(!entry.committed && !other_members(alloc, entry)?.is_empty())
}

// Whether an entry isn't committed, and there is nobody to ask.
fn is_open_alone(alloc: Global, entry: &Entry) -> Result<bool, Memory>
    ensures { IfOk result (λ is. is ≡ is_open_alone entry.now) }
{
    Ok(!entry.committed && other_members(alloc, entry)?.is_empty())
}

/// Of these entries, those that are undecided.
pub fn first_undecided(alloc: Global, led: &[Entry]) -> Result<Vec<Undecided>, Memory>
    ensures { IfOk result (λ rows. rows.items ≡ map reopened_undecided (filter is_open led.now)) }
{
    let mut rows = Vec::new(alloc);
    for entry in led {
        if is_open(alloc, entry)? {
            rows.push(Undecided {
                attempt: entry.attempt,
                client: None,
                counted: 0,
            })?;
        }
    }
    Ok(rows)
}

/// Of these entries, those that are decided, since no other member is to be asked.
pub fn first_decided(alloc: Global, led: &[Entry]) -> Result<Vec<AttemptId>, Memory>
    ensures { IfOk result (λ rows. rows.items ≡ map entry_attempt (filter is_open_alone led.now)) }
{
    let mut rows = Vec::new(alloc);
    for entry in led {
        if is_open_alone(alloc, entry)? {
            rows.push(entry.attempt)?;
        }
    }
    Ok(rows)
}
