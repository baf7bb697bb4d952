// The entries of the attempts that a target leads, among those that it keeps.
ghost use Rattle.std.specs.Prelude.{◌≡◌, filter, find, IfOk};
ghost use Rattle.daos_model.specs.Durables.{is_entry_of};
ghost use Rattle.dtx_base.specs.Leading.{is_led};

use crate::rows::is_same;
use base_types::entry::Entry;
use base_types::epoch::TargetId;
use base_types::id::AttemptId;
use base_types::items::Memory;
use std::alloc::Global;

/// The entries that a target leads.
pub fn led_by(alloc: Global, me: TargetId, entries: &[Entry]) -> Result<Vec<Entry>, Memory>
    ensures { IfOk result (λ led. led.items ≡ filter (is_led me) entries.now) }
{
    let mut led = Vec::new(alloc);
    for entry in entries {
        if entry.leader == me {
            led.push(*entry)?;
        }
    }
    Ok(led)
}

/// The entry of an attempt, where this target leads it.
pub fn find_led(entries: &[Entry], me: TargetId, attempt: AttemptId) -> Option<Entry>
    ensures { result ≡ find (is_entry_of attempt) (filter (is_led me) entries.now) }
{
    for entry in entries {
        if is_same(entry.attempt, attempt) && entry.leader == me {
            return Some(*entry);
        }
    }
    None
}
