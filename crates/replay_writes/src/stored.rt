// What is kept once an attempt's writes were stored.
ghost use Rattle.std.specs.Prelude.{◌≡◌, ◌+◌, ◌≤◌, IfOk, vec_len, vec_capacity};
ghost use Rattle.daos_model.specs.Changes.{prepared};
ghost use Rattle.daos_model.specs.Durables.{version_key};
ghost use Rattle.daos_model.specs.Forms.{AreWritesInForm};
ghost use Rattle.daos_model.specs.Ordered.{puts};

use base_types::entry::Entry;
use base_types::items::{Items, Memory};
use base_types::operation::MinorWrite;
use daos_model::durable::{Durable, Version};
use std::alloc::Global;
use vos_contents::keyed::put_in;
use vos_contents::rows::versions_in_form;

// Puts versions among others in order, for which there is room.
fn put_all(rows: &mut Vec<Version>, new: Vec<Version>)
    requires room { vec_len rows.old + vec_len new ≤ vec_capacity rows.old }
    ensures items { rows.new.items ≡ puts version_key new.items rows.old.items }
{
    let mut new = new;
    while let Some(row) = new.pop() {
        put_in(rows, row);
    }
}

/// What is kept once an entry and its writes were stored.
#[tactic(auto, unfolding(daos_model::specs::Changes::prepared))]
pub fn prepared(
    alloc: Global,
    durable: Durable,
    entry: Entry,
    writes: &[MinorWrite],
) -> Result<Durable, Memory>
    requires { AreWritesInForm writes.now }
    ensures { IfOk result (λ after. after ≡ prepared entry writes.now durable) }
{
    let new = versions_in_form(alloc, &entry, writes)?;
    let Durable {
        versions,
        entries,
        conts,
        snaps,
        lease,
        incarnation,
    } = durable;
    let mut versions = versions.into_vec();
    versions.reserve(new.len())?;
    put_all(&mut versions, new);
    let mut entries = entries.into_vec();
    entries.reserve(1)?;
    put_in(&mut entries, entry);
    Ok(Durable {
        versions: Items::from_vec(versions),
        entries: Items::from_vec(entries),
        conts,
        snaps,
        lease,
        incarnation,
    })
}
