// What a target keeps, again, and with an attempt settled.
ghost use Rattle.std.specs.Prelude.{◌≡◌, ◌<◌, IfOk};
ghost use Rattle.base_types.specs.declared.entry.Settle.TheVariants.{Abort, Commit, Confirm};
ghost use Rattle.daos_model.specs.Changes.{settled};

use base_types::epoch::TargetId;
use base_types::id::AttemptId;
use base_types::items::{Items, Memory};
use daos_model::durable::Durable;
use std::alloc::Global;
use vos_contents::rows::settle_all;
use vos_contents::sweeps::{remove_entry, remove_pending};
use vos_contents::tables::{commit, confirm, copied};

/// The same again.
pub fn copy_kept(alloc: Global, durable: &Durable) -> Result<Durable, Memory>
    ensures { IfOk result (λ copy. copy ≡ durable.now) }
{
    Ok(Durable {
        versions: durable.versions.copy()?,
        entries: Items::from_vec(copied(alloc, durable.entries.as_slice())?),
        conts: Items::from_vec(copied(alloc, durable.conts.as_slice())?),
        snaps: Items::from_vec(copied(alloc, durable.snaps.as_slice())?),
        lease: durable.lease,
        incarnation: durable.incarnation,
    })
}

/// What is kept once an attempt is committed.
#[tactic(auto, unfolding(daos_model::specs::Changes::settled))]
pub fn committed(durable: Durable, attempt: AttemptId) -> Durable
    ensures { result ≡ settled attempt Commit durable }
{
    let Durable {
        versions,
        entries,
        conts,
        snaps,
        lease,
        incarnation,
    } = durable;
    let mut versions = versions.into_vec();
    settle_all(&mut versions, attempt);
    let mut entries = entries.into_vec();
    commit(&mut entries, attempt);
    Durable {
        versions: Items::from_vec(versions),
        entries: Items::from_vec(entries),
        conts,
        snaps,
        lease,
        incarnation,
    }
}

/// What is kept once it is aborted.
#[tactic(auto, unfolding(daos_model::specs::Changes::settled))]
pub fn aborted(durable: Durable, attempt: AttemptId) -> Durable
    ensures { result ≡ settled attempt Abort durable }
{
    let Durable {
        versions,
        entries,
        conts,
        snaps,
        lease,
        incarnation,
    } = durable;
    let mut versions = versions.into_vec();
    remove_pending(&mut versions, attempt);
    let mut entries = entries.into_vec();
    remove_entry(&mut entries, attempt);
    Durable {
        versions: Items::from_vec(versions),
        entries: Items::from_vec(entries),
        conts,
        snaps,
        lease,
        incarnation,
    }
}

/// What is kept once a member confirmed it.
#[tactic(auto, unfolding(daos_model::specs::Changes::settled))]
pub fn confirmed(durable: Durable, attempt: AttemptId, member: TargetId) -> Durable
    requires { member < 64 }
    ensures { result ≡ settled attempt (Confirm member) durable }
{
    let Durable {
        versions,
        entries,
        conts,
        snaps,
        lease,
        incarnation,
    } = durable;
    let mut entries = entries.into_vec();
    confirm(&mut entries, attempt, member);
    Durable {
        versions,
        entries: Items::from_vec(entries),
        conts,
        snaps,
        lease,
        incarnation,
    }
}
