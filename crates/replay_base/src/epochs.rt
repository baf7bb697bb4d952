// Which epochs a target's clock can issue, whatever it reads.
ghost use Rattle.std.specs.Prelude.{◌≡◌, ◌<◌, ◌≤◌, ◌⊎◌, ◌/◌, ◌%◌, ◌^◌, ℕ, None, Decides};
ghost use Rattle.replay_base.specs.Issuing.{CanIssue, least_ticks};
ghost use Rattle.world_base.specs.Events.{epoch_of_issue};
ghost use Rattle.replay_base.specs.Requested.{AsksAt, TellsEpoch};
ghost use Rattle.world_base.specs.Requests.{request_epoch};

use base_types::epoch::{Epoch, TargetId};
use base_types::id::AttemptId;
use daos_hlc::clock::{LAST_TICKS, READING_MAX};
use world_base::did::Did;
use world_base::target::{TargetMemory, TargetPlan};

// The least ticks that may be issued next, if any may.
fn least_ticks(ticks: u64, tracker: Epoch) -> Option<u64>
    ensures { result ≡ least_ticks ticks tracker.0 }
{
    if ticks >= LAST_TICKS {
        return None;
    }
    let least = (ticks + 1).max(tracker.ticks() + 1);
    if least > LAST_TICKS {
        return None;
    }
    Some(least)
}

/// Whether no ticks are left to issue for a request without an epoch, which doesn't depend on the clock's
/// reading.
pub fn is_spent(plan: TargetPlan, memory: &TargetMemory, tracker: Epoch) -> bool
    ensures { Decides result ((reading : ℕ) × (request_epoch plan memory.now reading tracker None ≡ None)) }
{
    match least_ticks(memory.ticks, tracker) {
        Some(_least) => false,
        None => true,
    }
}

// Whether these ticks may be issued where others are the least: they are these, or a clock may read them.
fn may_issue(least: u64, told: u64) -> bool
    ensures { Decides result ((told ≡ least) ⊎ ((least < told) × (told ≤ 2 ^ 55))) }
{
    told == least || (least < told && told <= READING_MAX)
}

// Whether a target may issue an epoch where these are the least ticks.
fn is_own(me: TargetId, least: u64, epoch: Epoch) -> bool
    ensures { Decides result ((epoch.0 % 256 ≡ me) × ((epoch.0 / 256 ≡ least) ⊎ ((least < epoch.0 / 256) × (epoch.0 / 256 ≤ 2 ^ 55)))) }
{
    epoch.issuer() == me && may_issue(least, epoch.ticks())
}

/// Whether some reading of the clock leads to this epoch.
pub fn can_issue(me: TargetId, ticks: u64, tracker: Epoch, epoch: Epoch) -> bool
    ensures { Decides result (CanIssue me ticks tracker epoch) }
{
    match least_ticks(ticks, tracker) {
        Some(least) => is_own(me, least, epoch),
        None => false,
    }
}

// The epoch of an issue.
fn epoch_of(issued: Option<(AttemptId, Epoch)>) -> Option<Epoch>
    ensures { result ≡ epoch_of_issue issued }
{
    match issued {
        Some((_, epoch)) => Some(epoch),
        None => None,
    }
}

/// The epoch of a request, as it is told of a turn: its own, or the one that was issued.
pub fn told_epoch(ep: Option<Epoch>, did: &Did) -> Option<Epoch>
    ensures { TellsEpoch ep did.now.issued result }
{
    match ep {
        Some(own) => Some(own),
        None => epoch_of(did.issued),
    }
}

/// Whether some reading of the clock leads to this epoch for a request: its own, or one that is issued.
pub fn asks_at(
    plan: TargetPlan,
    memory: &TargetMemory,
    tracker: Epoch,
    ep: Option<Epoch>,
    epoch: Epoch,
) -> bool
    ensures { Decides result (AsksAt (λ reading. request_epoch plan memory.now reading tracker ep) epoch) }
{
    match ep {
        Some(own) => own.0 == epoch.0,
        None => can_issue(plan.me, memory.ticks, tracker, epoch),
    }
}
