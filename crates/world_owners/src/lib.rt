// Whose versions targets keep, whatever they kept at the opening.
#![tactic(auto)]

ghost use Rattle.world_owners.specs.Events.{AllEventsLeaveOrStore};
ghost use Rattle.world_owners.specs.Owners.{AllEventsKeepOwn, KeepingOwnBegins};
ghost use Rattle.world_owners.specs.Versions.{AllEventsBringVersions, AllEventsKeepPrepared, AllEventsRaiseLeases};

/// Says what any event makes of what a target keeps, wherever a turn is cut: it is left of what the target kept, or an
/// entry was stored on that with its writes, which a Commit or a Prepare brought that the target heard. So each version
/// that a target keeps then it kept before, and it may be done since; or it is one of those writes. The entry's epoch is
/// then issued, or the Commit bore it; and its attempt counts as stored, if the target had no entry of it. Where each
/// version that isn't settled was of a prepared entry, and what is brought is new, it is so still. No lease falls, or
/// rises above a clock's ticks. Nothing is asked of how the run began, so it holds whatever targets kept at the opening.
pub fn laws_of_kept_versions()
    ensures events { AllEventsLeaveOrStore }
    ensures versions { AllEventsBringVersions }
    ensures prepared { AllEventsKeepPrepared }
    ensures leases { AllEventsRaiseLeases }
{}

/// Says that targets keep their own, whatever happens: each version that is later than a number is one of the writes that
/// its target holds of its attempt, at an epoch that was issued to that, and the attempt was stored there; each version
/// that isn't settled is of an entry that is prepared there; and leases are within a clock's ticks. So it is where targets
/// keep versions that are done and no later than that number, and such leases. Each event keeps it, where Commits in
/// flight are right and new, and what is said of attempts is so. What versions stand for isn't spoken of.
pub fn laws_of_owners()
    ensures begin { KeepingOwnBegins }
    ensures events { AllEventsKeepOwn }
{}
