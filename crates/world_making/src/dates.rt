// The epochs of attempts where snapshots are made and read, and containers are aggregated.

ghost use Rattle.world_making.specs.dates.Laws.{AllEventsKeepEpochs, EventsKeepKnown, MakersAskFirstTarget};

/// Says what stays true of the epochs of attempts also where snapshots are made and read, and containers are
/// aggregated: each attempt has at most one of its own, one that reads at a snapshot none, and no two have the
/// same; each was issued by the target that its command asks first, which for a snapshot and for an
/// aggregation is target 0; what goes about, waits, is stored, known and told has the epoch of its attempt,
/// its own or that of the snapshot at which it reads; and those of a client rise. Every event of a run keeps
/// it: what clients ask and hear, what targets hear, also of snapshots, freezes, aggregation and reads at a
/// snapshot, idle work, turns that are cut, openings, and what is lost. It is so where what reads at a
/// snapshot writes nothing, requests come from clients, and conversations, attempts, and what makes snapshots
/// and aggregates are in order. And whatever happens, a client goes on knowing snapshots at their epochs.
pub fn laws_of_dates()
    ensures kept { AllEventsKeepEpochs }
    ensures makers { MakersAskFirstTarget }
    ensures known { EventsKeepKnown }
{}
