// What holds of any run, whatever its targets' versions stood for when it began.
ghost use Rattle.world_closing.specs.safety.Raising.{AllEventsRaise};
ghost use Rattle.world_closing.specs.safety.Safe.{AllEventsKeepKeys, AllEventsKeepSafety, AllRunsAreKeyed, AllRunsAreSafe, AllRunsEndSafely, KeysBegin, SafeLeasesCover, SafeLettersCanBeHeard, SafeLinesAreInOrder, SafeOutcomesShow, SafeReportsHaveForm, SafetyBegins, SafetyGoesOn};

/// Says what goes on in any run of a script in form, whatever its targets' versions stood for when it began: replicas may
/// have differed then, versions lain anywhere, and snapshots stood for anything. A run begins so where each target left
/// nothing to settle, keeps no version and no snapshot above its lease, and no epoch above the opening's top, and knows the
/// script's containers; where what target 0 holds as created is frozen at every target, and the opening keeps some map for
/// it; where clients know just such snapshots; and where no target holds more snapshots than the opening keeps maps of, by
/// which places that are wanting are accounted for. Each event keeps it, whatever it is, of what was decided by then.
///
/// Then each letter in flight to a running target has the form that the target asks for, and can be heard there by a
/// store that tells what it keeps: containers are there, and where it brings writes the target has no entry of their
/// attempt and no version at its epoch. What answers for a snapshot or an aggregation comes from one of at most 64
/// targets. Leases cover the versions and snapshots that targets keep, also where they are stopped. The lines tell of
/// each client's commands in turn; each attempt ended as its answers and conditions say; answers are of their reads'
/// kinds; and each outcome shows its cause over dates. Where names and keys of the script, and of what targets kept, are
/// keys, those of answers are at each moment; and where numbers of lines, attempts and incarnations fit their types too,
/// the report is in the form in which its text determines it. Where the run has ended it is over, and nothing is being
/// made: nobody waits, clients are done, and the lines tell of all their commands.
///
/// In any event, whatever holds, a target's incarnation is one more after it where the target opens; the same, or one
/// more, where it fails to; and the same where another one opens, and in all other events.
pub fn laws_of_safety()
    ensures begin { SafetyBegins }
    ensures events { AllEventsKeepSafety }
    ensures later { SafetyGoesOn }
    ensures runs { AllRunsAreSafe }
    ensures keys_begin { KeysBegin }
    ensures keys { AllEventsKeepKeys }
    ensures keyed_runs { AllRunsAreKeyed }
    ensures heard { SafeLettersCanBeHeard }
    ensures leases { SafeLeasesCover }
    ensures causes { SafeOutcomesShow }
    ensures raised { AllEventsRaise }
    ensures lines { SafeLinesAreInOrder }
    ensures ended { AllRunsEndSafely }
    ensures form { SafeReportsHaveForm }
{}
