// Who tells that an attempt is unresolved by itself, and all that may lead to it: a target of the attempt stopped since it began.

ghost use Rattle.world_causes.specs.losses.Keeping.{AnswersKeepLosses, ClientsKeepLosses, CutsKeepLosses, DrawnNumbersKeepLosses, FailedOpeningsKeepLosses, FurtherHearingKeepsLosses, GivenUpTargetsKeepLosses, HearingClientsKeepLosses, HearingKeepsLosses, IdleWorkKeepsLosses, LossesBegin, OpeningsKeepLosses, ResetsKeepLosses, SweepingKeepsLosses};

/// Says what holds of the losses of stops. Some messages there are of a client's present attempt only
/// where a target of it stopped since the client's last line: its leader asks a member what it holds, or
/// is answered; its client asks what became of it; what these asked got no answer by a target that
/// stopped; or it is told that the attempt is unresolved by itself. So it is, too, where the attempt's
/// leader holds it and doesn't run. And a line tells of an attempt that it is unresolved by itself only
/// behind such a stop. It is so at the beginning, and each kind of event keeps it so in which nothing is heard
/// of snapshots and aggregation. A stop rests on what is asked about an attempt being asked of its
/// targets, and on leaders being targets. What a target hears rests on the attempts that read being
/// new, and on what isn't settled being held: so no read meets its own attempt. And a client's turn
/// rests on what tells of a stop being of attempts that were begun.
pub fn laws_of_losses()
    ensures begin { LossesBegin }
    ensures cuts { CutsKeepLosses }
    ensures opens { OpeningsKeepLosses }
    ensures fails { FailedOpeningsKeepLosses }
    ensures given_up { GivenUpTargetsKeepLosses }
    ensures swept { SweepingKeepsLosses }
    ensures answers { AnswersKeepLosses }
    ensures resets { ResetsKeepLosses }
    ensures drawn { DrawnNumbersKeepLosses }
    ensures hear { HearingKeepsLosses }
    ensures idle { IdleWorkKeepsLosses }
    ensures further { FurtherHearingKeepsLosses }
    ensures clients { ClientsKeepLosses }
    ensures told { HearingClientsKeepLosses }
{}
