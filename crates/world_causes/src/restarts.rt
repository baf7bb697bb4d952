// What holds of versions, served reads, epochs, floors and what clients were told where a turn is cut and its target stops, and where
// it opens again.

ghost use Rattle.world_causes.specs.causes.FloorLaws.{OpeningsKeepFloors, StayingKeepsFloors, StopsKeepFloors, SweepsKeepFloors};
ghost use Rattle.world_causes.specs.restarts.Laws.{CutsKeepReads, DecisionsKeepReads, FailuresKeepReads, GivingUpKeepsReads, NumbersKeepDated, NumbersKeepReads, OpeningsKeepDated, OpeningsKeepReads, StopsKeepDated, SweepsKeepDated, SweepsKeepReads};

/// Says what stops and openings keep of versions and of served reads. Where a turn in which a target hears what
/// it hears without snapshots, or does its idle work, is cut, it leaves versions that stand for the decided
/// transactions, and no unsettled one below a read that was served; timestamps are lost, and the lease covers
/// what they were of. So a target that opens again sets a floor that refuses what they refused. A failed
/// opening, a target that is given up, what is lost then and numbers that are drawn change none of it. Nor
/// does a decision that nobody is told, of an attempt that each target holds that writes for it.
pub fn laws_of_restarts()
    ensures cut { CutsKeepReads }
    ensures opening { OpeningsKeepReads }
    ensures failure { FailuresKeepReads }
    ensures given_up { GivingUpKeepsReads }
    ensures swept { SweepsKeepReads }
    ensures numbers { NumbersKeepReads }
    ensures decision { DecisionsKeepReads }
{}

/// Says what stays of epochs and of what clients were told, where no client does anything and no epoch is
/// issued: where a turn is cut that issued none, a target opens again, fails to, or is given up, what goes to
/// targets that are given up is lost, and numbers are drawn.
pub fn laws_of_dates()
    ensures stop { StopsKeepDated }
    ensures opening { OpeningsKeepDated }
    ensures swept { SweepsKeepDated }
    ensures numbers { NumbersKeepDated }
{}

/// Says what stays of floors: each that is above the opening's epochs has the line that tells why it is there,
/// or it is covered by the floor of its target's last opening, or of its next one. So it is where a turn is
/// cut in which no floor was set, where a target opens again, fails to or is given up, and where targets stay
/// as they were but for their leases.
pub fn laws_of_floors()
    ensures stop { StopsKeepFloors }
    ensures opening { OpeningsKeepFloors }
    ensures swept { SweepsKeepFloors }
    ensures staying { StayingKeepsFloors }
{}
