// That an actor's turn is determined, and so a run, but for what the rules leave open.
#![tactic(auto)]

ghost use Rattle.world_determined.specs.Clients.{HearIsOne, NextIsOne};
ghost use Rattle.world_determined.specs.CutTurns.{CutHearingIsOne, CutIdlingIsOne};
ghost use Rattle.world_determined.specs.Events.{EventsAreOne};
ghost use Rattle.world_determined.specs.Leading.{AttemptsLeadDecided};
ghost use Rattle.world_determined.specs.Picks.{PicksAreOne, SameAreDue};
ghost use Rattle.world_determined.specs.Readings.{CutReadingsAreOne, FurtherReadingsAreOne, ReadingsAreOne};
ghost use Rattle.world_determined.specs.Runs.{RunsAreOne};
ghost use Rattle.world_determined.specs.Turns.{FurtherIsOne, HearingIsAlike, HearingIsOne, IdlingIsOne};
ghost use Rattle.world_determined.specs.Worlds.{SameTellOne};

/// Says that a client's turn is determined by what it has to do, its state and the message that it
/// hears, if it hears one: so one that is made tells which world may come after it.
pub fn laws_of_client_turns()
    ensures next { NextIsOne }
    ensures hear { HearIsOne }
{}

/// Says that a target's turn is determined: by its plan and its opening, by what it knows and keeps, and
/// by what it hears, from whom, and at which reading of its clock. Two such turns keep the same but for
/// free blocks, know the same and tell the same, however many blocks were free before. Of a Commit and of
/// a Prepare it is open whether a later read that is only near refuses it, which later read is shown,
/// whether there is space, and how many blocks are free where there is none. So these are one where they
/// tell the same of that; and where both are refused by a later read, or both for want of space, or
/// neither is, they are one but for which read is shown and how many blocks are free. It is asked that no
/// other target leads an attempt that this one decided and hasn't settled. What comes of stops, what
/// makes snapshots and aggregates, and idle work leave nothing open.
pub fn laws_of_target_turns()
    ensures hearing { HearingIsOne }
    ensures alike { HearingIsAlike }
    ensures further { FurtherIsOne }
    ensures idling { IdlingIsOne }
{}

/// Says that a target's turn which was cut is determined by its place besides: by how many changes it had
/// made, and by how the next one was left, not made, made, or of a prune in part; or, where it was cut in
/// a question, by how many steps it had made. Then the same is kept but for free blocks, the same epoch
/// was issued, if one was, and the lines are the same. Of what a Commit or a Prepare leaves open nothing
/// is told.
pub fn laws_of_cut_turns()
    ensures hearing { CutHearingIsOne }
    ensures idling { CutIdlingIsOne }
{}

/// Says that of a reading of the clock only the epoch matters that is issued at it: a turn at one reading
/// is a turn at any other that issues the same, also one that was cut. A message that goes with its epoch
/// is heard alike at all readings, and so is a Verdict, where the Fetches that wait go with theirs.
pub fn laws_of_readings()
    ensures hearing { ReadingsAreOne }
    ensures further { FurtherReadingsAreOne }
    ensures cut { CutReadingsAreOne }
{}

/// Says that a run of any events is determined by what is chosen in it: who has a turn, which letter in
/// flight is heard and at which reading of the clock, where a turn is cut, how an opening fails, and which
/// numbers are taken and drawn; and by what turns tell of what they leave open, which are the later reads
/// that they show, and want of space. Two runs from worlds that are the same but for free blocks, in which
/// the same is chosen and told so, come to such worlds; and these have the same lines and durables. So two
/// runs of the same choices part nowhere but where a Commit or a Prepare is refused by a later read, or for
/// want of space, in one of them. It is asked that in no world of the one run a target decided an attempt
/// that another one leads; where the facts of attempts hold that is so.
pub fn laws_of_choices()
    ensures events { EventsAreOne }
    ensures runs { RunsAreOne }
    ensures told { SameTellOne }
    ensures led { AttemptsLeadDecided }
{}

/// Says that in worlds that are the same but for free blocks the same actors have something to do, and
/// that of the letters in flight to an actor the one of a number is one. So an order of turns chooses the
/// same in both.
pub fn laws_of_picks()
    ensures due { SameAreDue }
    ensures letters { PicksAreOne }
{}
