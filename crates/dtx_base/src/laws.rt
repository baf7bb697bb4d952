// Laws of the steps of leaders and members.
ghost use Rattle.dtx_base.specs.CountLaws.{CountsOnlyOks};
ghost use Rattle.dtx_base.specs.LeaderLaws.{BatchesAreDue, BatchesNameOnce, DecidedOnlyByLastOk};
ghost use Rattle.dtx_base.specs.StandingLaws.{AnswersLetStand, BatchesLetStand, BeginningLetsStand, ResetsLetStand, SettlingLetsStand, StandsCommitted};
ghost use Rattle.dtx_base.specs.MemberLaws.{ResolvedFreesOnce, UnresolvedAnswersOnce};

/// Says what holds of every step of a leader. An Ack decides an attempt only where it is an Ok, of
/// this incarnation, and the last one awaited: each other member was counted as Ok before; and a
/// member is counted of an attempt only by its own Ok, of this incarnation, for that attempt. What a
/// batch tells a target names no attempt twice, and none that a Mark names to it which is without an
/// answer; and a batch sends something just where one is due.
pub fn laws_of_leaders()
    ensures last { DecidedOnlyByLastOk }
    ensures counted { CountsOnlyOks }
    ensures once { BatchesNameOnce }
    ensures due { BatchesAreDue }
{}

/// Says what becomes of an attempt that is decided, or committed. A Query for it is answered that it
/// is committed; and it stays so, whatever members answer, whatever Reset comes, when its commit is
/// told and stored, and when another attempt begins.
pub fn laws_of_decisions()
    ensures told { StandsCommitted }
    ensures answers { AnswersLetStand }
    ensures resets { ResetsLetStand }
    ensures batches { BatchesLetStand }
    ensures settling { SettlingLetsStand }
    ensures beginning { BeginningLetsStand }
{}

/// Says what holds of every step of a member. Once it is known what became of an attempt, each Fetch
/// that waits for it is freed just once, in the order in which they were parked. Where an attempt
/// isn't decided, those of the attempt that asked are answered just once, and the others wait on.
pub fn laws_of_members()
    ensures freed { ResolvedFreesOnce }
    ensures answered { UnresolvedAnswersOnce }
{}
