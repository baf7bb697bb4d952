// What is posted has its form: what clients ask of targets, what targets tell each other, and what clients are told.

ghost use Rattle.world_contents.specs.posts.AfterStops.{OpeningsPostInForm, ResetMembersPostInForm, ResetsPostInForm};
ghost use Rattle.world_contents.specs.posts.ClientPosts.{ClientsPostInForm, HearersPostInForm};
ghost use Rattle.world_contents.specs.posts.FormLaws.{AskedIsHeard, BetweenIsHeard, ClientsSendLetters, ResetsAreLetters, TargetsSendLetters};
ghost use Rattle.world_contents.specs.posts.KnownSnapshots.{ClientsKeepReadsKnown, HearersKeepReadsKnown, ReadsKnownBegins};
ghost use Rattle.world_contents.specs.posts.Posting.{AcksPostInForm, BatchesPostInForm, BeginningsPostInForm, InquiriesAreInForm, QueriesAreInForm, VerdictsPostInForm};
ghost use Rattle.world_contents.specs.posts.ScriptForm.{ReadsAreInForm, WritesAreInForm};

/// Says that what is asked and told in form, a target can hear, whatever it keeps: what a client asks, and what
/// another target tells or asks.
pub fn laws_of_forms()
    ensures asked { AskedIsHeard }
    ensures between { BetweenIsHeard }
{}

/// Says that what clients and targets post in form are letters in form, where targets may stop: one to a target
/// comes from a client where it is what clients ask, and else from a target. And where a letter in form to one
/// of at most 64 targets gets no answer, who sent it is told so by a letter in form.
pub fn laws_of_letters()
    ensures clients { ClientsSendLetters }
    ensures targets { TargetsSendLetters }
    ensures resets { ResetsAreLetters }
{}

/// Says that what leaders and members post has its form, whatever is kept. A leader asks each other member of
/// an attempt to prepare some of its writes, tells the client that waits how it ended, and Marks to members;
/// a member tells clients that an attempt isn't resolved, and asks leaders. It is clients alone that wait for the
/// end of an attempt, and each step of a leader keeps that.
pub fn laws_of_posts()
    ensures begins { BeginningsPostInForm }
    ensures acks { AcksPostInForm }
    ensures batches { BatchesPostInForm }
    ensures verdicts { VerdictsPostInForm }
    ensures queries { QueriesAreInForm }
    ensures inquiries { InquiriesAreInForm }
{}

/// Says that what leaders and members post after stops has its form, whatever is kept. Where a message to a
/// target got no answer, a leader asks it what it holds, tells it Marks again, or tells the client that waits; a
/// member tells clients that an attempt isn't resolved. A leader that opened again asks members what they hold, and
/// nobody waits for what it then remembers.
pub fn laws_of_stops()
    ensures resets { ResetsPostInForm }
    ensures members { ResetMembersPostInForm }
    ensures openings { OpeningsPostInForm }
{}

/// Says that what a script in form reads is in form, and so are the writes of each of its attempts. So
/// is all that its clients send, whatever they heard: reads, writes, what asks for snapshots and aggregations, and
/// questions what became of these go to targets, writes to their leader, and trackers to clients. A client that reads
/// at a snapshot has to know it, and its epoch; every turn keeps that, and it is so before the first attempt.
pub fn laws_of_scripts()
    ensures reads { ReadsAreInForm }
    ensures writes { WritesAreInForm }
    ensures posts { ClientsPostInForm }
    ensures answers { HearersPostInForm }
    ensures going { ClientsKeepReadsKnown }
    ensures hearing { HearersKeepReadsKnown }
    ensures first { ReadsKnownBegins }
{}
