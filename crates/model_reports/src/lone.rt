// What a legal report tells of a client that is alone.

ghost use Rattle.model_reports.specs.Lone.{FreshRunsHaveTicks, LoneClientsCommit, LoneClientsEndPlainly, LoneClientsNeverRestart, LoneClientsRise, LoneClientsTryOnce};

/// Says what a legal report tells of a client that is alone: it runs transactions that read at no
/// snapshot, the script asks for no stop, and the outside failed no region. No attempt is told to restart.
/// So each of its commands has one attempt, in the order of the script; epochs rise in the order of the
/// lines, above all of before the run; and each attempt is committed, or fails by a condition, for want of
/// space or for want of ticks. Where no operation has a condition, and there are room and ticks for all
/// commands, each is committed; over regions of zeros there are ticks for every script in form. All of
/// this holds of any number of targets, and with threads too, since it follows from the report alone.
pub fn laws_of_lone_clients()
    ensures never_restarted { LoneClientsNeverRestart }
    ensures one_attempt { LoneClientsTryOnce }
    ensures rising { LoneClientsRise }
    ensures plainly { LoneClientsEndPlainly }
    ensures committed { LoneClientsCommit }
    ensures ticks { FreshRunsHaveTicks }
{}
