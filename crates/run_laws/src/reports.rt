// What a run in an order reports, where targets may stop and open again.

ghost use Rattle.run_laws.specs.reports.Reports.{NoneUnknownWithoutGivenUp, OrdersAreLegal, OrdersIssueThere, OrdersLeaveInTheEnd, OrdersOfOnlyClients, OrdersReportInForm, UnknownIsOfGivenUp, UnstoppedOrdersEndPlainly};

/// Says what a run in the order that the job names comes to, where targets may stop, open again, or be given
/// up, snapshots be made and read, and containers aggregated, of a script in form, from its beginning. Each epoch of
/// which the report of its lines tells bears the number of one of the targets, but for those of snapshots that
/// earlier runs made. In the end each target runs or is given up; and each entry that a running one keeps is
/// committed, or a member of its attempt was given up. Of what is committed at one all members hold an entry. Where
/// the targets held at the beginning all that the opening stands for, the report is legal in each part, whatever the
/// outside is taken to have done, if only it caused the stops for which the script doesn't ask, and what was given
/// up; the targets stand for what it tells, and replicas agree. And its text determines it, where names and keys are
/// keys, those of what the opening stands for and of the maps that it keeps among them, and the numbers of stops,
/// openings and aggregations are as small as their types hold. Of the only client of a script, whatever its commands
/// do, it tells no attempt to restart where no line tells of a stop; so each command is attempted once, and it is
/// known what became of that.
pub fn laws_of_ordered_reports()
    ensures legal { OrdersAreLegal }
    ensures form { OrdersReportInForm }
    ensures issued { OrdersIssueThere }
    ensures left { OrdersLeaveInTheEnd }
    ensures alone { OrdersOfOnlyClients }
{}

/// Says that such a run of which no line tells of a stop ends as one in which nothing can stop, whatever its script does:
/// its report is legal though the outside failed no region, whichever attempts are taken as resolved; it names no
/// target as given up, and it is known what became of each attempt; and nothing is left to settle at any target: each
/// entry is committed, and so at all members of its attempt.
pub fn laws_of_unstopped_reports()
    ensures { UnstoppedOrdersEndPlainly }
{}

/// Says that a legal report tells of an attempt as unknown only by a target of the attempt that was given up,
/// as a line tells; so, where it names no target as given up, it is known what became of each attempt.
pub fn laws_of_unknown_outcomes()
    ensures given_up { UnknownIsOfGivenUp }
    ensures none { NoneUnknownWithoutGivenUp }
{}
