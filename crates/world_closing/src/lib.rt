// What any run comes to, also where snapshots are made and read, and containers aggregated: what goes on at each moment, and the legal report
// where it has ended.
#![tactic(auto)]

pub mod asked;
pub mod below;
pub mod forming;
pub mod legal;
pub mod safety;
pub mod stands;

ghost use Rattle.world_closing.specs.Causes.{LastCausesShow};
ghost use Rattle.world_closing.specs.Dates.{DatesAreApart};
ghost use Rattle.world_closing.specs.Issued.{AllEventsIssueOnce};
ghost use Rattle.world_closing.specs.Whole.{AllRunsEndLegal};

/// Says that each line of an attempt shows its cause among all lines, as a legal report asks, in a run of any script:
/// where each attempt of which an epoch counts has its line with that epoch, each that was stored at a target has one
/// which doesn't tell that space was wanting there, none was stored twice at a target or has two lines, lines stand in turn, later reads that causes name were issued their epochs, and outcomes show
/// their causes over dates. A snapshot that lacks a place shows that the opening's and those of other lines may fill
/// all; ticks are spent by attempts that have lines, those that read at snapshots among them. No attempt counts with
/// two epochs, where none was issued two.
pub fn laws_of_last_causes()
    ensures shown { LastCausesShow }
    ensures apart { DatesAreApart }
{}

/// Says that no attempt is issued two epochs, and each is issued one at most once: every event of any run keeps it,
/// what is heard of snapshots and aggregation, and turns that are cut, among them.
pub fn laws_of_issuing()
    ensures events { AllEventsIssueOnce }
{}

/// Says that where a run of any script has ended, its report is legal, and the targets stand for it: where targets
/// hold all that the opening stands for, its snapshots among it, and stops and given up targets were caused from
/// outside.
pub fn laws_of_ended_runs()
    ensures legal { AllRunsEndLegal }
{}
