// Members confirm commits.
ghost use Rattle.std.specs.Prelude.{◌≡◌, ◌<◌, find, IsTrue};
ghost use Rattle.daos_model.specs.Durables.{is_entry_of};
ghost use Rattle.dtx_base.specs.Leading.{all_confirmed_by, confirmed_by, may_confirm};

use base_types::entry::Settle;
use base_types::epoch::TargetId;
use base_types::id::AttemptId;
use dtx_table::bits::has_target;
use dtx_table::table::Table;

// Whether a commit is one that a target may confirm: the entry is committed, and it is a member.
fn may_confirm(table: &Table, member: TargetId, attempt: AttemptId) -> bool
    ensures is { result ≡ may_confirm member (find (is_entry_of attempt) table.now) }
    ensures within { IsTrue result → member < 64 }
{
    match table.state(attempt) {
        None => false,
        Some(entry) => entry.committed && has_target(entry.members, member),
    }
}

// A target confirms the commit of an attempt, where it is committed and the target a member.
#[tactic(auto, unfolding(dtx_table::specs::Tables::entries_settled))]
fn confirm(table: &mut Table, member: TargetId, attempt: AttemptId)
    ensures { table.new ≡ confirmed_by member attempt table.old }
{
    if may_confirm(table, member, attempt) {
        table.settle(attempt, Settle::Confirm(member));
    }
}

/// It confirms each of these.
pub fn confirm_all(table: &mut Table, member: TargetId, attempts: &[AttemptId])
    ensures { table.new ≡ all_confirmed_by member attempts.now table.old }
{
    for attempt in attempts {
        confirm(table, member, *attempt);
    }
}
