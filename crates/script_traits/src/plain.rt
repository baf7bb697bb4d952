// Scripts without snapshots.
ghost use Rattle.std.specs.Prelude.{◌≡◌};
ghost use Rattle.std.specs.List.{list_all};
ghost use Rattle.script_traits.specs.Plain.{are_plain, is_plain, is_plain_command};

use base_types::script::{Command, Commands, Script};

// Whether a command makes no snapshot, reads at none, and aggregates nothing.
fn is_plain_command(command: &Command) -> bool
    ensures { result ≡ is_plain_command command.now }
{
    match command {
        Command::Run { snapshot, .. } => snapshot.is_none(),
        Command::Tell { .. } | Command::Skip { .. } => true,
        Command::Snap { .. } | Command::Aggregate { .. } => false,
    }
}

fn are_plain(list: &[Command]) -> bool
    ensures { result ≡ are_plain list.now }
{
    list.iter().all(|command| is_plain_command(command))
}

fn lists_are_plain(lists: &[Commands]) -> bool
    ensures { result ≡ list_all are_plain lists.now }
{
    lists.iter().all(|list| are_plain(list.as_slice()))
}

/// Whether a script is one without snapshots: it names none of before, and so drops none, and its clients
/// run transactions that read at none, tell their trackers, and skip turns.
#[tactic(auto, unfolding(crate::specs::Plain::is_plain))]
pub fn is_plain(script: &Script) -> bool
    ensures { result ≡ is_plain script.now }
{
    script.olds.is_empty() && lists_are_plain(script.clients.as_slice())
}
