// A step of an entry that lists nothing.
ghost use Rattle.std.specs.Prelude.{◌≡◌, ◌≤◌, true, IsErrOf, IsTrue, OnOk};
ghost use Rattle.pmem_tree_base.specs.Calls.{Goes};
ghost use Rattle.pmem_tree_base.specs.declared.refusal.TreeNo.{TreeNo};
ghost use Rattle.vos_entries.specs.Entries.{entries_owner};
ghost use Rattle.vos_fitting.specs.Fitting.{ListNothing};
ghost use Rattle.vos_levels.specs.Calls.{HasThing, OfThing};
ghost use Rattle.vos_levels.specs.Levels.{hung_root};
ghost use Rattle.vos_fitting.specs.vos_path.Writes.{IsSmall};
ghost use Rattle.vos_small.specs.Rooms.{HasLeft, entry_bytes, entry_ranges};
ghost use Rattle.vos_small.specs.Small.{most_digits};
ghost use Rattle.vos_turns.specs.Steps.{EntryTurn, StandsUnlisted};
ghost use Rattle.vos_turns.specs.Turns.{IsEntryStep};

use base_types::epoch::TargetId;
use base_types::id::AttemptId;
use pmem_pages::pages::Pages;
use pmem_pages::steps::Steps;
use pmem_tree::TreeNo;
use std::sync::ledger::Ledger;
use vos_entries::entries::EntryTree;

/// What becomes of the entry of an attempt, where there is one.
#[derive(Clone, Copy)]
pub enum EntryStep {
    Keep,
    Commit,
    Confirm(TargetId),
    Remove,
}

// The step of an entry.
pub(crate) fn step_entry<P: Pages, L: Ledger>(
    entries: &mut EntryTree,
    pages: &mut P,
    attempt: AttemptId,
    step: EntryStep,
    steps: &mut Steps<L>,
) -> Result<(), TreeNo>
    requires kind { entries.old.tree.kind ≡ 7 }
    requires step { IsEntryStep step }
    requires here { HasThing P.tells entries_owner hung_root (P.blocks pages.old) entries.old.tree.root StandsUnlisted }
    requires room { IsTrue P.tells → HasLeft entry_ranges entry_bytes (P.budget pages.old) }
    ensures stepped { OnOk result (OfThing P.tells entries_owner hung_root (P.blocks pages.old) entries.old.tree.root (λ g. StandsUnlisted g → EntryTurn step attempt (P.blocks pages.old) g (P.blocks pages.new) entries.new.tree.root)) }
    ensures kind { entries.new.tree.kind ≡ 7 }
    ensures no_block { IsErrOf result TreeNo.NoBlock → IsTrue P.tells → ⊥ }
    ensures too_much { IsErrOf result TreeNo.TooMuch → IsTrue P.tells → ⊥ }
    ensures left { OnOk result (IsTrue P.tells → HasLeft 1 24 (P.budget pages.new)) }
    ensures free { OnOk result (IsTrue P.tells → (P.budget pages.old).free ≤ (P.budget pages.new).free) }
    ensures goes { Goes P.stopped P.count P.burns pages.old pages.new }
    ensures stopped { IsErrOf result TreeNo.Stopped → P.stopped pages.new ≡ true }
    ensures went_on { OnOk result (P.stopped pages.new ≡ P.stopped pages.old) }
{
    match step {
        EntryStep::Keep => Ok(()),
        EntryStep::Commit => entries.commit(pages, attempt, steps),
        EntryStep::Confirm(target) => entries.confirm(pages, attempt, target, steps),
        EntryStep::Remove => entries.remove(pages, attempt, steps),
    }
}
