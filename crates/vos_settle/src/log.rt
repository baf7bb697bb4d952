// A log on the way: the punch or the creation of a write is settled or pruned.
ghost use Rattle.std.specs.Prelude.{◌≡◌, ◌<◌, ◌+◌, true, ℕ, IfOk, OnOk, OnErr, IsErrOf, IsTrue, ⊤};
ghost use Rattle.std.specs.List.{find};
ghost use Rattle.std.specs.Option.{option_and_then, option_map};
ghost use Rattle.pmem_pages.specs.Blocks.{IsSpent};
ghost use Rattle.pmem_pages.specs.Node.{IsKey};
ghost use Rattle.pmem_tree.specs.Calls.{StagesAtMost, TooFew};
ghost use Rattle.pmem_tree_base.specs.Calls.{Goes};
ghost use Rattle.pmem_tree_base.specs.declared.refusal.TreeNo.{TreeNo};
ghost use Rattle.vos_values.specs.Keys.{IsMoment, moment_key};
ghost use Rattle.vos_values.specs.Values.{log_in};
ghost use Rattle.vos_levels.specs.Calls.{HasThing, OfThing};
ghost use Rattle.vos_levels.specs.Changes.{keeps};
ghost use Rattle.vos_levels.specs.Levels.{hung_root, things};
ghost use Rattle.vos_ilog.specs.Logs.{is_at, log_owner, mark_of};
ghost use Rattle.vos_path.specs.Writes.{IsSmall};
ghost use Rattle.vos_settle.specs.Tasks.{log_after, log_freed, noted_after, noted_freed};
ghost use Rattle.vos_settle.specs.Nodes.{Turned};
ghost use Rattle.vos_settle.specs.Costs.{Spends, for_one, noted_cost};

use crate::task::{Task, Which};
use pmem_pages::pages::Pages;
use pmem_pages::refusal::Stopped;
use pmem_pages::steps::Steps;
use pmem_tree::tree::Tree;
use pmem_tree::{TreeKey, TreeNo, Value};
use std::sync::ledger::Ledger;
use vos_ilog::ilog::Ilog;
use vos_levels::change::Change;
use vos_values::keys::{Moment, moment_key};
use vos_values::values::{LogMark, read_log};

// The key of a moment.
fn key_at(at: Moment) -> TreeKey
    requires minor { at.minor < 64 }
    ensures key { result ≡ moment_key at }
    ensures is { IsKey result }
    ensures moment { IsMoment at }
{
    moment_key(at)
}

// What a value says, if there is one and it is that of an entry.
fn mark_in(value: Option<Value>) -> Option<LogMark>
    ensures { result ≡ option_and_then log_in value }
{
    match value {
        Some(value) => read_log(&value),
        None => None,
    }
}

/// What the entry of a moment says in the log of a root, if there is one.
///
/// # Errors
///
/// `Stopped` comes only where the pages answered it.
pub fn find_mark<P: Pages, L: Ledger>(
    root: u32,
    pages: &mut P,
    at: Moment,
    steps: &mut Steps<L>,
) -> Result<Option<LogMark>, Stopped>
    requires minor { at.minor < 64 }
    requires log { HasThing P.tells log_owner hung_root (P.blocks pages.old) root (λ g. ⊤) }
    ensures found { IfOk result (λ o. OfThing P.tells log_owner hung_root (P.blocks pages.old) root (λ g. o ≡ option_map mark_of (find (is_at at) (things g)))) }
    ensures moment { IsMoment at }
    ensures kept { IsTrue P.tells → P.blocks pages.new ≡ P.blocks pages.old }
    ensures budget { P.budget pages.new ≡ P.budget pages.old }
    ensures goes { Goes P.stopped P.count P.burns pages.old pages.new }
    ensures stopped { OnErr result (P.stopped pages.new ≡ true) }
    ensures went_on { OnOk result (P.stopped pages.new ≡ P.stopped pages.old) }
{
    let key = key_at(at);
    let tree = Tree { kind: 4, root };
    Ok(mark_in(tree.get(pages, &key, steps)?))
}

/// Settles or prunes the punch of a moment in the log of a root, or the creation that an attempt has there
/// of that moment. It answers the new root.
///
/// # Errors
///
/// `TooMuch` comes only where fewer ranges or bytes are left to stage than the tree may want, `Stopped`
/// only where the pages answered it, and `NoBlock` never. After `TooMuch` fewer are left than one
/// change of the tree may want. After one the stage has to be dropped.
pub fn change_entry<P: Pages, L: Ledger>(
    root: u32,
    pages: &mut P,
    at: Moment,
    which: Which,
    change: Change,
    steps: &mut Steps<L>,
) -> Result<u32, TreeNo>
    requires minor { at.minor < 64 }
    requires log { HasThing P.tells log_owner hung_root (P.blocks pages.old) root (λ g. ⊤) }
    ensures changed { IfOk result (λ now. OfThing P.tells log_owner hung_root (P.blocks pages.old) root (λ g. Turned log_owner hung_root (P.blocks pages.old) g (P.blocks pages.new) now (λ a b. things b ≡ log_after which change at (things a)))) }
    ensures no_block { IsErrOf result TreeNo.NoBlock → ⊥ }
    ensures too_much { IsErrOf result TreeNo.TooMuch → OfThing P.tells log_owner hung_root (P.blocks pages.old) root (λ g. TooFew g.0 (P.budget pages.old)) }
    ensures few_left { IsErrOf result TreeNo.TooMuch → OfThing P.tells log_owner hung_root (P.blocks pages.old) root (λ g. TooFew g.0 (P.budget pages.new)) }
    ensures staged { OnOk result (OfThing P.tells log_owner hung_root (P.blocks pages.old) root (λ g. StagesAtMost 8 16 g.0 (P.budget pages.old) (P.budget pages.new))) }
    ensures root { keeps change ≡ true → IfOk result (λ now. now ≡ root) }
    ensures committed { keeps change ≡ true → IsSpent 1 256 (P.budget pages.old) (P.budget pages.new) }
    ensures free { OnOk result (OfThing P.tells log_owner hung_root (P.blocks pages.old) root (λ g. (P.budget pages.new).free ≡ (P.budget pages.old).free + log_freed which change at (things g))) }
    ensures goes { Goes P.stopped P.count P.burns pages.old pages.new }
    ensures stopped { IsErrOf result TreeNo.Stopped → P.stopped pages.new ≡ true }
    ensures went_on { OnOk result (P.stopped pages.new ≡ P.stopped pages.old) }
{
    let Some(mark) = find_mark(root, pages, at, steps)? else {
        return Ok(root);
    };
    if !which.is_wanted(mark.punch, mark.by) {
        return Ok(root);
    }
    let mut log = Ilog {
        tree: Tree { kind: 4, root },
    };
    log.change_at(pages, at, change, steps)?;
    Ok(log.tree.root)
}

/// Settles or prunes the creation that an update has in a log on its way. A punch has none there. It
/// answers the new root.
///
/// # Errors
///
/// As `change_entry`.
pub fn change_noted<P: Pages, L: Ledger>(
    root: u32,
    pages: &mut P,
    task: Task,
    steps: &mut Steps<L>,
) -> Result<u32, TreeNo>
    requires minor { task.at.minor < 64 }
    requires log { HasThing P.tells log_owner hung_root (P.blocks pages.old) root (λ g. ⊤) }
    ensures changed { IfOk result (λ now. OfThing P.tells log_owner hung_root (P.blocks pages.old) root (λ g. Turned log_owner hung_root (P.blocks pages.old) g (P.blocks pages.new) now (λ a b. things b ≡ noted_after task (things a)))) }
    ensures no_block { IsErrOf result TreeNo.NoBlock → ⊥ }
    ensures too_much { IsErrOf result TreeNo.TooMuch → OfThing P.tells log_owner hung_root (P.blocks pages.old) root (λ g. TooFew g.0 (P.budget pages.old)) }
    ensures few_left { IsErrOf result TreeNo.TooMuch → OfThing P.tells log_owner hung_root (P.blocks pages.old) root (λ g. TooFew g.0 (P.budget pages.new)) }
    ensures staged { OnOk result (OfThing P.tells log_owner hung_root (P.blocks pages.old) root (λ g. (d : ℕ) → IsSmall d g → Spends (noted_cost task.kind (for_one d)) (P.budget pages.old) (P.budget pages.new))) }
    ensures root { keeps task.change ≡ true → IfOk result (λ now. now ≡ root) }
    ensures committed { keeps task.change ≡ true → Spends (noted_cost task.kind 1) (P.budget pages.old) (P.budget pages.new) }
    ensures free { OnOk result (OfThing P.tells log_owner hung_root (P.blocks pages.old) root (λ g. (P.budget pages.new).free ≡ (P.budget pages.old).free + noted_freed task (things g))) }
    ensures goes { Goes P.stopped P.count P.burns pages.old pages.new }
    ensures stopped { IsErrOf result TreeNo.Stopped → P.stopped pages.new ≡ true }
    ensures went_on { OnOk result (P.stopped pages.new ≡ P.stopped pages.old) }
{
    if task.kind.is_update() {
        let which = Which::Creation(task.by);
        change_entry(root, pages, task.at, which, task.change, steps)
    } else {
        Ok(root)
    }
}
