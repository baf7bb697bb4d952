// A log on the way: an entry comes into it.
ghost use Rattle.std.specs.Prelude.{◌≡◌, ℕ, ◌<◌, ◌≤◌, ◌+◌, true, false, IfOk, OnOk, IsErrOf};
ghost use Rattle.pmem_pages.specs.Node.{IsKey, IsValue};
ghost use Rattle.pmem_tree.specs.Calls.{StagesAtMost, TooFew};
ghost use Rattle.pmem_tree_base.specs.Calls.{Goes};
ghost use Rattle.pmem_tree_base.specs.declared.refusal.TreeNo.{TreeNo};
ghost use Rattle.vos_extent.specs.vos_levels.Calls.{Becomes, HasThing, OfThing};
ghost use Rattle.vos_extent.specs.vos_levels.Levels.{hung_root, things};
ghost use Rattle.vos_values.specs.Keys.{IsAttempt, IsMoment, moment_key};
ghost use Rattle.vos_ilog.specs.Logs.{log_owner, value_of_entry};
ghost use Rattle.vos_path.specs.Calls.{SpendsAtMost, for_pair};
ghost use Rattle.vos_path.specs.Writes.{IsNoted, IsNotedIf, IsSmall, fresh_entry, has_punch_at, is_update, log_pairs};

use crate::stamp::Stamp;
use base_types::operation::Write;
use pmem_pages::pages::Pages;
use pmem_pages::steps::Steps;
use pmem_tree::tree::Tree;
use pmem_tree::{TreeKey, TreeNo, Value};
use std::sync::ledger::Ledger;
use vos_values::keys::{Moment, moment_key};
use vos_values::values::{LogMark, log_value};

// The key of a moment.
fn key_at(at: Moment) -> TreeKey
    requires minor { at.minor < 64 }
    ensures key { result ≡ moment_key at }
    ensures is { IsKey result }
    ensures moment { IsMoment at }
{
    moment_key(at)
}

// The value of an entry that is not settled yet.
fn value_of(stamp: Stamp, punch: bool) -> Value
    ensures value { result ≡ value_of_entry (fresh_entry stamp punch) }
    ensures is { IsValue 4 result }
    ensures by { IsAttempt stamp.by }
{
    log_value(LogMark {
        punch,
        done: false,
        by: stamp.by,
    })
}

/// Notes a punch or a creation in the log of a root, which has no punch of its moment; a creation of that
/// moment gives way. It answers the new root.
///
/// # Errors
///
/// `NoBlock` comes only where no block is free. `TooMuch` comes only where fewer ranges or bytes are left
/// to stage than the tree may want, and `Stopped` only where the pages answered it. After `TooMuch`
/// fewer are left than one change of the tree may want. After one the stage has to be dropped.
pub fn note<P: Pages, L: Ledger>(
    root: u32,
    pages: &mut P,
    stamp: Stamp,
    punch: bool,
    steps: &mut Steps<L>,
) -> Result<u32, TreeNo>
    requires minor { stamp.at.minor < 64 }
    requires log { HasThing P.tells log_owner hung_root (P.blocks pages.old) root (λ g. has_punch_at stamp.at (things g) ≡ false) }
    ensures noted { IfOk result (λ now. OfThing P.tells log_owner hung_root (P.blocks pages.old) root (λ g. has_punch_at stamp.at (things g) ≡ false → Becomes log_owner hung_root things (P.blocks pages.old) g (P.blocks pages.new) now (IsNoted (fresh_entry stamp punch)))) }
    ensures no_block { IsErrOf result TreeNo.NoBlock → (P.budget pages.old).free < 1 }
    ensures too_much { IsErrOf result TreeNo.TooMuch → OfThing P.tells log_owner hung_root (P.blocks pages.old) root (λ g. TooFew g.0 (P.budget pages.old)) }
    ensures few_left { IsErrOf result TreeNo.TooMuch → OfThing P.tells log_owner hung_root (P.blocks pages.old) root (λ g. TooFew g.0 (P.budget pages.new)) }
    ensures staged { OnOk result (OfThing P.tells log_owner hung_root (P.blocks pages.old) root (λ g. StagesAtMost 4 8 g.0 (P.budget pages.old) (P.budget pages.new))) }
    ensures free { OnOk result ((P.budget pages.old).free ≤ (P.budget pages.new).free + 1) }
    ensures goes { Goes P.stopped P.count P.burns pages.old pages.new }
    ensures stopped { IsErrOf result TreeNo.Stopped → P.stopped pages.new ≡ true }
    ensures went_on { OnOk result (P.stopped pages.new ≡ P.stopped pages.old) }
{
    let key = key_at(stamp.at);
    let value = value_of(stamp, punch);
    let mut tree = Tree { kind: 4, root };
    tree.set(pages, &key, &value, steps)?;
    Ok(tree.root)
}

// Whether a write is an update, and no punch.
fn is_update(write: &Write) -> bool
    ensures { result ≡ is_update write.now }
{
    matches!(write, Write::Single(_, _) | Write::Extent(_, _, _))
}

/// Notes a creation in a log on the way of an update. A punch leaves the log as it is.
///
/// # Errors
///
/// As `note`.
pub fn note_update<P: Pages, L: Ledger>(
    root: u32,
    pages: &mut P,
    stamp: Stamp,
    write: &Write,
    steps: &mut Steps<L>,
) -> Result<u32, TreeNo>
    requires minor { stamp.at.minor < 64 }
    requires log { HasThing P.tells log_owner hung_root (P.blocks pages.old) root (λ g. has_punch_at stamp.at (things g) ≡ false) }
    ensures noted { IfOk result (λ now. OfThing P.tells log_owner hung_root (P.blocks pages.old) root (λ g. has_punch_at stamp.at (things g) ≡ false → Becomes log_owner hung_root things (P.blocks pages.old) g (P.blocks pages.new) now (IsNotedIf (is_update write.now) (fresh_entry stamp false)))) }
    ensures no_block { IsErrOf result TreeNo.NoBlock → (P.budget pages.old).free < log_pairs write.now 1 }
    ensures too_much { IsErrOf result TreeNo.TooMuch → OfThing P.tells log_owner hung_root (P.blocks pages.old) root (λ g. TooFew g.0 (P.budget pages.old)) }
    ensures few_left { IsErrOf result TreeNo.TooMuch → OfThing P.tells log_owner hung_root (P.blocks pages.old) root (λ g. TooFew g.0 (P.budget pages.new)) }
    ensures staged { OnOk result (OfThing P.tells log_owner hung_root (P.blocks pages.old) root (λ g. (d : ℕ) → IsSmall d g → SpendsAtMost 0 (log_pairs write.now (for_pair d)) (P.budget pages.old) (P.budget pages.new))) }
    ensures free { OnOk result ((P.budget pages.old).free ≤ (P.budget pages.new).free + log_pairs write.now 1) }
    ensures goes { Goes P.stopped P.count P.burns pages.old pages.new }
    ensures stopped { IsErrOf result TreeNo.Stopped → P.stopped pages.new ≡ true }
    ensures went_on { OnOk result (P.stopped pages.new ≡ P.stopped pages.old) }
{
    if is_update(write) {
        note(root, pages, stamp, false, steps)
    } else {
        Ok(root)
    }
}
