// What becomes of an akey: its log, the versions of its single value, and its extents.
ghost use Rattle.std.specs.Prelude.{◌≡◌, ◌<◌, ◌+◌, true, ℕ, IfOk, OnOk, IsErrOf, ⊤};
ghost use Rattle.pmem_tree.specs.Calls.{IsShort};
ghost use Rattle.pmem_tree_base.specs.Calls.{Goes};
ghost use Rattle.pmem_tree_base.specs.declared.refusal.TreeNo.{TreeNo};
ghost use Rattle.vos_levels.specs.Changes.{keeps};
ghost use Rattle.vos_path.specs.Calls.{HasAt, OfAt};
ghost use Rattle.vos_path.specs.Objects.{values_owner, values_roots};
ghost use Rattle.vos_path.specs.Writes.{ValuesAreSmall};
ghost use Rattle.vos_settle.specs.declared.task.WriteKind.TheVariants.{Punch as punch_kind, Single as single_kind, Extent as extent_kind};
ghost use Rattle.vos_settle.specs.Nodes.{Turned, ValuesTurn, values_freed};
ghost use Rattle.vos_settle.specs.Costs.{Lacks, Spends, for_one, values_cost};

use crate::log::change_entry;
use crate::task::{Task, Which, WriteKind};
use pmem_pages::pages::Pages;
use pmem_pages::steps::Steps;
use pmem_tree::TreeNo;
use pmem_tree::tree::Tree;
use std::sync::ledger::Ledger;
use vos_path::below::extent::extent::Extents;
use vos_path::below::single::single::Single;
use vos_values::keys::ExtentKey;
use vos_values::values::AkeyRoots;

// The version of a single value, and then its creation in the log.
fn change_single<P: Pages, L: Ledger>(
    roots: AkeyRoots,
    pages: &mut P,
    task: Task,
    steps: &mut Steps<L>,
) -> Result<AkeyRoots, TreeNo>
    requires kind { task.kind ≡ single_kind }
    requires minor { task.at.minor < 64 }
    requires here { HasAt P.tells values_owner values_roots (P.blocks pages.old) roots (λ g. ⊤) }
    ensures changed { IfOk result (λ now. OfAt P.tells values_owner values_roots (P.blocks pages.old) roots (λ g. Turned values_owner values_roots (P.blocks pages.old) g (P.blocks pages.new) now (ValuesTurn task))) }
    ensures no_block { IsErrOf result TreeNo.NoBlock → ⊥ }
    ensures too_much { IsErrOf result TreeNo.TooMuch → OfAt P.tells values_owner values_roots (P.blocks pages.old) roots (λ g. (d : ℕ) → ValuesAreSmall d g → Lacks (values_cost task.kind (for_one d)) d (P.budget pages.old)) }
    ensures few_left { IsErrOf result TreeNo.TooMuch → OfAt P.tells values_owner values_roots (P.blocks pages.old) roots (λ g. (d : ℕ) → ValuesAreSmall d g → IsShort d (P.budget pages.new)) }
    ensures staged { OnOk result (OfAt P.tells values_owner values_roots (P.blocks pages.old) roots (λ g. (d : ℕ) → ValuesAreSmall d g → Spends (values_cost task.kind (for_one d)) (P.budget pages.old) (P.budget pages.new))) }
    ensures root { keeps task.change ≡ true → IfOk result (λ now. now ≡ roots) }
    ensures committed { keeps task.change ≡ true → Spends (values_cost task.kind 1) (P.budget pages.old) (P.budget pages.new) }
    ensures free { OnOk result (OfAt P.tells values_owner values_roots (P.blocks pages.old) roots (λ g. (P.budget pages.new).free ≡ (P.budget pages.old).free + values_freed task g)) }
    ensures goes { Goes P.stopped P.count P.burns pages.old pages.new }
    ensures stopped { IsErrOf result TreeNo.Stopped → P.stopped pages.new ≡ true }
    ensures went_on { OnOk result (P.stopped pages.new ≡ P.stopped pages.old) }
{
    let mut single = Single {
        tree: Tree {
            kind: 5,
            root: roots.singles,
        },
    };
    single.change_at(pages, task.at, task.change, steps)?;
    let which = Which::Creation(task.by);
    let log = change_entry(roots.log, pages, task.at, which, task.change, steps)?;
    Ok(AkeyRoots {
        log,
        singles: single.tree.root,
        extents: roots.extents,
    })
}

// An extent of an array, and then its creation in the log.
fn change_extent<P: Pages, L: Ledger>(
    roots: AkeyRoots,
    pages: &mut P,
    task: Task,
    low: u32,
    steps: &mut Steps<L>,
) -> Result<AkeyRoots, TreeNo>
    requires kind { task.kind ≡ extent_kind low }
    requires minor { task.at.minor < 64 }
    requires here { HasAt P.tells values_owner values_roots (P.blocks pages.old) roots (λ g. ⊤) }
    ensures changed { IfOk result (λ now. OfAt P.tells values_owner values_roots (P.blocks pages.old) roots (λ g. Turned values_owner values_roots (P.blocks pages.old) g (P.blocks pages.new) now (ValuesTurn task))) }
    ensures no_block { IsErrOf result TreeNo.NoBlock → ⊥ }
    ensures too_much { IsErrOf result TreeNo.TooMuch → OfAt P.tells values_owner values_roots (P.blocks pages.old) roots (λ g. (d : ℕ) → ValuesAreSmall d g → Lacks (values_cost task.kind (for_one d)) d (P.budget pages.old)) }
    ensures few_left { IsErrOf result TreeNo.TooMuch → OfAt P.tells values_owner values_roots (P.blocks pages.old) roots (λ g. (d : ℕ) → ValuesAreSmall d g → IsShort d (P.budget pages.new)) }
    ensures staged { OnOk result (OfAt P.tells values_owner values_roots (P.blocks pages.old) roots (λ g. (d : ℕ) → ValuesAreSmall d g → Spends (values_cost task.kind (for_one d)) (P.budget pages.old) (P.budget pages.new))) }
    ensures root { keeps task.change ≡ true → IfOk result (λ now. now ≡ roots) }
    ensures committed { keeps task.change ≡ true → Spends (values_cost task.kind 1) (P.budget pages.old) (P.budget pages.new) }
    ensures free { OnOk result (OfAt P.tells values_owner values_roots (P.blocks pages.old) roots (λ g. (P.budget pages.new).free ≡ (P.budget pages.old).free + values_freed task g)) }
    ensures goes { Goes P.stopped P.count P.burns pages.old pages.new }
    ensures stopped { IsErrOf result TreeNo.Stopped → P.stopped pages.new ≡ true }
    ensures went_on { OnOk result (P.stopped pages.new ≡ P.stopped pages.old) }
{
    let at = ExtentKey {
        low,
        epoch: task.at.epoch,
        minor: task.at.minor,
    };
    let mut extents = Extents {
        tree: Tree {
            kind: 6,
            root: roots.extents,
        },
    };
    extents.change_at(pages, at, task.change, steps)?;
    let which = Which::Creation(task.by);
    let log = change_entry(roots.log, pages, task.at, which, task.change, steps)?;
    Ok(AkeyRoots {
        log,
        singles: roots.singles,
        extents: extents.tree.root,
    })
}

// The punch of an akey.
fn change_punch<P: Pages, L: Ledger>(
    roots: AkeyRoots,
    pages: &mut P,
    task: Task,
    steps: &mut Steps<L>,
) -> Result<AkeyRoots, TreeNo>
    requires kind { task.kind ≡ punch_kind }
    requires minor { task.at.minor < 64 }
    requires here { HasAt P.tells values_owner values_roots (P.blocks pages.old) roots (λ g. ⊤) }
    ensures changed { IfOk result (λ now. OfAt P.tells values_owner values_roots (P.blocks pages.old) roots (λ g. Turned values_owner values_roots (P.blocks pages.old) g (P.blocks pages.new) now (ValuesTurn task))) }
    ensures no_block { IsErrOf result TreeNo.NoBlock → ⊥ }
    ensures too_much { IsErrOf result TreeNo.TooMuch → OfAt P.tells values_owner values_roots (P.blocks pages.old) roots (λ g. (d : ℕ) → ValuesAreSmall d g → Lacks (values_cost task.kind (for_one d)) d (P.budget pages.old)) }
    ensures few_left { IsErrOf result TreeNo.TooMuch → OfAt P.tells values_owner values_roots (P.blocks pages.old) roots (λ g. (d : ℕ) → ValuesAreSmall d g → IsShort d (P.budget pages.new)) }
    ensures staged { OnOk result (OfAt P.tells values_owner values_roots (P.blocks pages.old) roots (λ g. (d : ℕ) → ValuesAreSmall d g → Spends (values_cost task.kind (for_one d)) (P.budget pages.old) (P.budget pages.new))) }
    ensures root { keeps task.change ≡ true → IfOk result (λ now. now ≡ roots) }
    ensures committed { keeps task.change ≡ true → Spends (values_cost task.kind 1) (P.budget pages.old) (P.budget pages.new) }
    ensures free { OnOk result (OfAt P.tells values_owner values_roots (P.blocks pages.old) roots (λ g. (P.budget pages.new).free ≡ (P.budget pages.old).free + values_freed task g)) }
    ensures goes { Goes P.stopped P.count P.burns pages.old pages.new }
    ensures stopped { IsErrOf result TreeNo.Stopped → P.stopped pages.new ≡ true }
    ensures went_on { OnOk result (P.stopped pages.new ≡ P.stopped pages.old) }
{
    let log = change_entry(roots.log, pages, task.at, Which::Punch, task.change, steps)?;
    Ok(AkeyRoots {
        log,
        singles: roots.singles,
        extents: roots.extents,
    })
}

/// Settles or prunes a write of an akey: its version, and for an update its creation in the log. It
/// answers the new roots.
///
/// # Errors
///
/// `TooMuch` comes only where fewer ranges or bytes are left to stage than its entries and one change of
/// the largest tree may want, `Stopped` only where the pages answered it, and `NoBlock` never. After `TooMuch`
/// fewer are left than one change of the largest tree may want. After one the stage has to be
/// dropped.
pub fn change_values<P: Pages, L: Ledger>(
    roots: AkeyRoots,
    pages: &mut P,
    task: Task,
    steps: &mut Steps<L>,
) -> Result<AkeyRoots, TreeNo>
    requires minor { task.at.minor < 64 }
    requires here { HasAt P.tells values_owner values_roots (P.blocks pages.old) roots (λ g. ⊤) }
    ensures changed { IfOk result (λ now. OfAt P.tells values_owner values_roots (P.blocks pages.old) roots (λ g. Turned values_owner values_roots (P.blocks pages.old) g (P.blocks pages.new) now (ValuesTurn task))) }
    ensures no_block { IsErrOf result TreeNo.NoBlock → ⊥ }
    ensures too_much { IsErrOf result TreeNo.TooMuch → OfAt P.tells values_owner values_roots (P.blocks pages.old) roots (λ g. (d : ℕ) → ValuesAreSmall d g → Lacks (values_cost task.kind (for_one d)) d (P.budget pages.old)) }
    ensures few_left { IsErrOf result TreeNo.TooMuch → OfAt P.tells values_owner values_roots (P.blocks pages.old) roots (λ g. (d : ℕ) → ValuesAreSmall d g → IsShort d (P.budget pages.new)) }
    ensures staged { OnOk result (OfAt P.tells values_owner values_roots (P.blocks pages.old) roots (λ g. (d : ℕ) → ValuesAreSmall d g → Spends (values_cost task.kind (for_one d)) (P.budget pages.old) (P.budget pages.new))) }
    ensures root { keeps task.change ≡ true → IfOk result (λ now. now ≡ roots) }
    ensures committed { keeps task.change ≡ true → Spends (values_cost task.kind 1) (P.budget pages.old) (P.budget pages.new) }
    ensures free { OnOk result (OfAt P.tells values_owner values_roots (P.blocks pages.old) roots (λ g. (P.budget pages.new).free ≡ (P.budget pages.old).free + values_freed task g)) }
    ensures goes { Goes P.stopped P.count P.burns pages.old pages.new }
    ensures stopped { IsErrOf result TreeNo.Stopped → P.stopped pages.new ≡ true }
    ensures went_on { OnOk result (P.stopped pages.new ≡ P.stopped pages.old) }
{
    match task.kind {
        WriteKind::Punch => change_punch(roots, pages, task, steps),
        WriteKind::Single => change_single(roots, pages, task, steps),
        WriteKind::Extent(low) => change_extent(roots, pages, task, low, steps),
    }
}
