// Roots that a value says, where they became others.
ghost use Rattle.std.specs.Prelude.{◌≡◌, ◌⊎◌, ◌<◌, true, Some, OnOk, IsErrOf};
ghost use Rattle.pmem_pages.specs.Blocks.{IsSpent};
ghost use Rattle.pmem_pages.specs.Node.{IsKey, IsKind, IsValue};
ghost use Rattle.pmem_pages.specs.Shape.{Entry, entries, entry_at};
ghost use Rattle.pmem_tree.specs.Calls.{HasTree, OfTree};
ghost use Rattle.pmem_tree.specs.Changes.{Puts};
ghost use Rattle.pmem_tree_base.specs.Calls.{Goes};
ghost use Rattle.pmem_tree_base.specs.declared.refusal.TreeNo.{TreeNo};
ghost use Rattle.vos_settle.specs.Nodes.{are_akey_roots, are_roots};

use pmem_pages::node::{TreeKey, Value};
use pmem_pages::pages::Pages;
use pmem_pages::steps::Steps;
use pmem_tree::TreeNo;
use pmem_tree::tree::Tree;
use std::sync::ledger::Ledger;
use vos_values::values::{AkeyRoots, Roots};

/// Whether the roots of an akey are these.
pub fn are_akey_roots(one: AkeyRoots, other: AkeyRoots) -> bool
    ensures { result ≡ are_akey_roots one other }
{
    one.log == other.log && one.singles == other.singles && one.extents == other.extents
}

/// Whether the roots of a dkey or an object are these.
pub fn are_roots(one: Roots, other: Roots) -> bool
    ensures { result ≡ are_roots one other }
{
    one.log == other.log && one.below == other.below
}

/// Puts a value at a key that the tree has, unless it is known to be there already.
///
/// # Errors
///
/// `TooMuch` comes only where no range or fewer than 256 bytes are left to stage. After it no more are left.
/// `Stopped` comes only where the pages answered it, and `NoBlock` never.
pub fn put_unless<P: Pages, L: Ledger>(
    tree: &mut Tree,
    pages: &mut P,
    key: &TreeKey,
    value: &Value,
    had: bool,
    steps: &mut Steps<L>,
) -> Result<(), TreeNo>
    requires kind { IsKind tree.old.kind }
    requires key { IsKey key.now }
    requires value { IsValue tree.old.kind value.now }
    requires tree { HasTree P.tells (P.blocks pages.old) tree.old.kind tree.old.root (λ t. (e : Entry) × (entry_at key.now (entries t) ≡ Some e)) }
    ensures put { OnOk result (OfTree P.tells (P.blocks pages.old) tree.old.kind tree.old.root (λ t. (e : Entry) → entry_at key.now (entries t) ≡ Some e → (had ≡ true → e.value ≡ value.now) → Puts (P.blocks pages.old) tree.old.kind t key.now value.now (P.blocks pages.new) tree.new.root)) }
    ensures kept { tree.new ≡ tree.old }
    ensures no_block { IsErrOf result TreeNo.NoBlock → ⊥ }
    ensures too_much { IsErrOf result TreeNo.TooMuch → ((P.budget pages.old).ranges < 1) ⊎ ((P.budget pages.old).bytes < 256) }
    ensures few_left { IsErrOf result TreeNo.TooMuch → ((P.budget pages.new).ranges < 1) ⊎ ((P.budget pages.new).bytes < 256) }
    ensures staged { IsSpent 1 256 (P.budget pages.old) (P.budget pages.new) }
    ensures had { had ≡ true → P.budget pages.new ≡ P.budget pages.old }
    ensures free { (P.budget pages.new).free ≡ (P.budget pages.old).free }
    ensures goes { Goes P.stopped P.count P.burns pages.old pages.new }
    ensures stopped { IsErrOf result TreeNo.Stopped → P.stopped pages.new ≡ true }
    ensures went_on { OnOk result (P.stopped pages.new ≡ P.stopped pages.old) }
{
    if had {
        return Ok(());
    }
    tree.put_value(pages, key, value, steps)
}
