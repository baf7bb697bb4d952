// What a tree on the way says of a key.
ghost use Rattle.std.specs.Prelude.{◌≡◌, true, IfOk, OnOk, OnErr, IsTrue, ⊤};
ghost use Rattle.std.specs.Option.{option_and_then};
ghost use Rattle.pmem_pages.specs.Node.{IsKey, IsKind};
ghost use Rattle.pmem_pages.specs.Shape.{entries, entry_at};
ghost use Rattle.pmem_tree.specs.Calls.{HasTree, OfTree, StepsAtMost};
ghost use Rattle.pmem_tree_base.specs.Calls.{Goes};
ghost use Rattle.pmem_tree_base.specs.Find.{value_of};
ghost use Rattle.vos_values.specs.Values.{akey_in, roots_in};
ghost use Rattle.vos_path.specs.Calls.{akey_or_zero, roots_or_zero};

use pmem_pages::node::{TreeKey, Value};
use pmem_pages::pages::Pages;
use pmem_pages::refusal::Stopped;
use pmem_pages::steps::Steps;
use pmem_tree::tree::Tree;
use std::sync::ledger::Ledger;
use vos_values::values::{AkeyRoots, Roots, read_akey, read_roots};

// The roots that a value says, if there is one and it says them.
fn akey_in(value: Option<Value>) -> Option<AkeyRoots>
    ensures { result ≡ option_and_then akey_in value }
{
    match value {
        Some(value) => read_akey(&value),
        None => None,
    }
}

// The roots that a value says, if there is one and it says them.
fn roots_in(value: Option<Value>) -> Option<Roots>
    ensures { result ≡ option_and_then roots_in value }
{
    match value {
        Some(value) => read_roots(&value),
        None => None,
    }
}

/// The roots of an akey, or of empty trees.
pub fn akey_or_zero(roots: Option<AkeyRoots>) -> AkeyRoots
    ensures { result ≡ akey_or_zero roots }
{
    match roots {
        Some(roots) => roots,
        None => AkeyRoots {
            log: 0,
            singles: 0,
            extents: 0,
        },
    }
}

/// The roots of an object or a dkey, or of empty trees.
pub fn roots_or_zero(roots: Option<Roots>) -> Roots
    ensures { result ≡ roots_or_zero roots }
{
    match roots {
        Some(roots) => roots,
        None => Roots { log: 0, below: 0 },
    }
}

/// The roots of the akey at a key, if it is there.
///
/// # Errors
///
/// `Stopped` comes only where the pages answered it.
pub fn find_akey<P: Pages, L: Ledger>(
    akeys: Tree,
    pages: &mut P,
    key: &TreeKey,
    steps: &mut Steps<L>,
) -> Result<Option<AkeyRoots>, Stopped>
    requires kind { IsKind akeys.kind }
    requires key { IsKey key.now }
    requires tree { HasTree P.tells (P.blocks pages.old) akeys.kind akeys.root (λ t. ⊤) }
    ensures found { IfOk result (λ x. OfTree P.tells (P.blocks pages.old) akeys.kind akeys.root (λ t. x ≡ option_and_then akey_in (value_of (entry_at key.now (entries t))))) }
    ensures steps { OfTree P.tells (P.blocks pages.old) akeys.kind akeys.root (λ t. StepsAtMost 2 0 t steps.old steps.new) }
    ensures kept { IsTrue P.tells → P.blocks pages.new ≡ P.blocks pages.old }
    ensures budget { P.budget pages.new ≡ P.budget pages.old }
    ensures goes { Goes P.stopped P.count P.burns pages.old pages.new }
    ensures stopped { OnErr result (P.stopped pages.new ≡ true) }
    ensures went_on { OnOk result (P.stopped pages.new ≡ P.stopped pages.old) }
{
    Ok(akey_in(akeys.get(pages, key, steps)?))
}

/// The roots of the object or the dkey at a key, if it is there.
///
/// # Errors
///
/// `Stopped` comes only where the pages answered it.
pub fn find_roots<P: Pages, L: Ledger>(
    tree: Tree,
    pages: &mut P,
    key: &TreeKey,
    steps: &mut Steps<L>,
) -> Result<Option<Roots>, Stopped>
    requires kind { IsKind tree.kind }
    requires key { IsKey key.now }
    requires tree { HasTree P.tells (P.blocks pages.old) tree.kind tree.root (λ t. ⊤) }
    ensures found { IfOk result (λ x. OfTree P.tells (P.blocks pages.old) tree.kind tree.root (λ t. x ≡ option_and_then roots_in (value_of (entry_at key.now (entries t))))) }
    ensures steps { OfTree P.tells (P.blocks pages.old) tree.kind tree.root (λ t. StepsAtMost 2 0 t steps.old steps.new) }
    ensures kept { IsTrue P.tells → P.blocks pages.new ≡ P.blocks pages.old }
    ensures budget { P.budget pages.new ≡ P.budget pages.old }
    ensures goes { Goes P.stopped P.count P.burns pages.old pages.new }
    ensures stopped { OnErr result (P.stopped pages.new ≡ true) }
    ensures went_on { OnOk result (P.stopped pages.new ≡ P.stopped pages.old) }
{
    Ok(roots_in(tree.get(pages, key, steps)?))
}
