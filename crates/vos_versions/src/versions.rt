// Versions in a tree, whichever keys they have, with a chain of bytes for each.
ghost use Rattle.std.specs.Prelude.{◌≡◌, ◌⊎◌, ◌≤◌, ◌<◌, ◌+◌, true, Some, None, IfOk, OnOk, OnErr, IsErrOf, IsTrue, IfSome, length};
ghost use Rattle.std.specs.Option.{option_and_then};
ghost use Rattle.pmem_pages.specs.Blocks.{Blocks, IsSpent};
ghost use Rattle.pmem_pages.specs.Node.{IsKey};
ghost use Rattle.pmem_pages.specs.Shape.{Entry, Shape, IsTree, entries, entry_at};
ghost use Rattle.vos_chain.specs.pmem_tree.Calls.{HasTree, OfTree, StepsAtMost, TooFew};
ghost use Rattle.vos_chain.specs.pmem_tree.Changes.{Puts};
ghost use Rattle.vos_chain.specs.pmem_tree_base.Calls.{Goes};
ghost use Rattle.vos_chain.specs.pmem_tree_base.declared.refusal.TreeNo.{TreeNo};
ghost use Rattle.vos_chain.specs.vos_values.Keys.{IsAttempt};
ghost use Rattle.vos_chain.specs.vos_values.Values.{version_in, version_value};
ghost use Rattle.vos_chain.specs.vos_levels.Changes.{keeps};
ghost use Rattle.vos_chain.specs.Made.{chain_blocks};
ghost use Rattle.vos_versions.specs.Marks.{Adds, Changes, Drops, HasBytes, HasBytesAt, IsVersionKind, StagesFor, StagesLess, TooFewFor, done_mark, freed_of, mark_at};

use base_types::id::AttemptId;
use pmem_pages::pages::Pages;
use pmem_pages::refusal::Stopped;
use pmem_pages::steps::Steps;
use std::sync::ledger::Ledger;
use vos_chain::below::levels::change::Change;
use vos_chain::below::tree::tree::Tree;
use vos_chain::below::tree::{TreeKey, TreeNo, Value};
use vos_chain::below::values::values::{VersionMark, read_version, version_value};
use vos_chain::chain::{give_chain, write_chain};

// The attempt, which is one.
fn attempt_of(by: AttemptId) -> AttemptId
    ensures same { result ≡ by }
    ensures is { IsAttempt by }
{
    by
}

// What a value says, if there is one and it is that of a version.
fn mark_in(value: Option<Value>) -> Option<VersionMark>
    ensures { result ≡ option_and_then version_in value }
{
    match value {
        Some(value) => read_version(&value),
        None => None,
    }
}

/// Adds an unsettled version with its bytes, where there is none at its key.
///
/// # Errors
///
/// `NoBlock` comes only where fewer blocks are free than the bytes need and one more. `TooMuch` comes
/// only where fewer ranges or bytes are left to stage than the chain and the tree may want, and
/// `Stopped` only where the pages answered it. After `TooMuch` fewer are left than one change of
/// the tree may want. After one the stage has to be dropped.
pub fn add<P: Pages, L: Ledger>(
    tree: &mut Tree,
    pages: &mut P,
    key: &TreeKey,
    by: AttemptId,
    bytes: &[u8],
    steps: &mut Steps<L>,
) -> Result<(), TreeNo>
    requires kind { IsVersionKind tree.old.kind }
    requires key { IsKey key.now }
    requires some { 1 ≤ length bytes.now }
    requires most { length bytes.now ≤ 1024 }
    requires tree { HasTree P.tells (P.blocks pages.old) tree.old.kind tree.old.root (λ t. entry_at key.now (entries t) ≡ None) }
    ensures added { OnOk result (OfTree P.tells (P.blocks pages.old) tree.old.kind tree.old.root (λ t. entry_at key.now (entries t) ≡ None → Adds (P.blocks pages.old) tree.old.kind t key.now by bytes.now (P.blocks pages.new) tree.new.root)) }
    ensures by { IsAttempt by }
    ensures kind { tree.new.kind ≡ tree.old.kind }
    ensures no_block { IsErrOf result TreeNo.NoBlock → (P.budget pages.old).free < chain_blocks (length bytes.now) + 1 }
    ensures too_much { IsErrOf result TreeNo.TooMuch → OfTree P.tells (P.blocks pages.old) tree.old.kind tree.old.root (λ t. entry_at key.now (entries t) ≡ None → TooFewFor (chain_blocks (length bytes.now)) t (P.budget pages.old)) }
    ensures few_left { IsErrOf result TreeNo.TooMuch → OfTree P.tells (P.blocks pages.old) tree.old.kind tree.old.root (λ t. entry_at key.now (entries t) ≡ None → TooFew t (P.budget pages.new)) }
    ensures steps { OfTree P.tells (P.blocks pages.old) tree.old.kind tree.old.root (λ t. StepsAtMost 16 16 t steps.old steps.new) }
    ensures staged { OnOk result (OfTree P.tells (P.blocks pages.old) tree.old.kind tree.old.root (λ t. entry_at key.now (entries t) ≡ None → StagesFor (chain_blocks (length bytes.now)) t (P.budget pages.old) (P.budget pages.new))) }
    ensures free { OnOk result ((P.budget pages.new).free + (chain_blocks (length bytes.now) + 1) ≡ (P.budget pages.old).free) }
    ensures goes { Goes P.stopped P.count P.burns pages.old pages.new }
    ensures stopped { IsErrOf result TreeNo.Stopped → P.stopped pages.new ≡ true }
    ensures went_on { OnOk result (P.stopped pages.new ≡ P.stopped pages.old) }
{
    let chain = write_chain(pages, bytes)?;
    let value = version_value(VersionMark {
        done: false,
        by: attempt_of(by),
        length: bytes.len() as u16,
        chain,
    });
    tree.insert(pages, key, &value, steps)
}

/// What the version at a key says, if there is one.
///
/// # Errors
///
/// `Stopped` comes only where the pages answered it.
pub fn find_mark<P: Pages, L: Ledger>(
    tree: Tree,
    pages: &mut P,
    key: &TreeKey,
    steps: &mut Steps<L>,
) -> Result<Option<VersionMark>, Stopped>
    requires kind { IsVersionKind tree.kind }
    requires key { IsKey key.now }
    requires tree { IsTrue P.tells → (t : Shape) × IsTree (P.blocks pages.old) tree.kind tree.root t }
    ensures found { IfOk result (λ o. OfTree P.tells (P.blocks pages.old) tree.kind tree.root (λ t. o ≡ mark_at key.now (entries t))) }
    ensures short { IfOk result (λ o. IfSome o (λ k. k.length ≤ 1024)) }
    ensures steps { OfTree P.tells (P.blocks pages.old) tree.kind tree.root (λ t. StepsAtMost 2 0 t steps.old steps.new) }
    ensures kept { IsTrue P.tells → P.blocks pages.new ≡ P.blocks pages.old }
    ensures budget { P.budget pages.new ≡ P.budget pages.old }
    ensures goes { Goes P.stopped P.count P.burns pages.old pages.new }
    ensures stopped { OnErr result (P.stopped pages.new ≡ true) }
    ensures went_on { OnOk result (P.stopped pages.new ≡ P.stopped pages.old) }
{
    Ok(mark_in(tree.get(pages, key, steps)?))
}

// The version at a key becomes done.
fn put_done<P: Pages, L: Ledger>(
    tree: &mut Tree,
    pages: &mut P,
    key: &TreeKey,
    mark: VersionMark,
    steps: &mut Steps<L>,
) -> Result<(), TreeNo>
    requires kind { IsVersionKind tree.old.kind }
    requires key { IsKey key.now }
    requires tree { HasTree P.tells (P.blocks pages.old) tree.old.kind tree.old.root (λ t. (e : Entry) × (entry_at key.now (entries t) ≡ Some e)) }
    ensures put { OnOk result (OfTree P.tells (P.blocks pages.old) tree.old.kind tree.old.root (λ t. (e : Entry) → entry_at key.now (entries t) ≡ Some e → Puts (P.blocks pages.old) tree.old.kind t key.now (version_value (done_mark mark)) (P.blocks pages.new) tree.new.root)) }
    ensures kept { tree.new ≡ tree.old }
    ensures no_block { IsErrOf result TreeNo.NoBlock → ⊥ }
    ensures too_much { IsErrOf result TreeNo.TooMuch → ((P.budget pages.old).ranges < 1) ⊎ ((P.budget pages.old).bytes < 256) }
    ensures few_left { IsErrOf result TreeNo.TooMuch → ((P.budget pages.new).ranges < 1) ⊎ ((P.budget pages.new).bytes < 256) }
    ensures steps { OfTree P.tells (P.blocks pages.old) tree.old.kind tree.old.root (λ t. StepsAtMost 16 16 t steps.old steps.new) }
    ensures staged { IsSpent 1 256 (P.budget pages.old) (P.budget pages.new) }
    ensures free { (P.budget pages.new).free ≡ (P.budget pages.old).free }
    ensures goes { Goes P.stopped P.count P.burns pages.old pages.new }
    ensures stopped { IsErrOf result TreeNo.Stopped → P.stopped pages.new ≡ true }
    ensures went_on { OnOk result (P.stopped pages.new ≡ P.stopped pages.old) }
{
    let value = version_value(VersionMark {
        done: true,
        by: mark.by,
        length: mark.length,
        chain: mark.chain,
    });
    tree.put_value(pages, key, &value, steps)
}

// The version at a key goes, and then its bytes.
fn drop_at<P: Pages, L: Ledger>(
    tree: &mut Tree,
    pages: &mut P,
    key: &TreeKey,
    mark: VersionMark,
    steps: &mut Steps<L>,
) -> Result<(), TreeNo>
    requires kind { IsVersionKind tree.old.kind }
    requires key { IsKey key.now }
    requires short { mark.length ≤ 1024 }
    requires tree { HasTree P.tells (P.blocks pages.old) tree.old.kind tree.old.root (λ t. ((e : Entry) × (entry_at key.now (entries t) ≡ Some e)) × HasBytes (P.blocks pages.old) t mark) }
    ensures dropped { OnOk result (OfTree P.tells (P.blocks pages.old) tree.old.kind tree.old.root (λ t. (e : Entry) → entry_at key.now (entries t) ≡ Some e → Drops (P.blocks pages.old) tree.old.kind t key.now mark e (P.blocks pages.new) tree.new.root)) }
    ensures kind { tree.new.kind ≡ tree.old.kind }
    ensures no_block { IsErrOf result TreeNo.NoBlock → ⊥ }
    ensures too_much { IsErrOf result TreeNo.TooMuch → OfTree P.tells (P.blocks pages.old) tree.old.kind tree.old.root (λ t. (e : Entry) → entry_at key.now (entries t) ≡ Some e → TooFew t (P.budget pages.old)) }
    ensures few_left { IsErrOf result TreeNo.TooMuch → OfTree P.tells (P.blocks pages.old) tree.old.kind tree.old.root (λ t. (e : Entry) → entry_at key.now (entries t) ≡ Some e → TooFew t (P.budget pages.new)) }
    ensures steps { OfTree P.tells (P.blocks pages.old) tree.old.kind tree.old.root (λ t. StepsAtMost 16 21 t steps.old steps.new) }
    ensures staged { OnOk result (OfTree P.tells (P.blocks pages.old) tree.old.kind tree.old.root (λ t. StagesLess t (P.budget pages.old) (P.budget pages.new))) }
    ensures free { OnOk result (IsTrue P.tells → (P.budget pages.new).free ≡ (P.budget pages.old).free + (chain_blocks mark.length + 1)) }
    ensures goes { Goes P.stopped P.count P.burns pages.old pages.new }
    ensures stopped { IsErrOf result TreeNo.Stopped → P.stopped pages.new ≡ true }
    ensures went_on { OnOk result (P.stopped pages.new ≡ P.stopped pages.old) }
{
    tree.remove(pages, key, steps)?;
    give_chain(pages, mark.chain, mark.length, steps)
}

/// Settles or prunes the version at a key: a commit makes it done, where it is an unsettled one of the
/// attempt; an abort removes such a one with its bytes, and a prune one that is done. Any other version
/// stays.
///
/// # Errors
///
/// `TooMuch` comes only where fewer ranges or bytes are left to stage than the tree may want, `Stopped`
/// only where the pages answered it, and `NoBlock` never. After `TooMuch` fewer are left than one
/// change of the tree may want. After one the stage has to be dropped.
pub fn change_at<P: Pages, L: Ledger>(
    tree: &mut Tree,
    pages: &mut P,
    key: &TreeKey,
    change: Change,
    steps: &mut Steps<L>,
) -> Result<(), TreeNo>
    requires kind { IsVersionKind tree.old.kind }
    requires key { IsKey key.now }
    requires tree { HasTree P.tells (P.blocks pages.old) tree.old.kind tree.old.root (λ t. HasBytesAt (P.blocks pages.old) t key.now) }
    ensures changed { OnOk result (OfTree P.tells (P.blocks pages.old) tree.old.kind tree.old.root (λ t. Changes change (mark_at key.now (entries t)) (P.blocks pages.old) tree.old.kind t key.now (P.blocks pages.new) tree.new.root)) }
    ensures kind { tree.new.kind ≡ tree.old.kind }
    ensures no_block { IsErrOf result TreeNo.NoBlock → ⊥ }
    ensures too_much { IsErrOf result TreeNo.TooMuch → OfTree P.tells (P.blocks pages.old) tree.old.kind tree.old.root (λ t. TooFew t (P.budget pages.old)) }
    ensures few_left { IsErrOf result TreeNo.TooMuch → OfTree P.tells (P.blocks pages.old) tree.old.kind tree.old.root (λ t. TooFew t (P.budget pages.new)) }
    ensures steps { OfTree P.tells (P.blocks pages.old) tree.old.kind tree.old.root (λ t. StepsAtMost 18 21 t steps.old steps.new) }
    ensures staged { OnOk result (OfTree P.tells (P.blocks pages.old) tree.old.kind tree.old.root (λ t. StagesLess t (P.budget pages.old) (P.budget pages.new))) }
    ensures root { keeps change ≡ true → tree.new.root ≡ tree.old.root }
    ensures committed { keeps change ≡ true → IsSpent 1 256 (P.budget pages.old) (P.budget pages.new) }
    ensures free { OnOk result (OfTree P.tells (P.blocks pages.old) tree.old.kind tree.old.root (λ t. (P.budget pages.new).free ≡ (P.budget pages.old).free + freed_of change (mark_at key.now (entries t)))) }
    ensures goes { Goes P.stopped P.count P.burns pages.old pages.new }
    ensures stopped { IsErrOf result TreeNo.Stopped → P.stopped pages.new ≡ true }
    ensures went_on { OnOk result (P.stopped pages.new ≡ P.stopped pages.old) }
{
    let Some(mark) = find_mark(*tree, pages, key, steps)? else {
        return Ok(());
    };
    if !change.takes(mark.by, mark.done) {
        return Ok(());
    }
    if change.keeps() {
        put_done(tree, pages, key, mark, steps)
    } else {
        drop_at(tree, pages, key, mark, steps)
    }
}
