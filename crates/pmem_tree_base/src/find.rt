// Look-ups below a block.
ghost use Rattle.std.specs.Prelude.{◌≡◌, ◌≤◌, ◌+◌, true, IfOk, OnOk, OnErr, IsTrue};
ghost use Rattle.pmem_pages.specs.Shape.{height, entries, entry_at, first_above, last_under, or_this};
ghost use Rattle.pmem_tree_base.specs.Calls.{Goes};
ghost use Rattle.pmem_tree_base.specs.Find.{SomeBelow, OfBelow, value_of, value_in, pair_of};

use crate::read::{pair_in, read_at, read_in};
use pmem_pages::BLOCK;
use pmem_pages::codec::{compare, compare_in, read_node};
use pmem_pages::node::{Node, Pair, TreeKey, Value};
use pmem_pages::pages::Pages;
use pmem_pages::refusal::Stopped;
use pmem_pages::steps::Steps;
use std::cmp::Ordering;
use std::sync::ledger::Ledger;

// The value of the node in a block, if the node was found there.
fn value_in(is_found: bool, kind: u8, block: &[u8; 256]) -> Option<Value>
    ensures { result ≡ value_in is_found kind block.now }
{
    if is_found {
        Some(read_node(kind, block).value)
    } else {
        None
    }
}

// Whether the tree below a block, which is no higher than `depth`, has a key: then the bytes of its block.
fn seek<P: Pages, L: Ledger>(
    pages: &mut P,
    kind: u8,
    at: u32,
    depth: u8,
    key: &TreeKey,
    block: &mut [u8; 256],
    steps: &mut Steps<L>,
) -> Result<bool, Stopped>
    requires tree { IsTrue P.tells → SomeBelow (P.blocks pages.old) kind at depth }
    requires key { key.now.len ≤ 64 }
    ensures found { IfOk result (λ f. IsTrue P.tells → OfBelow (P.blocks pages.old) kind at depth (λ t. value_in f kind block.new ≡ value_of (entry_at key.now (entries t)))) }
    ensures steps { IsTrue P.tells → OfBelow (P.blocks pages.old) kind at depth (λ t. steps.new ≤ steps.old + height t) }
    ensures kept { IsTrue P.tells → P.blocks pages.new ≡ P.blocks pages.old }
    ensures budget { P.budget pages.new ≡ P.budget pages.old }
    ensures goes { Goes P.stopped P.count P.burns pages.old pages.new }
    ensures stopped { OnErr result (P.stopped pages.new ≡ true) }
    ensures went_on { OnOk result (P.stopped pages.new ≡ P.stopped pages.old) }
{
    if at == 0 || depth == 0 {
        return Ok(false);
    }
    let node = read_in(pages, kind, at, block, steps)?;
    match compare_in(key, block) {
        Ordering::Less => seek(pages, kind, node.left, depth - 1, key, block, steps),
        Ordering::Equal => Ok(true),
        Ordering::Greater => seek(pages, kind, node.right, depth - 1, key, block, steps),
    }
}

/// The value at a key of the tree below a block, which is no higher than `depth`.
///
/// # Errors
///
/// `Stopped` comes only where the pages answered it.
pub fn find<P: Pages, L: Ledger>(
    pages: &mut P,
    kind: u8,
    at: u32,
    depth: u8,
    key: &TreeKey,
    steps: &mut Steps<L>,
) -> Result<Option<Value>, Stopped>
    requires tree { IsTrue P.tells → SomeBelow (P.blocks pages.old) kind at depth }
    requires key { key.now.len ≤ 64 }
    ensures found { IfOk result (λ v. IsTrue P.tells → OfBelow (P.blocks pages.old) kind at depth (λ t. v ≡ value_of (entry_at key.now (entries t)))) }
    ensures steps { IsTrue P.tells → OfBelow (P.blocks pages.old) kind at depth (λ t. steps.new ≤ steps.old + height t) }
    ensures kept { IsTrue P.tells → P.blocks pages.new ≡ P.blocks pages.old }
    ensures budget { P.budget pages.new ≡ P.budget pages.old }
    ensures goes { Goes P.stopped P.count P.burns pages.old pages.new }
    ensures stopped { OnErr result (P.stopped pages.new ≡ true) }
    ensures went_on { OnOk result (P.stopped pages.new ≡ P.stopped pages.old) }
{
    let mut block = [0; BLOCK];
    let is_found = seek(pages, kind, at, depth, key, &mut block, steps)?;
    Ok(value_in(is_found, kind, &block))
}

// What was found, or else the pair of a node.
fn or_node(found: Option<Pair>, node: &Node) -> Pair
    ensures { result ≡ or_this found (record { key = node.now.key; value = node.now.value }) }
{
    match found {
        Some(pair) => pair,
        None => pair_in(node),
    }
}

/// The pair of the least key above this one, in the tree below a block, which is no higher than `depth`.
///
/// # Errors
///
/// `Stopped` comes only where the pages answered it.
pub fn first_after<P: Pages, L: Ledger>(
    pages: &mut P,
    kind: u8,
    at: u32,
    depth: u8,
    key: &TreeKey,
    steps: &mut Steps<L>,
) -> Result<Option<Pair>, Stopped>
    requires tree { IsTrue P.tells → SomeBelow (P.blocks pages.old) kind at depth }
    requires key { key.now.len ≤ 64 }
    ensures found { IfOk result (λ p. IsTrue P.tells → OfBelow (P.blocks pages.old) kind at depth (λ t. p ≡ pair_of (first_above key.now (entries t)))) }
    ensures steps { IsTrue P.tells → OfBelow (P.blocks pages.old) kind at depth (λ t. steps.new ≤ steps.old + height t) }
    ensures kept { IsTrue P.tells → P.blocks pages.new ≡ P.blocks pages.old }
    ensures budget { P.budget pages.new ≡ P.budget pages.old }
    ensures goes { Goes P.stopped P.count P.burns pages.old pages.new }
    ensures stopped { OnErr result (P.stopped pages.new ≡ true) }
    ensures went_on { OnOk result (P.stopped pages.new ≡ P.stopped pages.old) }
{
    if at == 0 || depth == 0 {
        return Ok(None);
    }
    let node = read_at(pages, kind, at, steps)?;
    match compare(key, &node.key) {
        Ordering::Less => {
            let found = first_after(pages, kind, node.left, depth - 1, key, steps)?;
            Ok(Some(or_node(found, &node)))
        }
        _ => first_after(pages, kind, node.right, depth - 1, key, steps),
    }
}

/// The pair of the greatest key below this one, in the tree below a block, which is no higher than `depth`.
///
/// # Errors
///
/// `Stopped` comes only where the pages answered it.
pub fn last_before<P: Pages, L: Ledger>(
    pages: &mut P,
    kind: u8,
    at: u32,
    depth: u8,
    key: &TreeKey,
    steps: &mut Steps<L>,
) -> Result<Option<Pair>, Stopped>
    requires tree { IsTrue P.tells → SomeBelow (P.blocks pages.old) kind at depth }
    requires key { key.now.len ≤ 64 }
    ensures found { IfOk result (λ p. IsTrue P.tells → OfBelow (P.blocks pages.old) kind at depth (λ t. p ≡ pair_of (last_under key.now (entries t)))) }
    ensures steps { IsTrue P.tells → OfBelow (P.blocks pages.old) kind at depth (λ t. steps.new ≤ steps.old + height t) }
    ensures kept { IsTrue P.tells → P.blocks pages.new ≡ P.blocks pages.old }
    ensures budget { P.budget pages.new ≡ P.budget pages.old }
    ensures goes { Goes P.stopped P.count P.burns pages.old pages.new }
    ensures stopped { OnErr result (P.stopped pages.new ≡ true) }
    ensures went_on { OnOk result (P.stopped pages.new ≡ P.stopped pages.old) }
{
    if at == 0 || depth == 0 {
        return Ok(None);
    }
    let node = read_at(pages, kind, at, steps)?;
    match compare(key, &node.key) {
        Ordering::Greater => {
            let found = last_before(pages, kind, node.right, depth - 1, key, steps)?;
            Ok(Some(or_node(found, &node)))
        }
        _ => last_before(pages, kind, node.left, depth - 1, key, steps),
    }
}
