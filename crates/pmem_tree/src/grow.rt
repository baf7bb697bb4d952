// A pair comes into the tree below a block: as a node of its own, or as another value at its key.
ghost use Rattle.std.specs.Prelude.{◌≡◌, ◌⊎◌, ◌≤◌, ◌<◌, ◌+◌, ◌*◌, true, Decides, None, Some, IfOk, OnOk, OnErr, IsErrOf, IsTrue};
ghost use Rattle.pmem_pages.specs.Blocks.{IsSpent};
ghost use Rattle.pmem_pages.specs.Shape.{Leaf, entries, entry_at};
ghost use Rattle.pmem_pages.specs.declared.refusal.PageNo.TheVariants.{NoBlock as no_block, TooMuch as too_much};
ghost use Rattle.pmem_tree_base.specs.declared.refusal.TreeNo.{TreeNo};
ghost use Rattle.pmem_tree_base.specs.Calls.{Goes, Rests};
ghost use Rattle.pmem_tree.specs.Set.{CanSet, OfSetting, Sets, SomeSets, TakesIf};

use crate::rejoin::rejoin_in;
use pmem_pages::BLOCK;
use pmem_pages::codec::compare_in;
use pmem_pages::node::{Links, Pair};
use pmem_pages::pages::Pages;
use pmem_pages::refusal::PageNo;
use pmem_pages::steps::Steps;
use pmem_tree_base::put::put_in;
use pmem_tree_base::read::{Spot, Sub, read_in, sub_at};
use pmem_tree_base::refusal::TreeNo;
use pmem_tree_base::write::stage_fork;
use std::cmp::Ordering;
use std::sync::ledger::Ledger;

/// A pair that comes into a tree of a kind, and the block that was taken for it, if one was.
#[derive(Clone, Copy)]
pub struct Fresh {
    pub kind: u8,
    pub block: Option<u32>,
    pub pair: Pair,
}

// The block of a new node: the one that was taken for it, or else one that is taken now.
fn block_for<P: Pages>(pages: &mut P, given: Option<u32>) -> Result<u32, PageNo>
    ensures takes { IfOk result (λ b. IsTrue P.tells → TakesIf given (P.blocks pages.old) (P.budget pages.old) b (P.blocks pages.new) (P.budget pages.new)) }
    ensures no_block { IsErrOf result no_block → (given ≡ None) × ((P.budget pages.old).free ≡ 0) }
    ensures too_much { IsErrOf result too_much → ((P.budget pages.old).ranges < 1) ⊎ ((P.budget pages.old).bytes < 1) }
    ensures free { ((P.budget pages.new).free ≡ (P.budget pages.old).free) ⊎ ((given ≡ None) × ((P.budget pages.new).free + 1 ≡ (P.budget pages.old).free)) }
    ensures spent { IsSpent 1 1 (P.budget pages.old) (P.budget pages.new) }
    ensures rests { Rests P.stopped P.count P.burns pages.old pages.new }
{
    match given {
        Some(block) => Ok(block),
        None => pages.take_block(),
    }
}

// Puts a pair into the empty tree.
fn set_alone<P: Pages>(pages: &mut P, fresh: &Fresh) -> Result<Sub, TreeNo>
    requires tree { IsTrue P.tells → CanSet (P.blocks pages.old) fresh.now.kind 0 0 fresh.now.block fresh.now.pair Leaf }
    ensures set { IfOk result (λ s. IsTrue P.tells → Sets (P.blocks pages.old) fresh.now.kind fresh.now.block fresh.now.pair Leaf (P.budget pages.old) (P.blocks pages.new) s (P.budget pages.new)) }
    ensures refused { IsErrOf result TreeNo.TooMuch → ((P.budget pages.old).ranges < 2) ⊎ ((P.budget pages.old).bytes < 257) }
    ensures no_block { IsErrOf result TreeNo.NoBlock → (fresh.now.block ≡ None) × ((P.budget pages.old).free ≡ 0) }
    ensures free { ((P.budget pages.new).free ≡ (P.budget pages.old).free) ⊎ ((fresh.now.block ≡ None) × ((P.budget pages.new).free + 1 ≡ (P.budget pages.old).free)) }
    ensures spent { IsSpent 2 257 (P.budget pages.old) (P.budget pages.new) }
    ensures stopped { IsErrOf result TreeNo.Stopped → ⊥ }
    ensures rests { Rests P.stopped P.count P.burns pages.old pages.new }
{
    let spot = Spot {
        kind: fresh.kind,
        at: block_for(pages, fresh.block)?,
        pair: fresh.pair,
    };
    let none = Sub { root: 0, height: 0 };
    Ok(stage_fork(pages, &spot, none, none)?)
}

// Whether a tree that changed below a node leaves the node as it is: its root is still the one that the node
// names, and it is lower than the node.
fn is_as_before(node: Links, root: u32, now: Sub) -> bool
    ensures { Decides result ((now.root ≡ root) × (now.height < node.height)) }
{
    now.root == root && now.height < node.height
}

/// Puts a pair into the tree below a block, which is no higher than `depth`: another value where its key is
/// there, and else a new node.
///
/// # Errors
///
/// `NoBlock` comes only where the key isn't there, no block was taken for it, and none is free. Where the pages
/// tell their blocks, `TooMuch` comes only where fewer than three ranges a level and three besides, or 256
/// times as many bytes, are left to stage. `Stopped` comes only where the pages answered it.
pub fn set_at<P: Pages, L: Ledger>(
    pages: &mut P,
    fresh: &Fresh,
    at: u32,
    depth: u8,
    steps: &mut Steps<L>,
) -> Result<Sub, TreeNo>
    requires tree { IsTrue P.tells → SomeSets (P.blocks pages.old) fresh.now.kind at depth fresh.now.block fresh.now.pair }
    requires key { fresh.now.pair.key.len ≤ 64 }
    ensures set { IfOk result (λ s. IsTrue P.tells → OfSetting (P.blocks pages.old) fresh.now.kind at depth fresh.now.block fresh.now.pair
        (λ t. Sets (P.blocks pages.old) fresh.now.kind fresh.now.block fresh.now.pair t (P.budget pages.old) (P.blocks pages.new) s (P.budget pages.new))) }
    ensures refused { IsTrue P.tells → IsErrOf result TreeNo.TooMuch → ((P.budget pages.old).ranges < 3 * depth + 3) ⊎ ((P.budget pages.old).bytes < 256 * (3 * depth + 3)) }
    ensures no_block { IsErrOf result TreeNo.NoBlock → (fresh.now.block ≡ None) × ((P.budget pages.old).free ≡ 0) }
    ensures missing { IsErrOf result TreeNo.NoBlock → IsTrue P.tells → OfSetting (P.blocks pages.old) fresh.now.kind at depth fresh.now.block fresh.now.pair (λ t. entry_at fresh.now.pair.key (entries t) ≡ None) }
    ensures steps { steps.new ≤ steps.old + 8 * depth }
    ensures free { ((P.budget pages.new).free ≡ (P.budget pages.old).free) ⊎ ((fresh.now.block ≡ None) × ((P.budget pages.new).free + 1 ≡ (P.budget pages.old).free)) }
    ensures spent { IsSpent (3 * depth + 2) (256 * (3 * depth + 1) + 1) (P.budget pages.old) (P.budget pages.new) }
    ensures goes { Goes P.stopped P.count P.burns pages.old pages.new }
    ensures stopped { IsErrOf result TreeNo.Stopped → P.stopped pages.new ≡ true }
    ensures went_on { OnOk result (P.stopped pages.new ≡ P.stopped pages.old) }
{
    if at == 0 {
        return set_alone(pages, fresh);
    }
    if depth == 0 {
        return Err(TreeNo::TooMuch);
    }
    let mut block = [0; BLOCK];
    let node = read_in(pages, fresh.kind, at, &mut block, steps)?;
    let whole = Sub {
        root: at,
        height: node.height,
    };
    match compare_in(&fresh.pair.key, &block) {
        Ordering::Less => {
            let left = set_at(pages, fresh, node.left, depth - 1, steps)?;
            if is_as_before(node, node.left, left) {
                return Ok(whole);
            }
            let right = sub_at(pages, fresh.kind, node.right, steps)?;
            rejoin_in(pages, fresh.kind, at, &mut block, left, right, steps)
        }
        Ordering::Equal => {
            put_in(pages, fresh.kind, at, &block, &fresh.pair.value)?;
            Ok(whole)
        }
        Ordering::Greater => {
            let right = set_at(pages, fresh, node.right, depth - 1, steps)?;
            if is_as_before(node, node.right, right) {
                return Ok(whole);
            }
            let left = sub_at(pages, fresh.kind, node.left, steps)?;
            rejoin_in(pages, fresh.kind, at, &mut block, left, right, steps)
        }
    }
}
