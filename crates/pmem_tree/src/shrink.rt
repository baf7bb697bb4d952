// A node is taken out of the tree below a block.
ghost use Rattle.std.specs.Prelude.{◌≡◌, ◌≢◌, ◌⊎◌, ◌≤◌, ◌<◌, ◌+◌, ◌*◌, true, IfOk, OnOk, IsErrOf, IsTrue};
ghost use Rattle.pmem_pages.specs.Blocks.{IsSpent};
ghost use Rattle.pmem_tree_base.specs.declared.refusal.TreeNo.{TreeNo};
ghost use Rattle.pmem_tree_base.specs.Calls.{Goes};
ghost use Rattle.pmem_tree.specs.Shrink.{SomeTake, OfTaking, Taken, SomeDrop, OfDropping, Dropped, SomeShrinks, OfShrinking};

use crate::rejoin::rejoin;
use pmem_pages::codec::compare;
use pmem_pages::node::{Node, Pair, TreeKey};
use pmem_pages::pages::Pages;
use pmem_pages::steps::Steps;
use pmem_tree_base::join::join;
use pmem_tree_base::read::{Spot, Sub, pair_in, read_at, sub_at};
use pmem_tree_base::refusal::TreeNo;
use std::cmp::Ordering;
use std::sync::ledger::Ledger;

/// The first pair of a tree with its block, and the tree without it.
#[derive(Clone, Copy)]
pub struct First {
    pub at: u32,
    pub pair: Pair,
    pub rest: Sub,
}

/// A tree without a node, and the node's block.
#[derive(Clone, Copy)]
pub struct Cut {
    pub rest: Sub,
    pub block: u32,
}

// Takes the first pair out of the tree below a block, which isn't empty and no higher than `depth`.
fn take_first<P: Pages, L: Ledger>(
    pages: &mut P,
    kind: u8,
    at: u32,
    depth: u8,
    steps: &mut Steps<L>,
) -> Result<First, TreeNo>
    requires tree { IsTrue P.tells → SomeTake (P.blocks pages.old) kind at depth }
    requires inner { at ≢ 0 }
    ensures taken { IfOk result (λ f. IsTrue P.tells → OfTaking (P.blocks pages.old) kind at depth (λ t. Taken (P.blocks pages.old) kind t (P.blocks pages.new) f)) }
    ensures refused { IsTrue P.tells → IsErrOf result TreeNo.TooMuch → ((P.budget pages.old).ranges < 3 * depth + 3) ⊎ ((P.budget pages.old).bytes < 256 * (3 * depth + 3)) }
    ensures no_block { IsErrOf result TreeNo.NoBlock → ⊥ }
    ensures steps { steps.new ≤ steps.old + 8 * depth }
    ensures free { (P.budget pages.new).free ≡ (P.budget pages.old).free }
    ensures spent { IsSpent (3 * depth) (256 * (3 * depth)) (P.budget pages.old) (P.budget pages.new) }
    ensures goes { Goes P.stopped P.count P.burns pages.old pages.new }
    ensures stopped { IsErrOf result TreeNo.Stopped → P.stopped pages.new ≡ true }
    ensures went_on { OnOk result (P.stopped pages.new ≡ P.stopped pages.old) }
{
    if depth == 0 {
        return Err(TreeNo::TooMuch);
    }
    let node = read_at(pages, kind, at, steps)?;
    let pair = pair_in(&node);
    let right = sub_at(pages, kind, node.right, steps)?;
    if node.left == 0 {
        return Ok(First {
            at,
            pair,
            rest: right,
        });
    }
    let first = take_first(pages, kind, node.left, depth - 1, steps)?;
    let spot = Spot { kind, at, pair };
    let rest = rejoin(pages, &spot, &node, first.rest, right, steps)?;
    Ok(First {
        at: first.at,
        pair: first.pair,
        rest,
    })
}

// Makes one tree of what is below a node, which is no higher than `depth`.
fn drop_node<P: Pages, L: Ledger>(
    pages: &mut P,
    kind: u8,
    at: u32,
    depth: u8,
    node: &Node,
    steps: &mut Steps<L>,
) -> Result<Sub, TreeNo>
    requires tree { IsTrue P.tells → SomeDrop (P.blocks pages.old) kind at depth node.now }
    requires deep { 0 < depth }
    ensures dropped { IfOk result (λ s. IsTrue P.tells → OfDropping (P.blocks pages.old) kind at depth node.now (λ l e r. Dropped (P.blocks pages.old) kind l e r (P.blocks pages.new) s)) }
    ensures refused { IsTrue P.tells → IsErrOf result TreeNo.TooMuch → ((P.budget pages.old).ranges < 3 * depth + 3) ⊎ ((P.budget pages.old).bytes < 256 * (3 * depth + 3)) }
    ensures no_block { IsErrOf result TreeNo.NoBlock → ⊥ }
    ensures steps { steps.new + 1 ≤ steps.old + 8 * depth }
    ensures free { (P.budget pages.new).free ≡ (P.budget pages.old).free }
    ensures spent { IsSpent (3 * depth) (256 * (3 * depth)) (P.budget pages.old) (P.budget pages.new) }
    ensures goes { Goes P.stopped P.count P.burns pages.old pages.new }
    ensures stopped { IsErrOf result TreeNo.Stopped → P.stopped pages.new ≡ true }
    ensures went_on { OnOk result (P.stopped pages.new ≡ P.stopped pages.old) }
{
    let left = sub_at(pages, kind, node.left, steps)?;
    if node.right == 0 {
        return Ok(left);
    }
    if node.left == 0 {
        return Ok(sub_at(pages, kind, node.right, steps)?);
    }
    let first = take_first(pages, kind, node.right, depth - 1, steps)?;
    let spot = Spot {
        kind,
        at: first.at,
        pair: first.pair,
    };
    join(pages, &spot, left, first.rest, steps)
}

/// Takes the node at a key out of the tree below a block, which is no higher than `depth`. Its block is
/// as it was.
///
/// # Errors
///
/// Where the pages tell their blocks, `TooMuch` comes only where fewer than three ranges a level and three
/// besides, or 256 times as many bytes, are left to stage. `Stopped` comes only where the pages answered
/// it, and `NoBlock` never.
pub fn remove_at<P: Pages, L: Ledger>(
    pages: &mut P,
    kind: u8,
    at: u32,
    depth: u8,
    key: &TreeKey,
    steps: &mut Steps<L>,
) -> Result<Cut, TreeNo>
    requires tree { IsTrue P.tells → SomeShrinks (P.blocks pages.old) kind at depth key.now }
    requires key { key.now.len ≤ 64 }
    ensures shrunk { IfOk result (λ c. IsTrue P.tells → OfShrinking (P.blocks pages.old) (P.blocks pages.new) kind at depth key.now c) }
    ensures refused { IsTrue P.tells → IsErrOf result TreeNo.TooMuch → ((P.budget pages.old).ranges < 3 * depth + 3) ⊎ ((P.budget pages.old).bytes < 256 * (3 * depth + 3)) }
    ensures no_block { IsErrOf result TreeNo.NoBlock → ⊥ }
    ensures steps { steps.new ≤ steps.old + 8 * depth }
    ensures free { (P.budget pages.new).free ≡ (P.budget pages.old).free }
    ensures spent { IsSpent (3 * depth) (256 * (3 * depth)) (P.budget pages.old) (P.budget pages.new) }
    ensures goes { Goes P.stopped P.count P.burns pages.old pages.new }
    ensures stopped { IsErrOf result TreeNo.Stopped → P.stopped pages.new ≡ true }
    ensures went_on { OnOk result (P.stopped pages.new ≡ P.stopped pages.old) }
{
    if at == 0 || depth == 0 {
        return Err(TreeNo::TooMuch);
    }
    let node = read_at(pages, kind, at, steps)?;
    let pair = pair_in(&node);
    let spot = Spot { kind, at, pair };
    match compare(key, &node.key) {
        Ordering::Less => {
            let right = sub_at(pages, kind, node.right, steps)?;
            let cut = remove_at(pages, kind, node.left, depth - 1, key, steps)?;
            let rest = rejoin(pages, &spot, &node, cut.rest, right, steps)?;
            Ok(Cut {
                rest,
                block: cut.block,
            })
        }
        Ordering::Equal => {
            let rest = drop_node(pages, kind, at, depth, &node, steps)?;
            Ok(Cut { rest, block: at })
        }
        Ordering::Greater => {
            let left = sub_at(pages, kind, node.left, steps)?;
            let cut = remove_at(pages, kind, node.right, depth - 1, key, steps)?;
            let rest = rejoin(pages, &spot, &node, left, cut.rest, steps)?;
            Ok(Cut {
                rest,
                block: cut.block,
            })
        }
    }
}
