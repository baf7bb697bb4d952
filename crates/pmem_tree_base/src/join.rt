// Two trees and a pair between them become one balanced tree.
ghost use Rattle.std.specs.Prelude.{◌≡◌, ◌⊎◌, ◌≤◌, ◌<◌, ◌+◌, true, IfOk, OnOk, IsErr, IsErrOf, IsTrue};
ghost use Rattle.pmem_pages.specs.Blocks.{IsSpent};
ghost use Rattle.pmem_tree_base.specs.declared.refusal.TreeNo.{TreeNo};
ghost use Rattle.pmem_tree_base.specs.Calls.{Goes, Rests};
ghost use Rattle.pmem_tree_base.specs.Nodes.{entry_of};
ghost use Rattle.pmem_tree_base.specs.Join.{SomeHeld, JoinsHeld, SomeLeansRight, TurnsRight, SomeLeansLeft, TurnsLeft};

use crate::read::{Opened, Spot, Sub, open_node};
use crate::refusal::TreeNo;
use crate::write::stage_fork;
use pmem_pages::pages::Pages;
use pmem_pages::refusal::TooMuch;
use pmem_pages::steps::Steps;
use std::sync::ledger::Ledger;

// One rotation, where the left tree, opened here, is no lower on its outer side.
fn turn_right<P: Pages>(
    pages: &mut P,
    spot: &Spot,
    top: u32,
    node: &Opened,
    right: Sub,
) -> Result<Sub, TooMuch>
    requires leans { IsTrue P.tells → SomeLeansRight (P.blocks pages.old) spot.now.kind (entry_of spot.now.at spot.now.pair) top node.now right }
    requires outer { node.now.right.height ≤ node.now.left.height }
    ensures joins { IfOk result (λ s. IsTrue P.tells → TurnsRight (P.blocks pages.old) (P.blocks pages.new) spot.now.kind (entry_of spot.now.at spot.now.pair) top node.now right s) }
    ensures refused { IsTrue P.tells → IsErr result → ((P.budget pages.old).ranges < 2) ⊎ ((P.budget pages.old).bytes < 512) }
    ensures free { (P.budget pages.new).free ≡ (P.budget pages.old).free }
    ensures spent { IsSpent 2 512 (P.budget pages.old) (P.budget pages.new) }
    ensures rests { Rests P.stopped P.count P.burns pages.old pages.new }
{
    let high = Spot {
        kind: spot.kind,
        at: top,
        pair: node.pair,
    };
    let low = stage_fork(pages, spot, node.right, right)?;
    stage_fork(pages, &high, node.left, low)
}

// Two rotations, where the left tree, opened here, is higher on its inner side.
fn turn_twice_right<P: Pages, L: Ledger>(
    pages: &mut P,
    spot: &Spot,
    top: u32,
    node: &Opened,
    right: Sub,
    steps: &mut Steps<L>,
) -> Result<Sub, TreeNo>
    requires leans { IsTrue P.tells → SomeLeansRight (P.blocks pages.old) spot.now.kind (entry_of spot.now.at spot.now.pair) top node.now right }
    requires inner { node.now.left.height < node.now.right.height }
    ensures joins { IfOk result (λ s. IsTrue P.tells → TurnsRight (P.blocks pages.old) (P.blocks pages.new) spot.now.kind (entry_of spot.now.at spot.now.pair) top node.now right s) }
    ensures refused { IsTrue P.tells → IsErrOf result TreeNo.TooMuch → ((P.budget pages.old).ranges < 3) ⊎ ((P.budget pages.old).bytes < 768) }
    ensures steps { steps.new ≤ steps.old + 3 }
    ensures free { (P.budget pages.new).free ≡ (P.budget pages.old).free }
    ensures spent { IsSpent 3 768 (P.budget pages.old) (P.budget pages.new) }
    ensures goes { Goes P.stopped P.count P.burns pages.old pages.new }
    ensures stopped { IsErrOf result TreeNo.Stopped → P.stopped pages.new ≡ true }
    ensures went_on { OnOk result (P.stopped pages.new ≡ P.stopped pages.old) }
    ensures no_block { IsErrOf result TreeNo.NoBlock → ⊥ }
{
    let inner = node.right.root;
    let middle = open_node(pages, spot.kind, inner, steps)?;
    let high = Spot {
        kind: spot.kind,
        at: top,
        pair: node.pair,
    };
    let first = stage_fork(pages, &high, node.left, middle.left)?;
    let second = stage_fork(pages, spot, middle.right, right)?;
    let root = Spot {
        kind: spot.kind,
        at: inner,
        pair: middle.pair,
    };
    Ok(stage_fork(pages, &root, first, second)?)
}

// The left tree is two higher.
fn lean_right<P: Pages, L: Ledger>(
    pages: &mut P,
    spot: &Spot,
    left: Sub,
    right: Sub,
    steps: &mut Steps<L>,
) -> Result<Sub, TreeNo>
    requires held { IsTrue P.tells → SomeHeld (P.blocks pages.old) spot.now.kind (entry_of spot.now.at spot.now.pair) left right }
    requires two { right.height + 1 < left.height }
    ensures joins { IfOk result (λ s. IsTrue P.tells → JoinsHeld (P.blocks pages.old) (P.blocks pages.new) spot.now.kind (entry_of spot.now.at spot.now.pair) left right s) }
    ensures refused { IsTrue P.tells → IsErrOf result TreeNo.TooMuch → ((P.budget pages.old).ranges < 3) ⊎ ((P.budget pages.old).bytes < 768) }
    ensures steps { steps.new ≤ steps.old + 6 }
    ensures free { (P.budget pages.new).free ≡ (P.budget pages.old).free }
    ensures spent { IsSpent 3 768 (P.budget pages.old) (P.budget pages.new) }
    ensures goes { Goes P.stopped P.count P.burns pages.old pages.new }
    ensures stopped { IsErrOf result TreeNo.Stopped → P.stopped pages.new ≡ true }
    ensures went_on { OnOk result (P.stopped pages.new ≡ P.stopped pages.old) }
    ensures no_block { IsErrOf result TreeNo.NoBlock → ⊥ }
{
    let node = open_node(pages, spot.kind, left.root, steps)?;
    if node.left.height >= node.right.height {
        Ok(turn_right(pages, spot, left.root, &node, right)?)
    } else {
        turn_twice_right(pages, spot, left.root, &node, right, steps)
    }
}

// One rotation, where the right tree, opened here, is no lower on its outer side.
fn turn_left<P: Pages>(
    pages: &mut P,
    spot: &Spot,
    left: Sub,
    top: u32,
    node: &Opened,
) -> Result<Sub, TooMuch>
    requires leans { IsTrue P.tells → SomeLeansLeft (P.blocks pages.old) spot.now.kind (entry_of spot.now.at spot.now.pair) left top node.now }
    requires outer { node.now.left.height ≤ node.now.right.height }
    ensures joins { IfOk result (λ s. IsTrue P.tells → TurnsLeft (P.blocks pages.old) (P.blocks pages.new) spot.now.kind (entry_of spot.now.at spot.now.pair) left top node.now s) }
    ensures refused { IsTrue P.tells → IsErr result → ((P.budget pages.old).ranges < 2) ⊎ ((P.budget pages.old).bytes < 512) }
    ensures free { (P.budget pages.new).free ≡ (P.budget pages.old).free }
    ensures spent { IsSpent 2 512 (P.budget pages.old) (P.budget pages.new) }
    ensures rests { Rests P.stopped P.count P.burns pages.old pages.new }
{
    let high = Spot {
        kind: spot.kind,
        at: top,
        pair: node.pair,
    };
    let low = stage_fork(pages, spot, left, node.left)?;
    stage_fork(pages, &high, low, node.right)
}

// Two rotations, where the right tree, opened here, is higher on its inner side.
fn turn_twice_left<P: Pages, L: Ledger>(
    pages: &mut P,
    spot: &Spot,
    left: Sub,
    top: u32,
    node: &Opened,
    steps: &mut Steps<L>,
) -> Result<Sub, TreeNo>
    requires leans { IsTrue P.tells → SomeLeansLeft (P.blocks pages.old) spot.now.kind (entry_of spot.now.at spot.now.pair) left top node.now }
    requires inner { node.now.right.height < node.now.left.height }
    ensures joins { IfOk result (λ s. IsTrue P.tells → TurnsLeft (P.blocks pages.old) (P.blocks pages.new) spot.now.kind (entry_of spot.now.at spot.now.pair) left top node.now s) }
    ensures refused { IsTrue P.tells → IsErrOf result TreeNo.TooMuch → ((P.budget pages.old).ranges < 3) ⊎ ((P.budget pages.old).bytes < 768) }
    ensures steps { steps.new ≤ steps.old + 3 }
    ensures free { (P.budget pages.new).free ≡ (P.budget pages.old).free }
    ensures spent { IsSpent 3 768 (P.budget pages.old) (P.budget pages.new) }
    ensures goes { Goes P.stopped P.count P.burns pages.old pages.new }
    ensures stopped { IsErrOf result TreeNo.Stopped → P.stopped pages.new ≡ true }
    ensures went_on { OnOk result (P.stopped pages.new ≡ P.stopped pages.old) }
    ensures no_block { IsErrOf result TreeNo.NoBlock → ⊥ }
{
    let inner = node.left.root;
    let middle = open_node(pages, spot.kind, inner, steps)?;
    let high = Spot {
        kind: spot.kind,
        at: top,
        pair: node.pair,
    };
    let first = stage_fork(pages, spot, left, middle.left)?;
    let second = stage_fork(pages, &high, middle.right, node.right)?;
    let root = Spot {
        kind: spot.kind,
        at: inner,
        pair: middle.pair,
    };
    Ok(stage_fork(pages, &root, first, second)?)
}

// The right tree is two higher.
fn lean_left<P: Pages, L: Ledger>(
    pages: &mut P,
    spot: &Spot,
    left: Sub,
    right: Sub,
    steps: &mut Steps<L>,
) -> Result<Sub, TreeNo>
    requires held { IsTrue P.tells → SomeHeld (P.blocks pages.old) spot.now.kind (entry_of spot.now.at spot.now.pair) left right }
    requires two { left.height + 1 < right.height }
    ensures joins { IfOk result (λ s. IsTrue P.tells → JoinsHeld (P.blocks pages.old) (P.blocks pages.new) spot.now.kind (entry_of spot.now.at spot.now.pair) left right s) }
    ensures refused { IsTrue P.tells → IsErrOf result TreeNo.TooMuch → ((P.budget pages.old).ranges < 3) ⊎ ((P.budget pages.old).bytes < 768) }
    ensures steps { steps.new ≤ steps.old + 6 }
    ensures free { (P.budget pages.new).free ≡ (P.budget pages.old).free }
    ensures spent { IsSpent 3 768 (P.budget pages.old) (P.budget pages.new) }
    ensures goes { Goes P.stopped P.count P.burns pages.old pages.new }
    ensures stopped { IsErrOf result TreeNo.Stopped → P.stopped pages.new ≡ true }
    ensures went_on { OnOk result (P.stopped pages.new ≡ P.stopped pages.old) }
    ensures no_block { IsErrOf result TreeNo.NoBlock → ⊥ }
{
    let node = open_node(pages, spot.kind, right.root, steps)?;
    if node.right.height >= node.left.height {
        Ok(turn_left(pages, spot, left, right.root, &node)?)
    } else {
        turn_twice_left(pages, spot, left, right.root, &node, steps)
    }
}

/// Stages the node of a pair between two trees whose heights differ by at most two, and turns it where
/// they differ by two.
///
/// # Errors
///
/// Where the pages tell their blocks, `TooMuch` comes only where fewer than three ranges or 768 bytes are
/// left to stage. `Stopped` comes only where the pages answered it, and `NoBlock` never.
pub fn join<P: Pages, L: Ledger>(
    pages: &mut P,
    spot: &Spot,
    left: Sub,
    right: Sub,
    steps: &mut Steps<L>,
) -> Result<Sub, TreeNo>
    requires { IsTrue P.tells → SomeHeld (P.blocks pages.old) spot.now.kind (entry_of spot.now.at spot.now.pair) left right }
    ensures joins { IfOk result (λ s. IsTrue P.tells → JoinsHeld (P.blocks pages.old) (P.blocks pages.new) spot.now.kind (entry_of spot.now.at spot.now.pair) left right s) }
    ensures refused { IsTrue P.tells → IsErrOf result TreeNo.TooMuch → ((P.budget pages.old).ranges < 3) ⊎ ((P.budget pages.old).bytes < 768) }
    ensures steps { steps.new ≤ steps.old + 6 }
    ensures free { (P.budget pages.new).free ≡ (P.budget pages.old).free }
    ensures spent { IsSpent 3 768 (P.budget pages.old) (P.budget pages.new) }
    ensures plain { left.height ≤ right.height + 1 → right.height ≤ left.height + 1 → IsSpent 1 256 (P.budget pages.old) (P.budget pages.new) }
    ensures goes { Goes P.stopped P.count P.burns pages.old pages.new }
    ensures stopped { IsErrOf result TreeNo.Stopped → P.stopped pages.new ≡ true }
    ensures went_on { OnOk result (P.stopped pages.new ≡ P.stopped pages.old) }
    ensures no_block { IsErrOf result TreeNo.NoBlock → ⊥ }
{
    if left.height > right.height && left.height - right.height > 1 {
        lean_right(pages, spot, left, right, steps)
    } else if right.height > left.height && right.height - left.height > 1 {
        lean_left(pages, spot, left, right, steps)
    } else {
        Ok(stage_fork(pages, spot, left, right)?)
    }
}
