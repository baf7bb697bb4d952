// A node stands between its two trees again, after one of them changed.
ghost use Rattle.std.specs.Prelude.{◌≡◌, ◌⊎◌, ◌≤◌, ◌<◌, ◌+◌, true, Some, IfOk, OnOk, IsErrOf, IsTrue, Decides};
ghost use Rattle.pmem_pages.specs.Blocks.{IsSpent};
ghost use Rattle.pmem_pages.specs.Node.{links_of, node_bytes, node_of};
ghost use Rattle.pmem_tree_base.specs.declared.refusal.TreeNo.{TreeNo};
ghost use Rattle.pmem_tree_base.specs.Calls.{Goes};
ghost use Rattle.pmem_tree_base.specs.Nodes.{entry_of, pair_in};
ghost use Rattle.pmem_tree_base.specs.Join.{SomeHeld, JoinsHeld};
ghost use Rattle.pmem_tree.specs.Rejoin.{Fits};

use pmem_pages::codec::{read_links, read_node};
use pmem_pages::node::{Links, Node};
use pmem_pages::pages::Pages;
use pmem_pages::steps::Steps;
use pmem_tree_base::join::join;
use pmem_tree_base::read::{Spot, Sub, pair_in};
use pmem_tree_base::refusal::TreeNo;
use pmem_tree_base::write::stage_linked;
use std::sync::ledger::Ledger;

// Whether the heights of two trees differ by at most one.
fn is_near(left: Sub, right: Sub) -> bool
    ensures { Decides result ((left.height ≤ right.height + 1) × (right.height ≤ left.height + 1)) }
{
    let a = u16::from(left.height);
    let b = u16::from(right.height);
    a <= b + 1 && b <= a + 1
}

// Whether a node of these links is the one that goes between these two trees.
fn fits(links: Links, left: Sub, right: Sub) -> bool
    ensures { Decides result (Fits links left right) }
{
    links.left == left.root
        && links.right == right.root
        && u16::from(links.height) == u16::from(left.height.max(right.height)) + 1
        && is_near(left, right)
}

/// Joins the pair of a node, as it stands in its block, with two trees. Where the node is the one that goes
/// between them, nothing is staged.
///
/// # Errors
///
/// Where the pages tell their blocks, `TooMuch` comes only where fewer than three ranges or 768 bytes are
/// left to stage. `Stopped` comes only where the pages answered it, and `NoBlock` never.
pub fn rejoin<P: Pages, L: Ledger>(
    pages: &mut P,
    spot: &Spot,
    node: &Node,
    left: Sub,
    right: Sub,
    steps: &mut Steps<L>,
) -> Result<Sub, TreeNo>
    requires held { IsTrue P.tells → SomeHeld (P.blocks pages.old) spot.now.kind (entry_of spot.now.at spot.now.pair) left right }
    requires stands { IsTrue P.tells → P.blocks pages.old spot.now.at ≡ Some (node_bytes spot.now.kind node.now) }
    requires pair { spot.now.pair ≡ record { key = node.now.key; value = node.now.value } }
    ensures joins { IfOk result (λ s. IsTrue P.tells → JoinsHeld (P.blocks pages.old) (P.blocks pages.new) spot.now.kind (entry_of spot.now.at spot.now.pair) left right s) }
    ensures idle { Fits (links_of node.now) left right → (P.blocks pages.new ≡ P.blocks pages.old) × (P.budget pages.new ≡ P.budget pages.old) }
    ensures refused { IsTrue P.tells → IsErrOf result TreeNo.TooMuch → ((P.budget pages.old).ranges < 3) ⊎ ((P.budget pages.old).bytes < 768) }
    ensures steps { steps.new ≤ steps.old + 6 }
    ensures free { (P.budget pages.new).free ≡ (P.budget pages.old).free }
    ensures spent { IsSpent 3 768 (P.budget pages.old) (P.budget pages.new) }
    ensures plain { left.height ≤ right.height + 1 → right.height ≤ left.height + 1 → IsSpent 1 256 (P.budget pages.old) (P.budget pages.new) }
    ensures goes { Goes P.stopped P.count P.burns pages.old pages.new }
    ensures stopped { IsErrOf result TreeNo.Stopped → P.stopped pages.new ≡ true }
    ensures went_on { OnOk result (P.stopped pages.new ≡ P.stopped pages.old) }
    ensures no_block { IsErrOf result TreeNo.NoBlock → ⊥ }
{
    let links = Links {
        height: node.height,
        left: node.left,
        right: node.right,
    };
    if fits(links, left, right) {
        return Ok(Sub {
            root: spot.at,
            height: node.height,
        });
    }
    join(pages, spot, left, right, steps)
}

// Joins the pair of the node in a block with two trees, by all of the node.
fn join_whole<P: Pages, L: Ledger>(
    pages: &mut P,
    kind: u8,
    at: u32,
    block: &[u8; 256],
    left: Sub,
    right: Sub,
    steps: &mut Steps<L>,
) -> Result<Sub, TreeNo>
    requires held { IsTrue P.tells → SomeHeld (P.blocks pages.old) kind (entry_of at (pair_in kind block.now)) left right }
    ensures joins { IfOk result (λ s. IsTrue P.tells → JoinsHeld (P.blocks pages.old) (P.blocks pages.new) kind (entry_of at (pair_in kind block.now)) left right s) }
    ensures refused { IsTrue P.tells → IsErrOf result TreeNo.TooMuch → ((P.budget pages.old).ranges < 3) ⊎ ((P.budget pages.old).bytes < 768) }
    ensures steps { steps.new ≤ steps.old + 6 }
    ensures free { (P.budget pages.new).free ≡ (P.budget pages.old).free }
    ensures spent { IsSpent 3 768 (P.budget pages.old) (P.budget pages.new) }
    ensures goes { Goes P.stopped P.count P.burns pages.old pages.new }
    ensures stopped { IsErrOf result TreeNo.Stopped → P.stopped pages.new ≡ true }
    ensures went_on { OnOk result (P.stopped pages.new ≡ P.stopped pages.old) }
    ensures no_block { IsErrOf result TreeNo.NoBlock → ⊥ }
{
    let spot = Spot {
        kind,
        at,
        pair: pair_in(&read_node(kind, block)),
    };
    join(pages, &spot, left, right, steps)
}

/// As `rejoin`, of the node in a block, whose bytes these are: all of it is read only where trees are
/// turned, and else only its links are written.
///
/// # Errors
///
/// As `rejoin`.
pub fn rejoin_in<P: Pages, L: Ledger>(
    pages: &mut P,
    kind: u8,
    at: u32,
    block: &mut [u8; 256],
    left: Sub,
    right: Sub,
    steps: &mut Steps<L>,
) -> Result<Sub, TreeNo>
    requires held { IsTrue P.tells → SomeHeld (P.blocks pages.old) kind (entry_of at (pair_in kind block.old)) left right }
    requires stands { IsTrue P.tells → P.blocks pages.old at ≡ Some (node_bytes kind (node_of kind block.old)) }
    requires bytes { IsTrue P.tells → block.old ≡ node_bytes kind (node_of kind block.old) }
    ensures joins { IfOk result (λ s. IsTrue P.tells → JoinsHeld (P.blocks pages.old) (P.blocks pages.new) kind (entry_of at (pair_in kind block.old)) left right s) }
    ensures idle { Fits (links_of (node_of kind block.old)) left right → (P.blocks pages.new ≡ P.blocks pages.old) × (P.budget pages.new ≡ P.budget pages.old) }
    ensures refused { IsTrue P.tells → IsErrOf result TreeNo.TooMuch → ((P.budget pages.old).ranges < 3) ⊎ ((P.budget pages.old).bytes < 768) }
    ensures steps { steps.new ≤ steps.old + 6 }
    ensures free { (P.budget pages.new).free ≡ (P.budget pages.old).free }
    ensures spent { IsSpent 3 768 (P.budget pages.old) (P.budget pages.new) }
    ensures plain { left.height ≤ right.height + 1 → right.height ≤ left.height + 1 → IsSpent 1 256 (P.budget pages.old) (P.budget pages.new) }
    ensures goes { Goes P.stopped P.count P.burns pages.old pages.new }
    ensures stopped { IsErrOf result TreeNo.Stopped → P.stopped pages.new ≡ true }
    ensures went_on { OnOk result (P.stopped pages.new ≡ P.stopped pages.old) }
    ensures no_block { IsErrOf result TreeNo.NoBlock → ⊥ }
{
    let links = read_links(block);
    if fits(links, left, right) {
        return Ok(Sub {
            root: at,
            height: links.height,
        });
    }
    if is_near(left, right) {
        return Ok(stage_linked(pages, kind, at, block, left, right)?);
    }
    join_whole(pages, kind, at, block, left, right, steps)
}
