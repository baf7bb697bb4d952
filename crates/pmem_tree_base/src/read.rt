// A node is read.
ghost use Rattle.std.specs.Prelude.{◌≡◌, ◌≤◌, ◌+◌, true, IfOk, OnOk, OnErr, IsTrue};
ghost use Rattle.pmem_pages.specs.Node.{links_of, node_bytes, node_of};
ghost use Rattle.pmem_pages.specs.Shape.{Shape};
ghost use Rattle.pmem_tree_base.specs.Calls.{Goes};
ghost use Rattle.pmem_tree_base.specs.Nodes.{SomeNode, IsNodeAt, IsSub, StandsAt, SomeStandsAt, OpensAt};

use pmem_pages::BLOCK;
use pmem_pages::codec::{read_links, read_node};
use pmem_pages::node::{Links, Node, Pair};
use pmem_pages::pages::Pages;
use pmem_pages::refusal::Stopped;
use pmem_pages::steps::Steps;
use std::sync::ledger::Ledger;

/// What the code holds of a tree below a node: its root, or 0, and its height.
#[derive(Clone, Copy)]
pub struct Sub {
    pub root: u32,
    pub height: u8,
}

/// The kind of a tree, and of one of its nodes the block and the pair.
#[derive(Clone, Copy)]
pub struct Spot {
    pub kind: u8,
    pub at: u32,
    pub pair: Pair,
}

/// What the code holds of a node that it opened: its pair and the trees below it.
#[derive(Clone, Copy)]
pub struct Opened {
    pub pair: Pair,
    pub left: Sub,
    pub right: Sub,
}

/// Reads the node in a block, in one step.
///
/// # Errors
///
/// `Stopped` comes only where the pages answered it.
pub fn read_at<P: Pages, L: Ledger>(
    pages: &mut P,
    kind: u8,
    at: u32,
    steps: &mut Steps<L>,
) -> Result<Node, Stopped>
    requires { IsTrue P.tells → SomeNode (P.blocks pages.old) kind at }
    ensures node { IfOk result (λ n. IsTrue P.tells → IsNodeAt (P.blocks pages.old) kind at n) }
    ensures key { IfOk result (λ n. n.key.len ≤ 64) }
    ensures kept { IsTrue P.tells → P.blocks pages.new ≡ P.blocks pages.old }
    ensures budget { P.budget pages.new ≡ P.budget pages.old }
    ensures step { steps.new ≡ steps.old + 1 }
    ensures goes { Goes P.stopped P.count P.burns pages.old pages.new }
    ensures stopped { OnErr result (P.stopped pages.new ≡ true) }
    ensures went_on { OnOk result (P.stopped pages.new ≡ P.stopped pages.old) }
{
    let mut block = [0; BLOCK];
    pages.read_block(at, &mut block, steps)?;
    Ok(read_node(kind, &block))
}

/// Reads the block of a node, in one step, and answers the node's links.
///
/// # Errors
///
/// `Stopped` comes only where the pages answered it.
pub fn read_in<P: Pages, L: Ledger>(
    pages: &mut P,
    kind: u8,
    at: u32,
    to: &mut [u8; 256],
    steps: &mut Steps<L>,
) -> Result<Links, Stopped>
    requires { IsTrue P.tells → SomeNode (P.blocks pages.old) kind at }
    ensures links { IfOk result (λ l. l ≡ links_of (node_of kind to.new)) }
    ensures node { OnOk result (IsTrue P.tells → IsNodeAt (P.blocks pages.old) kind at (node_of kind to.new)) }
    ensures bytes { OnOk result (IsTrue P.tells → to.new ≡ node_bytes kind (node_of kind to.new)) }
    ensures kept { IsTrue P.tells → P.blocks pages.new ≡ P.blocks pages.old }
    ensures budget { P.budget pages.new ≡ P.budget pages.old }
    ensures step { steps.new ≡ steps.old + 1 }
    ensures goes { Goes P.stopped P.count P.burns pages.old pages.new }
    ensures stopped { OnErr result (P.stopped pages.new ≡ true) }
    ensures went_on { OnOk result (P.stopped pages.new ≡ P.stopped pages.old) }
{
    pages.read_block(at, to, steps)?;
    Ok(read_links(to))
}

/// The root and the height of the tree below a block, in at most one step.
///
/// # Errors
///
/// `Stopped` comes only where the pages answered it.
pub fn sub_at<P: Pages, L: Ledger>(
    pages: &mut P,
    kind: u8,
    at: u32,
    steps: &mut Steps<L>,
) -> Result<Sub, Stopped>
    requires { IsTrue P.tells → SomeStandsAt (P.blocks pages.old) kind at }
    ensures sub { IfOk result (λ s. IsTrue P.tells → (t : Shape) → StandsAt (P.blocks pages.old) kind at t → IsSub s t) }
    ensures root { IfOk result (λ s. s.root ≡ at) }
    ensures kept { IsTrue P.tells → P.blocks pages.new ≡ P.blocks pages.old }
    ensures budget { P.budget pages.new ≡ P.budget pages.old }
    ensures steps { steps.new ≤ steps.old + 1 }
    ensures goes { Goes P.stopped P.count P.burns pages.old pages.new }
    ensures stopped { OnErr result (P.stopped pages.new ≡ true) }
    ensures went_on { OnOk result (P.stopped pages.new ≡ P.stopped pages.old) }
{
    if at == 0 {
        return Ok(Sub { root: 0, height: 0 });
    }
    let mut block = [0; BLOCK];
    let node = read_in(pages, kind, at, &mut block, steps)?;
    Ok(Sub {
        root: at,
        height: node.height,
    })
}

/// Reads a node, and the heights of the trees below it, in at most three steps.
///
/// # Errors
///
/// `Stopped` comes only where the pages answered it.
pub fn open_node<P: Pages, L: Ledger>(
    pages: &mut P,
    kind: u8,
    at: u32,
    steps: &mut Steps<L>,
) -> Result<Opened, Stopped>
    requires { IsTrue P.tells → SomeNode (P.blocks pages.old) kind at }
    ensures opens { IfOk result (λ o. IsTrue P.tells → OpensAt (P.blocks pages.old) kind at o) }
    ensures kept { IsTrue P.tells → P.blocks pages.new ≡ P.blocks pages.old }
    ensures budget { P.budget pages.new ≡ P.budget pages.old }
    ensures steps { steps.new ≤ steps.old + 3 }
    ensures goes { Goes P.stopped P.count P.burns pages.old pages.new }
    ensures stopped { OnErr result (P.stopped pages.new ≡ true) }
    ensures went_on { OnOk result (P.stopped pages.new ≡ P.stopped pages.old) }
{
    let node = read_at(pages, kind, at, steps)?;
    let left = sub_at(pages, kind, node.left, steps)?;
    let right = sub_at(pages, kind, node.right, steps)?;
    let pair = pair_in(&node);
    Ok(Opened { pair, left, right })
}

/// The pair of a node.
pub fn pair_in(node: &Node) -> Pair
    ensures { result ≡ record { key = node.now.key; value = node.now.value } }
{
    Pair {
        key: node.key,
        value: node.value,
    }
}
