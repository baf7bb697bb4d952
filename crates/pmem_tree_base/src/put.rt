// A value is put in the place of another, below a block.
ghost use Rattle.std.specs.Prelude.{◌≡◌, ◌⊎◌, ◌≤◌, ◌<◌, ◌+◌, true, Some, OnOk, OnErr, IsErrOf, IsTrue, Decides};
ghost use Rattle.pmem_pages.specs.Blocks.{IsSpent, put};
ghost use Rattle.pmem_pages.specs.Node.{node_bytes, node_of};
ghost use Rattle.pmem_tree_base.specs.declared.refusal.TreeNo.{TreeNo};
ghost use Rattle.pmem_tree_base.specs.Calls.{Goes, Rests};
ghost use Rattle.pmem_tree_base.specs.Nodes.{valued_node};
ghost use Rattle.pmem_tree_base.specs.Put.{SomePuts, OfPutting, OfSame, Put};

use crate::read::read_in;
use crate::refusal::TreeNo;
use crate::write::stage_node;
use pmem_pages::BLOCK;
use pmem_pages::codec::{compare_in, read_node};
use pmem_pages::node::{Node, Pair, Value};
use pmem_pages::pages::Pages;
use pmem_pages::refusal::TooMuch;
use pmem_pages::steps::Steps;
use std::cmp::Ordering;
use std::sync::ledger::Ledger;

// A node with another value.
fn with_value(node: &Node, value: &Value) -> Node
    ensures { result ≡ valued_node node.now value.now }
{
    Node {
        height: node.height,
        left: node.left,
        right: node.right,
        key: node.key,
        value: *value,
    }
}

// Whether two values are the same.
fn is_same(one: &Value, other: &Value) -> bool
    ensures { Decides result (one.now ≡ other.now) }
{
    one.len == other.len && one.bytes == other.bytes
}

/// Puts a value into the node in a block, whose bytes these are. Where the node has that value, nothing is
/// staged.
///
/// # Errors
///
/// `TooMuch` comes only where no range or fewer than 256 bytes are left to stage.
pub fn put_in<P: Pages>(
    pages: &mut P,
    kind: u8,
    at: u32,
    block: &[u8; 256],
    value: &Value,
) -> Result<(), TooMuch>
    requires stands { IsTrue P.tells → P.blocks pages.old at ≡ Some (node_bytes kind (node_of kind block.now)) }
    ensures staged { OnOk result (IsTrue P.tells → P.blocks pages.new ≡ put (P.blocks pages.old) at (Some (node_bytes kind (valued_node (node_of kind block.now) value.now)))) }
    ensures idle { (node_of kind block.now).value ≡ value.now → (P.blocks pages.new ≡ P.blocks pages.old) × (P.budget pages.new ≡ P.budget pages.old) }
    ensures refused { OnErr result (((P.budget pages.old).ranges < 1) ⊎ ((P.budget pages.old).bytes < 256)) }
    ensures free { (P.budget pages.new).free ≡ (P.budget pages.old).free }
    ensures spent { IsSpent 1 256 (P.budget pages.old) (P.budget pages.new) }
    ensures rests { Rests P.stopped P.count P.burns pages.old pages.new }
{
    let node = read_node(kind, block);
    if is_same(&node.value, value) {
        return Ok(());
    }
    stage_node(pages, kind, at, &with_value(&node, value))
}

/// Puts a value at a key of the tree below a block, which is no higher than `depth`. Where the key isn't
/// there, or has that value, nothing is staged.
///
/// # Errors
///
/// `TooMuch` comes only where no range or fewer than 256 bytes are left to stage. `Stopped` comes only
/// where the pages answered it, and `NoBlock` never.
pub fn put_at<P: Pages, L: Ledger>(
    pages: &mut P,
    kind: u8,
    at: u32,
    depth: u8,
    pair: &Pair,
    steps: &mut Steps<L>,
) -> Result<(), TreeNo>
    requires tree { IsTrue P.tells → SomePuts (P.blocks pages.old) kind at depth pair.now }
    requires key { pair.now.key.len ≤ 64 }
    ensures put { OnOk result (IsTrue P.tells → OfPutting (P.blocks pages.old) kind at depth pair.now (λ t. Put (P.blocks pages.old) kind t pair.now (P.blocks pages.new))) }
    ensures idle { IsTrue P.tells → OfSame (P.blocks pages.old) kind at depth pair.now ((P.blocks pages.new ≡ P.blocks pages.old) × (P.budget pages.new ≡ P.budget pages.old)) }
    ensures refused { IsErrOf result TreeNo.TooMuch → ((P.budget pages.old).ranges < 1) ⊎ ((P.budget pages.old).bytes < 256) }
    ensures no_block { IsErrOf result TreeNo.NoBlock → ⊥ }
    ensures steps { steps.new ≤ steps.old + depth }
    ensures free { (P.budget pages.new).free ≡ (P.budget pages.old).free }
    ensures spent { IsSpent 1 256 (P.budget pages.old) (P.budget pages.new) }
    ensures goes { Goes P.stopped P.count P.burns pages.old pages.new }
    ensures stopped { IsErrOf result TreeNo.Stopped → P.stopped pages.new ≡ true }
    ensures went_on { OnOk result (P.stopped pages.new ≡ P.stopped pages.old) }
{
    if at == 0 || depth == 0 {
        return Ok(());
    }
    let mut block = [0; BLOCK];
    let node = read_in(pages, kind, at, &mut block, steps)?;
    match compare_in(&pair.key, &block) {
        Ordering::Less => put_at(pages, kind, node.left, depth - 1, pair, steps),
        Ordering::Equal => Ok(put_in(pages, kind, at, &block, &pair.value)?),
        Ordering::Greater => put_at(pages, kind, node.right, depth - 1, pair, steps),
    }
}
