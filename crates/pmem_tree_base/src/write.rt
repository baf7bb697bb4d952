// A node is staged.
ghost use Rattle.std.specs.Prelude.{◌≡◌, ◌⊎◌, ◌≤◌, ◌<◌, ◌+◌, max, Some, IfOk, OnOk, OnErr, IsTrue};
ghost use Rattle.pmem_pages.specs.Blocks.{IsTaken, IsSpent, put};
ghost use Rattle.pmem_pages.specs.Node.{node_bytes, node_of};
ghost use Rattle.pmem_tree_base.specs.Calls.{Rests};
ghost use Rattle.pmem_tree_base.specs.Nodes.{node_between, pair_in};

use crate::read::{Spot, Sub};
use pmem_pages::BLOCK;
use pmem_pages::codec::{write_links, write_node};
use pmem_pages::node::{Links, Node};
use pmem_pages::pages::Pages;
use pmem_pages::refusal::TooMuch;

/// Stages a node into its block.
///
/// # Errors
///
/// `TooMuch` comes only where no range or fewer than 256 bytes are left to stage.
pub fn stage_node<P: Pages>(pages: &mut P, kind: u8, at: u32, node: &Node) -> Result<(), TooMuch>
    requires { IsTrue P.tells → IsTaken (P.blocks pages.old) at }
    ensures staged { OnOk result (IsTrue P.tells → P.blocks pages.new ≡ put (P.blocks pages.old) at (Some (node_bytes kind node.now))) }
    ensures refused { OnErr result (((P.budget pages.old).ranges < 1) ⊎ ((P.budget pages.old).bytes < 256)) }
    ensures free { (P.budget pages.new).free ≡ (P.budget pages.old).free }
    ensures spent { IsSpent 1 256 (P.budget pages.old) (P.budget pages.new) }
    ensures rests { Rests P.stopped P.count P.burns pages.old pages.new }
{
    let mut block = [0; BLOCK];
    write_node(kind, node, &mut block);
    pages.stage_block(at, &block)
}

// The height of a node between two trees.
fn height_above(left: Sub, right: Sub) -> Result<u8, TooMuch>
    ensures height { IfOk result (λ h. h ≡ max left.height right.height + 1) }
    ensures refused { OnErr result (255 ≤ max left.height right.height) }
{
    let highest = left.height.max(right.height);
    if highest == u8::MAX {
        return Err(TooMuch);
    }
    Ok(highest + 1)
}

/// Stages the node of a pair between two trees.
///
/// # Errors
///
/// `TooMuch` comes only where no range or fewer than 256 bytes are left to stage, or the height would be
/// above 255.
pub fn stage_fork<P: Pages>(
    pages: &mut P,
    spot: &Spot,
    left: Sub,
    right: Sub,
) -> Result<Sub, TooMuch>
    requires { IsTrue P.tells → IsTaken (P.blocks pages.old) spot.now.at }
    ensures staged { OnOk result (IsTrue P.tells → P.blocks pages.new ≡ put (P.blocks pages.old) spot.now.at (Some (node_bytes spot.now.kind (node_between spot.now.pair left right)))) }
    ensures root { IfOk result (λ s. s.root ≡ spot.now.at) }
    ensures height { IfOk result (λ s. s.height ≡ max left.height right.height + 1) }
    ensures refused { OnErr result (((P.budget pages.old).ranges < 1) ⊎ (((P.budget pages.old).bytes < 256) ⊎ (255 ≤ max left.height right.height))) }
    ensures free { (P.budget pages.new).free ≡ (P.budget pages.old).free }
    ensures spent { IsSpent 1 256 (P.budget pages.old) (P.budget pages.new) }
    ensures rests { Rests P.stopped P.count P.burns pages.old pages.new }
{
    let height = height_above(left, right)?;
    let node = Node {
        height,
        left: left.root,
        right: right.root,
        key: spot.pair.key,
        value: spot.pair.value,
    };
    stage_node(pages, spot.kind, spot.at, &node)?;
    Ok(Sub {
        root: spot.at,
        height,
    })
}

/// Stages the node in a block, whose bytes these are, between two trees: only its links are written anew.
///
/// # Errors
///
/// As `stage_fork`.
pub fn stage_linked<P: Pages>(
    pages: &mut P,
    kind: u8,
    at: u32,
    block: &mut [u8; 256],
    left: Sub,
    right: Sub,
) -> Result<Sub, TooMuch>
    requires taken { IsTrue P.tells → IsTaken (P.blocks pages.old) at }
    requires bytes { IsTrue P.tells → block.old ≡ node_bytes kind (node_of kind block.old) }
    ensures staged { OnOk result (IsTrue P.tells → P.blocks pages.new ≡ put (P.blocks pages.old) at (Some (node_bytes kind (node_between (pair_in kind block.old) left right)))) }
    ensures root { IfOk result (λ s. s.root ≡ at) }
    ensures height { IfOk result (λ s. s.height ≡ max left.height right.height + 1) }
    ensures refused { OnErr result (((P.budget pages.old).ranges < 1) ⊎ (((P.budget pages.old).bytes < 256) ⊎ (255 ≤ max left.height right.height))) }
    ensures free { (P.budget pages.new).free ≡ (P.budget pages.old).free }
    ensures spent { IsSpent 1 256 (P.budget pages.old) (P.budget pages.new) }
    ensures rests { Rests P.stopped P.count P.burns pages.old pages.new }
{
    let height = height_above(left, right)?;
    let links = Links {
        height,
        left: left.root,
        right: right.root,
    };
    write_links(links, block);
    pages.stage_block(at, block)?;
    Ok(Sub { root: at, height })
}
