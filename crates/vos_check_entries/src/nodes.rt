// The nodes that entries may list.
ghost use Rattle.std.specs.Prelude.{◌≡◌, IfOk, map};
ghost use Rattle.std.specs.List.{list_any};
ghost use Rattle.vos_check_entries.specs.Nodes.{HasNodeNames, is_node, node_in, node_name};

use crate::entry::Lister;
use std::alloc::{AllocError, Global};
use std::collections::HashSet;
use std::marker::Model;
use vos_check::node::NodeRow;

// The numbers that name a node: its block and its epoch, and the client, the command and the attempt.
type NodeName = ((u32, u64), ((u16, u32), u8));

/// Nodes of log entries, of single versions and of extents, which are found by block, attempt and epoch.
#[derive(Drop)]
pub struct NodeSet {
    rows: Vec<NodeRow>,
    names: HashSet<NodeName>,
}

impl Model for NodeSet {
    ghost use Rattle.std.specs.Prelude.{List, map};
    ghost use Rattle.vos_check.specs.vos_image.Nodes.{Node};
    ghost use Rattle.vos_check_entries.specs.Nodes.{HasNodeNames, node_in};

    ghost Value = { List Node };

    ghost view = { λ s. map node_in s.rows.items };

    ghost invariant = { λ s. HasNodeNames s.names s.rows.items };
}

// The numbers that name the node in a block.
fn name_of(row: &NodeRow) -> NodeName
    ensures { result ≡ node_name row.now }
{
    (
        (row.block, row.epoch.0),
        ((row.by.client, row.by.command), row.by.attempt),
    )
}

// The names of nodes.
fn names_of(alloc: Global, rows: &[NodeRow]) -> Result<HashSet<NodeName>, AllocError>
    ensures { IfOk result (λ names. HasNodeNames names rows.now) }
{
    let mut names: HashSet<NodeName> = HashSet::new(alloc);
    for row in rows {
        names.insert(name_of(row))?;
    }
    Ok(names)
}

impl NodeSet {
    /// All nodes of some rows.
    pub fn new(alloc: Global, rows: Vec<NodeRow>) -> Result<NodeSet, AllocError>
        ensures { IfOk result (λ nodes. nodes ≡ map node_in rows.items) }
    {
        let names = names_of(alloc, &rows)?;
        Ok(NodeSet { rows, names })
    }

    /// Whether in a block stands a node of an attempt and epoch.
    pub fn has(&self, of: &Lister, block: u32) -> bool
        ensures { result ≡ is_node self.now of.now block }
    {
        let row = NodeRow {
            block,
            by: of.attempt,
            epoch: of.epoch,
        };
        self.names.contains(&name_of(&row))
    }
}
