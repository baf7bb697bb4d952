// The tree of entries.
ghost use Rattle.std.specs.Prelude.{◌≡◌, map, IsTrue};
ghost use Rattle.vos_check.specs.vos_image.Kinds.{entries};
ghost use Rattle.vos_check.specs.vos_image.Trees.{read_tree};
ghost use Rattle.vos_levels.specs.Levels.{things};
ghost use Rattle.vos_check_base.specs.Answers.{Does};
ghost use Rattle.vos_check_base.specs.Health.{IsRead, says_stopped};
ghost use Rattle.vos_check_base.specs.Sets.{open_of};
ghost use Rattle.vos_check_entries.specs.Nodes.{node_in};
ghost use Rattle.vos_check_entries.specs.Rows.{entry_row, row_with};

use crate::entry::{EntryRow, Lister};
use crate::list::list;
use crate::nodes::NodeSet;
use base_types::entry::Entry;
use base_types::id::AttemptId;
use pmem_pages::node::{TreeKey, Value};
use std::alloc::Global;
use vos_check::below::check_trees::level::Level;
use vos_check::below::check_trees::tree::tree;
use vos_check::entry::{attempt_in, entry_in};
use vos_check::node::NodeRow;
use vos_check_base::fresh::Fresh;
use vos_check_base::ground::Ground;
use vos_check_base::refusal::CheckNo;
use vos_check_base::source::Source;
use vos_values::values::EntryMark;

/// The trees of entries, which list nodes.
#[derive(Drop)]
pub struct Entries {
    pub alloc: Global,
    pub ground: Ground,
    pub nodes: NodeSet,
}

// What is gathered of an entry that lists so many nodes.
fn row_of(attempt: AttemptId, mark: EntryMark, listed: usize) -> EntryRow
    ensures { result ≡ row_with attempt mark listed }
{
    EntryRow {
        entry: Entry {
            attempt,
            epoch: mark.epoch,
            leader: mark.leader,
            members: mark.members,
            confirmed: mark.confirmed,
            committed: mark.committed,
        },
        listed,
    }
}

impl Level for Entries {
    ghost use Rattle.std.specs.Prelude.{[], ◌∷◌};
    ghost use Rattle.base_types.specs.declared.id.AttemptId.{AttemptId as NameOf};
    ghost use Rattle.vos_entries.specs.Entries.{Stored};
    ghost use Rattle.vos_check.specs.vos_image.Kinds.{entries};
    ghost use Rattle.vos_check_entries.specs.Rows.{entry_row};

    type Name = AttemptId;

    type Value = EntryMark;

    type Row = EntryRow;

    ghost Names = { NameOf };

    ghost Things = { Stored };

    ghost named = { λ m. m };

    ghost basis = { λ s. s.ground };

    ghost reads = { λ s. entries s.nodes };

    ghost rows = { λ b a. entry_row a ∷ [] };

    fn number(&self) -> u8 {
        7
    }

    fn is_length(&self, length: u16) -> bool {
        length == 7
    }

    fn name(&self, block: u32, key: &TreeKey) -> Result<AttemptId, u64> {
        attempt_in(block, key)
    }

    fn value(
        &self,
        fresh: &mut Fresh,
        block: u32,
        _name: AttemptId,
        value: &Value,
    ) -> Result<EntryMark, u64> {
        entry_in(&self.ground, fresh, block, value)
    }

    fn thing<S: Source>(
        &self,
        source: &mut S,
        fresh: &mut Fresh,
        out: &mut Vec<EntryRow>,
        _block: u32,
        name: AttemptId,
        value: EntryMark,
    ) -> Result<(), CheckNo> {
        let of = Lister {
            attempt: name,
            epoch: value.epoch,
        };
        let listed = list(
            self.alloc,
            source,
            &self.ground,
            fresh,
            &self.nodes,
            &of,
            value.chain,
        )?;
        out.push(row_of(name, value, listed))?;
        Ok(())
    }
}

/// Checks the entries below a root, with their lists of nodes: each entry and how many nodes it lists, in
/// the order of the reading.
///
/// # Errors
///
/// It gives the byte at fault, or says that a read failed or that memory is wanting.
pub fn check_entries<S: Source>(
    alloc: Global,
    source: &mut S,
    ground: &Ground,
    fresh: &mut Fresh,
    nodes: Vec<NodeRow>,
    root: u32,
) -> Result<Vec<EntryRow>, CheckNo>
    ensures read { IsTrue S.tells → Does ground.now (S.bytes source.old) (λ c. read_tree (entries (map node_in nodes.items)) c root) (open_of fresh.old) (open_of fresh.new)
        (λ rows t. rows.items ≡ map entry_row (things t)) result }
    ensures kept { IsTrue S.tells → S.bytes source.new ≡ S.bytes source.old }
    ensures stops { IsRead S.health S.looked source.old source.new (says_stopped result) }
{
    let mut out = Vec::new(alloc);
    let level = Entries {
        alloc,
        ground: *ground,
        nodes: NodeSet::new(alloc, nodes)?,
    };
    tree(&level, source, fresh, &mut out, root)?;
    Ok(out)
}
