// All that stands below the roots of an image.
ghost use Rattle.std.specs.Prelude.{◌≡◌, map, IsTrue};
ghost use Rattle.vos_image.specs.Kinds.{objects};
ghost use Rattle.vos_image.specs.Nodes.{nodes_in};
ghost use Rattle.vos_image.specs.Trees.{read_tree};
ghost use Rattle.vos_check_base.specs.Answers.{Does};
ghost use Rattle.vos_check_base.specs.Sets.{open_of};
ghost use Rattle.vos_check.specs.Rows.{row_of};
ghost use Rattle.vos_check_base.specs.Health.{IsRead, says_stopped};

use crate::node::NodeRow;
use crate::objects::Objects;
use std::alloc::Global;
use vos_check_base::fresh::Fresh;
use vos_check_base::ground::Ground;
use vos_check_base::refusal::CheckNo;
use vos_check_base::source::Source;
use vos_check_trees::tree::tree;

/// Checks the objects below a root, with all that they lead to: the nodes of their log entries, single
/// versions and extents, in the order of the reading.
///
/// # Errors
///
/// It gives the byte at fault, or says that a read failed or that memory is wanting.
pub fn check_objects<S: Source>(
    alloc: Global,
    source: &mut S,
    ground: &Ground,
    fresh: &mut Fresh,
    root: u32,
) -> Result<Vec<NodeRow>, CheckNo>
    ensures read { IsTrue S.tells → Does ground.now (S.bytes source.old) (λ c. read_tree objects c root) (open_of fresh.old) (open_of fresh.new)
        (λ nodes o. nodes.items ≡ map row_of (nodes_in o)) result }
    ensures kept { IsTrue S.tells → S.bytes source.new ≡ S.bytes source.old }
    ensures stops { IsRead S.health S.looked source.old source.new (says_stopped result) }
{
    let mut out = Vec::new(alloc);
    let level = Objects { ground: *ground };
    tree(&level, source, fresh, &mut out, root)?;
    Ok(out)
}
