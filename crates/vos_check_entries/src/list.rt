// The list of an entry.
ghost use Rattle.std.specs.Prelude.{◌≡◌, ◌*◌, ◌/◌, ℕ, List, [], length, IsTrue};
ghost use Rattle.vos_check.specs.vos_image.Kinds.{read_list};
ghost use Rattle.vos_check_base.specs.declared.ground.Ground.{Ground as GroundOf};
ghost use Rattle.vos_check_base.specs.Answers.{Does, IsBlame};
ghost use Rattle.vos_check_base.specs.Health.{IsRead, is_stopped, says_stopped};
ghost use Rattle.vos_check_base.specs.Sets.{open_of};
ghost use Rattle.vos_check_entries.specs.Nodes.{is_node};
ghost use Rattle.vos_check_entries.specs.Steps.{counts_nodes, gives_next, read_list_block};

use crate::entry::Lister;
use crate::nodes::NodeSet;
use crate::numbers::{ListNo, part};
use crate::seen::Seen;
use pmem_pages::BLOCK;
use std::alloc::Global;
use vos_check_base::fresh::Fresh;
use vos_check_base::ground::Ground;
use vos_check_base::refusal::CheckNo;
use vos_check_base::source::{Source, blame};

// A block of a list, which is read: the next block, or 0 in the last.
fn part_at<S: Source>(
    source: &mut S,
    fresh: &mut Fresh,
    nodes: &NodeSet,
    of: &Lister,
    seen: &mut Seen,
    block: u32,
) -> Result<u32, CheckNo>
    ensures read { IsTrue S.tells → (g : GroundOf) → Does g (S.bytes source.old) (λ c. read_list_block c (is_node nodes.now of.now) block seen.old)
        (open_of fresh.old) (open_of fresh.new) (gives_next seen.new) result }
    ensures kept { IsTrue S.tells → S.bytes source.new ≡ S.bytes source.old }
    ensures stops { IsRead S.health S.looked source.old source.new (says_stopped result) }
{
    let mut bytes = [0; BLOCK];
    source.read(256 * u64::from(block), &mut bytes)?;
    match part(fresh, nodes, of, seen, block, &bytes) {
        Ok(next) => Ok(next),
        Err(ListNo::At(at)) => Err(blame(source, at)),
        Err(ListNo::Memory) => Err(CheckNo::Memory),
    }
}

// The fault of the first byte of a block, which is read to be shown.
fn blame_block<S: Source>(source: &mut S, block: u32) -> CheckNo
    ensures blamed { IsTrue S.tells → IsBlame (S.bytes source.old) (256 * block) result }
    ensures kept { IsTrue S.tells → S.bytes source.new ≡ S.bytes source.old }
    ensures stops { IsRead S.health S.looked source.old source.new (is_stopped result) }
{
    blame(source, 256 * u64::from(block))
}

/// The list that begins at a block: how many nodes it has.
pub(crate) fn list<S: Source>(
    alloc: Global,
    source: &mut S,
    ground: &Ground,
    fresh: &mut Fresh,
    nodes: &NodeSet,
    of: &Lister,
    first: u32,
) -> Result<usize, CheckNo>
    ensures read { IsTrue S.tells → Does ground.now (S.bytes source.old) (λ c. read_list c (is_node nodes.now of.now) (c.size / 256) first [])
        (open_of fresh.old) (open_of fresh.new) counts_nodes result }
    ensures kept { IsTrue S.tells → S.bytes source.new ≡ S.bytes source.old }
    ensures stops { IsRead S.health S.looked source.old source.new (says_stopped result) }
{
    let mut seen = Seen::new(alloc);
    let mut block = first;
    for _part in 0..ground.size / 256 {
        if block == 0 {
            return Ok(seen.len());
        }
        block = part_at(source, fresh, nodes, of, &mut seen, block)?;
    }
    if block != 0 {
        return Err(blame_block(source, block));
    }
    Ok(seen.len())
}
