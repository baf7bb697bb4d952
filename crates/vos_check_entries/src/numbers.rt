// The numbers of a block of a list.
ghost use Rattle.std.specs.Prelude.{◌≡◌, ◌≤◌, ◌<◌, ◌+◌, ◌*◌, ◌^◌, ◌&&◌, ◌∷◌, ◌++◌, [], not, true, ℕ, List, length, take, drop, IfOk};
ghost use Rattle.byteorder.specs.Endian.{big_number};
ghost use Rattle.vos_check.specs.vos_image.Kinds.{read_numbers, read_part};
ghost use Rattle.vos_check.specs.vos_image.Steps.{is_among, zeros};
ghost use Rattle.vos_check_base.specs.Answers.{LeadsIn, Plain, nothing, same};
ghost use Rattle.vos_check_base.specs.Sets.{open_of};
ghost use Rattle.vos_check_base.specs.declared.ground.Ground.{Ground as GroundOf};
ghost use Rattle.vos_check_entries.specs.Nodes.{is_node};
ghost use Rattle.vos_check_entries.specs.Steps.{AddsNumbers, PartIn, read_end, read_front, read_list_block};

use crate::entry::Lister;
use crate::nodes::NodeSet;
use crate::seen::Seen;
use byteorder::{BigEndian, ByteOrder};
use std::alloc::AllocError;
use vos_check_base::fresh::Fresh;
use vos_check_base::rules::{rule, rule_in, zeros};

/// Why numbers aren't taken in: the place of the byte at fault, or memory is wanting.
pub(crate) enum ListNo {
    At(u64),
    Memory,
}

impl From<u64> for ListNo {
    ghost use Rattle.std.specs.Prelude.{◌≡◌};
    ghost use Rattle.vos_check_entries.specs.declared.numbers.ListNo.TheVariants.{At};

    ghost from_gives = { λ at e. e ≡ At at };

    fn from(at: u64) -> Self {
        ListNo::At(at)
    }
}

impl From<AllocError> for ListNo {
    ghost use Rattle.std.specs.Prelude.{◌≡◌};
    ghost use Rattle.vos_check_entries.specs.declared.numbers.ListNo.TheVariants.{Memory};

    ghost from_gives = { λ _ e. e ≡ Memory };

    fn from(_: AllocError) -> Self {
        ListNo::Memory
    }
}

fn four_at(bytes: &[u8], at: usize) -> u32
    requires { at + 4 ≤ length bytes.now }
    ensures { result ≡ big_number 4 (drop at bytes.now) }
{
    BigEndian::read_u32(&bytes[at..])
}

// AddsNumbers the number of a node that isn't listed yet.
fn add_node(nodes: &NodeSet, of: &Lister, seen: &mut Seen, number: u32) -> Result<bool, AllocError>
    ensures told { IfOk result (λ t. t ≡ (is_node nodes.now of.now number && not (is_among number seen.old))) }
    ensures added { IfOk result (λ t. t ≡ true → seen.new ≡ seen.old ++ number ∷ []) }
{
    if !nodes.has(of, number) {
        return Ok(false);
    }
    seen.add(number)
}

// Numbers end in the last block of a list alone, and zeros follow.
fn end(last: bool, at: u64, bytes: &[u8]) -> Result<(), u64>
    requires { at + length bytes.now < 2 ^ 64 }
    ensures { (led : List ℕ) → Plain (read_end last at bytes.now led) led nothing result }
{
    rule(at, last)?;
    zeros(at, bytes)
}

// So many numbers at most.
fn numbers(
    nodes: &NodeSet,
    of: &Lister,
    seen: &mut Seen,
    last: bool,
    left: u8,
    at: u64,
    bytes: &[u8],
) -> Result<(), ListNo>
    requires long { length bytes.now ≡ 4 * left }
    requires low { at + 4 * left < 2 ^ 64 }
    ensures { AddsNumbers (read_numbers (is_node nodes.now of.now) last left at bytes.now seen.old) seen.new result }
{
    if left == 0 {
        return Ok(());
    }
    let number = four_at(bytes, 0);
    if number == 0 {
        end(last, at, bytes)?;
        return Ok(());
    }
    let is_added = add_node(nodes, of, seen, number)?;
    if !is_added {
        return Err(ListNo::At(at));
    }
    numbers(nodes, of, seen, last, left - 1, at + 4, &bytes[4..])
}

// The numbers of a block, 62 at most.
fn all_numbers(
    nodes: &NodeSet,
    of: &Lister,
    seen: &mut Seen,
    last: bool,
    at: u64,
    bytes: &[u8],
) -> Result<(), ListNo>
    requires long { length bytes.now ≡ 248 }
    requires low { at + 248 < 2 ^ 64 }
    ensures { AddsNumbers (read_part (is_node nodes.now of.now) last at bytes.now seen.old) seen.new result }
{
    let most = (bytes.len() / 4) as u8;
    numbers(nodes, of, seen, last, most, at, bytes)
}

// Three zeros stand behind the kind of a block.
fn three_zeros(block: u32, bytes: &[u8; 256]) -> Result<(), u64>
    ensures { (led : List ℕ) → Plain (zeros (256 * block + 1) (take 3 (drop 1 bytes.now)) led) led nothing result }
{
    zeros(256 * u64::from(block) + 1, &bytes[1..4])
}

// The fields in front of the numbers of a block: the next block, or 0 in the last.
fn front(fresh: &mut Fresh, block: u32, bytes: &[u8; 256]) -> Result<u32, u64>
    ensures { (g : GroundOf) → LeadsIn block bytes.now g (λ c. read_front c block) (open_of fresh.old) (open_of fresh.new) same result }
{
    let next = four_at(bytes, 4);
    rule_in(block, 0, bytes[0] == 8)?;
    three_zeros(block, bytes)?;
    fresh.lead_in(block, 4, next)?;
    rule_in(block, 8, four_at(bytes, 8) != 0)?;
    Ok(next)
}

/// The fields of a block of a list, whose numbers are added: the next block, or 0 in the last.
pub(crate) fn part(
    fresh: &mut Fresh,
    nodes: &NodeSet,
    of: &Lister,
    seen: &mut Seen,
    block: u32,
    bytes: &[u8; 256],
) -> Result<u32, ListNo>
    ensures { (g : GroundOf) → PartIn block bytes.now g (λ c. read_list_block c (is_node nodes.now of.now) block seen.old) (open_of fresh.old) (open_of fresh.new) seen.new result }
{
    let next = front(fresh, block, bytes)?;
    let at = 256 * u64::from(block) + 8;
    all_numbers(nodes, of, seen, next == 0, at, &bytes[8..])?;
    Ok(next)
}
