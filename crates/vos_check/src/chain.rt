// Chains of the bytes of versions.
ghost use Rattle.std.specs.Prelude.{◌≡◌, ◌≤◌, ◌+◌, ◌*◌, ◌==◌, not, if◌then◌else◌, ℕ, IsTrue, List, drop, take};
ghost use Rattle.vos_image.specs.Steps.{zeros};
ghost use Rattle.vos_image.specs.Kinds.{read_chain, read_links};
ghost use Rattle.vos_check_base.specs.declared.ground.Ground.{Ground as GroundOf};
ghost use Rattle.vos_check_base.specs.Answers.{Does, LeadsIn, Plain, nothing, same};
ghost use Rattle.vos_check_base.specs.Sets.{open_of};
ghost use Rattle.vos_check.specs.Steps.{is_nothing, is_same, read_link};
ghost use Rattle.vos_check_base.specs.Health.{IsRead, says_stopped};

use crate::codec::four_at;
use pmem_pages::BLOCK;
use vos_check_base::fresh::Fresh;
use vos_check_base::refusal::CheckNo;
use vos_check_base::rules::{rule_in, zeros, zeros_from};
use vos_check_base::source::{Source, blame};

// How many bytes a block of a chain holds.
const PART: u16 = 248;

// Three zeros stand behind the kind of a block.
fn three_zeros(block: u32, bytes: &[u8; 256]) -> Result<(), u64>
    ensures { (led : List ℕ) → Plain (zeros (256 * block + 1) (take 3 (drop 1 bytes.now)) led) led nothing result }
{
    zeros(256 * u64::from(block) + 1, &bytes[1..4])
}

// Whether the last block leads to none, or another to one.
fn leads_on(is_last: bool, next: u32) -> bool
    ensures { result ≡ (if is_last then next == 0 else not (next == 0)) }
{
    if is_last { next == 0 } else { next != 0 }
}

// The fields of the block of a chain that holds so many bytes: the next block, or 0 in the last.
fn link_fields(
    fresh: &mut Fresh,
    block: u32,
    bytes: &[u8; 256],
    is_last: bool,
    part: u16,
) -> Result<u32, u64>
    requires { part ≤ 248 }
    ensures { (g : GroundOf) → LeadsIn block bytes.now g (λ c. read_link c block is_last part) (open_of fresh.old) (open_of fresh.new) same result }
{
    let next = four_at(bytes, 4);
    rule_in(block, 0, bytes[0] == 8)?;
    three_zeros(block, bytes)?;
    fresh.lead_in(block, 4, next)?;
    rule_in(block, 4, leads_on(is_last, next))?;
    zeros_from(256 * u64::from(block), bytes, 8 + usize::from(part))?;
    Ok(next)
}

// The block of a chain, which is read.
fn link_at<S: Source>(
    source: &mut S,
    fresh: &mut Fresh,
    block: u32,
    is_last: bool,
    part: u16,
) -> Result<u32, CheckNo>
    requires { part ≤ 248 }
    ensures read { IsTrue S.tells → (g : GroundOf) → Does g (S.bytes source.old) (λ c. read_link c block is_last part) (open_of fresh.old) (open_of fresh.new) is_same result }
    ensures kept { IsTrue S.tells → S.bytes source.new ≡ S.bytes source.old }
    ensures stops { IsRead S.health S.looked source.old source.new (says_stopped result) }
{
    let mut bytes = [0; BLOCK];
    source.read(256 * u64::from(block), &mut bytes)?;
    match link_fields(fresh, block, &bytes, is_last, part) {
        Ok(next) => Ok(next),
        Err(at) => Err(blame(source, at)),
    }
}

// So many blocks of a chain that hold so many bytes.
fn links<S: Source>(
    source: &mut S,
    fresh: &mut Fresh,
    count: u16,
    block: u32,
    length: u16,
) -> Result<(), CheckNo>
    ensures read { IsTrue S.tells → (g : GroundOf) → Does g (S.bytes source.old) (λ c. read_links c count block length) (open_of fresh.old) (open_of fresh.new) is_nothing result }
    ensures kept { IsTrue S.tells → S.bytes source.new ≡ S.bytes source.old }
    ensures stops { IsRead S.health S.looked source.old source.new (says_stopped result) }
{
    if count == 0 {
        return Ok(());
    }
    let next = link_at(source, fresh, block, count == 1, length.min(PART))?;
    links(source, fresh, count - 1, next, length.saturating_sub(PART))
}

/// The chain of so many bytes that begins at a block.
///
/// # Errors
///
/// It gives the byte at fault, or says that a read failed.
pub fn chain<S: Source>(
    source: &mut S,
    fresh: &mut Fresh,
    block: u32,
    length: u16,
) -> Result<(), CheckNo>
    ensures read { IsTrue S.tells → (g : GroundOf) → Does g (S.bytes source.old) (λ c. read_chain c block length) (open_of fresh.old) (open_of fresh.new) is_nothing result }
    ensures kept { IsTrue S.tells → S.bytes source.new ≡ S.bytes source.old }
    ensures stops { IsRead S.health S.looked source.old source.new (says_stopped result) }
{
    links(source, fresh, length.div_ceil(PART), block, length)
}
