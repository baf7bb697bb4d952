// The heights that nodes say.
ghost use Rattle.std.specs.Prelude.{◌≡◌, ◌<◌, ◌==◌, ◌&&◌, not, true, IfOk, IsTrue, is_err};
ghost use Rattle.vos_check_base.specs.vos_image.Trees.{is_height, stored_height};
ghost use Rattle.vos_check_base.specs.Answers.{content};
ghost use Rattle.vos_check_base.specs.declared.ground.Ground.{Ground as GroundOf};
ghost use Rattle.vos_check_base.specs.Health.{IsRead};

use pmem_pages::node::Links;
use pmem_pages::refusal::Stopped;
use vos_check_base::source::{Source, byte_at};

// Whether a height is one more than the greater of two that differ by at most one.
fn is_height(height: u8, left: u8, right: u8) -> bool
    ensures { result ≡ is_height height left right }
{
    let (height, left, right) = (u16::from(height), u16::from(left), u16::from(right));
    height == left.max(right) + 1 && left <= right + 1 && right <= left + 1
}

/// The height that the node in a block says, 0 where there is none.
pub fn stored_height<S: Source>(source: &mut S, block: u32) -> Result<u8, Stopped>
    ensures read { IfOk result (λ h. IsTrue S.tells → (g : GroundOf) → h ≡ stored_height (content g (S.bytes source.old)) block) }
    ensures kept { IsTrue S.tells → S.bytes source.new ≡ S.bytes source.old }
    ensures stops { IsRead S.health S.looked source.old source.new (is_err result) }
{
    if block == 0 {
        return Ok(0);
    }
    let height = byte_at(source, 256 * u64::from(block) + 1)?;
    Ok(height)
}

/// Whether a node that is at most so high has the height that those below it ask for.
pub fn has_height<S: Source>(source: &mut S, most: u8, links: &Links) -> Result<bool, Stopped>
    ensures read { IfOk result (λ t. IsTrue S.tells → (g : GroundOf) → t ≡ (not (most == 0) && is_height links.now.height
        (stored_height (content g (S.bytes source.old)) links.now.left) (stored_height (content g (S.bytes source.old)) links.now.right))) }
    ensures some { IfOk result (λ t. t ≡ true → 0 < most) }
    ensures kept { IsTrue S.tells → S.bytes source.new ≡ S.bytes source.old }
    ensures stops { IsRead S.health S.looked source.old source.new (is_err result) }
{
    if most == 0 {
        return Ok(false);
    }
    let left = stored_height(source, links.left)?;
    let right = stored_height(source, links.right)?;
    Ok(is_height(links.height, left, right))
}
