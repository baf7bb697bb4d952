// Trees, node by node with what their values lead to.
ghost use Rattle.std.specs.Prelude.{◌≡◌, ◌≤◌, ◌<◌, IfOk, OnOk, IsTrue, None};
ghost use Rattle.vos_check_base.specs.vos_image.Trees.{read_below, read_fields, read_tree};
ghost use Rattle.vos_check_base.specs.Answers.{Does};
ghost use Rattle.vos_check_base.specs.Sets.{open_of};
ghost use Rattle.vos_check_trees.specs.Found.{Gathers, HaveLengths, IsFound, enter};
ghost use Rattle.vos_check_base.specs.Health.{IsRead, says_stopped};

use crate::fields::fields;
use crate::heights::{has_height, stored_height};
use crate::level::{Bounds, Found, Level};
use pmem_pages::BLOCK;
use vos_check_base::fresh::Fresh;
use vos_check_base::refusal::CheckNo;
use vos_check_base::source::{Source, blame};

// The fields of the node in a block, which is read.
fn fields_at<K: Level, S: Source>(
    level: &K,
    source: &mut S,
    fresh: &mut Fresh,
    block: u32,
    keys: &Bounds,
) -> Result<Found<K::Name, K::Value>, CheckNo>
    requires { HaveLengths keys.now }
    ensures read { IsTrue S.tells → Does (K.basis level.now) (S.bytes source.old) (λ c. read_fields (K.reads level.now) c block keys.now.low keys.now.high)
        (open_of fresh.old) (open_of fresh.new) (IsFound K.named) result }
    ensures length { IfOk result (λ v. v.key.len ≤ 64) }
    ensures kept { IsTrue S.tells → S.bytes source.new ≡ S.bytes source.old }
    ensures stops { IsRead S.health S.looked source.old source.new (says_stopped result) }
{
    let mut bytes = [0; BLOCK];
    source.read(256 * u64::from(block), &mut bytes)?;
    match fields(level, fresh, block, &bytes, keys) {
        Ok(found) => Ok(found),
        Err(at) => Err(blame(source, at)),
    }
}

// The fields of the node in a block, which is at most so high, and its height.
fn enter<K: Level, S: Source>(
    level: &K,
    source: &mut S,
    fresh: &mut Fresh,
    most: u8,
    block: u32,
    keys: &Bounds,
) -> Result<Found<K::Name, K::Value>, CheckNo>
    requires { HaveLengths keys.now }
    ensures read { IsTrue S.tells → Does (K.basis level.now) (S.bytes source.old) (λ c. enter (K.reads level.now) c most block keys.now.low keys.now.high)
        (open_of fresh.old) (open_of fresh.new) (IsFound K.named) result }
    ensures some { OnOk result (0 < most) }
    ensures length { IfOk result (λ v. v.key.len ≤ 64) }
    ensures kept { IsTrue S.tells → S.bytes source.new ≡ S.bytes source.old }
    ensures stops { IsRead S.health S.looked source.old source.new (says_stopped result) }
{
    let found = fields_at(level, source, fresh, block, keys)?;
    if has_height(source, most, &found.links)? {
        Ok(found)
    } else {
        Err(blame(source, 256 * u64::from(block) + 1))
    }
}

// Checks the tree below a block, which is at most so high, and whose keys lie between two.
fn below<K: Level, S: Source>(
    level: &K,
    source: &mut S,
    fresh: &mut Fresh,
    out: &mut Vec<K::Row>,
    most: u8,
    block: u32,
    keys: &Bounds,
) -> Result<(), CheckNo>
    requires { HaveLengths keys.now }
    ensures read { IsTrue S.tells → Does (K.basis level.now) (S.bytes source.old) (λ c. read_below (K.reads level.now) c most block keys.now.low keys.now.high)
        (open_of fresh.old) (open_of fresh.new) (λ _ t. Gathers K.rows out.old.items out.new.items t) result }
    ensures kept { IsTrue S.tells → S.bytes source.new ≡ S.bytes source.old }
    ensures stops { IsRead S.health S.looked source.old source.new (says_stopped result) }
{
    if block == 0 {
        return Ok(());
    }
    let found = enter(level, source, fresh, most, block, keys)?;
    let left = Bounds {
        low: keys.low,
        high: Some(found.key),
    };
    below(level, source, fresh, out, most - 1, found.links.left, &left)?;
    level.thing(source, fresh, out, block, found.name, found.value)?;
    let right = Bounds {
        low: Some(found.key),
        high: keys.high,
    };
    below(
        level,
        source,
        fresh,
        out,
        most - 1,
        found.links.right,
        &right,
    )
}

/// Checks the tree below a root.
///
/// # Errors
///
/// It gives the byte at fault, or says that a read failed or that memory is wanting.
pub fn tree<K: Level, S: Source>(
    level: &K,
    source: &mut S,
    fresh: &mut Fresh,
    out: &mut Vec<K::Row>,
    root: u32,
) -> Result<(), CheckNo>
    ensures read { IsTrue S.tells → Does (K.basis level.now) (S.bytes source.old) (λ c. read_tree (K.reads level.now) c root)
        (open_of fresh.old) (open_of fresh.new) (λ _ t. Gathers K.rows out.old.items out.new.items t) result }
    ensures kept { IsTrue S.tells → S.bytes source.new ≡ S.bytes source.old }
    ensures stops { IsRead S.health S.looked source.old source.new (says_stopped result) }
{
    let most = stored_height(source, root)?;
    let keys = Bounds {
        low: None,
        high: None,
    };
    below(level, source, fresh, out, most, root, &keys)
}
