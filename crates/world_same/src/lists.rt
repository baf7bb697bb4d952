// Whether two lists are the same.
ghost use Rattle.std.specs.Prelude.{◌≡◌, ◌<◌, ◌+◌, ◌++◌, ◌∷◌, length, take, drop, Decides};

use crate::same::Same;
use base_types::items::Items;

/// Whether two slices hold the same values in the same order.
pub fn same_items<T: Same>(one: &[T], two: &[T]) -> bool
    ensures { Decides result (one.now ≡ two.now) }
{
    if one.len() != two.len() {
        return false;
    }
    for i in 0..one.len() {
        if !one[i].is_same(&two[i]) {
            return false;
        }
    }
    true
}

impl<T: Same> Same for Items<T> {
    fn is_same(&self, other: &Items<T>) -> bool {
        same_items(self.as_slice(), other.as_slice())
    }
}

/// Whether values are the first ones, and then the others.
pub fn is_joined<T: Same>(all: &[T], first: &[T], others: &[T]) -> bool
    ensures { Decides result (all.now ≡ first.now ++ others.now) }
{
    if all.len() < first.len() {
        return false;
    }
    let (head, tail) = all.split_at(first.len());
    same_items(head, first) && same_items(tail, others)
}

// Whether values are this one, and then the others.
fn is_begun<T: Same>(all: &[T], first: &T, others: &[T]) -> bool
    ensures { Decides result (all.now ≡ first.now ∷ others.now) }
{
    match all.split_first() {
        Some((head, tail)) => head.is_same(first) && same_items(tail, others),
        None => false,
    }
}

/// Whether values are those before, but for the one at this place, which is there.
pub fn is_set<T: Same>(all: &[T], before: &[T], at: usize, value: &T) -> bool
    requires { at < length before.now }
    ensures { Decides result (all.now ≡ take at before.now ++ (value.now ∷ drop (at + 1) before.now)) }
{
    if all.len() < at {
        return false;
    }
    let (head, tail) = all.split_at(at);
    let (first, _) = before.split_at(at);
    let (_, others) = before.split_at(at + 1);
    same_items(head, first) && is_begun(tail, value, others)
}

/// Whether values are those before without the one at this place, which is there, and then more.
pub fn is_left<T: Same>(all: &[T], before: &[T], at: usize, more: &[T]) -> bool
    requires { at < length before.now }
    ensures { Decides result (all.now ≡ take at before.now ++ (drop (at + 1) before.now ++ more.now)) }
{
    if all.len() < at {
        return false;
    }
    let (head, tail) = all.split_at(at);
    let (first, _) = before.split_at(at);
    let (_, others) = before.split_at(at + 1);
    same_items(head, first) && is_joined(tail, others, more)
}
