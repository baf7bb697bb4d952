// Trees in memory beside a plain list of what is there.
ghost use Rattle.std.specs.Prelude.{◌≡◌, ◌<◌, ◌≤◌};
ghost use Rattle.pmem_pages.specs.Node.{IsKey, IsValue};

use pmem_memory::mem_pages::MemPages;
use pmem_pages::codec::read_node;
use pmem_pages::pages::Pages;
use pmem_pages::steps::Steps;
use pmem_tree::tree::Tree;
use pmem_tree::{Pair, TreeKey, Value};
use std::alloc::Global;
use std::marker::Brand;
use std::sync::ledger::{Blank, Ledger};

// A key of two bytes.
fn key_of(i: u16) -> TreeKey
    ensures { IsKey result }
{
    let [high, low] = i.to_be_bytes();
    let mut bytes = [0; 64];
    bytes[0] = high;
    bytes[1] = low;
    TreeKey { len: 2, bytes }
}

// A value of the kind of single versions, whose values have 14 bytes.
fn value_of(i: u16) -> Value
    ensures { IsValue 5 result }
{
    let [high, low] = i.to_be_bytes();
    let mut bytes = [0; 180];
    bytes[0] = high;
    bytes[1] = low;
    Value { len: 14, bytes }
}

fn number_in(bytes: &[u8]) -> u16 {
    match bytes {
        [high, low, ..] => u16::from_be_bytes([*high, *low]),
        _ => 0,
    }
}

// The most that a call may take, with so many pairs.
fn most(count: usize, each: u64, besides: u64) -> u64 {
    u64::from(usize::BITS - count.leading_zeros())
        .saturating_mul(each)
        .saturating_add(besides)
}

// Whether what a call read and staged is within bounds.
fn is_cheap(pages: &MemPages, reads: u64, steps: u64, ranges: u64) -> bool {
    let staged = 1024 - pages.ranges().min(1024);
    pages.reads().saturating_sub(reads) <= steps && u64::from(staged) <= ranges
}

// Puts a number into the tree with this root, where there are `count`: the new root.
fn insert<L: Ledger>(
    pages: &mut MemPages,
    root: u32,
    i: u16,
    count: usize,
    steps: &mut Steps<L>,
) -> Option<u32> {
    pages.grant(1024, 256000);
    let reads = pages.reads();
    let mut tree = Tree { kind: 5, root };
    tree.insert(pages, &key_of(i), &value_of(i), steps).ok()?;
    if is_cheap(pages, reads, most(count, 16, 16), most(count, 4, 8)) {
        Some(tree.root)
    } else {
        None
    }
}

// Takes a number out of the tree.
fn remove<L: Ledger>(
    pages: &mut MemPages,
    root: u32,
    i: u16,
    count: usize,
    steps: &mut Steps<L>,
) -> Option<u32> {
    pages.grant(1024, 256000);
    let reads = pages.reads();
    let mut tree = Tree { kind: 5, root };
    tree.remove(pages, &key_of(i), steps).ok()?;
    if is_cheap(pages, reads, most(count, 16, 16), most(count, 8, 16)) {
        Some(tree.root)
    } else {
        None
    }
}

// The first number of the tree above this one.
fn next<L: Ledger>(
    pages: &mut MemPages,
    root: u32,
    i: u16,
    count: usize,
    steps: &mut Steps<L>,
) -> Option<u16> {
    let reads = pages.reads();
    let tree = Tree { kind: 5, root };
    let pair = tree.next_after(pages, &key_of(i), steps).ok()??;
    let same = number_in(&pair.key.bytes) == number_in(&pair.value.bytes);
    let cheap = pages.reads().saturating_sub(reads) <= most(count, 2, 0);
    if same && cheap {
        Some(number_in(&pair.key.bytes))
    } else {
        None
    }
}

// The height of the balanced tree below a block, and none where it isn't balanced as its nodes say.
fn balanced_height<L: Ledger>(
    pages: &mut MemPages,
    at: u32,
    depth: u8,
    steps: &mut Steps<L>,
) -> Option<u8> {
    if at == 0 {
        return Some(0);
    }
    if depth == 0 {
        return None;
    }
    let mut block = [0; 256];
    pages.read_block(at, &mut block, steps).ok()?;
    let node = read_node(5, &block);
    let left = balanced_height(pages, node.left, depth - 1, steps)?;
    let right = balanced_height(pages, node.right, depth - 1, steps)?;
    let height = left.max(right).saturating_add(1);
    if left.abs_diff(right) <= 1 && node.height == height && block[0] == 5 {
        Some(height)
    } else {
        None
    }
}

// Whether the tree has exactly the numbers from 1 on that a list says are there, in order.
fn agrees<L: Ledger>(
    pages: &mut MemPages,
    root: u32,
    there: &[bool],
    count: usize,
    steps: &mut Steps<L>,
) -> bool {
    let mut last = 0;
    let mut number = 0u16;
    for is_there in there {
        number = number.saturating_add(1);
        if *is_there {
            if next(pages, root, last, count, steps) != Some(number) {
                return false;
            }
            last = number;
        }
    }
    next(pages, root, last, count, steps).is_none()
        && balanced_height(pages, root, 66, steps).is_some()
}

// The number that comes after so many in an order, below 1,000.
fn at(order: u16, k: u16) -> u16
    ensures { result < 1000 }
{
    (u32::from(k) * u32::from(order) % 1000) as u16
}

// A list that says of none of the numbers from 1 to 1,000 that it is there.
fn none_there(alloc: Global) -> Option<Vec<bool>> {
    let mut there = Vec::new(alloc);
    for _ in 0..1000 {
        there.push(false).ok()?;
    }
    Some(there)
}

// Notes whether the number behind this one is there.
fn set(there: &mut [bool], i: u16, is_there: bool) {
    if let Some(noted) = there.get_mut(usize::from(i)) {
        *noted = is_there;
    }
}

// Inserts the numbers from 1 to 1,000 in an order: the new root.
fn grow<L: Ledger>(
    pages: &mut MemPages,
    order: u16,
    there: &mut [bool],
    steps: &mut Steps<L>,
) -> Option<u32> {
    let mut root = 0;
    for k in 0..1000u16 {
        let i = at(order, k);
        root = insert(pages, root, i + 1, usize::from(k), steps)?;
        set(there, i, true);
    }
    Some(root)
}

// Removes each second one of that order.
fn shrink<L: Ledger>(
    pages: &mut MemPages,
    root: u32,
    order: u16,
    there: &mut [bool],
    steps: &mut Steps<L>,
) -> Option<u32> {
    let mut root = root;
    for k in 0..500u16 {
        let i = at(order, 2 * k);
        root = remove(pages, root, i + 1, 1000, steps)?;
        set(there, i, false);
    }
    Some(root)
}

// Whether the tree agrees with the list once it is grown, and once it is shrunk; and how many blocks are free then.
fn row<L: Ledger>(alloc: Global, order: u16, blank: Blank) -> Option<(bool, bool, u32)>
    requires name { blank.name ≡ L.name }
    requires parts { blank.parts ≡ L.parts }
    requires some { 0 < blank.parts }
{
    let mut steps = Steps::<L>::new(blank);
    let mut pages = MemPages::new(alloc, 1000).ok()?;
    let mut there = none_there(alloc)?;
    let root = grow(&mut pages, order, &mut there, &mut steps)?;
    let full = agrees(&mut pages, root, &there, 1000, &mut steps);
    let root = shrink(&mut pages, root, order, &mut there, &mut steps)?;
    let half = agrees(&mut pages, root, &there, 500, &mut steps);
    Some((full, half, pages.free()))
}

// Whether all go well in an order.
fn agree(alloc: Global, order: u16) -> bool {
    row::<Brand>(alloc, order, Blank::new(1)) == Some((true, true, 500))
}

#[test]
fn trees_agree_with_lists(rt: HostRuntime) {
    let alloc = rt.alloc();
    assert!(rt; agree(alloc, 1));
    assert!(rt; agree(alloc, 999));
    assert!(rt; agree(alloc, 617));
}

// A key of one byte.
fn letter(byte: u8) -> TreeKey
    ensures { IsKey result }
{
    let mut bytes = [0; 64];
    bytes[0] = byte;
    TreeKey { len: 1, bytes }
}

// The number that a pair holds, or 0.
fn pair_number(pair: Option<Pair>) -> u16 {
    match pair {
        Some(pair) => number_in(&pair.value.bytes),
        None => 0,
    }
}

// The number that a value holds, or 0.
fn value_number(value: Option<Value>) -> u16 {
    match value {
        Some(value) => number_in(&value.bytes),
        None => 0,
    }
}

// The root of a tree with the keys `a` and `c`.
fn plant<L: Ledger>(pages: &mut MemPages, steps: &mut Steps<L>) -> Option<u32> {
    let mut tree = Tree { kind: 5, root: 0 };
    tree.insert(pages, &letter(b'c'), &value_of(3), steps).ok()?;
    tree.insert(pages, &letter(b'a'), &value_of(1), steps).ok()?;
    Some(tree.root)
}

// What stands after a letter, below it, and at it.
fn around<L: Ledger>(
    pages: &mut MemPages,
    root: u32,
    byte: u8,
    steps: &mut Steps<L>,
) -> Option<[u16; 3]> {
    let tree = Tree { kind: 5, root };
    let after = tree.next_after(pages, &letter(byte), steps).ok()?;
    let below = tree.last_below(pages, &letter(byte), steps).ok()?;
    let at = tree.get(pages, &letter(byte), steps).ok()?;
    Some([pair_number(after), pair_number(below), value_number(at)])
}

// What stands so around `a`, and around `c` once its value was changed.
fn letters<L: Ledger>(alloc: Global, blank: Blank) -> Option<[[u16; 3]; 2]>
    requires name { blank.name ≡ L.name }
    requires parts { blank.parts ≡ L.parts }
    requires some { 0 < blank.parts }
{
    let mut steps = Steps::<L>::new(blank);
    let mut pages = MemPages::new(alloc, 2).ok()?;
    pages.grant(1024, 256000);
    let root = plant(&mut pages, &mut steps)?;
    let first = around(&mut pages, root, b'a', &mut steps)?;
    let mut tree = Tree { kind: 5, root };
    tree.put_value(&mut pages, &letter(b'c'), &value_of(4), &mut steps)
        .ok()?;
    let second = around(&mut pages, root, b'c', &mut steps)?;
    Some([first, second])
}

// Whether look-ups answer so.
fn are_around(alloc: Global) -> bool {
    letters::<Brand>(alloc, Blank::new(1)) == Some([[3, 0, 1], [0, 1, 4]])
}

#[test]
fn look_ups_beside_two_letters(rt: HostRuntime) {
    assert!(rt; are_around(rt.alloc()));
}
