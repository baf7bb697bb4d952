// The bytes of a node in its block.
ghost use Rattle.std.specs.Prelude.{◌≡◌, ◌≤◌, ◌<◌, ◌+◌, ◌^◌, ℕ, List, length, take, drop};
ghost use Rattle.std.specs.Ordering.{nat_cmp};
ghost use Rattle.std.specs.Cmp.Lexicographic.{slice_cmp};
ghost use Rattle.byteorder.specs.Endian.{big_bytes, big_number};
ghost use Rattle.pmem_pages.specs.declared.node.Node.{Node as NodeOf};
ghost use Rattle.pmem_pages.specs.Node.{key_cmp, key_text, value_len, node_bytes, node_of, links_of, with_links, IsNode, IsNodeBlock};

use crate::node::{Links, Node, TreeKey, Value};
use byteorder::{BigEndian, ByteOrder};
use std::cmp::Ordering;

// How two keys lie to each other, byte by byte.
#[tactic(auto, unfolding(crate::specs::Node::key_cmp))]
fn compare_bytes(a: &TreeKey, b: &TreeKey) -> Ordering
    requires a { a.now.len ≤ 64 }
    requires b { b.now.len ≤ 64 }
    ensures { result ≡ key_cmp a.now b.now }
{
    let left = &a.bytes[..usize::from(a.len)];
    let right = &b.bytes[..usize::from(b.len)];
    left.cmp(right)
}

// How the first eight bytes lie to each other, as numbers.
fn compare_heads(left: &[u8], right: &[u8]) -> Ordering
    requires left { 8 ≤ length left.now }
    requires right { 8 ≤ length right.now }
    ensures { result ≡ slice_cmp nat_cmp (take 8 left.now) (take 8 right.now) }
{
    let high = BigEndian::read_u64(left);
    high.cmp(&BigEndian::read_u64(right))
}

/// How two keys lie to each other, by their bytes. Where both have eight or more, the first eight are compared
/// at once.
pub fn compare(a: &TreeKey, b: &TreeKey) -> Ordering
    requires a { a.now.len ≤ 64 }
    requires b { b.now.len ≤ 64 }
    ensures { result ≡ key_cmp a.now b.now }
{
    if a.len < 8 || b.len < 8 {
        return compare_bytes(a, b);
    }
    match compare_heads(&a.bytes, &b.bytes) {
        Ordering::Less => Ordering::Less,
        Ordering::Equal => compare_bytes(a, b),
        Ordering::Greater => Ordering::Greater,
    }
}

/// How many bytes the values of a kind have.
pub fn value_length(kind: u8) -> u8
    ensures { result ≡ value_len kind }
{
    match kind {
        1 | 2 => 8,
        3 => 12,
        4 => 9,
        7 => 30,
        _ => 14,
    }
}

fn two_bytes(n: u16) -> [u8; 2]
    ensures { result ≡ big_bytes 2 n }
{
    let mut two = [0; 2];
    BigEndian::write_u16(&mut two, n);
    two
}

fn four_bytes(n: u32) -> [u8; 4]
    ensures { result ≡ big_bytes 4 n }
{
    let mut four = [0; 4];
    BigEndian::write_u32(&mut four, n);
    four
}

fn two_at(bytes: &[u8], at: usize) -> u16
    requires { at + 2 ≤ length bytes.now }
    ensures { result ≡ big_number 2 (drop at bytes.now) }
{
    BigEndian::read_u16(&bytes[at..])
}

fn four_at(bytes: &[u8], at: usize) -> u32
    requires { at + 4 ≤ length bytes.now }
    ensures { result ≡ big_number 4 (drop at bytes.now) }
{
    BigEndian::read_u32(&bytes[at..])
}

/// Writes a node of this kind into a block.
pub fn write_node(kind: u8, node: &Node, to: &mut [u8; 256])
    ensures { to.new ≡ node_bytes kind node.now }
{
    to[0..2].copy_from_slice(&[kind, node.height]);
    to[2..4].copy_from_slice(&two_bytes(u16::from(node.key.len)));
    to[4..8].copy_from_slice(&four_bytes(node.left));
    to[8..12].copy_from_slice(&four_bytes(node.right));
    to[12..76].copy_from_slice(&node.key.bytes);
    to[76..256].copy_from_slice(&node.value.bytes);
}

/// Reads a node of this kind from a block, whatever its bytes are.
#[tactic(auto, unfolding(crate::specs::Node::node_of))]
pub fn read_node(kind: u8, from: &[u8; 256]) -> Node
    ensures node { result ≡ node_of kind from.now }
    ensures key { result.key.len ≤ 64 }
{
    let mut key = [0; 64];
    key.copy_from_slice(&from[12..76]);
    let mut value = [0; 180];
    value.copy_from_slice(&from[76..256]);
    Node {
        height: from[1],
        left: four_at(from, 4),
        right: four_at(from, 8),
        key: TreeKey {
            len: two_at(from, 2).min(64) as u8,
            bytes: key,
        },
        value: Value {
            len: value_length(kind),
            bytes: value,
        },
    }
}

/// The links of the node in a block, whatever its bytes are.
#[tactic(auto, unfolding(crate::specs::Node::node_of))]
pub fn read_links(from: &[u8; 256]) -> Links
    ensures { (kind : ℕ) → result ≡ links_of (node_of kind from.now) }
{
    Links {
        height: from[1],
        left: four_at(from, 4),
        right: four_at(from, 8),
    }
}

/// Writes other links into the block of a node.
pub fn write_links(links: Links, to: &mut [u8; 256])
    ensures { (kind : ℕ) (n : NodeOf) → to.old ≡ node_bytes kind n → to.new ≡ node_bytes kind (with_links n links) }
{
    to[1] = links.height;
    to[4..8].copy_from_slice(&four_bytes(links.left));
    to[8..12].copy_from_slice(&four_bytes(links.right));
}

// How a key lies to that of the node in a block, byte by byte.
#[tactic(auto, unfolding(crate::specs::Node::key_cmp, crate::specs::Node::node_of))]
fn compare_bytes_in(key: &TreeKey, len: u8, block: &[u8; 256]) -> Ordering
    requires key { key.now.len ≤ 64 }
    requires len { len ≤ 64 }
    ensures { result ≡ slice_cmp nat_cmp (key_text key.now) (take len (drop 12 block.now)) }
{
    let left = &key.bytes[..usize::from(key.len)];
    let right = &block[12..12 + usize::from(len)];
    left.cmp(right)
}

/// How a key lies to that of the node in a block, as `compare` says it.
pub fn compare_in(key: &TreeKey, block: &[u8; 256]) -> Ordering
    requires { key.now.len ≤ 64 }
    ensures { (kind : ℕ) → result ≡ key_cmp key.now (node_of kind block.now).key }
{
    let len = two_at(block, 2).min(64) as u8;
    if key.len < 8 || len < 8 {
        return compare_bytes_in(key, len, block);
    }
    match compare_heads(&key.bytes, &block[12..]) {
        Ordering::Less => Ordering::Less,
        Ordering::Equal => compare_bytes_in(key, len, block),
        Ordering::Greater => Ordering::Greater,
    }
}

/// A node is read back as it was written, and a block that holds a node is written back as it was
/// read: neither says more than the other.
pub fn nodes_are_blocks()
    ensures again { (kind : ℕ) (n : NodeOf) → IsNode kind n → node_of kind (node_bytes kind n) ≡ n }
    ensures back { (kind : ℕ) (bs : List ℕ) → IsNodeBlock kind bs → node_bytes kind (node_of kind bs) ≡ bs }
{}
