// The fields of a node, by place.
ghost use Rattle.std.specs.Prelude.{◌≡◌, ◌≤◌, ◌<◌, ◌+◌, ◌*◌, ◌^◌, ℕ, List, length, drop, IfOk};
ghost use Rattle.byteorder.specs.Endian.{big_number};
ghost use Rattle.vos_check_base.specs.vos_image.Steps.{zeros};
ghost use Rattle.vos_check_base.specs.vos_image.Trees.{is_above, is_below, read_fields};
ghost use Rattle.pmem_pages.specs.Node.{links_of, node_of};
ghost use Rattle.vos_check_base.specs.Answers.{LeadsIn, Plain, nothing};
ghost use Rattle.vos_check_base.specs.Sets.{open_of};
ghost use Rattle.vos_check_trees.specs.Found.{HasLength, HaveLengths, fields_of, lies_between};

use crate::level::{Bounds, Found, Level};
use byteorder::{BigEndian, ByteOrder};
use pmem_pages::codec::{compare, read_node};
use pmem_pages::node::{Links, Node, TreeKey, Value};
use std::cmp::Ordering;
use vos_check_base::fresh::Fresh;
use vos_check_base::rules::{rule_in, zeros_from};

// Whether a key lies above another, where there is one.
fn is_above(low: Option<TreeKey>, key: &TreeKey) -> bool
    requires low { HasLength low }
    requires key { key.now.len ≤ 64 }
    ensures { result ≡ is_above low key.now }
{
    match low {
        None => true,
        Some(low) => compare(&low, key) == Ordering::Less,
    }
}

// Whether a key lies below another, where there is one.
fn is_below(high: Option<TreeKey>, key: &TreeKey) -> bool
    requires high { HasLength high }
    requires key { key.now.len ≤ 64 }
    ensures { result ≡ is_below high key.now }
{
    match high {
        None => true,
        Some(high) => compare(key, &high) == Ordering::Less,
    }
}

// Whether a key lies between two.
fn lies_between(keys: &Bounds, key: &TreeKey) -> bool
    requires keys { HaveLengths keys.now }
    requires key { key.now.len ≤ 64 }
    ensures { result ≡ lies_between keys.now key.now }
{
    is_above(keys.low, key) && is_below(keys.high, key)
}

// How many bytes the key of the node in a block has, as the block says it.
fn key_length(bytes: &[u8; 256]) -> u16
    ensures { result ≡ big_number 2 (drop 2 bytes.now) }
{
    BigEndian::read_u16(&bytes[2..])
}

// The node of a kind in a block.
#[tactic(auto, unfolding(pmem_pages::specs::Node::node_of))]
fn node_in(number: u8, bytes: &[u8; 256]) -> Node
    ensures node { result ≡ node_of number bytes.now }
    ensures key { result.key.len ≤ 64 }
    ensures value { result.value.len ≤ 180 }
{
    read_node(number, bytes)
}

// Zeros stand behind the key of the node in a block.
fn key_tail(block: u32, key: &TreeKey) -> Result<(), u64>
    requires { key.now.len ≤ 64 }
    ensures { (led : List ℕ) → Plain (zeros (256 * block + 12 + key.now.len) (drop key.now.len key.now.bytes) led) led nothing result }
{
    let at = 256 * u64::from(block) + 12;
    zeros_from(at, &key.bytes, usize::from(key.len))
}

// Zeros stand behind the value of the node in a block.
fn value_tail(block: u32, value: &Value) -> Result<(), u64>
    requires { value.now.len ≤ 180 }
    ensures { (led : List ℕ) → Plain (zeros (256 * block + 76 + value.now.len) (drop value.now.len value.now.bytes) led) led nothing result }
{
    let at = 256 * u64::from(block) + 76;
    zeros_from(at, &value.bytes, usize::from(value.len))
}

// What is found of a node.
fn found_in<N: Copy, V: Copy>(node: &Node, name: N, value: V) -> Found<N, V>
    ensures { result ≡ record { links = links_of node.now; key = node.now.key; name = name; value = value } }
{
    Found {
        links: Links {
            height: node.height,
            left: node.left,
            right: node.right,
        },
        key: node.key,
        name,
        value,
    }
}

/// The fields of the node in a block.
///
/// # Errors
///
/// It gives the place of the byte at fault.
pub fn fields<K: Level>(
    level: &K,
    fresh: &mut Fresh,
    block: u32,
    bytes: &[u8; 256],
    keys: &Bounds,
) -> Result<Found<K::Name, K::Value>, u64>
    requires { HaveLengths keys.now }
    ensures found { LeadsIn block bytes.now (K.basis level.now) (λ c. read_fields (K.reads level.now) c block keys.now.low keys.now.high)
        (open_of fresh.old) (open_of fresh.new) (fields_of K.named (node_of (K.reads level.now).kind bytes.now)) result }
    ensures links { IfOk result (λ v. v.links ≡ links_of (node_of (K.reads level.now).kind bytes.now)) }
    ensures key { IfOk result (λ v. v.key ≡ (node_of (K.reads level.now).kind bytes.now).key) }
    ensures length { IfOk result (λ v. v.key.len ≤ 64) }
{
    let number = level.number();
    let node = node_in(number, bytes);
    rule_in(block, 0, bytes[0] == number)?;
    rule_in(block, 2, level.is_length(key_length(bytes)))?;
    fresh.lead_in(block, 4, node.left)?;
    fresh.lead_in(block, 8, node.right)?;
    rule_in(block, 12, lies_between(keys, &node.key))?;
    let name = level.name(block, &node.key)?;
    key_tail(block, &node.key)?;
    let value = level.value(fresh, block, name, &node.value)?;
    value_tail(block, &node.value)?;
    Ok(found_in(&node, name, value))
}
