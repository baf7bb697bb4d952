// What stands in a node.

/// A key of at most 64 bytes. The bytes behind its length are zero. Keys are ordered by their bytes.
#[derive(Clone, Copy)]
pub struct TreeKey {
    pub len: u8,
    pub bytes: [u8; 64],
}

/// A value of at most 180 bytes; the kind of its tree says how many. The bytes behind its length are
/// zero.
#[derive(Clone, Copy)]
pub struct Value {
    pub len: u8,
    pub bytes: [u8; 180],
}

/// A key and its value.
#[derive(Clone, Copy)]
pub struct Pair {
    pub key: TreeKey,
    pub value: Value,
}

/// A node: its height, the blocks of the nodes below it, or 0 for none, and its pair.
#[derive(Clone, Copy)]
pub struct Node {
    pub height: u8,
    pub left: u32,
    pub right: u32,
    pub key: TreeKey,
    pub value: Value,
}

/// What a node says besides its pair: its height, and the blocks of the nodes below it, or 0 for none.
#[derive(Clone, Copy)]
pub struct Links {
    pub height: u8,
    pub left: u32,
    pub right: u32,
}
