// What an image says of itself that its blocks are judged by.
use vos_values::keys::Layout;

/// How many bytes an image has, its layout, the greatest epoch that its lease covers, and how many targets
/// there are.
#[derive(Clone, Copy)]
pub struct Ground {
    pub size: u64,
    pub layout: Layout,
    pub covered: u64,
    pub targets: u8,
}
