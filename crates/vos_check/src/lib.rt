// The check of the trees and chains of an image, kind by kind.
#![tactic(auto)]

pub mod akeys;
pub mod below;
pub mod chain;
mod codec;
pub mod dkeys;
pub mod entry;
pub mod extents;
pub mod logs;
pub mod node;
pub mod objects;
pub mod singles;
pub mod stored;
