// The fixed places of a pool as bytes, and what is read where such bytes are written over an image.
#![tactic(auto)]

pub mod below;
pub mod codec;
mod fields;
pub mod laws;
pub mod seek;
