// What the image of a region stands for: the layout, field by field, and what stands in its blocks.
#![tactic(auto)]

pub mod laws;
