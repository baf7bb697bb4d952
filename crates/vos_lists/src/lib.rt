// Whether something is there in objects on trees, and the names of what is there.
#![tactic(auto)]

pub mod akeys;
pub mod below;
pub mod conts;
pub mod dkeys;
pub mod entry;
pub mod exists;
pub mod list;
pub mod paths;
pub mod under;
pub mod values;
pub mod view;
