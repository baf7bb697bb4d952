// Reads the words of the command line.
#![tactic(auto)]

pub mod fault;
mod given;
pub mod words;

pub use base_types::job::{Job, Task};
pub use fault::WordNo;
pub use words::read_words;
