// What opening a region anew keeps of unflushed writes.

/// Which of the unflushed writes are kept: all of them, none, or every second one, the second first.
#[derive(Clone, Copy)]
pub enum Keep {
    All,
    None,
    Second,
}
