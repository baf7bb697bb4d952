// The measures of a region.

/// What a region was made for in another measure than the one asked.
#[derive(Clone, Copy, Debug)]
pub enum Part {
    /// Its size in bytes.
    Bytes,
    /// The number of targets of its pool.
    Targets,
    /// The number of containers of its pool.
    Containers,
}
