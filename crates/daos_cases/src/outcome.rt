// What comes of a case.

/// How a case ended, and what it wrote.
#[derive(Drop)]
pub struct Outcome {
    pub ends: String,
    pub writes: Vec<u8>,
}
