// When a write was made, and by whom.
use base_types::id::AttemptId;
use vos_values::keys::Moment;

/// When a write was made, and whose it is.
#[derive(Clone, Copy)]
pub struct Stamp {
    pub at: Moment,
    pub by: AttemptId,
}
