// What crates above name of those below, passed on to them.
pub use vos_check_content as check_content;
pub use vos_check_content::below::{check_entries, check_places};
