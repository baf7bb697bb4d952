// What crates above name of those below, passed on to them.
pub use vos_check_entries as check_entries;
pub use vos_check_places as check_places;
