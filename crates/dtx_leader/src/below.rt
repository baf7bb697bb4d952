// What crates above name of those below, passed on to them.
pub use dtx_entries as entries;
pub use dtx_table as table;
