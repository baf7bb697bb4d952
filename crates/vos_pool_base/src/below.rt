// What crates above name of those below, passed on to them.
pub use vos_standing::below::places;
pub use vos_tables as tables;
