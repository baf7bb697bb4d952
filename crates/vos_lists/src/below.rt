// What crates above name of those below, passed on to them.
pub use vos_reads as reads;
