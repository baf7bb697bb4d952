// What crates above name of those below, passed on to them.
pub use dtx_leader as leader;
pub use dtx_member as member;
