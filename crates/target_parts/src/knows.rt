// What a target knows until it stops.
use daos_hlc::clock::Hlc;
use dtx_leader::below::entries::table::EntryTable;
use dtx_leader::decisions::Decisions;
use dtx_member::member::Member;
use world_contents::below::stamp::stamps::Stamps;

/// The clock of a target's epochs, the reads that it served, the entries that its store keeps, in the
/// order of attempts, and what it remembers as a leader and as a member.
#[derive(Drop)]
pub struct Knows {
    pub hlc: Hlc,
    pub stamps: Stamps,
    pub entries: EntryTable,
    pub leader: Decisions,
    pub member: Member,
}
