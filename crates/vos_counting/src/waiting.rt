// How many versions of each attempt are unsettled.
ghost use Rattle.std.specs.Prelude.{◌≡◌, ◌+◌, ◌≤◌, ◌&&◌, not, if◌then◌else◌, filter, OnOk};
ghost use Rattle.base_types.specs.declared.id.AttemptId.{AttemptId as AttemptOf};
ghost use Rattle.daos_model.specs.Durables.{same_attempt};
ghost use Rattle.vos_counting.specs.Counting.{FewWait, attempt_name, most_waiting};
ghost use Rattle.vos_counting.specs.Prepared.{counts_in};
ghost use Rattle.vos_counting.specs.Waiting.{count_of};

use crate::prepared::Prepared;
use base_types::id::AttemptId;
use base_types::items::Memory;
use daos_model::durable::Version;
use std::alloc::{AllocError, Global};
use std::collections::HashMap;

/// So many versions of one attempt can be settled by one commit.
pub const MOST_WAITING: u32 = 64;

// The numbers that name an attempt: its client, its command and its own.
type AttemptName = ((u16, u32), u8);

// Attempts, each with a count.
#[derive(Drop)]
struct Waiting {
    counts: HashMap<AttemptName, u32>,
}

// The numbers that name an attempt.
fn attempt_name(attempt: AttemptId) -> AttemptName
    ensures { result ≡ attempt_name attempt }
{
    ((attempt.client, attempt.command), attempt.attempt)
}

impl Waiting {
    // None.
    fn new(alloc: Global) -> Waiting
        ensures { (a : AttemptOf) → count_of result a ≡ 0 }
    {
        Waiting {
            counts: HashMap::new(alloc),
        }
    }

    // How many an attempt has.
    fn count(&self, attempt: AttemptId) -> u32
        ensures { result ≡ count_of self.now attempt }
    {
        match self.counts.get(&attempt_name(attempt)) {
            Some(count) => *count,
            None => 0,
        }
    }

    // One more of an attempt. More than can be settled by one commit are told as want of memory.
    fn add(&mut self, attempt: AttemptId) -> Result<(), Memory>
        ensures added { OnOk result ((a : AttemptOf) → count_of self.new a ≡ (if same_attempt attempt a then count_of self.old a + 1 else count_of self.old a)) }
        ensures few { OnOk result (count_of self.new attempt ≤ most_waiting) }
    {
        let count = self.count(attempt);
        if count >= MOST_WAITING {
            return Err(AllocError);
        }
        self.counts.insert(attempt_name(attempt), count + 1)?;
        Ok(())
    }
}

// Whether a version is unsettled and counts.
fn waits(prepared: &Prepared, version: &Version) -> bool
    ensures { result ≡ (not version.now.done && counts_in prepared.now version.now) }
{
    !version.done && prepared.counts(version)
}

/// Sees that of no attempt more than 64 versions are unsettled among those that count.
///
/// # Errors
///
/// More are told as want of memory.
pub fn check_waiting(alloc: Global, prepared: &Prepared, versions: &[Version]) -> Result<(), Memory>
    ensures { OnOk result (FewWait (filter (counts_in prepared.now) versions.now)) }
{
    let mut waiting = Waiting::new(alloc);
    for version in versions {
        if !waits(prepared, version) {
            continue;
        }
        waiting.add(version.by)?;
    }
    Ok(())
}
