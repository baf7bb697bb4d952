// Reads the words of the command line, and refuses jobs that aren't run yet.
ghost use Rattle.std.specs.Prelude.{◌≡◌, ◌≤◌, length, map, nat_eq, string_bytes, true, IfErr, IfOk, Ok};
ghost use Rattle.std.specs.List.{starts_with};
ghost use Rattle.daos_words.specs.Laws.{IsInForm};
ghost use Rattle.daos_app.specs.Words.{IsRefusedFor, asks_more, is_later_job, is_run, place_of_more, run_job_of};

use base_types::fault::{WordFault, WordKind};
use base_types::job::{Job, Task};
use daos_words::fault::WordNo;
use daos_words::words::{read_words, words_are_jobs};
use std::alloc::Global;

// Whether a job is run so far.
fn is_run(job: &Job) -> bool
    ensures { result ≡ is_run job.now }
{
    matches!(&job.task, Task::Run | Task::Load(_)) && !job.threads
}

// Whether a word is this option, with or without its value.
fn is_option(word: &[u8], name: &[u8]) -> bool
    ensures { result ≡ starts_with nat_eq word.now name.now }
{
    word.starts_with(name)
}

// Whether a word is that of a job that isn't run so far.
fn is_later_job(word: &[u8]) -> bool
    ensures { result ≡ is_later_job word.now }
{
    word == b"rebuild".as_slice() || word == b"dfs".as_slice() || word == b"audit".as_slice()
}

// Whether a word asks for what isn't run so far.
fn asks_more(word: &[u8]) -> bool
    ensures { result ≡ asks_more word.now }
{
    is_option(word, b"--threads") || is_later_job(word)
}

// The place that a job that isn't run yet is told at: that of the first such word.
fn place_of_more(words: &[String]) -> usize
    ensures exact { result ≡ place_of_more (map string_bytes words.now) }
    ensures within { result ≤ length words.now }
{
    for (place, word) in words.iter().enumerate() {
        if asks_more(word.as_bytes()) {
            return place;
        }
    }
    words.len()
}

/// The job that words ask for, where it is run so far: a script or a load, without threads.
///
/// # Errors
///
/// The first fault of the words. Where they have none but ask for threads or another job, `NotYet` at
/// the first word that does. `Memory` never comes.
pub fn run_job(alloc: Global, words: &[String]) -> Result<Job, WordNo>
    ensures job { IfOk result (λ job. run_job_of (map string_bytes words.now) ≡ Ok job) }
    ensures run { IfOk result (λ job. is_run job ≡ true) }
    ensures refused { IfErr result (IsRefusedFor (map string_bytes words.now)) }
    ensures form { IfOk result IsInForm }
{
    words_are_jobs();
    let job = read_words(alloc, words)?;
    if is_run(&job) {
        return Ok(job);
    }
    Err(WordNo::Fault(WordFault {
        place: place_of_more(words) as u32,
        kind: WordKind::NotYet,
    }))
}
