// Reads the words of the command line.
ghost use Rattle.std.specs.Prelude.{◌≡◌, map, string_bytes};
ghost use Rattle.daos_words.specs.Words.{answered, job_of};
ghost use Rattle.daos_words.specs.Laws.{WordsLaw};

use crate::fault::WordNo;
use crate::given::Given;
use base_types::fault::WordFault;
use base_types::job::Job;
use std::alloc::Global;

// The job of the words, or the first fault in them.
#[tactic(auto, unfolding(crate::specs::Words::job_of))]
fn job_of(words: &[String]) -> Result<Job, WordFault>
    ensures { result ≡ job_of (map string_bytes words.now) }
{
    let mut given = Given {
        job: None,
        targets: None,
        size: None,
        attempts: None,
        epsilon: None,
        order: None,
        threads: false,
        awaits: None,
    };
    let mut place: u32 = 0;
    for word in words {
        given = given.with_word(place, word.as_bytes())?;
        place += 1;
    }
    given.ended(place)
}

/// The job that the words after the program's name ask for:
/// `run`, `load COUNT`, `rebuild T`, `dfs` or `audit`, with options anywhere among them. COUNT is from 1
/// to 10,000, and T from 1 to the number of targets less one.
///
/// An option is `--targets` (1 to 64, default 4), `--size` (2 to 32 MiB, default 4), `--attempts`
/// (1 to 100, default 8), `--epsilon` (0 to 1,000,000 ticks, default 0) or `--order` (any u64,
/// default 0), each as `--x V` or `--x=V`, or `--threads`.
///
/// # Errors
///
/// The first fault, at its place, counted from 0; that T is no such number is told after all other
/// faults. It takes no memory, so want of it never comes.
pub fn read_words(_alloc: Global, words: &[String]) -> Result<Job, WordNo>
    ensures { result ≡ answered (job_of (map string_bytes words.now)) }
{
    match job_of(words) {
        Ok(job) => Ok(job),
        Err(fault) => Err(WordNo::Fault(fault)),
    }
}

/// Every job that words stand for is in form, and at most 12 words stand for one; a fault at a word
/// stays whatever words follow, but for a value that is missing or a target that is none of so many.
pub fn words_are_jobs()
    ensures { WordsLaw }
{}
