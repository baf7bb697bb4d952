// What the words gave so far, and what one more word gives.
ghost use Rattle.std.specs.Prelude.{◌≡◌, ◌≤◌, ◌<◌, ◌==◌, length, position, ok_or, IfOk, IfSome, Err};
ghost use Rattle.std.specs.Option.{option_copied};
ghost use Rattle.base_text.specs.Number.{number_in};
ghost use Rattle.daos_words.specs.Words.{ended, holds, is_order, job_named, rebuild_of, setting_named, task_of, with_more, with_name, with_option, with_plain, with_threads, with_value, with_word};

use base_text::number::number_in;
use base_types::fault::{WordFault, WordKind};
use base_types::job::{Job, Task};

/// The word that names the target to rebuild: its place, and its number where that is from 1 to 63.
#[derive(Clone, Copy)]
pub struct Lost {
    pub place: u32,
    pub target: Option<u64>,
}

/// The first word that is no option, and what stands behind it.
#[derive(Clone, Copy)]
pub enum JobWord {
    /// To run a script.
    Run,
    /// To generate a script of so many commands and run it.
    Load(Option<u32>),
    /// To rebuild a target.
    Rebuild(Option<Lost>),
    /// To run file commands.
    Dfs,
    /// To judge a report.
    Audit,
}

/// An option that has a value.
#[derive(Clone, Copy)]
pub enum Setting {
    Targets,
    Size,
    Attempts,
    Epsilon,
    Order,
}

/// What the words gave so far.
#[derive(Clone, Copy)]
pub struct Given {
    pub job: Option<JobWord>,
    pub targets: Option<u8>,
    pub size: Option<u8>,
    pub attempts: Option<u8>,
    pub epsilon: Option<u32>,
    pub order: Option<u64>,
    pub threads: bool,
    /// An option whose value is the next word, and the option's place.
    pub awaits: Option<(u32, Setting)>,
}

fn fault<T>(place: u32, kind: WordKind) -> Result<T, WordFault>
    ensures { result ≡ Err (record { place = place; kind = kind }) }
{
    Err(WordFault { place, kind })
}

// The option of this name.
fn setting_named(name: &[u8]) -> Option<Setting>
    ensures { result ≡ setting_named name.now }
{
    if name == b"--targets".as_slice() {
        Some(Setting::Targets)
    } else if name == b"--size".as_slice() {
        Some(Setting::Size)
    } else if name == b"--attempts".as_slice() {
        Some(Setting::Attempts)
    } else if name == b"--epsilon".as_slice() {
        Some(Setting::Epsilon)
    } else if name == b"--order".as_slice() {
        Some(Setting::Order)
    } else {
        None
    }
}

// The job of this name, with nothing behind it yet.
fn job_named(word: &[u8]) -> Option<JobWord>
    ensures { result ≡ job_named word.now }
{
    if word == b"run".as_slice() {
        Some(JobWord::Run)
    } else if word == b"load".as_slice() {
        Some(JobWord::Load(None))
    } else if word == b"rebuild".as_slice() {
        Some(JobWord::Rebuild(None))
    } else if word == b"dfs".as_slice() {
        Some(JobWord::Dfs)
    } else if word == b"audit".as_slice() {
        Some(JobWord::Audit)
    } else {
        None
    }
}

// The place of the first equals sign.
fn equals_at(word: &[u8]) -> Option<usize>
    ensures exact { result ≡ position (λ b. b == 61) word.now }
    ensures within { IfSome result (λ i. i < length word.now) }
{
    word.iter().position(|b| *b == b'=')
}

// The number in a range that a word spells.
fn value_at(place: u32, lo: u64, hi: u64, word: &[u8]) -> Result<u64, WordFault>
    ensures exact { result ≡ ok_or (number_in lo hi word.now) (record { place = place; kind = WordKind.BadValue }) }
    ensures range { IfOk result (λ n. n ≤ hi) }
{
    number_in(lo, hi, word).ok_or(WordFault {
        place,
        kind: WordKind::BadValue,
    })
}

impl Setting {
    fn is_order(self) -> bool
        ensures { result ≡ is_order self }
    {
        matches!(self, Setting::Order)
    }
}

impl Lost {
    // The task to rebuild this target of so many.
    fn task(self, targets: u8) -> Result<Task, WordFault>
        ensures { result ≡ rebuild_of targets self }
    {
        match self.target {
            Some(target) if target < u64::from(targets) => Ok(Task::Rebuild(target as u8)),
            _ => fault(self.place, WordKind::BadTarget),
        }
    }
}

// The task of the job, of so many words and on so many targets; or what is missing.
fn task_of(job: Option<JobWord>, words: u32, targets: u8) -> Result<Task, WordFault>
    ensures { result ≡ task_of words targets job }
{
    match job {
        None => return fault(words, WordKind::NoJob),
        Some(JobWord::Run) => Ok(Task::Run),
        Some(JobWord::Load(None)) => fault(words, WordKind::NoCount),
        Some(JobWord::Load(Some(count))) => Ok(Task::Load(count)),
        Some(JobWord::Rebuild(None)) => fault(words, WordKind::NoTarget),
        Some(JobWord::Rebuild(Some(lost))) => lost.task(targets),
        Some(JobWord::Dfs) => Ok(Task::Dfs),
        Some(JobWord::Audit) => Ok(Task::Audit),
    }
}

impl Given {
    // Whether an option has its value.
    fn holds(&self, setting: Setting) -> bool
        ensures { result ≡ holds setting self.now }
    {
        match setting {
            Setting::Targets => self.targets.is_some(),
            Setting::Size => self.size.is_some(),
            Setting::Attempts => self.attempts.is_some(),
            Setting::Epsilon => self.epsilon.is_some(),
            Setting::Order => self.order.is_some(),
        }
    }

    // An option gets the value that a word spells.
    #[tactic(auto, unfolding(crate::specs::Words::with_value))]
    fn with_value(self, place: u32, setting: Setting, word: &[u8]) -> Result<Given, WordFault>
        ensures { result ≡ with_value place self setting word.now }
    {
        let mut given = self;
        match setting {
            Setting::Targets => given.targets = Some(value_at(place, 1, 64, word)? as u8),
            Setting::Size => given.size = Some(value_at(place, 2, 32, word)? as u8),
            Setting::Attempts => given.attempts = Some(value_at(place, 1, 100, word)? as u8),
            Setting::Epsilon => given.epsilon = Some(value_at(place, 0, 1_000_000, word)? as u32),
            Setting::Order => given.order = Some(value_at(place, 0, u64::MAX, word)?),
        }
        Ok(given)
    }

    // `--threads`.
    fn with_threads(self, place: u32) -> Result<Given, WordFault>
        ensures { result ≡ with_threads place self }
    {
        if self.threads {
            return fault(place, WordKind::Twice);
        }
        if self.order.is_some() {
            return fault(place, WordKind::Clash);
        }
        let mut given = self;
        given.threads = true;
        Ok(given)
    }

    // An option by its name, and its value where that is joined to it.
    fn with_name(self, place: u32, name: &[u8], value: Option<&[u8]>) -> Result<Given, WordFault>
        ensures { result ≡ with_name place self (setting_named name.now) (option_copied value.entry) }
    {
        let Some(setting) = setting_named(name) else {
            return fault(place, WordKind::UnknownOption);
        };
        if self.holds(setting) {
            return fault(place, WordKind::Twice);
        }
        if setting.is_order() && self.threads {
            return fault(place, WordKind::Clash);
        }
        match value {
            Some(value) => self.with_value(place, setting, value),
            None => {
                let mut given = self;
                given.awaits = Some((place, setting));
                Ok(given)
            }
        }
    }

    // A word that begins with a dash.
    #[tactic(auto, unfolding(crate::specs::Words::with_option))]
    fn with_option(self, place: u32, word: &[u8]) -> Result<Given, WordFault>
        ensures { result ≡ with_option place self word.now }
    {
        if word == b"--threads".as_slice() {
            return self.with_threads(place);
        }
        match equals_at(word) {
            Some(at) => self.with_name(place, &word[..at], Some(&word[at + 1..])),
            None => self.with_name(place, word, None),
        }
    }

    // A word behind the job: the count of a load, or the target of a rebuild.
    fn with_more(self, place: u32, job: JobWord, word: &[u8]) -> Result<Given, WordFault>
        ensures { result ≡ with_more place self job word.now }
    {
        let mut given = self;
        match job {
            JobWord::Load(None) => {
                let Some(count) = number_in(1, 10_000, word) else {
                    return fault(place, WordKind::BadCount);
                };
                given.job = Some(JobWord::Load(Some(count as u32)));
                Ok(given)
            }
            JobWord::Rebuild(None) => {
                let target = number_in(1, 63, word);
                given.job = Some(JobWord::Rebuild(Some(Lost { place, target })));
                Ok(given)
            }
            JobWord::Run
            | JobWord::Load(Some(_))
            | JobWord::Rebuild(Some(_))
            | JobWord::Dfs
            | JobWord::Audit => fault(place, WordKind::ExtraWord),
        }
    }

    // Any other word: the job, or what stands behind it.
    #[tactic(auto, unfolding(crate::specs::Words::with_plain))]
    fn with_plain(self, place: u32, word: &[u8]) -> Result<Given, WordFault>
        ensures { result ≡ with_plain place self word.now }
    {
        match self.job {
            None => {
                let Some(job) = job_named(word) else {
                    return fault(place, WordKind::BadJob);
                };
                let mut given = self;
                given.job = Some(job);
                Ok(given)
            }
            Some(job) => self.with_more(place, job, word),
        }
    }

    /// What is given with one more word, at this place; or the word's fault.
    #[tactic(auto, unfolding(crate::specs::Words::with_word))]
    pub fn with_word(self, place: u32, word: &[u8]) -> Result<Given, WordFault>
        ensures { result ≡ with_word place self word.now }
    {
        match self.awaits {
            Some((_, setting)) => {
                let mut given = self;
                given.awaits = None;
                given.with_value(place, setting, word)
            }
            None => {
                if !word.is_empty() && word[0] == b'-' {
                    self.with_option(place, word)
                } else {
                    self.with_plain(place, word)
                }
            }
        }
    }

    /// The job where no further word stands, of so many; or what is missing.
    #[tactic(auto, unfolding(crate::specs::Words::ended))]
    pub fn ended(self, words: u32) -> Result<Job, WordFault>
        ensures { result ≡ ended words self }
    {
        if let Some((place, _)) = self.awaits {
            return fault(place, WordKind::NoValue);
        }
        let targets = self.targets.unwrap_or(4);
        let task = task_of(self.job, words, targets)?;
        Ok(Job {
            task,
            targets,
            size_mib: self.size.unwrap_or(4),
            attempts: self.attempts.unwrap_or(8),
            epsilon: self.epsilon.unwrap_or(0),
            threads: self.threads,
            order: self.order.unwrap_or(0),
        })
    }
}
