// What is wrong with words and scripts.

/// What is wrong with a line of a script.
#[derive(Clone, Copy, Debug)]
pub enum Why {
    /// A byte other than 32 to 126.
    NotAscii,
    /// A first word, or one after `must`, `mustnot` or `at`, that isn't one allowed there.
    UnknownWord,
    /// A word is missing or empty.
    MissingWord,
    /// A further word stands after the last one.
    ExtraWord,
    /// Not a number, or out of its range.
    BadNumber,
    /// A dkey or akey that isn't a key.
    BadKey,
    /// A value of no spelling.
    BadHex,
    /// A text that is no UUID.
    BadUuid,
    /// A name badly spelled, unknown or declared twice, or a thing declared twice.
    BadName,
    /// No class, or one that doesn't fit the targets.
    BadClass,
    /// A value that isn't made of whole records of its object.
    BadRecord,
    /// A line that may not stand there.
    BadBlock,
    /// One more than there may be.
    TooMany(u32),
    /// More bytes than there may be.
    TooLong(u32),
}

/// The first line with a fault, counted from 1.
#[derive(Clone, Copy, Debug)]
pub struct ScriptFault {
    pub line: u32,
    pub why: Why,
}

/// What is wrong with a word of the command line.
#[derive(Clone, Copy, Debug)]
pub enum WordKind {
    /// None of `run`, `load`, `rebuild`, `dfs` and `audit`.
    BadJob,
    /// No count from 1 to 10,000 after `load`.
    BadCount,
    /// A further word after the job.
    ExtraWord,
    /// A word that begins with `-` and is no option.
    UnknownOption,
    /// An option that stood before.
    Twice,
    /// `--threads` and `--order` together.
    Clash,
    /// An option without its value.
    NoValue,
    /// A value that isn't a number in the option's range.
    BadValue,
    /// No job at all.
    NoJob,
    /// `load` without its count.
    NoCount,
    /// A target to rebuild that isn't from 1 to the number of targets less one.
    BadTarget,
    /// `rebuild` without its target.
    NoTarget,
    /// Nothing: the program doesn't run such a job yet.
    NotYet,
}

/// The first word with a fault, counted from 0 after the program's name.
#[derive(Clone, Copy, Debug)]
pub struct WordFault {
    pub place: u32,
    pub kind: WordKind,
}
