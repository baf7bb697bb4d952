// What the words of the command line ask for.
use crate::epoch::TargetId;

/// What a job does.
#[derive(Clone, Copy)]
pub enum Task {
    /// Runs the script that the source holds.
    Run,
    /// Generates a script of so many commands, 1 to 10,000, and runs it.
    Load(u32),
    /// Fills this target, from 1 on, from the replicas on the others.
    Rebuild(TargetId),
    /// Runs the file commands that the source holds.
    Dfs,
    /// Judges the report that the source holds behind its script.
    Audit,
}

/// A job: a task, and the options of the run that it makes or judges.
#[derive(Clone, Copy)]
pub struct Job {
    pub task: Task,
    /// Targets, 1 to 64.
    pub targets: u8,
    /// The size of each target's region in MiB, 2 to 32.
    pub size_mib: u8,
    /// The most attempts of a command, 1 to 100.
    pub attempts: u8,
    /// How far clocks may differ, in ticks, 0 to 1,000,000.
    pub epsilon: u32,
    /// Whether the targets and the clients run as threads.
    pub threads: bool,
    /// Which order of turns is run; 0 goes round.
    pub order: u64,
}
