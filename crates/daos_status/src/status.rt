// How the program ends, and what it tells of that.
ghost use Rattle.std.specs.Prelude.{◌≡◌, IfOk, string_bytes};
ghost use Rattle.daos_status.specs.Statuses.{down_text, foreign_text, kind_text, not_empty_text, part_text, rack_text, report_text, room_text, script_text, shape_text, status_number, status_text, why_text, words_text};

use crate::part::Part;
use base_types::epoch::TargetId;
use base_types::fault::{ScriptFault, Why, WordFault, WordKind};
use base_types::items::Memory;
use std::alloc::Global;

/// How the program ended. The number of a status is that of its place here, from 0.
#[derive(Clone, Copy)]
pub enum Status {
    /// The run ended, and no target is down.
    Done,
    /// The words are none that the program takes.
    Words(WordFault),
    /// The script is none that the program runs.
    Script(ScriptFault),
    /// The source failed.
    ReadFault,
    /// The sink failed, or took nothing of bytes that were there.
    WriteFault,
    /// The rack failed, or the region of this target while it was opened.
    RackFault {
        target: TargetId,
    },
    /// The region of this target holds a byte, at this place, that none of ours does.
    Foreign {
        target: TargetId,
        at: u64,
        byte: u8,
    },
    /// There was no memory.
    Memory,
    /// The run ended and was reported, and this target, the least such one, is down.
    Down {
        target: TargetId,
    },
    /// The region of this target was made for another shape.
    Shape {
        target: TargetId,
        what: Part,
        found: u64,
        asked: u64,
    },
    /// The region of this target was to be all zero, and this byte at this place isn't.
    NotEmpty {
        target: TargetId,
        at: u64,
        byte: u8,
    },
    /// What was to be written to this target needs so many blocks, and has so many free ones.
    Room {
        target: TargetId,
        need: u32,
        free: u32,
    },
    /// The first line of the report, counted from 1, that is none.
    BadReport {
        line: u32,
    },
}

impl Status {
    /// The number with which the program ends, 0 to 12.
    pub fn number(&self) -> u8
        ensures { result ≡ status_number self.now }
    {
        match self {
            Status::Done => 0,
            Status::Words(_) => 1,
            Status::Script(_) => 2,
            Status::ReadFault => 3,
            Status::WriteFault => 4,
            Status::RackFault { .. } => 5,
            Status::Foreign { .. } => 6,
            Status::Memory => 7,
            Status::Down { .. } => 8,
            Status::Shape { .. } => 9,
            Status::NotEmpty { .. } => 10,
            Status::Room { .. } => 11,
            Status::BadReport { .. } => 12,
        }
    }
}

// The name of what is wrong with a line, with its limit where there is one.
fn why_text(alloc: Global, why: Why) -> Result<String, Memory>
    ensures { IfOk result (λ text. string_bytes text ≡ why_text why) }
{
    match why {
        Why::NotAscii => String::from_str(alloc, "NotAscii"),
        Why::UnknownWord => String::from_str(alloc, "UnknownWord"),
        Why::MissingWord => String::from_str(alloc, "MissingWord"),
        Why::ExtraWord => String::from_str(alloc, "ExtraWord"),
        Why::BadNumber => String::from_str(alloc, "BadNumber"),
        Why::BadKey => String::from_str(alloc, "BadKey"),
        Why::BadHex => String::from_str(alloc, "BadHex"),
        Why::BadUuid => String::from_str(alloc, "BadUuid"),
        Why::BadName => String::from_str(alloc, "BadName"),
        Why::BadClass => String::from_str(alloc, "BadClass"),
        Why::BadRecord => String::from_str(alloc, "BadRecord"),
        Why::BadBlock => String::from_str(alloc, "BadBlock"),
        Why::TooMany(limit) => format!(in alloc; "TooMany {limit}"),
        Why::TooLong(limit) => format!(in alloc; "TooLong {limit}"),
    }
}

// The name of what is wrong with a word.
fn kind_text(kind: WordKind) -> &'static str
    ensures { result.now ≡ kind_text kind }
{
    match kind {
        WordKind::BadJob => "BadJob",
        WordKind::BadCount => "BadCount",
        WordKind::ExtraWord => "ExtraWord",
        WordKind::UnknownOption => "UnknownOption",
        WordKind::Twice => "Twice",
        WordKind::Clash => "Clash",
        WordKind::NoValue => "NoValue",
        WordKind::BadValue => "BadValue",
        WordKind::NoJob => "NoJob",
        WordKind::NoCount => "NoCount",
        WordKind::BadTarget => "BadTarget",
        WordKind::NoTarget => "NoTarget",
        WordKind::NotYet => "NotYet",
    }
}

// What a region was made for.
fn part_text(part: Part) -> &'static str
    ensures { result.now ≡ part_text part }
{
    match part {
        Part::Bytes => "bytes",
        Part::Targets => "targets",
        Part::Containers => "containers",
    }
}

// What is told of a word with a fault.
fn words_text(alloc: Global, fault: WordFault) -> Result<String, Memory>
    ensures { IfOk result (λ text. string_bytes text ≡ words_text fault) }
{
    let (place, kind) = (fault.place, kind_text(fault.kind));
    format!(in alloc; "daos: word {place}: {kind}")
}

// What is told of a line with a fault.
fn script_text(alloc: Global, fault: ScriptFault) -> Result<String, Memory>
    ensures { IfOk result (λ text. string_bytes text ≡ script_text fault) }
{
    let (line, why) = (fault.line, why_text(alloc, fault.why)?);
    format!(in alloc; "daos: script line {line}: {why}")
}

// What is told of a target whose region couldn't be had.
fn rack_text(alloc: Global, target: TargetId) -> Result<String, Memory>
    ensures { IfOk result (λ text. string_bytes text ≡ rack_text target) }
{
    format!(in alloc; "daos: target {target}: rack fault")
}

// What is told of a foreign byte.
fn foreign_text(alloc: Global, target: TargetId, at: u64, byte: u8) -> Result<String, Memory>
    ensures { IfOk result (λ text. string_bytes text ≡ foreign_text target at byte) }
{
    format!(in alloc; "daos: target {target}: byte {byte} at {at} is foreign")
}

// What is told of a target that is down.
fn down_text(alloc: Global, target: TargetId) -> Result<String, Memory>
    ensures { IfOk result (λ text. string_bytes text ≡ down_text target) }
{
    format!(in alloc; "daos: target {target} is down")
}

// What is told of a region of another shape.
fn shape_text(
    alloc: Global,
    target: TargetId,
    what: Part,
    found: u64,
    asked: u64,
) -> Result<String, Memory>
    ensures { IfOk result (λ text. string_bytes text ≡ shape_text target what found asked) }
{
    let what = part_text(what);
    format!(in alloc; "daos: target {target}: made for {found} {what}, asked for {asked}")
}

// What is told of a region that was to be all zero.
fn not_empty_text(alloc: Global, target: TargetId, at: u64, byte: u8) -> Result<String, Memory>
    ensures { IfOk result (λ text. string_bytes text ≡ not_empty_text target at byte) }
{
    format!(in alloc; "daos: target {target}: byte {byte} at {at} is not empty")
}

// What is told of a target without room.
fn room_text(alloc: Global, target: TargetId, need: u32, free: u32) -> Result<String, Memory>
    ensures { IfOk result (λ text. string_bytes text ≡ room_text target need free) }
{
    format!(in alloc; "daos: target {target}: needs {need} blocks, has {free}")
}

// What is told of a report's bad line.
fn report_text(alloc: Global, line: u32) -> Result<String, Memory>
    ensures { IfOk result (λ text. string_bytes text ≡ report_text line) }
{
    format!(in alloc; "daos: report line {line}: BadLine")
}

/// What is told of a status, without a line end: nothing where the run ended and no target is
/// down.
pub fn status_text(alloc: Global, status: &Status) -> Result<String, Memory>
    ensures { IfOk result (λ text. string_bytes text ≡ status_text status.now) }
{
    match status {
        Status::Done => Ok(String::new(alloc)),
        Status::Words(fault) => words_text(alloc, *fault),
        Status::Script(fault) => script_text(alloc, *fault),
        Status::ReadFault => String::from_str(alloc, "daos: read fault"),
        Status::WriteFault => String::from_str(alloc, "daos: write fault"),
        Status::RackFault { target } => rack_text(alloc, *target),
        Status::Foreign { target, at, byte } => foreign_text(alloc, *target, *at, *byte),
        Status::Memory => String::from_str(alloc, "daos: out of memory"),
        Status::Down { target } => down_text(alloc, *target),
        Status::Shape {
            target,
            what,
            found,
            asked,
        } => shape_text(alloc, *target, *what, *found, *asked),
        Status::NotEmpty { target, at, byte } => not_empty_text(alloc, *target, *at, *byte),
        Status::Room { target, need, free } => room_text(alloc, *target, *need, *free),
        Status::BadReport { line } => report_text(alloc, *line),
    }
}
