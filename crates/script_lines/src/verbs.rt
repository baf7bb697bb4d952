// The words that say what a line is.
ghost use Rattle.std.specs.Prelude.{◌≡◌, true, IfOk};
ghost use Rattle.script_words.specs.Reads.{Gives};
ghost use Rattle.script_lines.specs.Verbs.{allows, command_of, cond_verb_at, head_of, is_read, op_verb_of, verb_at, verb_of};

use base_text::parts::Parts;
use base_types::fault::Why;
use base_types::operation::Cond;
use script_words::fault::LineNo;

/// The word of an operation.
#[derive(Clone, Copy)]
pub enum OpVerb {
    Put,
    Get,
    Write,
    Read,
    Dkeys,
    Akeys,
    Has,
    Punch,
}

/// The first word of a line.
#[derive(Clone, Copy)]
pub enum Verb {
    Cont,
    Obj,
    Old,
    Drop,
    Stop,
    Client,
    Op(OpVerb),
    Must,
    MustNot,
    Tx,
    End,
    At,
    Snap,
    Aggregate,
    Tell,
    Skip,
}

// The operation that a word is.
fn op_verb_of(word: &[u8]) -> Option<OpVerb>
    ensures { result ≡ op_verb_of word.now }
{
    if word == b"put".as_slice() {
        Some(OpVerb::Put)
    } else if word == b"get".as_slice() {
        Some(OpVerb::Get)
    } else if word == b"write".as_slice() {
        Some(OpVerb::Write)
    } else if word == b"read".as_slice() {
        Some(OpVerb::Read)
    } else if word == b"dkeys".as_slice() {
        Some(OpVerb::Dkeys)
    } else if word == b"akeys".as_slice() {
        Some(OpVerb::Akeys)
    } else if word == b"has".as_slice() {
        Some(OpVerb::Has)
    } else if word == b"punch".as_slice() {
        Some(OpVerb::Punch)
    } else {
        None
    }
}

// The verb of a line before the first client, or of one that begins a client or a transaction.
fn head_of(word: &[u8]) -> Option<Verb>
    ensures { result ≡ head_of word.now }
{
    if word == b"cont".as_slice() {
        Some(Verb::Cont)
    } else if word == b"obj".as_slice() {
        Some(Verb::Obj)
    } else if word == b"old".as_slice() {
        Some(Verb::Old)
    } else if word == b"drop".as_slice() {
        Some(Verb::Drop)
    } else if word == b"stop".as_slice() {
        Some(Verb::Stop)
    } else if word == b"client".as_slice() {
        Some(Verb::Client)
    } else if word == b"must".as_slice() {
        Some(Verb::Must)
    } else if word == b"mustnot".as_slice() {
        Some(Verb::MustNot)
    } else {
        None
    }
}

// Any other verb that is no operation.
fn command_of(word: &[u8]) -> Option<Verb>
    ensures { result ≡ command_of word.now }
{
    if word == b"tx".as_slice() {
        Some(Verb::Tx)
    } else if word == b"end".as_slice() {
        Some(Verb::End)
    } else if word == b"at".as_slice() {
        Some(Verb::At)
    } else if word == b"snap".as_slice() {
        Some(Verb::Snap)
    } else if word == b"aggregate".as_slice() {
        Some(Verb::Aggregate)
    } else if word == b"tell".as_slice() {
        Some(Verb::Tell)
    } else if word == b"skip".as_slice() {
        Some(Verb::Skip)
    } else {
        None
    }
}

// The verb that a word is.
fn verb_of(word: &[u8]) -> Option<Verb>
    ensures { result ≡ verb_of word.now }
{
    if let Some(op) = op_verb_of(word) {
        return Some(Verb::Op(op));
    }
    match head_of(word) {
        Some(verb) => Some(verb),
        None => command_of(word),
    }
}

/// The word that says what a line is.
#[tactic(auto, unfolding(crate::specs::Verbs::verb_at))]
pub fn verb_at(words: &mut Parts<'_>) -> Result<Verb, LineNo>
    ensures { Gives (λ v. (v, words.new)) result (verb_at words.old) }
{
    let Some(word) = words.take_part() else {
        return Err(LineNo::Fault(Why::MissingWord));
    };
    match verb_of(word) {
        Some(verb) => Ok(verb),
        None => Err(LineNo::Fault(Why::UnknownWord)),
    }
}

/// Whether an operation only reads.
pub fn is_read(verb: OpVerb) -> bool
    ensures { result ≡ is_read verb }
{
    match verb {
        OpVerb::Get | OpVerb::Read | OpVerb::Dkeys | OpVerb::Akeys | OpVerb::Has => true,
        OpVerb::Put | OpVerb::Write | OpVerb::Punch => false,
    }
}

// Whether an operation may have a condition.
fn allows(cond: Cond, verb: OpVerb) -> bool
    ensures { result ≡ allows cond verb }
{
    match cond {
        Cond::Free => true,
        Cond::Must | Cond::MustNot => !matches!(&verb, OpVerb::Has),
    }
}

/// The word of an operation that may have a condition.
#[tactic(auto, unfolding(crate::specs::Verbs::cond_verb_at))]
pub fn cond_verb_at(cond: Cond, words: &mut Parts<'_>) -> Result<OpVerb, LineNo>
    ensures exact { Gives (λ v. (v, words.new)) result (cond_verb_at cond words.old) }
    ensures allowed { IfOk result (λ v. allows cond v ≡ true) }
{
    match verb_at(words)? {
        Verb::Op(verb) if allows(cond, verb) => Ok(verb),
        _ => Err(LineNo::Fault(Why::UnknownWord)),
    }
}
