// A file of cases, cut into what each asks and what must come of it.
//
// A line `> WORDS` begins a case; the lines behind it are what the case is given. A line `< ENDS` says how it
// must end, and the lines behind that are what it must write, up to the next case. A line of one backslash
// says that the text before it lacks its last line end. Lines that begin with `#` before a case tell what it
// shows.
use std::alloc::{AllocError, Global};

/// A case: the words that ask for it, what it is given, how it must end, and what it must write.
#[derive(Drop)]
pub struct Case<'a> {
    pub words: &'a [u8],
    pub given: Vec<u8>,
    pub ends: &'a [u8],
    pub writes: Vec<u8>,
}

// Which text of a case a line belongs to.
#[derive(Clone, Copy)]
enum Part {
    Given,
    Writes,
}

// Adds a line to a text, or takes away the end of the line before.
fn add_line(text: &mut Vec<u8>, line: &[u8]) -> Result<(), AllocError> {
    if line == b"\\".as_slice() {
        text.pop();
        return Ok(());
    }
    text.extend_from_slice(line)?;
    text.push(b'\n')?;
    Ok(())
}

// Adds a line that begins no case and no ending.
fn add_to(case: &mut Case<'_>, part: Part, line: &[u8]) -> Result<(), AllocError> {
    match part {
        Part::Given => add_line(&mut case.given, line),
        Part::Writes if line.starts_with(b"#") => Ok(()),
        Part::Writes => add_line(&mut case.writes, line),
    }
}

/// The cases of a file.
pub(crate) fn cases_of(alloc: Global, text: &[u8]) -> Result<Vec<Case<'_>>, AllocError> {
    let mut cases: Vec<Case<'_>> = Vec::new(alloc);
    let mut part = Part::Writes;
    let text = text.strip_suffix(b"\n").unwrap_or(text);
    for line in text.split(|byte| *byte == b'\n') {
        if let Some(words) = line.strip_prefix(b"> ") {
            part = Part::Given;
            cases.push(Case {
                words,
                given: Vec::new(alloc),
                ends: b"",
                writes: Vec::new(alloc),
            })?;
        } else if let Some(case) = cases.last_mut() {
            match line.strip_prefix(b"< ") {
                Some(ends) => {
                    part = Part::Writes;
                    case.ends = ends;
                }
                None => add_to(case, part, line)?,
            }
        }
    }
    Ok(cases)
}
