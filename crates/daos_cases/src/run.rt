// A run of the program over memory.
use crate::outcome::Outcome;
use base_outside::gate::FreeGate;
use base_outside::sure_rack::SureRack;
use base_outside::sure_sink::SureSink;
use base_outside::sure_source::SureSource;
use daos_app::daos::run_daos;
use daos_app::status::status_text;
use std::alloc::Global;
use std::sync::Wait;
use std::thread::Threads;

// The most bytes that a case may write.
const ROOM: u64 = 16_777_216;

// The words that stand apart by single spaces; an empty line has none.
fn words_of(alloc: Global, line: &str) -> anyhow::Result<Vec<String>> {
    let mut words = Vec::new(alloc);
    if line.is_empty() {
        return Ok(words);
    }
    for word in line.split(' ') {
        words.push(String::from_str(alloc, word)?)?;
    }
    Ok(words)
}

/// Runs words over a source that gives these bytes: it ends with the number of the status and its text, and
/// writes what the sink holds.
pub(crate) fn ran<R: Threads + Wait + Sync>(
    rt: &R,
    alloc: Global,
    words: &str,
    given: &[u8],
) -> anyhow::Result<Outcome> {
    let words = words_of(alloc, words)?;
    let mut source = SureSource::new(alloc, given)?;
    let mut sink = SureSink::new(alloc, ROOM)?;
    let mut rack = SureRack::new(alloc, 64, 4096)?;
    let status = run_daos(
        rt,
        alloc,
        &words,
        &mut source,
        &mut sink,
        &mut rack,
        &FreeGate,
    );
    let (number, text) = (status.number(), status_text(alloc, &status)?);
    let ends = if text.is_empty() {
        format!(in alloc; "{number}")?
    } else {
        format!(in alloc; "{number} {text}")?
    };
    Ok(Outcome {
        ends,
        writes: sink.bytes().to_vec(alloc)?,
    })
}
