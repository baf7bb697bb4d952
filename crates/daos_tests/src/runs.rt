// Runs of the program over what is handed in.
use base_outside::gate::FreeGate;
use base_outside::rack::Rack;
use base_outside::sink::Sink;
use base_outside::source::Source;
use daos_app::daos::run_daos;
use std::alloc::Global;
use std::sync::Wait;
use std::thread::Threads;

fn add_word(alloc: Global, words: &mut Vec<String>, word: &str) -> Option<()> {
    let word = String::from_str(alloc, word).ok()?;
    words.push(word).ok()
}

fn words_of(alloc: Global, given: &[&str]) -> Option<Vec<String>> {
    let mut words = Vec::new(alloc);
    for word in given {
        add_word(alloc, &mut words, word)?;
    }
    Some(words)
}

/// Runs the program with these words: the number of the status.
pub(crate) fn run_words<R: Threads + Wait + Sync, S: Source, K: Sink, B: Rack>(
    rt: &R,
    alloc: Global,
    given: &[&str],
    source: &mut S,
    sink: &mut K,
    rack: &mut B,
) -> Option<u8> {
    let words = words_of(alloc, given)?;
    let status = run_daos(rt, alloc, &words, source, sink, rack, &FreeGate);
    Some(status.number())
}

/// Runs the script that a source gives on one target of a rack: the number of the status.
pub(crate) fn run<R: Threads + Wait + Sync, S: Source, K: Sink, B: Rack>(
    rt: &R,
    alloc: Global,
    source: &mut S,
    sink: &mut K,
    rack: &mut B,
) -> Option<u8> {
    run_words(rt, alloc, &["run", "--targets", "1"], source, sink, rack)
}
