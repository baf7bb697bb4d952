// The store as a program: a script on standard input, its report on standard output.
#![tactic(auto)]

use base_outside::adapters::{Reading, Writing};
use base_outside::gate::FreeGate;
use base_outside::sink::Sink;
use base_outside::source::Source;
use base_outside::sure_rack::SureRack;
use daos_app::daos::run_daos;
use daos_app::status::{Status, status_text};
use std::alloc::Global;
use std::env;
use std::env::Args;
use std::process::ExitCode;
use std::sync::Wait;
use std::thread::Threads;

// The size of a region, of which the run asks for none so far.
const REGION_SIZE: u64 = 4096;

// Runs the program over a source and a sink, with the words after the program's name.
fn run<R: Threads + Wait + Sync, S: Source, K: Sink>(
    rt: &R,
    alloc: Global,
    args: Args,
    source: &mut S,
    sink: &mut K,
) -> Status {
    let Ok(words) = args.skip(1).collect::<Vec<String>>(alloc) else {
        return Status::Memory;
    };
    match SureRack::new(alloc, 64, REGION_SIZE) {
        Ok(mut rack) => run_daos(rt, alloc, &words, source, sink, &mut rack, &FreeGate),
        Err(_) => Status::Memory,
    }
}

fn main(rt: HostRuntime) -> ExitCode {
    let alloc = rt.alloc();
    let mut source = Reading::new(rt.stdin().lock());
    let mut sink = Writing::new(rt.stdout().lock());
    let status = match env::args(&rt) {
        Ok(args) => run(&rt, alloc, args, &mut source, &mut sink),
        Err(_) => Status::Memory,
    };
    if let Ok(text) = status_text(alloc, &status) {
        if !text.is_empty() {
            let _ = eprintln!(rt; "{text}");
        }
    }
    ExitCode::from(status.number())
}
