// What the outside gives or takes byte by byte, or fails at.
use crate::runs::run;
use crate::slow::{SlowSink, SlowSource};
use base_outside::mem_sink::MemSink;
use base_outside::mem_source::MemSource;
use base_outside::sure_rack::SureRack;
use base_outside::sure_sink::SureSink;
use base_outside::sure_source::SureSource;
use std::alloc::Global;
use std::sync::Wait;
use std::thread::Threads;

const FIRST: &[u8] = b"cont c 00000000-0000-0000-0000-000000000001
obj o c S1 0
obj q c S1 1
client
put o d a =hello
get o d a
";

const FIRST_REPORT: &[u8] = b"daos 1 targets 1
try 0 0 0 256 committed
try 0 1 0 512 committed
got 0 value =hello
end 0
";

// What a run over a source and a sink that move one byte a call ends with, and whether it is reported alike.
fn slowly<R: Threads + Wait + Sync>(rt: &R, alloc: Global) -> Option<(u8, bool)> {
    let source = SureSource::new(alloc, FIRST).ok()?;
    let mut source = SlowSource { inner: source };
    let sink = SureSink::new(alloc, 1000).ok()?;
    let mut sink = SlowSink { inner: sink };
    let mut rack = SureRack::new(alloc, 1, 4096).ok()?;
    let status = run(rt, alloc, &mut source, &mut sink, &mut rack)?;
    Some((status, sink.inner.bytes() == FIRST_REPORT))
}

#[test]
fn one_byte_a_call_is_reported_alike(rt: HostRuntime) {
    assert!(rt; slowly(&rt, rt.alloc()) == Some((0, true)));
}

// What a run ends with where these calls of the source and of the sink fail, and the sink has so much room; and how
// much of the report the sink then holds.
fn failing<R: Threads + Wait + Sync>(
    rt: &R,
    alloc: Global,
    source_fails: &[u32],
    room: u64,
    sink_fails: &[u32],
) -> Option<(u8, usize)> {
    let mut source = MemSource::new(alloc, FIRST, source_fails).ok()?;
    let mut sink = MemSink::new(alloc, room, sink_fails).ok()?;
    let mut rack = SureRack::new(alloc, 1, 4096).ok()?;
    let status = run(rt, alloc, &mut source, &mut sink, &mut rack)?;
    let held = sink.bytes();
    if FIRST_REPORT.starts_with(held) {
        Some((status, held.len()))
    } else {
        None
    }
}

#[test]
fn faults_of_the_outside_are_told(rt: HostRuntime) {
    let alloc = rt.alloc();
    assert!(rt; failing(&rt, alloc, &[1], 1000, &[]) == Some((3, 0)));
    assert!(rt; failing(&rt, alloc, &[2], 1000, &[]) == Some((3, 0)));
    assert!(rt; failing(&rt, alloc, &[], 1000, &[1]) == Some((4, 0)));
    assert!(rt; failing(&rt, alloc, &[], 0, &[]) == Some((4, 0)));
    assert!(rt; failing(&rt, alloc, &[], 17, &[]) == Some((4, 17)));
}
