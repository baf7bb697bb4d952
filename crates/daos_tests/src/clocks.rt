// Epochs that follow the clock.
use crate::planned::PlannedRack;
use crate::runs::run;
use base_outside::sure_rack::SureRack;
use base_outside::sure_sink::SureSink;
use base_outside::sure_source::SureSource;
use std::alloc::Global;
use std::sync::Wait;
use std::thread::Threads;

const SCRIPT: &[u8] = b"cont c 00000000-0000-0000-0000-000000000001
obj o c S1 0
client
put o d a =1
get o d b
put o d a =2
";

const REPORT: &[u8] = b"daos 1 targets 1
try 0 0 0 2560 committed
try 0 1 0 2816 committed
got 0 absent
try 0 2 0 9223372036854775808 committed
end 0
";

// What a run ends with whose clock gives planned readings, and whether it reads it once an epoch.
fn planned<R: Threads + Wait + Sync>(rt: &R, alloc: Global) -> Option<(u8, bool)> {
    let mut source = SureSource::new(alloc, SCRIPT).ok()?;
    let mut sink = SureSink::new(alloc, 1000).ok()?;
    let inner = SureRack::new(alloc, 1, 4096).ok()?;
    let mut rack = PlannedRack {
        inner,
        readings: [10, 0, 1 << 60],
    };
    let status = run(rt, alloc, &mut source, &mut sink, &mut rack)?;
    Some((status, sink.bytes() == REPORT))
}

#[test]
fn the_clock_is_read_once_an_epoch(rt: HostRuntime) {
    assert!(rt; planned(&rt, rt.alloc()) == Some((0, true)));
}
