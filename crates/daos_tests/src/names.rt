// Calls and types under the names of the crates that users take, whatever crate holds them.
use daos_outside::{Keep, MemRegion, Region};
use daos_report::{read_report, report_text};
use daos_script::read_script;
use std::alloc::Global;

const SCRIPT: &[u8] = b"cont c 00000000-0000-0000-0000-000000000001
obj o c S1 0
obj q c S1 1
client
put o d a =hello
get o d a
";

const REPORT: &[u8] = b"daos 1 targets 1
try 0 0 0 256 committed
try 0 1 0 512 committed
got 0 value =hello
end 0
";

// Whether the text of a report that is read is the same again.
fn is_same_again(alloc: Global) -> Option<bool> {
    let script = read_script(alloc, SCRIPT, 1).ok()?;
    let report = read_report(alloc, REPORT, &script).ok()?;
    let text = report_text(alloc, &report, &script).ok()?;
    Some(text.as_slice() == REPORT)
}

#[test]
fn a_report_is_read_and_written_again(rt: HostRuntime) {
    assert!(rt; is_same_again(rt.alloc()) == Some(true));
}

// The size of a region in memory.
fn size_of_region(alloc: Global) -> Option<u64> {
    let region = MemRegion::new(alloc, 4096, &[], Keep::All).ok()?;
    Some(region.size())
}

#[test]
fn a_region_is_as_great_as_asked(rt: HostRuntime) {
    assert!(rt; size_of_region(rt.alloc()) == Some(4096));
}
