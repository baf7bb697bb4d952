// What the objects in memory give and take, and those that others hand in.
use base_outside::adapters::{Reading, Writing};
use base_outside::clock::Clock;
use base_outside::mem_sink::MemSink;
use base_outside::mem_source::MemSource;
use base_outside::rack::Rack;
use base_outside::region::Region;
use base_outside::sink::{Sink, write_all};
use base_outside::source::{ReadNo, Source, read_all};
use base_outside::sure_rack::SureRack;
use base_outside::sure_region::SureRegion;
use std::alloc::Global;

// What a call answers, or 9 where it fails.
const FAILS: usize = 9;

fn read_two(source: &mut MemSource) -> usize {
    let mut buf = [0; 2];
    source.read(&mut buf).unwrap_or(FAILS)
}

// What four reads of two bytes each give of a source of three, and how often it failed.
fn reads(alloc: Global, fails: &[u32]) -> Option<([usize; 4], u64)> {
    let mut source = MemSource::new(alloc, b"abc", fails).ok()?;
    let given = [
        read_two(&mut source),
        read_two(&mut source),
        read_two(&mut source),
        read_two(&mut source),
    ];
    Some((given, source.faults()))
}

#[test]
fn a_source_fails_by_its_list(rt: HostRuntime) {
    let alloc = rt.alloc();
    assert!(rt; reads(alloc, &[]) == Some(([2, 1, 0, 0], 0)));
    assert!(rt; reads(alloc, &[2]) == Some(([2, FAILS, 1, 0], 1)));
    assert!(rt; reads(alloc, &[1, 2]) == Some(([FAILS, FAILS, 2, 1], 2)));
}

// What three writes of two bytes each leave in a sink with room for three: what they answered, how often it failed,
// and how much it holds.
fn writes(alloc: Global, fails: &[u32]) -> Option<([usize; 3], u64, usize)> {
    let mut sink = MemSink::new(alloc, 3, fails).ok()?;
    let taken = [
        sink.write(b"ab").unwrap_or(FAILS),
        sink.write(b"ab").unwrap_or(FAILS),
        sink.write(b"ab").unwrap_or(FAILS),
    ];
    Some((taken, sink.faults(), sink.bytes().len()))
}

#[test]
fn a_sink_fails_by_its_list(rt: HostRuntime) {
    let alloc = rt.alloc();
    assert!(rt; writes(alloc, &[]) == Some(([2, 1, 0], 0, 3)));
    assert!(rt; writes(alloc, &[2]) == Some(([2, FAILS, 1], 1, 3)));
    assert!(rt; writes(alloc, &[1, 2]) == Some(([FAILS, FAILS, 2], 2, 2)));
}

// Whether a source is read to its end, within a limit: 0 if it is, 1 if it is too long, and else it fails.
fn read_to_end(alloc: Global, fails: &[u32], limit: u32) -> Option<u8> {
    let mut source = MemSource::new(alloc, b"abc", fails).ok()?;
    match read_all(alloc, &mut source, limit as usize) {
        Ok(_) => Some(0),
        Err(ReadNo::TooLong) => Some(1),
        Err(_) => Some(2),
    }
}

#[test]
fn a_source_is_read_to_its_end_or_it_is_told_why_not(rt: HostRuntime) {
    let alloc = rt.alloc();
    assert!(rt; read_to_end(alloc, &[], 3) == Some(0));
    assert!(rt; read_to_end(alloc, &[], 2) == Some(1));
    assert!(rt; read_to_end(alloc, &[2], 3) == Some(2));
}

// Writes into the region of target 1 and gives it back.
fn use_region(rack: &mut SureRack) -> Option<()> {
    let mut region = rack.region(1, 9).ok()?;
    let written = region.size() == 4 && region.write(1, b"xy").is_ok();
    rack.take_back(1, region);
    if written { Some(()) } else { None }
}

fn bytes_of(region: &mut SureRegion) -> Option<[u8; 4]> {
    let mut bytes = [7; 4];
    if region.size() != 4 || region.read(0, &mut bytes).is_err() {
        return None;
    }
    Some(bytes)
}

// What then stands there, how often the rack failed, for a target that it doesn't have, and what its clock shows.
fn rack_holds(alloc: Global) -> Option<([u8; 4], u64, u64)> {
    let mut rack = SureRack::new(alloc, 2, 4).ok()?;
    use_region(&mut rack)?;
    let mut region = rack.region(1, 4).ok()?;
    let bytes = bytes_of(&mut region)?;
    let none = rack.region(2, 4).is_err();
    let time = rack.clock(0).now();
    if none {
        Some((bytes, rack.faults(), time))
    } else {
        None
    }
}

#[test]
fn a_rack_hands_out_what_is_at_home(rt: HostRuntime) {
    assert!(rt; rack_holds(rt.alloc()) == Some(([0, b'x', b'y', 0], 1, 0)));
}

// What is read by std's readers and written by its writers.
fn passed_on(alloc: Global) -> Option<Vec<u8>> {
    let mut source = Reading::new(b"abc".as_slice());
    let read = read_all(alloc, &mut source, 8).ok()?;
    let mut sink = Writing::new(Vec::new(alloc));
    write_all(&mut sink, &read).ok()?;
    Some(sink.into_inner())
}

#[test]
fn readers_and_writers_of_std(rt: HostRuntime) {
    let passed = passed_on(rt.alloc());
    assert!(rt; passed.is_some_and(|bytes| bytes.as_slice() == b"abc".as_slice()));
}
