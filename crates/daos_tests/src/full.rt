// A region of 2 MiB that is full: nothing more is put until its container is aggregated.
use crate::runs::run_words;
use base_outside::sure_rack::SureRack;
use base_outside::sure_sink::SureSink;
use base_outside::sure_source::SureSource;
use std::alloc::{AllocError, Global};
use std::sync::Wait;
use std::thread::Threads;

const HEAD: &[u8] = b"cont c 00000000-0000-0000-0000-000000000001\nobj o c S1 0\nclient\n";

// How many values of 1,024 bytes there are to put, and for how many there is room, which takes 15 blocks each.
const PUTS: u32 = 2_000;

const KEPT: u32 = 461;

// So many bytes of one kind, behind others.
fn add_value(text: &mut Vec<u8>) -> Result<(), AllocError> {
    for _ in 0..1_024 {
        text.push(b'x')?;
    }
    Ok(())
}

fn script(alloc: Global) -> Result<Vec<u8>, AllocError> {
    let mut text = Vec::from_slice(alloc, HEAD)?;
    for _ in 0..PUTS {
        text.extend_from_slice(b"put o d a =")?;
        add_value(&mut text)?;
        text.push(b'\n')?;
    }
    text.extend_from_slice(b"get o d a\naggregate c\nput o d a =v\n")?;
    Ok(text)
}

// The lines of the puts: each that has no room is refused for 15 blocks, of which 13 are free.
fn add_puts(alloc: Global, text: &mut Vec<u8>) -> Result<(), AllocError> {
    for n in 0..PUTS {
        let epoch = 256 * (n + 1);
        let line = if n < KEPT {
            format!(in alloc; "try 0 {n} 0 {epoch} committed\n")?
        } else {
            format!(in alloc; "try 0 {n} 0 {epoch} nospace 0 15 13\n")?
        };
        text.extend_from_slice(line.as_bytes())?;
    }
    Ok(())
}

fn report(alloc: Global) -> Result<Vec<u8>, AllocError> {
    let mut text = Vec::from_slice(alloc, b"daos 1 targets 1\n")?;
    add_puts(alloc, &mut text)?;
    text.extend_from_slice(b"try 0 2000 0 512256 committed\ngot 0 value =")?;
    add_value(&mut text)?;
    text.extend_from_slice(b"\naggregate 0 0 c 512512\ntry 0 2001 0 512512 committed\n")?;
    text.extend_from_slice(b"try 0 2002 0 512768 committed\nend 0\n")?;
    Ok(text)
}

// What the run ends with, and whether it writes that report.
fn filled<R: Threads + Wait + Sync>(rt: &R, alloc: Global) -> Option<(u8, bool)> {
    let mut source = SureSource::new(alloc, &script(alloc).ok()?).ok()?;
    let mut sink = SureSink::new(alloc, 200_000).ok()?;
    let mut rack = SureRack::new(alloc, 1, 4096).ok()?;
    let words = ["run", "--targets", "1", "--size", "2"];
    let status = run_words(rt, alloc, &words, &mut source, &mut sink, &mut rack)?;
    let wanted = report(alloc).ok()?;
    Some((status, sink.bytes() == wanted.as_slice()))
}

#[test]
fn a_full_region_is_used_again_once_it_is_aggregated(rt: HostRuntime) {
    assert!(rt; filled(&rt, rt.alloc()) == Some((0, true)));
}
