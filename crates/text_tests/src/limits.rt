// The limits of scripts whose texts are too long to be kept as data: how many commands, how many bytes. Other limits
// and faults are data of daos_cases.
use base_types::fault::Why;
use daos_script::fault::ScriptNo;
use daos_script::script::read_script;
use std::alloc::Global;

const HEAD: &[u8] = b"cont c 00000000-0000-0000-0000-000000000001\nobj o c S1 0\nclient\n";

// What a text is found to be: a script, or at which line there is what fault: more than are allowed, or another one.
#[derive(Clone, Copy, PartialEq)]
enum Found {
    Script,
    TooMany(u32, u32),
    TooLong(u32, u32),
    Other(u32),
}

fn found_in(alloc: Global, text: &[u8]) -> Found {
    match read_script(alloc, text, 1) {
        Ok(_) => Found::Script,
        Err(ScriptNo::Fault(fault)) => match fault.why {
            Why::TooMany(limit) => Found::TooMany(fault.line, limit),
            Why::TooLong(limit) => Found::TooLong(fault.line, limit),
            _ => Found::Other(fault.line),
        },
        Err(_) => Found::Other(0),
    }
}

// A text that begins so and goes on with so many equal lines.
fn text_of(alloc: Global, first: &[u8], line: &[u8], count: u32) -> Option<Vec<u8>> {
    let mut text = Vec::from_slice(alloc, first).ok()?;
    for _ in 0..count {
        text.extend_from_slice(line).ok()?;
    }
    Some(text)
}

// What is found of a client with one command more than are allowed.
fn found_of_commands(alloc: Global) -> Option<Found> {
    let text = text_of(alloc, HEAD, b"get o d a\n", 100_001)?;
    Some(found_in(alloc, &text))
}

// What is found of 16 MiB of lines, of one byte more, and of that with an unknown word in its first line.
fn found_of_many_bytes(alloc: Global) -> Option<[Found; 3]> {
    let mut text = text_of(alloc, b"", b"# 345678901234567890123456789 1\n", 524_288)?;
    let most = found_in(alloc, &text);
    text.push(b'\n').ok()?;
    let more = found_in(alloc, &text);
    if let Some(first) = text.first_mut() {
        *first = b'!';
    }
    Some([most, more, found_in(alloc, &text)])
}

#[test]
fn commands_and_bytes_have_limits(rt: HostRuntime) {
    let alloc = rt.alloc();
    let many = Some(Found::TooMany(100_004, 100_000));
    assert!(rt; found_of_commands(alloc) == many);
    let bytes = [
        Found::Script,
        Found::TooLong(524_289, 16_777_216),
        Found::Other(1),
    ];
    assert!(rt; found_of_many_bytes(alloc) == Some(bytes));
}
