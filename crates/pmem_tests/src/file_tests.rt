// Regions that are files.
ghost use Rattle.std.specs.Prelude.{◌≡◌, IfSome};

use crate::commit_tests::{SIZE, bytes_after, commit};
use base_outside::rack::Rack;
use base_outside::region::Region;
use daos_files::file_rack::FileRack;
use daos_files::file_region::FileRegion;
use pmem_undo::undo_region::UndoRegion;
use std::alloc::Global;
use std::fs::File;
use std::rt::Files;
use std::test::Fail;
use std::{fs, process};

// The region of target 0, where it has the size of these rows.
fn region<R: Files<File = File> + Drop>(rack: &mut FileRack<R>, size: u64) -> Option<FileRegion>
    ensures { IfSome result (λ r. r.size ≡ 323584) }
{
    let region = rack.region(0, size).ok()?;
    if region.size() == SIZE {
        return Some(region);
    }
    None
}

// What stands in a file after a commit over it, opened anew.
fn committed<R: Files<File = File> + Drop>(
    alloc: Global,
    rack: &mut FileRack<R>,
) -> Option<[u8; 3]> {
    let file = region(rack, SIZE)?;
    let mut undo = UndoRegion::format(alloc, file).ok()?;
    if commit(&mut undo, b"new") != Some(true) {
        return None;
    }
    bytes_after(alloc, undo)
}

fn write_first<R: Files<File = File> + Drop>(rack: &mut FileRack<R>) -> Option<()> {
    let mut file = region(rack, SIZE)?;
    let written = file.write(0, b"a").is_ok() && file.flush().is_ok();
    rack.take_back(0, file);
    if written { Some(()) } else { None }
}

// A byte that was written, where another size is asked for, and how often the rack failed.
fn written<R: Files<File = File> + Drop>(rack: &mut FileRack<R>) -> Option<(u8, u64)> {
    write_first(rack)?;
    let mut file = region(rack, 2 * SIZE)?;
    let mut byte = [0];
    if file.read(0, &mut byte).is_err() {
        return None;
    }
    Some((byte[0], rack.faults()))
}

#[test]
fn files_keep_their_bytes_and_sizes(rt: HostRuntime) -> Result<(), Fail> {
    let id = process::id(rt.process());
    let name = format!(in rt.alloc(); "/tmp/pmem-tests-{id}")?;
    let folder = name.as_str();
    let _ = fs::remove_dir_all(&rt, folder);
    let mut rack = FileRack::new(rt.alloc(), &rt, folder)?;
    let first = written(&mut rack);
    let then = committed(rt.alloc(), &mut rack);
    fs::remove_dir_all(&rt, folder)?;
    assert!(rt; first == Some((b'a', 0)));
    assert!(rt; then == Some(*b"new"));
    Ok(())
}
