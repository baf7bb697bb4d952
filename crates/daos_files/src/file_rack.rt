// A rack of files in a folder.
ghost use Rattle.std.specs.Prelude.{◌≡◌, IfOk, OnOk, OnErr, false, refl};
ghost use Rattle.base_outside.specs.Causes.{HasCause, one_more};

use crate::file_region::FileRegion;
use base_outside::count_clock::CountClock;
use base_outside::rack::Rack;
use base_outside::{Failed, Memory, TargetId};
use std::alloc::Global;
use std::fs::{File, OpenOptions};
use std::marker::Model;
use std::rt::Files;
use std::{fs, io};

/// The files `target-00`, `target-01` and so on of a folder as the regions of targets, at the trusted
/// edge. It tells nothing of their bytes. Each error of the file system, and each want of memory for a
/// file's name, is a fault. Clocks count from 0.
#[derive(Drop)]
pub struct FileRack<R> {
    files: R,
    alloc: Global,
    folder: String,
    faults: u64,
}

impl<R> Model for FileRack<R> {
    ghost use Rattle.std.specs.Prelude.{ℕ};

    ghost Value = { ℕ };

    ghost view = { λ r. r.faults };
}

impl<R: Files<File = File> + Drop> FileRack<R> {
    /// A rack of the files in a folder, which is made where it isn't there when a region is asked for.
    pub fn new(alloc: Global, files: R, folder: &str) -> Result<FileRack<R>, Memory>
        ensures { IfOk result (λ r. r ≡ 0) }
    {
        Ok(FileRack {
            files,
            alloc,
            folder: String::from_str(alloc, folder)?,
            faults: 0,
        })
    }

    // Opens the file of a target. A file of no bytes is new: it gets `size` bytes.
    fn open(&self, t: TargetId, size: u64) -> io::Result<FileRegion> {
        let folder = self.folder.as_str();
        fs::create_dir_all(&self.files, folder)?;
        let path = format!(in self.alloc; "{folder}/target-{t:02}")?;
        let file = OpenOptions::new()
            .read(true)
            .write(true)
            .create(true)
            .open(&self.files, path.as_str())?;
        let long = file.metadata()?.len();
        if long > 0 {
            return Ok(FileRegion::new(file, long));
        }
        file.set_len(size)?;
        file.sync_all()?;
        Ok(FileRegion::new(file, size))
    }
}

impl<R: Files<File = File> + Drop> Rack for FileRack<R> {
    type Region = FileRegion;

    type Clock = CountClock;

    ghost count = { λ r. r };

    ghost is_out = { λ _ _. false };

    ghost next_image = { λ _ _ _. 0 };

    ghost next_leaves = { λ _ _ _. Unit {0} };

    ghost next_faults = { λ _ _. 0 };

    ghost next_size = { λ _ _. 0 };

    ghost gives = { λ _ _ clock. clock ≡ 0 };

    ghost cannot_burn = { refl };

    fn region(&mut self, t: TargetId, size: u64) -> Result<FileRegion, Failed>
        ensures cause { HasCause self.old self.new result }
        ensures fault { OnErr result (self.new ≡ one_more self.old) }
        ensures no_fault { OnOk result (self.new ≡ self.old) }
    {
        match self.open(t, size) {
            Ok(region) => Ok(region),
            Err(_) => {
                self.faults = self.faults.saturating_add(1);
                Err(Failed)
            }
        }
    }

    fn clock(&mut self, _t: TargetId) -> CountClock
        ensures clock { result ≡ 0 }
        ensures kept { self.new ≡ self.old }
    {
        CountClock::new()
    }

    /// Closes the file.
    fn take_back(&mut self, _t: TargetId, _region: FileRegion)
        ensures { self.new ≡ self.old }
    {}

    fn faults(&self) -> u64 {
        self.faults
    }
}
