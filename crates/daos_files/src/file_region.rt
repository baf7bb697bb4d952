// A file as a region.
ghost use Rattle.std.specs.Prelude.{◌≡◌, ◌+◌, ◌≤◌, length, OnOk, OnErr, IsTrue, true, false, refl};
ghost use Rattle.base_outside.specs.Causes.{HasEitherCause, one_more};
ghost use Rattle.daos_files.specs.FileState.{CountsFault, CountsOpening};

use base_outside::Failed;
use base_outside::region::Region;
use std::fs::File;
use std::marker::Model;
use std::os::unix::fs::FileExt;

/// A file as a region, at the trusted edge. It tells nothing of its bytes. Each error of the file is a
/// fault, and so is each call between an error and the next opening.
#[derive(Drop)]
pub struct FileRegion {
    file: File,
    size: u64,
    broken: bool,
    faults: u64,
}

impl Model for FileRegion {
    ghost use Rattle.daos_files.specs.FileState.{FileState};

    ghost Value = { FileState };

    ghost view = { λ r. record { size = r.size; broken = r.broken; faults = r.faults } };
}

impl FileRegion {
    /// The first `size` bytes of a file that is open for reading and writing.
    pub fn new(file: File, size: u64) -> FileRegion
        ensures { result ≡ record { size = size; broken = false; faults = 0 } }
    {
        FileRegion {
            file,
            size,
            broken: false,
            faults: 0,
        }
    }

    // Counts a call that failed.
    fn count_unless(&mut self, well: bool) -> Result<(), Failed>
        ensures cause { HasEitherCause self.old.faults self.new.faults 0 0 result }
        ensures failed { OnErr result (self.new ≡ record self.old { broken = true; faults = one_more self.old.faults }) }
        ensures worked { OnOk result (self.new ≡ self.old) }
        ensures well { OnOk result (well ≡ true) }
    {
        if well {
            return Ok(());
        }
        self.broken = true;
        self.faults = self.faults.saturating_add(1);
        Err(Failed)
    }

    // Whether the file is still as long as it was, and all that was written to it lasts.
    fn lasts(&self) -> bool {
        match self.file.metadata() {
            Ok(found) => self.size <= found.len() && self.file.sync_all().is_ok(),
            Err(_) => false,
        }
    }
}

impl Region for FileRegion {
    ghost extent = { λ r. r.size };

    ghost count = { λ r. r.faults };

    ghost burns = { λ _. 0 };

    ghost can_burn = { false };

    ghost tells = { false };

    ghost image = { λ _ _. 0 };

    ghost may_leave = { λ _ _. Unit {0} };

    ghost moment = { λ _. 0 };

    ghost left_since = { λ _ _ _. Unit {0} };

    ghost broken = { λ r. r.broken };

    ghost did = { λ _ _ _. Unit {0} };

    ghost counts_now = { λ _ _ _ _ _ _. tt };

    ghost only_now = { λ _ _ _ _. tt };

    ghost leaves_some = { λ _ _. (λ _. 0, tt) };

    ghost unburnt = { λ _ _. refl };

    fn size(&self) -> u64 {
        self.size
    }

    fn read(&mut self, at: u64, buf: &mut [u8]) -> Result<(), Failed>
        requires { at + length buf.old ≤ self.old.size }
        ensures cause { HasEitherCause self.old.faults self.new.faults 0 0 result }
        ensures counts { CountsFault self.old self.new result }
    {
        let well = !self.broken && self.file.read_exact_at(buf, at).is_ok();
        self.count_unless(well)
    }

    fn write(&mut self, at: u64, bytes: &[u8]) -> Result<(), Failed>
        requires { at + length bytes.now ≤ self.old.size }
        ensures cause { HasEitherCause self.old.faults self.new.faults 0 0 result }
        ensures counts { CountsFault self.old self.new result }
    {
        let well = !self.broken && self.file.write_all_at(bytes, at).is_ok();
        self.count_unless(well)
    }

    fn flush(&mut self) -> Result<(), Failed>
        ensures cause { HasEitherCause self.old.faults self.new.faults 0 0 result }
        ensures counts { CountsFault self.old self.new result }
    {
        let well = !self.broken && self.file.sync_data().is_ok();
        self.count_unless(well)
    }

    fn reopen(&mut self) -> Result<(), Failed>
        ensures cause { HasEitherCause self.old.faults self.new.faults 0 0 result }
        ensures counts { CountsOpening self.old self.new result }
    {
        let well = self.lasts();
        match self.count_unless(well) {
            Ok(()) => {
                self.broken = false;
                Ok(())
            }
            Err(failed) => Err(failed),
        }
    }

    fn burnt(&self) -> u64 {
        0
    }

    fn faults(&self) -> u64 {
        self.faults
    }
}
