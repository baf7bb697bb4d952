// The content of a region, as it is read.
ghost use Rattle.std.specs.Prelude.{◌≡◌, ◌-◌, ◌≤◌, ◌^◌, ◌<◌, [], ℕ, IsTrue, OnOk, is_err, length};
ghost use Rattle.base_outside.specs.Images.{bytes_at};
ghost use Rattle.pmem_undo.specs.Layout.{IsContent};
ghost use Rattle.vos_check_base.specs.Health.{IsRead};
ghost use Rattle.vos_check_content.specs.Region.{IsPieceRead, health_of, looked_of, region_content};

use base_outside::region::Region;
use pmem_pages::refusal::Stopped;
use pmem_undo::undo_region::UndoRegion;
use std::marker::Model;
use vos_check_base::source::Source;

// Where the gate byte stands, and where the log body begins and ends.
const GATE: u64 = 32768;

const LOG: u64 = 36864;

const LOG_END: u64 = 307200;

/// The content of an undo region of which nothing is staged. The gate byte, the log body and places past its
/// end read as zero.
#[derive(Drop)]
pub struct RegionContent<R: Region> {
    undo: UndoRegion<R>,
}

impl<R: Region> Model for RegionContent<R> {
    ghost use Rattle.std.specs.Prelude.{◌≡◌, []};
    ghost use Rattle.pmem_undo.specs.Undo.{UndoState};

    ghost Value = { UndoState R };

    ghost view = { λ s. s.undo };

    ghost invariant = { λ s. s.undo.staged ≡ [] };
}

// Reads the bytes of a buffer that lie in a piece of the content.
fn piece<R: Region>(
    undo: &mut UndoRegion<R>,
    at: u64,
    buf: &mut [u8],
    low: u64,
    high: u64,
) -> Result<(), Stopped>
    requires unstaged { undo.old.staged ≡ [] }
    requires order { low ≤ high }
    requires piece { IsContent (R.extent undo.old.region) low (high - low) }
    ensures bytes { OnOk result (IsTrue R.tells → IsPieceRead (R.image undo.old.region) at low high buf.old buf.new) }
    ensures stops { IsRead (health_of R.count R.burns) (looked_of R.tells R.extent R.image R.may_leave R.moment R.left_since) undo.old undo.new (is_err result) }
{
    let from = at.max(low);
    let to = at.saturating_add(buf.len() as u64).min(high);
    if from >= to {
        return Ok(());
    }
    let part = &mut buf[(from - at) as usize..(to - at) as usize];
    undo.read(from, part)
}

// Reads bytes of the content.
fn read_pieces<R: Region>(undo: &mut UndoRegion<R>, at: u64, buf: &mut [u8]) -> Result<(), Stopped>
    requires { undo.old.staged ≡ [] }
    ensures bytes { OnOk result (IsTrue R.tells → buf.new ≡ bytes_at (region_content (R.extent undo.old.region) (R.image undo.old.region)) at (length buf.old)) }
    ensures stops { IsRead (health_of R.count R.burns) (looked_of R.tells R.extent R.image R.may_leave R.moment R.left_since) undo.old undo.new (is_err result) }
{
    let size = undo.size();
    buf.fill(0);
    piece(undo, at, buf, 0, GATE)?;
    piece(undo, at, buf, GATE + 1, LOG)?;
    piece(undo, at, buf, LOG_END, size)
}

impl<R: Region> RegionContent<R> {
    /// The content of a region of which nothing is staged.
    pub fn new(undo: UndoRegion<R>) -> RegionContent<R>
        requires { undo.staged ≡ [] }
        ensures { result ≡ undo }
    {
        RegionContent { undo }
    }

    /// How many bytes the region has.
    pub fn size(&self) -> u64
        ensures size { result ≡ R.extent self.now.region }
        ensures big { 323584 ≤ result }
        ensures small { result < 2 ^ 32 }
        ensures bytes { IsTrue R.tells → (i : ℕ) → R.image self.now.region i < 256 }
        ensures unstaged { self.now.staged ≡ [] }
    {
        self.undo.size()
    }

    /// The region.
    pub fn into_undo(self) -> UndoRegion<R>
        ensures same { result ≡ self }
        ensures unstaged { result.staged ≡ [] }
    {
        let RegionContent { undo } = self;
        undo
    }
}

impl<R: Region> Source for RegionContent<R> {
    ghost use Rattle.vos_check_content.specs.Region.{health_of, looked_of, looks_none, looks_on, region_content};

    ghost tells = { R.tells };

    ghost bytes = { λ s. region_content (R.extent s.region) (R.image s.region) };

    ghost health = { λ s. health_of R.count R.burns s };

    ghost looked = { λ s t. looked_of R.tells R.extent R.image R.may_leave R.moment R.left_since s t };

    ghost looked_none = { λ s. looks_none R.tells R.extent R.image R.may_leave R.moment R.left_since s };

    ghost looked_on = { λ s t u a b. looks_on R.tells R.extent R.image R.may_leave R.moment R.left_since s t u a b };

    fn read(&mut self, at: u64, buf: &mut [u8]) -> Result<(), Stopped> {
        read_pieces(&mut self.undo, at, buf)
    }
}
