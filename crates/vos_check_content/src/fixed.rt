// The fixed places of a content.
ghost use Rattle.std.specs.Prelude.{◌≡◌, ◌<◌, ℕ, IfErr, IfOk, IsTrue, [], length, slice_index};
ghost use Rattle.base_outside.specs.Images.{bytes_at};
ghost use Rattle.vos_image.specs.Content.{content_of};
ghost use Rattle.vos_image.specs.Places.{read_places};
ghost use Rattle.vos_check_base.specs.Answers.{IsFault};
ghost use Rattle.vos_check_base.specs.Health.{IsRead, says_stopped};
ghost use Rattle.vos_check_content.specs.Whole.{IsHeldSomewhere, IsUnread, fault_of_places};
ghost use Rattle.vos_check_places.specs.Fixed.{IsFixed, table_of};

use base_types::epoch::TargetId;
use std::alloc::Global;
use vos_check_base::refusal::CheckNo;
use vos_check_base::source::Source;
use vos_check_places::fault::Fault;
use vos_check_places::places::{Fixed, read_fixed};

// How many bytes the fixed places have, and where the map of blocks begins.
const PLACES: usize = 36864;

const MAP: u64 = 307200;

const MAP_BYTES: usize = 16384;

// So many bytes from a place on.
fn bytes_from<S: Source>(
    alloc: Global,
    source: &mut S,
    at: u64,
    count: usize,
) -> Result<Vec<u8>, CheckNo>
    ensures read { IfOk result (λ bytes. IsTrue S.tells → bytes.items ≡ bytes_at (S.bytes source.old) at count) }
    ensures many { IfOk result (λ bytes. length bytes.items ≡ count) }
    ensures unshown { IfErr result IsUnread }
    ensures kept { IsTrue S.tells → S.bytes source.new ≡ S.bytes source.old }
    ensures stops { IsRead S.health S.looked source.old source.new (says_stopped result) }
{
    let mut bytes = vec![in alloc; 0u8; count]?;
    source.read(at, &mut bytes)?;
    Ok(bytes)
}

// Each of them is below 256.
fn are_bytes(bytes: &[u8])
    ensures { (k : ℕ) → slice_index bytes.now k < 256 }
{
    let _bytes = bytes;
}

// What a fault of fixed places is in a check.
fn in_check(fault: Fault) -> CheckNo
    ensures { result ≡ fault_of_places fault }
{
    match fault {
        Fault::Foreign { at, byte } => CheckNo::Foreign { at, byte },
        Fault::Memory => CheckNo::Memory,
    }
}

/// What the fixed places of a content hold, for a target and a region's size.
pub(crate) fn fixed<S: Source>(
    alloc: Global,
    source: &mut S,
    size: u64,
    target: TargetId,
) -> Result<Fixed, CheckNo>
    ensures read { IfOk result (λ x. IsTrue S.tells → IsFixed target size (S.bytes source.old) x) }
    ensures held { IfOk result (λ x. IsHeldSomewhere target size (table_of x)) }
    ensures fault { IfErr result (λ e. IsTrue S.tells → IsFault (content_of size (S.bytes source.old)) (read_places target (content_of size (S.bytes source.old)) []) e) }
    ensures kept { IsTrue S.tells → S.bytes source.new ≡ S.bytes source.old }
    ensures stops { IsRead S.health S.looked source.old source.new (says_stopped result) }
{
    let places = bytes_from(alloc, source, 0, PLACES)?;
    let map = bytes_from(alloc, source, MAP, MAP_BYTES)?;
    let low = places.as_slice();
    let high = map.as_slice();
    are_bytes(low);
    are_bytes(high);
    match read_fixed(alloc, low, high, size, target) {
        Ok(fixed) => Ok(fixed),
        Err(fault) => Err(in_check(fault)),
    }
}
