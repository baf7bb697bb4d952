// What an image says of itself, in its first 4096 bytes.
ghost use Rattle.std.specs.Prelude.{◌≡◌, ◌^◌, ◌<◌, ◌≤◌, ◌==◌, ◌&&◌, ◌||◌, not, length, [], Ok, IfOk, IfErr};
ghost use Rattle.base_outside.specs.Images.{Image, bytes_at};
ghost use Rattle.vos_image.specs.Content.{content_of, is_taken};
ghost use Rattle.vos_image.specs.Laws.{root_blocks};
ghost use Rattle.vos_image.specs.Places.{is_layout, magic, read_bytes, read_header};
ghost use Rattle.vos_image.specs.Steps.{rule};
ghost use Rattle.vos_check_places.specs.Shown.{AreHeaderFields, IsShown, Shows, StopsAt};
ghost use Rattle.vos_check_places.specs.Fixed.{header_of};

use crate::blocks::is_taken;
use crate::fault::Fault;
use crate::fields::{eight_at, four_at, zeros_at};
use crate::judge::{Rule, judge};
use base_types::epoch::TargetId;

// DAOSVOS1
const MAGIC: [u8; 8] = [68, 65, 79, 83, 86, 79, 83, 49];

// Leases are below this, in ticks.
const LEASES: u64 = 1 << 56;

/// Layout, target, number of targets, incarnation, lease in ticks, and the roots of objects and of entries.
#[derive(Clone, Copy)]
pub struct Header {
    pub layout: u32,
    pub target: u8,
    pub targets: u8,
    pub incarnation: u64,
    pub lease: u64,
    pub objects: u32,
    pub entries: u32,
}

fn fields_at(fixed: &[u8]) -> Header
    requires { 4096 ≤ length fixed.now }
    ensures { (f : Image) → IsShown f fixed.now 0 32768 → AreHeaderFields f result }
{
    Header {
        layout: four_at(fixed, 8),
        target: fixed[12],
        targets: fixed[13],
        incarnation: eight_at(fixed, 24),
        lease: eight_at(fixed, 32),
        objects: four_at(fixed, 40),
        entries: four_at(fixed, 44),
    }
}

// The first eight bytes; the first that differs is at fault.
fn magic(fixed: &[u8]) -> Rule
    requires { 8 ≤ length fixed.now }
    ensures first { (f : Image) → IsShown f fixed.now 0 32768 → read_bytes f 0 magic ≡ rule result.0 result.1 }
    ensures high { result.0 < 8 }
{
    for i in 0..8 {
        if fixed[i] != MAGIC[i] {
            return Rule(i, false);
        }
    }
    Rule(0, true)
}

// Whether there is such a layout.
fn is_layout(layout: u32) -> bool
    ensures { result ≡ is_layout layout }
{
    layout == 1 || layout == 2
}

// Whether a root is none, or a taken block that isn't the other root.
fn is_root(map: &[u8], size: u64, block: u32, other: u32) -> bool
    requires { length map.now ≡ 16384 }
    ensures { (f : Image) → bytes_at f 307200 16384 ≡ map.now → result ≡ ((block == 0) || (is_taken (content_of size f) block && not (block == other))) }
{
    block == 0 || (is_taken(map, size, block) && block != other)
}

/// What an image says of itself.
pub(crate) fn read_header(
    fixed: &[u8],
    map: &[u8],
    size: u64,
    target: TargetId,
) -> Result<Header, Fault>
    requires fixed { length fixed.now ≡ 36864 }
    requires map { length map.now ≡ 16384 }
    ensures read { IfOk result (λ h. (f : Image) → Shows f fixed.now map.now → read_header target (content_of size f) [] ≡ Ok (header_of h, root_blocks (header_of h))) }
    ensures lease { IfOk result (λ h. h.lease < 2 ^ 56) }
    ensures fields { IfOk result (λ h. (f : Image) → Shows f fixed.now map.now → AreHeaderFields f h) }
    ensures foreign { IfErr result (λ e. (f : Image) → Shows f fixed.now map.now → StopsAt (read_header target (content_of size f) []) f e) }
{
    let header = fields_at(fixed);
    let rules = [
        magic(fixed),
        Rule(8, is_layout(header.layout)),
        Rule(12, header.target == target),
        zeros_at(fixed, 14, 2),
        Rule(16, eight_at(fixed, 16) == size),
        Rule(32, header.lease < LEASES),
        Rule(40, is_root(map, size, header.objects, 0)),
        Rule(44, is_root(map, size, header.entries, header.objects)),
        zeros_at(fixed, 48, 4048),
    ];
    judge(fixed, &rules)?;
    Ok(header)
}
