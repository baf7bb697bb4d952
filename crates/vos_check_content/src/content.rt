// A content, whole.
ghost use Rattle.std.specs.Prelude.{◌≡◌, ◌^◌, ◌<◌, IfErr, IfOk, IsTrue};
ghost use Rattle.vos_check_base.specs.Health.{IsRead, says_stopped};
ghost use Rattle.vos_check_content.specs.Whole.{IsFaulty, IsHeldSomewhere, IsWholeFound, ground_with};
ghost use Rattle.vos_check_places.specs.Fixed.{table_of};

use crate::fixed::fixed;
use crate::roots::behind_roots;
use base_types::epoch::TargetId;
use std::alloc::Global;
use vos_check_base::ground::Ground;
use vos_check_base::refusal::CheckNo;
use vos_check_base::source::Source;
use vos_check_entries::below::check::stored::check_objects;
use vos_check_entries::entries::check_entries;
use vos_check_entries::entry::EntryRow;
use vos_check_places::header::Header;
use vos_check_places::places::Fixed;
use vos_values::keys::Layout;

/// What is found of a content: its fixed places, and its entries in the order of the reading, each with how
/// many nodes it lists.
#[derive(Drop)]
pub struct ContentFound {
    pub fixed: Fixed,
    pub entries: Vec<EntryRow>,
}

// What a content says of itself that its blocks are judged by.
fn ground_of(header: &Header, size: u64) -> Ground
    ensures { header.now.lease < 2 ^ 56 → result ≡ ground_with header.now size }
{
    let layout = if header.layout == 1 {
        Layout::One
    } else {
        Layout::Two
    };
    Ground {
        size,
        layout,
        covered: header.lease.saturating_mul(256).saturating_add(255),
        targets: header.targets,
    }
}

/// Checks a content, for a target and a region's size: fixed places, objects with all below them, and entries
/// with their lists.
///
/// # Errors
///
/// `Foreign` gives the byte at fault: it comes exactly where the content isn't of the layout, as far as no
/// read failed and memory was there. `Stopped` comes only where a count of the region rose in this call, or
/// it had stopped before.
pub fn check_content<S: Source>(
    alloc: Global,
    source: &mut S,
    target: TargetId,
    size: u64,
) -> Result<ContentFound, CheckNo>
    ensures found { IfOk result (λ x. IsTrue S.tells → IsWholeFound target size (S.bytes source.old) x) }
    ensures held { IfOk result (λ x. IsHeldSomewhere target size (table_of x.fixed)) }
    ensures faulty { IfErr result (λ e. IsTrue S.tells → IsFaulty target size (S.bytes source.old) e) }
    ensures kept { IsTrue S.tells → S.bytes source.new ≡ S.bytes source.old }
    ensures stops { IsRead S.health S.looked source.old source.new (says_stopped result) }
{
    let fixed = fixed(alloc, source, size, target)?;
    let header = fixed.header;
    let ground = ground_of(&header, size);
    let mut fresh = behind_roots(source, &ground, header.objects, header.entries)?;
    let nodes = check_objects(alloc, source, &ground, &mut fresh, header.objects)?;
    let entries = check_entries(alloc, source, &ground, &mut fresh, nodes, header.entries)?;
    Ok(ContentFound { fixed, entries })
}
