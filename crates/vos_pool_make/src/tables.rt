// The fixed places that were found, as a pool remembers them.
ghost use Rattle.std.specs.Prelude.{◌≡◌, ◌<◌, ◌^◌, ◌==◌, ℕ, if◌then◌else◌};
ghost use Rattle.vos_pool_open.specs.vos_check_content.Whole.{IsHeldSomewhere};
ghost use Rattle.vos_pool_open.specs.vos_check_places.Fixed.{table_of};
ghost use Rattle.vos_values.specs.declared.keys.Layout.TheVariants.{One, Two};

use base_types::epoch::TargetId;
use vos_pool_base::below::places::codec::Counters;
use vos_pool_base::below::tables::identity::Identity;
use vos_pool_base::below::tables::laws::held_are_tables;
use vos_pool_base::below::tables::table::Tables;
use vos_pool_open::below::check_places::header::Header;
use vos_pool_open::below::check_places::places::Fixed;
use vos_values::keys::Layout;

// What an image says of itself and never changes.
fn identity_in(header: &Header, target: TargetId) -> Identity
    ensures layout { result.layout ≡ (if header.now.layout == 1 then One else Two) }
    ensures target { result.target ≡ target }
    ensures targets { result.targets ≡ header.now.targets }
{
    let layout = if header.layout == 1 {
        Layout::One
    } else {
        Layout::Two
    };
    Identity {
        layout,
        target,
        targets: header.targets,
    }
}

// What an image says of itself and changes.
fn counters_in(header: Header) -> Counters
    ensures counters { result ≡ record { incarnation = header.incarnation; lease = header.lease; objects = header.objects; entries = header.entries } }
    ensures incarnation { result.incarnation < 2 ^ 64 }
    ensures objects { result.objects < 2 ^ 32 }
    ensures entries { result.entries < 2 ^ 32 }
{
    let Header {
        incarnation,
        lease,
        objects,
        entries,
        ..
    } = header;
    Counters {
        incarnation,
        lease,
        objects,
        entries,
    }
}

/// The tables of fixed places that were found of an image, for a target.
pub(crate) fn tables_of(fixed: Fixed, target: TargetId) -> Tables
    requires held { (size : ℕ) × IsHeldSomewhere target size (table_of fixed) }
    ensures { result ≡ table_of fixed }
{
    held_are_tables();
    let Fixed {
        header,
        conts,
        snaps,
    } = fixed;
    Tables::of(
        identity_in(&header, target),
        counters_in(header),
        conts,
        snaps,
    )
}
