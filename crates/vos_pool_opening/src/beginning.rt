// Why a pool is opened, and what is said of it then.
ghost use Rattle.std.specs.Prelude.{◌≡◌, ◌^◌, ◌<◌};
ghost use Rattle.vos_pool_opening.specs.Beginning.{next_incarnation, why_of};

use base_types::epoch::TargetId;
use base_types::outcome::FloorWhy;

/// Why a pool is opened: it is made of a region, or it is opened again by a restart of this number.
#[derive(Clone, Copy)]
pub enum Beginning {
    Made,
    Again(u32),
}

/// What a pool is opened as: of which target of how many, and why.
#[derive(Clone, Copy)]
pub struct Asked {
    pub target: TargetId,
    pub targets: u8,
    pub beginning: Beginning,
}

/// The incarnation after one: that of a region that was blank stays. One of a pool that is made begins anew above 2^63; none
/// passes the end of its range.
pub(crate) fn next_incarnation(beginning: Beginning, blank: bool, incarnation: u64) -> u64
    ensures { result ≡ next_incarnation beginning blank incarnation }
{
    if blank {
        return incarnation;
    }
    let last = match beginning {
        Beginning::Made => 1 << 63,
        Beginning::Again(_) => u64::MAX - 1,
    };
    if incarnation > last {
        1
    } else {
        incarnation + 1
    }
}

/// What sets the floor.
pub(crate) fn why_of(beginning: Beginning) -> FloorWhy
    ensures { result ≡ why_of beginning }
{
    match beginning {
        Beginning::Made => FloorWhy::Opening,
        Beginning::Again(number) => FloorWhy::Restart(number),
    }
}
