// How many blocks of a region writes take at most.
ghost use Rattle.std.specs.Prelude.{◌≡◌, ◌+◌, ◌≤◌, true};
ghost use Rattle.std.specs.Int.{div_ceil};
ghost use Rattle.daos_model.specs.Blocks.{blocks, write_blocks};
ghost use Rattle.daos_model.specs.Forms.{AreWritesInForm, is_write_in_form};

use base_types::operation::{MinorWrite, Write};

// The blocks that bytes of an update take.
fn update_blocks(len: usize) -> u32
    requires { len ≤ 1024 }
    ensures blocks { result ≡ 8 + div_ceil len 248 }
    ensures few { result ≤ 13 }
{
    8 + (len as u32).div_ceil(248)
}

/// The most blocks that one write takes: 8 for an update and one for each 248 bytes begun, 5 for a
/// punch.
pub fn write_blocks(write: &Write) -> u32
    requires { is_write_in_form write.now ≡ true }
    ensures blocks { result ≡ write_blocks write.now }
    ensures few { result ≤ 13 }
{
    match write {
        Write::Single(_, bytes) => update_blocks(bytes.len()),
        Write::Extent(_, _, bytes) => update_blocks(bytes.len()),
        Write::PunchObject(_) | Write::PunchDkey(_) | Write::PunchAkey(_) => 5,
    }
}

/// The most blocks that an entry and its writes take.
#[tactic(auto, unfolding(crate::specs::Blocks::blocks))]
pub fn blocks(writes: &[MinorWrite]) -> u32
    requires { AreWritesInForm writes.now }
    ensures { result ≡ blocks writes.now }
{
    let mut sum = 2;
    for write in writes {
        sum += write_blocks(&write.write);
    }
    sum
}
