// The blocks that versions and entries take in a store over lists.
ghost use Rattle.std.specs.Prelude.{◌≡◌, ◌+◌, ◌*◌, ◌≤◌, true};
ghost use Rattle.std.specs.List.{list_all};
ghost use Rattle.daos_model.specs.Durables.{is_version_in_form};
ghost use Rattle.vos_plain.specs.Costs.{taken_blocks, versions_blocks};

use daos_model::accounts::write_blocks;
use daos_model::durable::Version;
use vos_contents::client_tables::ClientTables;

// The blocks that versions take.
fn blocks_of(rows: &[Version], limit: u32) -> u32
    requires form { list_all is_version_in_form rows.now ≡ true }
    requires few { versions_blocks rows.now ≤ limit }
    ensures { result ≡ versions_blocks rows.now }
{
    let mut sum = 0;
    for row in rows {
        sum += write_blocks(&row.write);
    }
    sum
}

/// The blocks that versions and entries take.
pub(crate) fn blocks_taken(rows: &[Version], entries: &ClientTables, limit: u32) -> u32
    requires form { list_all is_version_in_form rows.now ≡ true }
    requires few { taken_blocks rows.now entries.now.items ≤ limit }
    ensures { result ≡ taken_blocks rows.now entries.now.items }
{
    blocks_of(rows, limit) + 2 * entries.count(limit)
}

/// The blocks that an entry and its versions take.
pub(crate) fn blocks_more(rows: &[Version], limit: u32) -> u32
    requires form { list_all is_version_in_form rows.now ≡ true }
    requires few { versions_blocks rows.now + 2 ≤ limit }
    ensures { result ≡ versions_blocks rows.now + 2 }
{
    blocks_of(rows, limit) + 2
}
