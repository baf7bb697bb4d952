// Versions that can be planned by chains.
ghost use Rattle.std.specs.Prelude.{◌≡◌, ◌&&◌, length, nat_lt};
ghost use Rattle.std.specs.List.{list_all};
ghost use Rattle.daos_model.specs.Durables.{version_key};
ghost use Rattle.daos_model.specs.Ordered.{is_rising};
ghost use Rattle.vos_aggregate.specs.Saying.{is_plain, is_plain_version};

use base_types::operation::Write;
use daos_model::durable::Version;
use daos_model::prunes::is_version_before;
use daos_model::records::count_records;

// Whether a punch's path ends at its level, and an extent has 1,024 records at most.
#[tactic(auto, unfolding(crate::specs::Saying::is_plain))]
fn is_plain(write: &Write) -> bool
    ensures { result ≡ is_plain write.now }
{
    match write {
        Write::Single(_, _) => true,
        Write::Extent(path, _, bytes) => count_records(path, bytes.len()) <= 1024,
        Write::PunchObject(path) => {
            path.obj.is_some() && path.dkey.is_none() && path.akey.is_none()
        }
        Write::PunchDkey(path) => path.obj.is_some() && path.dkey.is_some() && path.akey.is_none(),
        Write::PunchAkey(path) => path.obj.is_some() && path.dkey.is_some() && path.akey.is_some(),
    }
}

fn are_plain(versions: &[Version]) -> bool
    ensures { result ≡ list_all is_plain_version versions.now }
{
    versions.iter().all(|version| is_plain(&version.write))
}

// Whether each version is after the one before it.
fn is_rising(versions: &[Version]) -> bool
    ensures { result ≡ is_rising version_key versions.now }
{
    for i in 1..versions.len() {
        if !is_version_before(&versions[i - 1], &versions[i]) {
            return false;
        }
    }
    true
}

/// Whether there are versions, all plain, and each after the one before it.
pub fn is_plannable(versions: &[Version]) -> bool
    ensures { result ≡ (nat_lt 0 (length versions.now) && is_rising version_key versions.now && list_all is_plain_version versions.now) }
{
    !versions.is_empty() && is_rising(versions) && are_plain(versions)
}
