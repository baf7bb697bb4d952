// A version is put behind others.
ghost use Rattle.std.specs.Prelude.{◌∷◌, [], OnOk};
ghost use Rattle.vos_load.specs.Read.{AreRead};

use base_types::items::Memory;
use daos_model::durable::Version;

/// Puts a version behind others.
pub(crate) fn add_version(versions: &mut Vec<Version>, version: Version) -> Result<(), Memory>
    ensures { OnOk result (AreRead (version ∷ []) versions.old.items versions.new.items) }
{
    versions.push(version)?;
    Ok(())
}
