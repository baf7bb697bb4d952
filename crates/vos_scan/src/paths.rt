// Tests of paths, of which most differ in the number of their object.
ghost use Rattle.std.specs.Prelude.{◌≡◌};
ghost use Rattle.base_types.specs.Paths.{leads_to, same_path};
ghost use Rattle.vos_scan.specs.Paths.{are_apart};

use base_types::path::Path;

// Whether two paths name objects of other numbers.
fn are_apart(one: &Path, other: &Path) -> bool
    ensures { result ≡ are_apart one.now other.now }
{
    match (one.obj, other.obj) {
        (Some(one), Some(other)) => one.number != other.number,
        _ => false,
    }
}

/// Whether the other path goes on from this one, or is it. The numbers of their objects are compared first.
pub fn leads_to(one: &Path, other: &Path) -> bool
    ensures { result ≡ leads_to one.now other.now }
{
    if are_apart(one, other) {
        return false;
    }
    one.leads_to(other)
}

/// Whether two paths are the same. The numbers of their objects are compared first.
pub fn same(one: &Path, other: &Path) -> bool
    ensures { result ≡ same_path one.now other.now }
{
    if are_apart(one, other) {
        return false;
    }
    one.same(other)
}
