// Laws of keys, values and blocks of chains: each is read back exactly, and keys have the order of what
// they say.
ghost use Rattle.std.specs.Prelude.{◌≡◌, ◌≤◌, ◌<◌, ◌^◌, ℕ, List, Some, length};
ghost use Rattle.vos_values.specs.declared.keys.Layout.{Layout as LayoutOf};
ghost use Rattle.vos_values.specs.declared.keys.Moment.{Moment as MomentOf};
ghost use Rattle.vos_values.specs.declared.keys.ExtentKey.{ExtentKey as ExtentKeyOf};
ghost use Rattle.vos_values.specs.declared.keys.ObjectKey.{ObjectKey as ObjectKeyOf};
ghost use Rattle.base_types.specs.declared.id.AttemptId.{AttemptId as AttemptIdOf};
ghost use Rattle.vos_values.specs.Fields.{AreBytes, HasOrder, IsByteKey, IsByteValue, IsExact};
ghost use Rattle.vos_values.specs.Keys.{IsAttempt, IsExtentKey, IsMoment, IsName, IsObjectKey, attempt_in, attempt_key, attempt_order, extent_in, extent_key, extent_order, moment_in, moment_key, moment_order, name_in, name_key, name_order, object_in, object_key, object_order};
ghost use Rattle.vos_values.specs.Values.{IsAkeyRoots, IsEntryMark, IsLogMark, IsRoots, IsVersionMark, akey_in, akey_value, entry_in, entry_value, log_in, log_value, roots_in, roots_value, version_in, version_value};
ghost use Rattle.vos_values.specs.Links.{link_bytes, next_in, part_in};

/// What a key is read as is what it was made of, and a key that says nothing is the key of nothing.
pub fn keys_are_exact()
    ensures moments { IsExact IsByteKey IsMoment moment_key moment_in }
    ensures extents { IsExact IsByteKey IsExtentKey extent_key extent_in }
    ensures objects { (l : LayoutOf) → IsExact IsByteKey (IsObjectKey l) object_key (object_in l) }
    ensures attempts { IsExact IsByteKey IsAttempt attempt_key attempt_in }
    ensures names { IsExact IsByteKey IsName name_key name_in }
{}

/// Versions are ordered by epoch and then by number, extents by index before that; objects by container,
/// class and number, one of record size 1 before those of other sizes; attempts by client, command and
/// number; names by their bytes.
pub fn keys_have_orders()
    ensures moments { HasOrder IsMoment moment_key moment_order }
    ensures extents { HasOrder IsExtentKey extent_key extent_order }
    ensures objects { (l : LayoutOf) → HasOrder (IsObjectKey l) object_key object_order }
    ensures attempts { HasOrder IsAttempt attempt_key attempt_order }
    ensures names { HasOrder IsName name_key name_order }
{}

/// What a value is read as is what it was made of, and a value that says nothing is the value of nothing.
pub fn values_are_exact()
    ensures roots { IsExact (IsByteValue 1) IsRoots roots_value roots_in }
    ensures akeys { IsExact (IsByteValue 3) IsAkeyRoots akey_value akey_in }
    ensures logs { IsExact (IsByteValue 4) IsLogMark log_value log_in }
    ensures singles { IsExact (IsByteValue 5) IsVersionMark version_value version_in }
    ensures extents { IsExact (IsByteValue 6) IsVersionMark version_value version_in }
    ensures entries { IsExact (IsByteValue 7) IsEntryMark entry_value entry_in }
{}

/// A block of a chain is read back as it was made, and one that is read is made again.
pub fn links_are_exact()
    ensures again { (next : ℕ) (part : List ℕ) → next < 2 ^ 32 → length part ≤ 248 → next_in (length part) (link_bytes next part) ≡ Some next }
    ensures part { (next : ℕ) (part : List ℕ) → part_in (length part) (link_bytes next part) ≡ part }
    ensures back { (count next : ℕ) (bytes : List ℕ) → length bytes ≡ 256 → AreBytes bytes → count ≤ 248 → next_in count bytes ≡ Some next → link_bytes next (part_in count bytes) ≡ bytes }
{}
