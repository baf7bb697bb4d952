// What the layout asks of what stands in blocks holds of what stands there after a change.
ghost use Rattle.vos_fitting.specs.Fitting.{FitsAfterWrite, FitsCommitted, FitsConfirmed, FitsWithEntry, FitsWithWrite, FitsWithoutEntry, MembersAreTargets};

/// Where no entry lists nodes, what fits the layout still fits it where the write of an epoch came that the lease covers,
/// and where a write was settled or removed.
pub fn writes_stay_fitting()
    ensures comes { FitsWithWrite }
    ensures turns { FitsAfterWrite }
{}

/// Where no entry lists nodes, what fits the layout still fits it, and still none lists any, where an entry came that names
/// targets that there are, and where one was committed, confirmed by such a target, or removed. A member is such a target.
pub fn entries_stay_fitting()
    ensures comes { FitsWithEntry }
    ensures committed { FitsCommitted }
    ensures confirmed { FitsConfirmed }
    ensures gone { FitsWithoutEntry }
    ensures members { MembersAreTargets }
{}
