// What stands in the blocks of an image is what is read of it, and what is read of it stands there.
ghost use Rattle.vos_image.specs.Laws.{LayoutIsWhereSomeStand, NoOtherStands, WhatIsReadStands, WhatStandsIsKept, WhatStandsIsRead};

/// Where the fixed places of an image are read, and objects and entries stand in its blocks below their
/// roots, as the layout asks, exactly these are read of it, and what they make is what it keeps.
/// So no two things stand in one image.
pub fn what_stands_is_read()
    ensures read { WhatStandsIsRead }
    ensures kept { WhatStandsIsKept }
    ensures one { NoOtherStands }
{}

/// What is read of an image of bytes stands in it: its objects and entries in blocks below their roots,
/// each block led to once, and as the layout asks. So an image is of the layout exactly where something
/// stands in it.
pub fn what_is_read_stands()
    ensures stands { WhatIsReadStands }
    ensures layout { LayoutIsWhereSomeStand }
{}
