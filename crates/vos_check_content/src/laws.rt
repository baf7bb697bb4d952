// What is found of a content stands in it, and what stands is found.
ghost use Rattle.vos_check_content.specs.Laws.{WhatIsFoundStands, WhatStandsIsFound};

/// What is found of the content of a region stands in its image: the table in its fixed places, and objects
/// and entries in its blocks.
pub fn what_is_found_stands()
    ensures { WhatIsFoundStands }
{}

/// What stands in the image of a region is found of its content.
pub fn what_stands_is_found()
    ensures { WhatStandsIsFound }
{}
