// What holds of all texts.
ghost use Rattle.daos_script.specs.Grammar.{CommentsSayNothing, FaultsStand, TextsAreShort};

/// The first fault of a text's first lines is the text's: a line's fault doesn't depend on later
/// lines.
pub fn faults_stand()
    ensures { FaultsStand }
{}

/// Empty lines and comments may be replaced by one another: they say nothing, and are counted.
pub fn comments_say_nothing()
    ensures { CommentsSayNothing }
{}

/// A text of more than 16 MiB stands for no script.
pub fn texts_are_short()
    ensures { TextsAreShort }
{}
