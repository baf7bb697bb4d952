// What holds of all values.
ghost use Rattle.script_words.specs.Values.{ValuesHaveOneSpelling};

/// A word is a value exactly where it is what that value is written as.
pub fn values_have_one_spelling()
    ensures { ValuesHaveOneSpelling }
{}
