// Rows of words, and the text that they make.
ghost use Rattle.base_text.specs.Rows.{RowsAreTexts};

/// A text of lines, each ended, is cut into the rows that it was made of, and no other text is.
pub fn rows_are_texts()
    ensures { RowsAreTexts }
{}
