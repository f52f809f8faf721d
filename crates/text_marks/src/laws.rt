//! What follows from the definitions: each function is proved to meet its clause.
ghost use Rattle.text_marks.specs.Laws.{MarksAreShort, TheLineHoldsThePlace};

/// A line with its mark takes at most 306 bytes, however long the line is.
pub fn marks_are_short()
    ensures { MarksAreShort }
{}

/// What is shown as the line of a place is a part of the text without a newline, and the place stands in it.
pub fn the_line_holds_the_place()
    ensures { TheLineHoldsThePlace }
{}
