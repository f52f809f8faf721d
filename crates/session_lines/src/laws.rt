//! What follows from the definitions: each function is proved to meet its clause.
ghost use Rattle.session_lines.specs.Laws.{ColumnsAreAligned};

/// Every endpoint fits its 21 places, so that the columns of all lines stand under each other.
pub fn columns_are_aligned()
    ensures { ColumnsAreAligned }
{}
