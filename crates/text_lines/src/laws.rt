//! Laws of lines, each the contract of a function that does nothing.
ghost use Rattle.text_lines.specs.Laws.{LinesComeInOrder};

/// An iterator of the lines of a text (`str::lines`) gives them in order.
pub fn lines_in_order()
    ensures { LinesComeInOrder }
{}
