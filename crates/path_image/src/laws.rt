//! What follows from the definitions alone: each function's contract is a law, and its body is empty.

ghost use Rattle.path_image.specs.Laws.{NamesReadBack, NamesAreOne, FindingIsOne};

/// The text that is written for names reads back as them.
pub fn names()
    ensures { NamesReadBack }
{}

/// A file of names keeps one thing only, and an opening of a folder finds one thing only.
pub fn openings()
    ensures names { NamesAreOne }
    ensures finding { FindingIsOne }
{}
