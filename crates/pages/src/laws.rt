// What reading a page means. The function here stands for a theorem: its contract states it.
ghost use Rattle.pages.specs.Laws.{ReadOnce};

use kinds::Kind;

// A page has one first fault at most, one pair of books for a kind at most, and never both.
pub fn reading_is_unique<W: Kind>()
    ensures { ReadOnce W.Kind.weights }
{}
