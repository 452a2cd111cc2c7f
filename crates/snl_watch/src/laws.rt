//! Laws of counts, and of what is folded. A function is its contract.

ghost use Rattle.snl_watch.specs.FoldExamples.{FoldExamples, FoldsAreNoNotes, NoteExamples};
ghost use Rattle.snl_watch.specs.Laws.{CountsAreExact, CountsGoOn, CutIsWholeLines};

/// What is known of a text and of the text that follows is what is known of both.
pub fn counts_go_on()
    ensures { CountsGoOn }
{}

/// A text that is counted has as many as lines show it.
pub fn counts_are_exact()
    ensures { CountsAreExact }
{}

/// The lines that ended in a text are its whole lines.
pub fn cut_is_whole_lines()
    ensures { CutIsWholeLines }
{}

/// Small runs, and pieces that stand for their lines or do not.
pub fn fold_examples()
    ensures { FoldExamples }
{}

/// No notes have the line of a fold.
pub fn folds_are_no_notes()
    ensures { FoldsAreNoNotes }
{}

/// Some texts that are notes, and some that are none.
pub fn note_examples()
    ensures { NoteExamples }
{}
