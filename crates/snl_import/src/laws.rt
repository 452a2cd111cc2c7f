//! Laws of what is written of logs. Each function is its contract.

ghost use Rattle.snl_import.specs.Comments.{CommentsAreSkipped};
ghost use Rattle.snl_import.specs.Examples.{ExamplesOfTaken};
ghost use Rattle.snl_import.specs.Trace.{EventsGoOn};

/// Parts that are events, each from where the one before it ends, are events together: so what an [`Importer`](crate::Importer) writes
/// is one trace, however often its text is taken meanwhile.
pub fn events_go_on()
    ensures { EventsGoOn }
{}

/// A run skips each comment with which a trace begins, by its own grammar of lines.
pub fn comments_are_skipped()
    ensures { CommentsAreSkipped }
{}

/// A program takes what is told of its own channels, and no value that its variables cannot hold.
pub fn examples_of_taken()
    ensures { ExamplesOfTaken }
{}
