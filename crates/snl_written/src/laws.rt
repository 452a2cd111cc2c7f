//! Laws of the lines that are written. Each function is its contract.

ghost use Rattle.snl_written.specs.Events.{LinesAreEvents};

/// Each line that is written reads as the event that it was written for, behind any event that is not later.
pub fn lines_are_events()
    ensures { LinesAreEvents }
{}
