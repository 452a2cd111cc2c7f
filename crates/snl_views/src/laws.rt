//! Laws of what a program waits for. A function is its contract.

ghost use Rattle.snl_views.specs.Laws.{ReadyAwaitsNothing, SilentIsUnready, WaitsOrBegins};

/// A program is ready to start exactly where it waits for nothing.
pub fn ready_awaits_nothing()
    ensures { ReadyAwaitsNothing }
{}

/// A line of a trace leaves a program that waits as one that still waits, or something is written.
pub fn waits_or_begins()
    ensures { WaitsOrBegins }
{}

/// Where lines with an event wrote nothing, the program isn't ready in the world then.
pub fn silent_is_unready()
    ensures { SilentIsUnready }
{}
