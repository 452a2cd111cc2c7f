//! What a requirement hears of a line of the trace, and of the lines that the program writes there.

ghost use Rattle.std.specs.Prelude.{◌≡◌, ◌++◌, ◌∷◌, [], IfNone, IfSome, IsSome, None, false, map, true};
ghost use Rattle.snl_heard.specs.Heard.{among, heard_all, heard_of};
ghost use Rattle.snl_outline.specs.Names.{seen};
ghost use Rattle.snl_observer.specs.Heard.{heard_quiet, heard_told};
ghost use Rattle.snl_observer.specs.Lasting.{lasting_of};
ghost use Rattle.snl_observer.specs.Telling.{Adds, EndsIn, Tells, comes_at};
ghost use Rattle.snl_observer.specs.Watching.{Led, ended_by};
ghost use Rattle.snl_output.specs.TraceLines.{whole_lines};

use crate::closes::Ending;
use crate::line_step::{Done, line_done};
use crate::logs::Log;
use crate::programs::Program;
use crate::requirement_output::write_lines;
use snl_heard::{first_line, has_time, heard_of};
use snl_outline::SetOutline;
use snl_output::Sink;

/// A line of the trace that was done, with its time, and the names of the program's states.
#[derive(Clone, Copy)]
struct TraceLine<'l> {
    text: &'l [u8],
    ms: u64,
    sets: &'l [SetOutline],
}

/// How a requirement stands behind a line, by how its program ended there, and whether all that it wrote was written.
fn end_of(end: Option<Ending>, is_whole: bool) -> Option<Ending>
    ensures { result ≡ ended_by end is_whole }
{
    if is_whole { end } else { Some(Ending::Stopped) }
}

/// Notes a line that a requirement can't take.
fn note_refused<K: Sink>(log: &mut Log<K>, end: Option<Ending>, line: &[u8])
    ensures page { log.new.page ≡ log.old.page }
    ensures how { log.new.how ≡ log.old.how }
{
    if let Some(Ending::Refused(_)) = end {
        log.trail.refuse(line);
    }
}

/// A requirement that goes on hears a line of its trace: it does what its program means by that line, and writes that.
fn hear_on<K: Sink>(watch: &mut Program, log: &mut Log<K>, line: &[u8])
    requires goes_on { log.old.how ≡ None }
    ensures led { Led (line.now ∷ []) watch.old.machine watch.new.machine
        log.old.page.watch.bytes log.new.page.watch.bytes log.old.how log.new.how }
    ensures run { log.new.page.run.bytes ≡ log.old.page.run.bytes }
    ensures lasts { lasting_of watch.new ≡ lasting_of watch.old }
{
    match line_done(watch, line) {
        Err(_) => log.how = Some(Ending::Stopped),
        Ok(done) => {
            let is_whole = write_lines(log, watch.page.text());
            log.how = end_of(done.end, is_whole);
            note_refused(log, done.end, line);
        }
    }
}

/// A requirement hears a line of its trace, unless it has ended.
fn hear<K: Sink>(watch: &mut Program, log: &mut Log<K>, line: &[u8])
    ensures led { Led (line.now ∷ []) watch.old.machine watch.new.machine
        log.old.page.watch.bytes log.new.page.watch.bytes log.old.how log.new.how }
    ensures run { log.new.page.run.bytes ≡ log.old.page.run.bytes }
    ensures lasts { lasting_of watch.new ≡ lasting_of watch.old }
{
    match log.how {
        Some(_end) => {}
        None => hear_on(watch, log, line),
    }
}

/// A requirement hears what there is to be heard of a line that the program wrote. Where memory ends it has ended.
fn hear_line<K: Sink>(watch: &mut Program, log: &mut Log<K>, sets: &[SetOutline], line: &[u8])
    ensures led { Led (heard_of (map seen sets.now) line.now) watch.old.machine
        watch.new.machine log.old.page.watch.bytes log.new.page.watch.bytes log.old.how
        log.new.how }
    ensures run { log.new.page.run.bytes ≡ log.old.page.run.bytes }
    ensures lasts { lasting_of watch.new ≡ lasting_of watch.old }
{
    let Ok(events) = heard_of(log.alloc, sets, line) else {
        log.stop();
        return;
    };
    for event in events.as_slice() {
        hear(watch, log, event.as_slice());
    }
}

/// Writes a line of the program, and lets the requirement hear what there is to be heard of it. Answers whether the run goes on: the
/// line was written, and the requirement goes on, or came to its end by itself.
fn tell_line<K: Sink>(
    watch: &mut Program,
    log: &mut Log<K>,
    sets: &[SetOutline],
    line: &[u8],
) -> bool
    ensures led { Led (heard_of (map seen sets.now) line.now) watch.old.machine
        watch.new.machine log.old.page.watch.bytes log.new.page.watch.bytes log.old.how
        log.new.how }
    ensures adds { Adds log.old.page.run.bytes log.new.page.run.bytes
        (line.now ++ 10 ∷ []) }
    ensures whole { result ≡ true → log.new.page.run.bytes
        ≡ log.old.page.run.bytes ++ (line.now ++ 10 ∷ []) }
    ensures ended { result ≡ false → IsSome log.new.how }
    ensures lasts { lasting_of watch.new ≡ lasting_of watch.old }
{
    if log.stops() {
        return false;
    }
    let Ok(()) = log.page.print_run(line) else {
        log.stop();
        return false;
    };
    log.trail.note(line);
    hear_line(watch, log, sets, line);
    !log.stops()
}

/// Whether a line is the first of a time, where one is looked for.
fn is_at(until: Option<u64>, line: &[u8]) -> bool
    ensures { result ≡ comes_at until line.now }
{
    match until {
        Some(ms) => has_time(line, ms),
        None => false,
    }
}

/// Writes the lines of a text of the program, and lets the requirement hear of each: all lines, or those in front of the first of a
/// time. Answers what is left of the text; None where the run ends there.
fn tell_lines<'t, K: Sink>(
    watch: &mut Program,
    log: &mut Log<K>,
    sets: &[SetOutline],
    text: &'t [u8],
    until: Option<u64>,
) -> Option<&'t [u8]>
    ensures tells { IfSome result (λ left. Tells (map seen sets.now) until text.now left.now
        watch.old.machine watch.new.machine log.old.page.watch.bytes log.new.page.watch.bytes
        log.old.how log.new.how log.old.page.run.bytes log.new.page.run.bytes) }
    ensures ends { IfNone result (EndsIn (map seen sets.now) until text.now
        watch.old.machine watch.new.machine log.old.page.watch.bytes log.new.page.watch.bytes
        log.old.how log.new.how log.old.page.run.bytes log.new.page.run.bytes) }
    ensures lasts { lasting_of watch.new ≡ lasting_of watch.old }
{
    let mut left = text;
    while let Some((line, rest)) = first_line(left) {
        if is_at(until, line) {
            return Some(left);
        }
        if !tell_line(watch, log, sets, line) {
            return None;
        }
        left = rest;
    }
    Some(left)
}

/// The same of all lines of a text. Answers whether all of it was written.
fn tell_rest<K: Sink>(
    watch: &mut Program,
    log: &mut Log<K>,
    sets: &[SetOutline],
    text: &[u8],
) -> bool
    ensures led { Led (heard_all (map seen sets.now) (whole_lines text.now)) watch.old.machine
        watch.new.machine log.old.page.watch.bytes log.new.page.watch.bytes log.old.how
        log.new.how }
    ensures adds { Adds log.old.page.run.bytes log.new.page.run.bytes text.now }
    ensures whole { result ≡ true → log.new.page.run.bytes
        ≡ log.old.page.run.bytes ++ text.now }
    ensures lasts { lasting_of watch.new ≡ lasting_of watch.old }
{
    match tell_lines(watch, log, sets, text, None) {
        Some(left) => left.is_empty(),
        None => false,
    }
}

/// Writes what a line of the trace made the program write, and lets the requirement hear that line, and of these: of those of wakes
/// before it, and of the others behind it. Answers whether all were written.
fn hear_among<K: Sink>(
    watch: &mut Program,
    log: &mut Log<K>,
    trace: TraceLine<'_>,
    text: &[u8],
) -> bool
    ensures led { Led (among (map seen trace.entry.sets.now) trace.entry.ms trace.entry.text.now
        (whole_lines text.now)) watch.old.machine watch.new.machine log.old.page.watch.bytes
        log.new.page.watch.bytes log.old.how log.new.how }
    ensures adds { Adds log.old.page.run.bytes log.new.page.run.bytes text.now }
    ensures whole { result ≡ true → log.new.page.run.bytes
        ≡ log.old.page.run.bytes ++ text.now }
    ensures lasts { lasting_of watch.new ≡ lasting_of watch.old }
{
    let Some(left) = tell_lines(watch, log, trace.sets, text, Some(trace.ms)) else {
        return false;
    };
    hear(watch, log, trace.text);
    tell_rest(watch, log, trace.sets, left)
}

/// A requirement hears a line at which no event was done, unless it is bad.
fn hear_quiet<K: Sink>(watch: &mut Program, log: &mut Log<K>, line: &[u8], end: Option<Ending>)
    ensures led { Led (heard_quiet line.now end) watch.old.machine watch.new.machine
        log.old.page.watch.bytes log.new.page.watch.bytes log.old.how log.new.how }
    ensures run { log.new.page.run.bytes ≡ log.old.page.run.bytes }
    ensures lasts { lasting_of watch.new ≡ lasting_of watch.old }
{
    match end {
        None => hear(watch, log, line),
        Some(_end) => {}
    }
}

/// The same of any line that the program did, of which it is known what it did.
pub(crate) fn hear_done<K: Sink>(
    run: &Program,
    watch: &mut Program,
    log: &mut Log<K>,
    line: &[u8],
    done: Done,
) -> bool
    requires silent { done.ms ≡ None → run.now.page.text.items ≡ [] }
    ensures led { Led (heard_told (map seen run.now.sets.items) line.now done.ms done.end
        run.now.page.text.items) watch.old.machine watch.new.machine log.old.page.watch.bytes
        log.new.page.watch.bytes log.old.how log.new.how }
    ensures adds { Adds log.old.page.run.bytes log.new.page.run.bytes
        run.now.page.text.items }
    ensures whole { result ≡ true → log.new.page.run.bytes
        ≡ log.old.page.run.bytes ++ run.now.page.text.items }
    ensures lasts { lasting_of watch.new ≡ lasting_of watch.old }
{
    let sets = run.sets.as_slice();
    match done.ms {
        Some(ms) => {
            let trace = TraceLine {
                text: line,
                ms,
                sets,
            };
            hear_among(watch, log, trace, run.page.text())
        }
        None => {
            hear_quiet(watch, log, line, done.end);
            true
        }
    }
}
