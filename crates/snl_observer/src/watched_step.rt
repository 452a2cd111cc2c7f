//! One line of a trace, done by the program, and heard by the requirement.

ghost use Rattle.std.specs.Prelude.{◌≡◌, ◌+◌, ◌-◌, ◌^◌, ◌<◌, IfNone, IfSome, None, Some, false, true};
ghost use Rattle.snl_observer.specs.Behind.{Closes, IsUnstuck, RunCloses, StepsTo, stand_by};
ghost use Rattle.snl_observer.specs.Doing.{end_in};
ghost use Rattle.snl_observer.specs.Observed.{source_failed};

use crate::closes::{Close, Ending};
use crate::line_step::line_done;
use crate::logs::Log;
use crate::programs::Program;
use crate::requirement_input::hear_done;
use snl_output::Sink;
use snl_trace::End;

/// How the run of a program ends at a line of a number.
fn end_at(number: u128, end: Ending) -> End
    ensures { Some result ≡ end_in number (Some end) }
{
    match end {
        Ending::Exited => End::ProgramEnded,
        Ending::Faulted(fault, line) => End::Fault(fault, line),
        Ending::Refused(fault) => End::TraceFault(number, fault),
        Ending::Stopped => End::SinkFailed,
    }
}

/// How a run ends at a line where the requirement goes on, or came to its end by itself: as the program does, if it does. Where not
/// all of its lines were written, no line could be.
fn run_close(is_whole: bool, number: u128, end: Option<Ending>) -> Option<Close>
    ensures none { IfNone result ((is_whole ≡ true) × (end ≡ None)) }
    ensures some { IfSome result (λ close. RunCloses is_whole number end close) }
{
    if !is_whole {
        return Some(Close::Run(End::SinkFailed));
    }
    match end {
        None => None,
        Some(end) => Some(Close::Run(end_at(number, end))),
    }
}

/// How a run ends at a line, if it does, by how the requirement stands, whether all was written, and how the program ends.
fn close_of<K: Sink>(
    log: &Log<K>,
    is_whole: bool,
    number: u128,
    end: Option<Ending>,
) -> Option<Close>
    ensures closes { Closes log.now.how is_whole number end result }
    ensures unstuck { IsUnstuck log.now.page.is_stuck result }
{
    if log.page.is_stuck() {
        return Some(Close::Run(End::SinkFailed));
    }
    if let Some(place) = log.standing.hit() {
        return Some(Close::Never(place));
    }
    match log.how {
        None | Some(Ending::Exited) => run_close(is_whole, number, end),
        Some(Ending::Stopped) => Some(Close::Memory),
        Some(how) => Some(Close::Watch(how)),
    }
}

/// Does what a line of the trace says, which has a number, and lets the requirement hear of it. Answers how the run ends there, if it
/// does.
fn step_at<K: Sink>(
    run: &mut Program,
    watch: &mut Program,
    log: &mut Log<K>,
    line: &[u8],
    number: u128,
) -> Option<Close>
    ensures steps { StepsTo line.now (stand_by run.old watch.old number log.old.page.run.bytes
        log.old.page.watch.bytes log.old.how log.old.page.is_stuck)
        (stand_by run.new watch.new (number + 1) log.new.page.run.bytes
        log.new.page.watch.bytes log.new.how log.new.page.is_stuck) result }
    ensures source { IfSome result (λ close. source_failed close ≡ false) }
{
    let Ok(done) = line_done(run, line) else {
        return Some(Close::Memory);
    };
    let is_whole = hear_done(run, watch, log, line, done);
    close_of(log, is_whole, number, done.end)
}

/// The same, and counts the line; where the run ends there, it is noted.
pub(crate) fn step<K: Sink>(
    run: &mut Program,
    watch: &mut Program,
    log: &mut Log<K>,
    line: &[u8],
    number: &mut u128,
) -> Option<Close>
    requires number { number.old < 2 ^ 128 - 1 }
    ensures steps { StepsTo line.now (stand_by run.old watch.old number.old
        log.old.page.run.bytes log.old.page.watch.bytes log.old.how log.old.page.is_stuck)
        (stand_by run.new watch.new number.new log.new.page.run.bytes
        log.new.page.watch.bytes log.new.how log.new.page.is_stuck) result }
    ensures number { number.new ≡ number.old + 1 }
    ensures source { IfSome result (λ close. source_failed close ≡ false) }
{
    let close = step_at(run, watch, log, line, *number);
    *number += 1;
    if close.is_some() {
        log.trail.end_at(line);
    }
    close
}
