//! `observe`: a program over the lines of a trace, and a requirement over what it hears of that.

ghost use Rattle.std.specs.Prelude.{◌≡◌, ◌≢◌, ◌+◌, ◌-◌, ◌^◌, ◌<◌, ◌≤◌, ◌++◌, ◌∷◌, ℕ, List, [], All, IfOk, IfSome, None, Some, false, length, true};
ghost use Rattle.snl_observer.specs.Behind.{Finishes, ObservesOver, TakesIn, long_at, pair_of, stand_by};
ghost use Rattle.snl_observer.specs.Means.{MeansAs};
ghost use Rattle.snl_observer.specs.Observed.{IsWritten, source_failed};
ghost use Rattle.snl_output.specs.Devices.{counted};
ghost use Rattle.snl_trace.specs.Run.{Rules};

use crate::closes::Close;
use crate::current_states::{ForbiddenState, Standing};
use crate::logs::Log;
use crate::programs::Program;
use crate::report::{WatchedRun, summary_of};
use crate::watched_step::step;
use arrayvec::ArrayVec;
use snc::{Status, status_of};
use snl_heard::{Page, first_line};
use snl_output::Sink;
use snl_trace::{End, Source, TraceFault};
use std::alloc::{AllocError, Global};
use std::mem;

/// One byte more than a line may have: with that many it is known to be too long.
const LINE_HELD: usize = 32_769;

/// A line that has not ended yet.
type Line = ArrayVec<u8, LINE_HELD>;

/// How many bytes are read at once.
const PIECE: usize = 65_536;

/// What came of a program that was watched.
#[derive(Drop)]
pub struct Observed<K> {
    /// How the run ended.
    pub close: Close,
    /// What is told of that, and where the requirement stands: lines of text that begin with `#`.
    pub summary: Vec<u8>,
    /// Where the lines went.
    pub sink: K,
}

impl<K> Observed<K> {
    /// How the run ended, as the end of a run that nobody watched. Where the requirement ended it, the trace counts as ended.
    pub fn end(&self) -> End {
        match self.close {
            Close::Run(end) => end,
            Close::Watch(_) | Close::Never(_) | Close::Memory => End::TraceEnded,
        }
    }

    /// The status of a call: that of the run; 1 where a state of the requirement came to be that must not, and 5 where the requirement
    /// made a mistake.
    pub fn status(&self) -> Status {
        match self.close {
            Close::Run(end) => status_of(end),
            Close::Watch(_) => Status::ProgramFault,
            Close::Never(_) => Status::SourceErrors,
            Close::Memory => Status::Memory,
        }
    }
}

/// The line of the trace that has begun, and its number, from 1.
#[derive(Drop)]
struct LineReader {
    begun: Line,
    number: u128,
}

/// Adds bytes to a line; answers whether it is not too long then.
fn extend(line: &mut Line, bytes: &[u8]) -> bool
    ensures ok { result ≡ true → line.new.items ≡ line.old.items ++ bytes.now }
    ensures room { result ≡ true → length line.new.items < 32769 }
    ensures long { result ≡ false → 32768 < length line.old.items + length bytes.now }
{
    line.try_extend_from_slice(bytes).is_ok() && !line.is_full()
}

/// How a run ends at a line of a number that is too long.
fn too_long(number: u128) -> Close
    ensures is { result ≡ long_at number }
    ensures source { source_failed result ≡ false }
{
    Close::Run(End::TraceFault(number, TraceFault::LineTooLong))
}

/// Takes in the rest of a line with its newline. Answers how the run ends there, if it does.
fn take_line<K: Sink>(
    run: &mut Program,
    watch: &mut Program,
    log: &mut Log<K>,
    reading: &mut LineReader,
    text: &[u8],
) -> Option<Close>
    requires number { reading.old.number < 2 ^ 128 - 1 }
    requires text { All (λ byte. byte ≢ 10) text.now }
    ensures takes { TakesIn (text.now ++ 10 ∷ []) reading.old.begun.items
        reading.new.begun.items (stand_by run.old watch.old reading.old.number
        log.old.page.run.bytes log.old.page.watch.bytes log.old.how
        log.old.page.is_stuck)
        (stand_by run.new watch.new reading.new.number log.new.page.run.bytes
        log.new.page.watch.bytes log.new.how log.new.page.is_stuck) result }
    ensures number { reading.new.number ≤ reading.old.number + 1 }
    ensures source { IfSome result (λ close. source_failed close ≡ false) }
{
    let LineReader { begun, number } = reading;
    if begun.is_empty() {
        return step(run, watch, log, text, number);
    }
    if !extend(begun, text) {
        return Some(too_long(*number));
    }
    let close = step(run, watch, log, begun.as_slice(), number);
    begun.clear();
    close
}

/// Takes in the next bytes of a trace: each line that ends in them is done, and what is left begins the next one. Answers how the run
/// ends in them, if it does.
fn take_in<K: Sink>(
    run: &mut Program,
    watch: &mut Program,
    log: &mut Log<K>,
    reading: &mut LineReader,
    bytes: &[u8],
) -> Option<Close>
    requires number { reading.old.number + length bytes.now < 2 ^ 128 }
    ensures takes { TakesIn bytes.now reading.old.begun.items
        reading.new.begun.items (stand_by run.old watch.old reading.old.number
        log.old.page.run.bytes log.old.page.watch.bytes log.old.how
        log.old.page.is_stuck)
        (stand_by run.new watch.new reading.new.number log.new.page.run.bytes
        log.new.page.watch.bytes log.new.how log.new.page.is_stuck) result }
    ensures number { reading.new.number ≤ reading.old.number + length bytes.now }
    ensures source { IfSome result (λ close. source_failed close ≡ false) }
{
    let mut left = bytes;
    while let Some((line, rest)) = first_line(left) {
        match take_line(run, watch, log, reading, line) {
            None => left = rest,
            Some(close) => return Some(close),
        }
    }
    if extend(&mut reading.begun, left) {
        None
    } else {
        Some(too_long(reading.number))
    }
}

/// Ends a run behind the last byte of its trace: a line without its newline is one.
fn finish<K: Sink>(
    run: &mut Program,
    watch: &mut Program,
    log: &mut Log<K>,
    reading: &mut LineReader,
) -> Close
    requires number { reading.old.number < 2 ^ 128 - 1 }
    ensures finishes { Finishes reading.old.begun.items (stand_by run.old watch.old
        reading.old.number log.old.page.run.bytes log.old.page.watch.bytes log.old.how
        log.old.page.is_stuck)
        (stand_by run.new watch.new reading.new.number log.new.page.run.bytes
        log.new.page.watch.bytes log.new.how log.new.page.is_stuck) result }
    ensures source { source_failed result ≡ false }
{
    let LineReader { begun, number } = reading;
    if begun.is_empty() {
        return Close::Run(End::TraceEnded);
    }
    step(run, watch, log, begun.as_slice(), number).unwrap_or(Close::Run(End::TraceEnded))
}

/// Runs a program over a trace of which nothing was read, and lets a requirement hear of it.
fn observe_over<R: Source, K: Sink>(
    run: &mut Program,
    watch: &mut Program,
    log: &mut Log<K>,
    reading: &mut LineReader,
    trace: &mut R,
) -> Close
    requires trace { R.failures trace.old < 2 ^ 64 - 1 }
    requires fresh { R.gave trace.old ≡ [] }
    requires begun { reading.old.begun.items ≡ [] }
    requires number { reading.old.number ≡ 1 }
    ensures observes { ObservesOver (R.gave trace.new) (R.ended trace.new)
        (stand_by run.old watch.old 1 log.old.page.run.bytes log.old.page.watch.bytes log.old.how
        log.old.page.is_stuck)
        (stand_by run.new watch.new reading.new.number log.new.page.run.bytes
        log.new.page.watch.bytes log.new.how log.new.page.is_stuck) result }
    ensures source { R.failures trace.new
        ≡ counted (source_failed result) (R.failures trace.old) }
{
    let mut room = [0u8; PIECE];
    for _reads in 0..u64::MAX {
        log.page.wait();
        match trace.read(&mut room) {
            Err(_) => return Close::Run(End::SourceFailed),
            Ok(0) => return finish(run, watch, log, reading),
            Ok(count) => match take_in(run, watch, log, reading, &room[..count]) {
                Some(close) => return close,
                None => {}
            },
        }
    }
    finish(run, watch, log, reading)
}

/// The number of the last line that was done, by that of the next one.
fn done_of(number: u128) -> u64 {
    u64::try_from(number.saturating_sub(1)).unwrap_or(u64::MAX)
}

/// Nothing was written yet, and the requirement has heard nothing. The names of its states go to what is known of where it stands.
fn log_of<K: Sink + Drop>(
    alloc: Global,
    watch: &mut Program,
    never: Vec<ForbiddenState>,
    sink: K,
) -> Result<Log<K>, AllocError>
    requires fresh { (text : List ℕ) → K.told sink ≡ Some text → text ≡ [] }
    requires works { K.failures sink < 2 ^ 64 - 1 }
    ensures run { IfOk result (λ log. log.page.run.bytes ≡ []) }
    ensures watch { IfOk result (λ log. log.page.watch.bytes ≡ []) }
    ensures how { IfOk result (λ log. log.how ≡ None) }
    ensures stuck { IfOk result (λ log. log.page.is_stuck ≡ false) }
    ensures machine { watch.new.machine ≡ watch.old.machine }
{
    let sets = mem::replace(&mut watch.sets, Vec::new(alloc));
    let standing = Standing::new(alloc, sets, never)?;
    Ok(Log::new(alloc, Page::new(sink), standing))
}

/// Runs a program over a trace of which nothing was read, line by line, and lets a requirement hear of it.
///
/// The requirement hears each line of the trace as it is; and of what the program writes each put as `MS val put:CHANNEL V ..`, each
/// transition as `MS val state:SET N` and at its start the first state of each state set: in front of the line of the trace where that
/// is of a wake before it, and behind it else. The lines of the program go to the sink as they are, those of the requirement with
/// `# watch ` in front of each.
///
/// The run ends where that of the program does, and where the requirement makes a mistake or comes into a state that must not be. What
/// one line of the trace makes either write is held, and no more. The only error is that memory ends before the run or behind it, or
/// was refused in it for a line that the summary tells.
pub fn observe<R: Source, K: Sink + Drop>(
    alloc: Global,
    run: &mut Program,
    watch: &mut Program,
    never: Vec<ForbiddenState>,
    trace: &mut R,
    sink: K,
) -> Result<Observed<K>, AllocError>
    requires trace { R.failures trace.old < 2 ^ 64 - 1 }
    requires fresh { R.gave trace.old ≡ [] }
    requires untold { (text : List ℕ) → K.told sink ≡ Some text → text ≡ [] }
    requires sink { K.failures sink < 2 ^ 64 - 1 }
    ensures observed { IfOk result (λ o. (a b : Rules) → MeansAs a run.old.machine →
        MeansAs b watch.old.machine → IsWritten (pair_of a b run.old watch.old)
        (R.gave trace.new) (R.ended trace.new) o.close (K.told o.sink)) }
    ensures source { IfOk result (λ o. R.failures trace.new
        ≡ counted (source_failed o.close) (R.failures trace.old)) }
{
    let mut log = log_of(alloc, watch, never, sink)?;
    let mut reading = LineReader {
        begun: Line::new(),
        number: 1,
    };
    let close = observe_over(run, watch, &mut log, &mut reading, trace);
    let Log {
        page,
        standing,
        trail,
        ..
    } = log;
    let told = WatchedRun {
        close,
        time: run.machine.time(),
        number: done_of(reading.number),
        standing: &standing,
        trail: &trail,
    };
    let summary = summary_of(alloc, told)?;
    Ok(Observed {
        close,
        summary,
        sink: page.into_out(),
    })
}
