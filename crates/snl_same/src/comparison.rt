//! `compare`: two programs over the lines of a trace.

ghost use Rattle.std.specs.Prelude.{◌≡◌, ◌≢◌, ◌+◌, ◌-◌, ◌^◌, ◌<◌, ◌≤◌, ◌++◌, ◌∷◌, [], true, false, length, option_map, All, IfOk, IfSome};
ghost use Rattle.snl_output.specs.Devices.{counted};
ghost use Rattle.snl_same.specs.Answers.{IsFoundOver, source_failed};
ghost use Rattle.snl_same.specs.Hearing.{Tells};
ghost use Rattle.snl_same.specs.Sides.{Finishes, FindsOver, MeansAs, TakesIn, pair_of, stand_of};
ghost use Rattle.snl_machine.specs.MachineOf.{world_held};
ghost use Rattle.snl_trace.specs.Run.{Rules};

use crate::differences::{Close, Difference};
use crate::filters::Filter;
use crate::line_step::step;
use crate::logs::Log;
use crate::plain_lines::{Known, next_line};
use crate::report::sum_up;
use crate::sides::Side;
use arrayvec::ArrayVec;
use snc::{Status, status_of};
use snl_trace::{End, Events, Source, TraceFault};
use std::alloc::{AllocError, Global};

/// One byte more than a line may have: with that many it is known to be too long.
const LINE_HELD: usize = 32_769;

/// A line that has not ended yet.
type Line = ArrayVec<u8, LINE_HELD>;

/// How many bytes are read at once.
const PIECE: usize = 65_536;

/// What a comparison keeps of its trace.
#[derive(Drop)]
struct EventReader {
    /// The line that has not ended yet.
    begun: Line,
    /// Room for the events of all lines.
    events: Events,
}

/// What came of two programs over a trace.
#[derive(Drop)]
pub struct Compared {
    /// Where they differ first; None where they do not.
    pub first: Option<Difference>,
    /// How the comparison ended.
    pub close: Close,
    /// All that as lines of text.
    pub text: Vec<u8>,
}

impl Close {
    /// How it ended, as the end of one run: by the line of the trace that is bad, for one of both, where one is.
    fn end(self) -> End {
        match self {
            Close::TraceEnded => End::TraceEnded,
            Close::SourceFailed => End::SourceFailed,
            Close::LineTooLong(number) => End::TraceFault(number, TraceFault::LineTooLong),
            Close::RunEnded(Some(End::TraceFault(number, fault)), _) => End::TraceFault(
                number, fault,
            ),
            Close::RunEnded(_, Some(End::TraceFault(number, fault))) => End::TraceFault(
                number, fault,
            ),
            Close::RunEnded(Some(end), _) => end,
            Close::RunEnded(None, Some(end)) => end,
            Close::RunEnded(None, None) => End::TraceEnded,
        }
    }
}

impl Compared {
    /// How the comparison ended, as the end of one run: by the line of the trace that is bad, for one of both, where one is.
    pub fn end(&self) -> End {
        self.close.end()
    }

    /// The status of a call: 3 where the trace could not be read, 6 where a line of it is bad; else 1 where the programs differ; 5
    /// where both faulted alike, and 0 otherwise.
    pub fn status(&self) -> Status {
        match self.end() {
            End::SourceFailed => Status::InputOutput,
            End::TraceFault(_, _) => Status::TraceFault,
            _ if self.first.is_some() => Status::SourceErrors,
            end => status_of(end),
        }
    }
}

/// Adds bytes to a line; answers whether it is not too long then.
fn extend(line: &mut Line, bytes: &[u8]) -> bool
    ensures ok { result ≡ true → line.new.items ≡ line.old.items ++ bytes.now }
    ensures room { result ≡ true → length line.new.items < 32769 }
    ensures long { result ≡ false → 32768 < length line.old.items + length bytes.now }
{
    line.try_extend_from_slice(bytes).is_ok() && !line.is_full()
}

/// Takes in the rest of a line with its newline. Where it is known what it tells, no line had begun before it. Answers how the
/// comparison ends there, if it does. The only error is that memory ends.
#[inline(always)]
fn take_line(
    text: &[u8],
    known: Option<Known>,
    reading: &mut EventReader,
    old: &mut Side,
    new: &mut Side,
    log: &mut Log,
) -> Result<Option<Close>, AllocError>
    requires number { log.old.number < 2 ^ 128 - 1 }
    requires text { All (λ byte. byte ≢ 10) text.now }
    requires old { IfSome known (λ known. Tells reading.old.events.values known.ms
        (option_map (λ numbers. numbers.old) known.channel) old.old.machine text.now) }
    requires new { IfSome known (λ known. Tells reading.old.events.values known.ms
        (option_map (λ numbers. numbers.new) known.channel) new.old.machine text.now) }
    ensures takes { IfOk result (TakesIn (text.now ++ 10 ∷ []) reading.old.begun.items
        reading.new.begun.items (stand_of log.old old.old new.old)
        (stand_of log.new old.new new.new)) }
    ensures number { IfOk result (λ _. log.new.number ≤ log.old.number + 1) }
    ensures source { IfOk result (λ close. IfSome close (λ c. source_failed c ≡ false)) }
{
    let EventReader { begun, events } = reading;
    if begun.is_empty() {
        return step(text, known, events, old, new, log);
    }
    if !extend(begun, text) {
        return Ok(Some(Close::LineTooLong(log.number)));
    }
    let close = step(begun.as_slice(), None, events, old, new, log)?;
    begun.clear();
    Ok(close)
}

/// Takes in the next bytes of a trace: each line that ends in them is done, and what is left begins the next one. Answers how the
/// comparison ends in them, if it does. The only error is that memory ends.
fn take_in(
    bytes: &[u8],
    reading: &mut EventReader,
    old: &mut Side,
    new: &mut Side,
    log: &mut Log,
) -> Result<Option<Close>, AllocError>
    requires number { log.old.number + length bytes.now < 2 ^ 128 }
    ensures takes { IfOk result (TakesIn bytes.now reading.old.begun.items
        reading.new.begun.items (stand_of log.old old.old new.old)
        (stand_of log.new old.new new.new)) }
    ensures number { IfOk result (λ _. log.new.number ≤ log.old.number + length bytes.now) }
    ensures source { IfOk result (λ close. IfSome close (λ c. source_failed c ≡ false)) }
{
    let mut left = bytes;
    while let Some(next) = next_line(
        left,
        reading.begun.is_empty(),
        &old.machine,
        &new.machine,
        &mut reading.events.values,
    ) {
        match take_line(next.line, next.known, reading, old, new, log)? {
            None => left = next.rest,
            Some(close) => return Ok(Some(close)),
        }
    }
    if extend(&mut reading.begun, left) {
        Ok(None)
    } else {
        Ok(Some(Close::LineTooLong(log.number)))
    }
}

/// Ends a comparison behind the last byte of the trace: a line without its newline is one. The only error is that memory ends.
fn finish(
    reading: &mut EventReader,
    old: &mut Side,
    new: &mut Side,
    log: &mut Log,
) -> Result<Close, AllocError>
    requires number { log.old.number < 2 ^ 128 - 1 }
    ensures finishes { IfOk result (Finishes reading.old.begun.items
        (stand_of log.old old.old new.old) (stand_of log.new old.new new.new)) }
    ensures source { IfOk result (λ close. source_failed close ≡ false) }
{
    let EventReader { begun, events } = reading;
    if begun.is_empty() {
        return Ok(Close::TraceEnded);
    }
    Ok(step(begun.as_slice(), None, events, old, new, log)?.unwrap_or(Close::TraceEnded))
}

/// Compares two sides over a trace of which nothing was read. The only error is that memory ends.
fn compare_over<R: Source>(
    old: &mut Side,
    new: &mut Side,
    log: &mut Log,
    trace: &mut R,
) -> Result<Close, AllocError>
    requires trace { R.failures trace.old < 2 ^ 64 - 1 }
    requires fresh { R.gave trace.old ≡ [] }
    requires number { log.old.number ≡ 1 }
    ensures finds { IfOk result (FindsOver (R.gave trace.new) (R.ended trace.new)
        (stand_of log.old old.old new.old) log.new.first) }
    ensures source { IfOk result (λ close. R.failures trace.new
        ≡ counted (source_failed close) (R.failures trace.old)) }
{
    let mut reading = EventReader {
        begun: Line::new(),
        events: Events::new(),
    };
    let mut room = [0u8; PIECE];
    for _reads in 0..u64::MAX {
        match trace.read(&mut room) {
            Err(_) => return Ok(Close::SourceFailed),
            Ok(0) => return finish(&mut reading, old, new, log),
            Ok(count) => match take_in(&room[..count], &mut reading, old, new, log)? {
                Some(close) => return Ok(close),
                None => {}
            },
        }
    }
    finish(&mut reading, old, new, log)
}

/// Compares two programs over a trace of which nothing was read, line by line: what each wrote at a line, as far as a filter lets it
/// count, and whether both go on there or end alike. The first line of the trace at which they are apart is told, with the first two
/// lines of the output that differ there; with `is_whole` each.
///
/// Behind a difference both go on, until the trace or one of the runs ends. What one line of the trace makes them write is held, and
/// no more. The only error is that memory ends.
pub fn compare<R: Source>(
    alloc: Global,
    old: &mut Side,
    new: &mut Side,
    filter: Filter,
    is_whole: bool,
    trace: &mut R,
) -> Result<Compared, AllocError>
    requires trace { R.failures trace.old < 2 ^ 64 - 1 }
    requires fresh { R.gave trace.old ≡ [] }
    ensures found { IfOk result (λ c. (a b : Rules) → MeansAs a old.old.machine →
        MeansAs b new.old.machine → IsFoundOver
        (pair_of filter.entry a b old.old.machine new.old.machine)
        (R.gave trace.new) (R.ended trace.new) c.first c.close) }
    ensures source { IfOk result (λ c. R.failures trace.new
        ≡ counted (source_failed c.close) (R.failures trace.old)) }
{
    let mut log = Log::new(alloc, filter, is_whole);
    let close = compare_over(old, new, &mut log, trace)?;
    sum_up(&mut log, old, new, close)?;
    let Log { first, text, .. } = log;
    Ok(Compared { first, close, text })
}
