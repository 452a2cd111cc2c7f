//! `snl search`.

use snc::{Answered, Status};
use snc_cli::{opened, told_unread, write};
use snl_alphabet::{Day, Limits, Stops, WishFault, Wishes, trace_in};
use snl_args::{SearchWords, StopWords};
use snl_cli::{Asked, code_of, part_of, write_suite, write_trace};
use snl_lexicon::{Scouted, Scouting, scouted_in};
use snl_search::{SearchAnswer, search};
use snl_wishes::{Clock, bounds_of, told_fault, wishes_over};
use std::alloc::{AllocError, Global};
use std::time::Instant;

/// Where a search starts in a recorded day.
fn stops_of(alloc: Global, words: &StopWords) -> Result<Stops, AllocError> {
    Ok(match words {
        StopWords::Every(each) => Stops::Each(*each),
        StopWords::At(times) => Stops::At(Vec::from_slice(alloc, times.as_slice())?),
    })
}

/// The recorded day in which a search starts, if it does in one. Where it cannot be read, the user is told; so where it is more than there
/// is memory or time for. Then there is a status.
fn day_in(
    rt: &HostRuntime,
    words: &SearchWords,
    begun: Option<Instant>,
) -> Result<Option<Day>, u8> {
    let Some(after) = &words.alphabet.after else {
        return Ok(None);
    };
    let name = after.trace.as_str();
    let file = opened(rt, "snl", name).map_err(|status| status.code())?;
    let clock = Clock::new(rt, begun, words.limits.seconds);
    let mut limits = Limits::new(rt.alloc(), clock, bounds_of(words).memory);
    let trace = match trace_in(rt.alloc(), &file, &mut limits) {
        Ok(trace) => trace,
        Err(WishFault::Unread) => return Err(told_unread(rt, "snl", name).code()),
        Err(fault) => return Err(told_fault(rt, words, &fault)),
    };
    match stops_of(rt.alloc(), &after.stops) {
        Ok(stops) => Ok(Some(Day { trace, stops })),
        Err(_) => Err(Status::Memory.code()),
    }
}

/// What is wished of a search that starts in a recorded day, if it starts in one.
fn all_wishes(
    rt: &HostRuntime,
    asked: Asked,
    words: &SearchWords,
    day: Option<Day>,
) -> Result<Wishes, Status> {
    let trace = day.as_ref().map(|day| day.trace.as_slice());
    let part = part_of(rt.alloc(), asked, words, trace)?;
    wishes_over(rt, words, asked.units, day, part)
}

/// Says what a search answers.
fn told_answer(rt: &HostRuntime, words: &SearchWords, answer: &SearchAnswer) -> Result<u8, Status> {
    let written = write(rt, answer.text.as_slice());
    write_trace(rt, &words.wanted.out, &answer.trace)?;
    write_suite(rt, &words.wanted.cover, answer.suite.as_slice())?;
    written?;
    Ok(answer.verdict.code())
}

/// Searches a program that was scouted. Answers the status.
fn searched(
    rt: &HostRuntime,
    scouted: Scouted,
    asked: Asked,
    words: &SearchWords,
    begun: Option<Instant>,
) -> Result<u8, Status> {
    let day = match day_in(rt, words, begun) {
        Ok(day) => day,
        Err(code) => return Ok(code),
    };
    let wishes = all_wishes(rt, asked, words, day)?;
    let clock = Clock::new(rt, begun, words.limits.seconds);
    match search(rt.alloc(), scouted, &wishes, clock) {
        Ok(answer) => told_answer(rt, words, &answer),
        Err(fault) => Ok(told_fault(rt, words, &fault)),
    }
}

/// `snl search`, of a call that began at a time. Answers the status. The messages come behind the answer.
pub fn answered_search(
    rt: &HostRuntime,
    asked: Asked,
    words: &SearchWords,
    begun: Option<Instant>,
) -> Result<u8, Status> {
    let scouting = Scouting {
        budget: words.limits.budget,
        never: words.wanted.never.as_slice(),
    };
    let job = &asked.call.job;
    let Answered { messages, made } = scouted_in(rt.alloc(), job, asked.source, &scouting)?;
    let code = match made {
        Some(scouted) => code_of(searched(rt, Box::into_inner(scouted), asked, words, begun)),
        None => Status::SourceErrors.code(),
    };
    if code != Status::Memory.code() {
        asked.tell(rt, messages.as_slice());
    }
    Ok(code)
}
