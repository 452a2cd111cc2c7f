//! `snl search --watch`.

use crate::pair_search::{Wished, wishes_of};
use snc::{Answered, Status};
use snc_args::Job;
use snc_cli::{source_in, tell, write};
use snl_alphabet::{Limits, ProgramInputs, Watches, WishFault, heard_of};
use snl_args::SearchWords;
use snl_cli::{Asked, WatchPair, check_both, job_of_file, places_of, watch_pair_of, write_trace};
use snl_equivalence::PairWishes;
use snl_guards::{Crew, Watched, WatchedAnswer, WatchedQuestion, input_facts_in, search_watched};
use snl_machine::Machine;
use snl_observer::{ForbiddenState, Program, program_of};
use snl_safety::Forbidden;
use snl_wishes::{Clock, recorded, told_fault, wished_values};
use std::alloc::{AllocError, Global};
use std::fs::File;
use std::time::Instant;

/// What a call asks of a program and its requirement.
#[derive(Clone, Copy)]
struct Guard<'g> {
    asked: Asked<'g>,
    words: &'g SearchWords,
    /// That of the requirement.
    job: &'g Job,
    /// Its source.
    watch: &'g [u8],
    /// When the call began.
    begun: Option<Instant>,
}

/// What must not be, by numbers and by names.
#[derive(Drop)]
struct Never {
    places: Vec<ForbiddenState>,
    names: Vec<Forbidden>,
}

/// The same job with another budget.
fn job_with(alloc: Global, job: &Job, budget: u32) -> Result<Job, AllocError> {
    let mut same = job_of_file(alloc, job, job.file.as_str())?;
    same.budget = budget;
    Ok(same)
}

/// The program of a source with a budget; None where it has an error.
fn player_of(
    alloc: Global,
    source: &[u8],
    job: &Job,
    budget: u32,
) -> Result<Option<Box<Program>>, AllocError> {
    let job = job_with(alloc, job, budget)?;
    let Answered { made, .. } = program_of(alloc, source, &job)?;
    Ok(made)
}

/// The program and the requirement, with a budget; None where one of them has an error.
fn team_of(alloc: Global, guard: Guard, budget: u32) -> Result<Option<Watched>, AllocError> {
    let run = player_of(alloc, guard.asked.source, &guard.asked.call.job, budget)?;
    let watch = player_of(alloc, guard.watch, guard.job, budget)?;
    match (run, watch) {
        (Some(run), Some(watch)) => Ok(Some(Watched { run, watch })),
        _ => Ok(None),
    }
}

/// The names of a state that must not be.
fn forbidden_of(alloc: Global, name: &str) -> Result<Forbidden, AllocError> {
    let (set, state) = name.split_once('.').unwrap_or((name, ""));
    Ok(Forbidden {
        set: Vec::from_slice(alloc, set.as_bytes())?,
        state: Vec::from_slice(alloc, state.as_bytes())?,
    })
}

/// The names of the states that must not be.
fn names_of(alloc: Global, never: &[String]) -> Result<Vec<Forbidden>, AllocError> {
    let mut names = Vec::new(alloc);
    for name in never {
        names.push(forbidden_of(alloc, name.as_str())?)?;
    }
    Ok(names)
}

/// What must not be. Where the requirement has no such state, the user is told.
fn never_of(rt: &HostRuntime, guard: Guard, judge: &Watched) -> Result<Never, Status> {
    let never = guard.words.wanted.never.as_slice();
    let places = places_of(rt, guard.job, never, judge.watch.as_ref())?;
    let names = names_of(rt.alloc(), never)?;
    Ok(Never { places, names })
}

/// What is wished of a search. Where a value is none, or the recorded trace cannot be opened, the user is told.
fn all_wishes(rt: &HostRuntime, guard: Guard) -> Result<PairWishes, Status> {
    let words = guard.words;
    let units = guard.asked.units;
    let wished = Wished {
        values: wished_values(rt, units, "values", words.alphabet.values.as_slice())?,
        firsts: wished_values(rt, units, "first", words.alphabet.firsts.as_slice())?,
        old_like: recorded(rt, words)?,
        new_like: None,
    };
    Ok(wishes_of(rt.alloc(), words, wished)?)
}

/// Says what a search answers.
fn told_answer(
    rt: &HostRuntime,
    words: &SearchWords,
    answer: &WatchedAnswer,
) -> Result<u8, Status> {
    let written = write(rt, answer.text.as_slice());
    write_trace(rt, &words.wanted.out, &answer.trace)?;
    written?;
    Ok(answer.verdict.code())
}

/// Searches a program and its requirement, by what the program hears. Answers the status.
fn searched<'c>(
    rt: &'c HostRuntime,
    guard: Guard,
    heard: ProgramInputs,
    crew: Crew,
    question: &WatchedQuestion,
    limits: &mut Limits<Clock<'c>>,
) -> Result<u8, Status> {
    match search_watched(rt.alloc(), heard, crew, question, limits) {
        Ok(answer) => told_answer(rt, guard.words, &answer),
        Err(fault) => Ok(told_fault(rt, guard.words, &fault)),
    }
}

/// What the program hears, by its source once more; None where that has an error.
fn heard_in<W: Watches>(
    rt: &HostRuntime,
    guard: Guard,
    machine: &Machine,
    like: &Option<File>,
    limits: &mut Limits<W>,
) -> Result<Option<ProgramInputs>, WishFault> {
    let Asked { source, call, .. } = guard.asked;
    let Answered { made, .. } = input_facts_in(rt.alloc(), &call.job, source)?;
    let Some(mut said) = made else {
        return Ok(None);
    };
    let heard = heard_of(rt.alloc(), machine, said.as_mut(), like, limits)?;
    Ok(Some(heard))
}

/// All teams, by the one that judges. None where a source has an error.
fn crew_of(alloc: Global, guard: Guard, judge: Watched) -> Result<Option<Crew>, AllocError> {
    let budget = guard.asked.call.job.budget;
    let quick = team_of(alloc, guard, guard.words.limits.budget.min(budget))?;
    let witness = team_of(alloc, guard, budget)?;
    match (quick, witness) {
        (Some(quick), Some(witness)) => Ok(Some(Crew {
            quick,
            judge,
            witness,
        })),
        _ => Ok(None),
    }
}

/// Searches with all teams, as it is wished. Answers the status.
fn searched_by(
    rt: &HostRuntime,
    guard: Guard,
    crew: Crew,
    never: &Never,
    wishes: &PairWishes,
) -> Result<u8, Status> {
    let question = WatchedQuestion {
        never: never.names.as_slice(),
        places: never.places.as_slice(),
        wishes,
    };
    let clock = Clock::new(rt, guard.begun, guard.words.limits.seconds);
    let mut limits = Limits::new(rt.alloc(), clock, wishes.bounds.memory);
    let machine = &crew.judge.run.machine;
    match heard_in(rt, guard, machine, &wishes.old_like, &mut limits) {
        Ok(Some(heard)) => searched(rt, guard, heard, crew, &question, &mut limits),
        Ok(None) => Ok(Status::SourceErrors.code()),
        Err(fault) => Ok(told_fault(rt, guard.words, &fault)),
    }
}

/// Searches a program and its requirement, which have no error. Answers the status.
fn guarded(rt: &HostRuntime, guard: Guard, judge: Watched) -> Result<u8, Status> {
    let call = guard.asked.call;
    check_both(
        rt,
        call,
        guard.job,
        judge.run.as_ref(),
        judge.watch.as_ref(),
    )?;
    let never = never_of(rt, guard, &judge)?;
    let wishes = all_wishes(rt, guard)?;
    match crew_of(rt.alloc(), guard, judge)? {
        Some(crew) => searched_by(rt, guard, crew, &never, &wishes),
        None => Ok(Status::SourceErrors.code()),
    }
}

/// The same of two sources that were read. The messages come behind the answer.
fn guarded_in(rt: &HostRuntime, guard: Guard, pair: WatchPair) -> Result<u8, Status> {
    let WatchPair { run, watch, notes } = pair;
    let Answered { messages, made } = run;
    let run = made;
    let of_run = messages;
    let Answered { messages, made } = watch;
    let code = match (run, made) {
        (Some(run), Some(watch)) => guarded(rt, guard, Watched { run, watch })?,
        _ => Status::SourceErrors.code(),
    };
    if code != Status::Memory.code() {
        tell(rt, notes.as_slice());
        tell(rt, of_run.as_slice());
        tell(rt, messages.as_slice());
    }
    Ok(code)
}

/// `snl search --watch`, of a call that began at a time: the program that is asked for, watched by the one of a job. Answers the status.
pub fn answered_guard(
    rt: &HostRuntime,
    asked: Asked,
    words: &SearchWords,
    job: &Job,
    begun: Option<Instant>,
) -> Result<u8, Status> {
    let watch = source_in(rt, "snl", job.file.as_str())?;
    let watch = watch.as_slice();
    let guard = Guard {
        asked,
        words,
        job,
        watch,
        begun,
    };
    let both = watch_pair_of(rt, asked, job, watch)?;
    guarded_in(rt, guard, both)
}
