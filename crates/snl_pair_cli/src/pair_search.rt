//! `snl same --search`.

use snc::Status;
use snc_cli::{source_in, write};
use snl_alphabet::{Limits, Watches, WishedValues};
use snl_args::{Call, SameWords, SearchWords};
use snl_cli::{Both, both_of, code_of, tell_messages, write_trace};
use snl_equivalence::{
    PairAnswer, PairFault, PairWishes, Prepared, Question, Sides, prepared_in, search_pair,
};
use snl_same::{Filter, Side};
use snl_trace_cli::units_for;
use snl_wishes::{Clock, bounds_of, owned, recorded, times_of, told_fault, wished_values};
use std::alloc::{AllocError, Global};
use std::fs::File;
use std::time::Instant;

/// What a call asks of two programs.
#[derive(Clone, Copy)]
struct Asked<'c> {
    call: &'c Call,
    words: &'c SameWords,
    search: &'c SearchWords,
    /// When it began.
    begun: Option<Instant>,
}

/// The texts of both sources.
#[derive(Clone, Copy)]
struct Texts<'t> {
    old: &'t [u8],
    new: &'t [u8],
}

/// What the words of a call wish of channels, in the units of the trace, and the recorded trace that they name, once for each program.
#[derive(Drop)]
pub struct Wished {
    /// The values of channels.
    pub values: Vec<WishedValues>,
    /// Values at the start.
    pub firsts: Vec<WishedValues>,
    /// The recorded trace,
    pub old_like: Option<File>,
    /// and once more.
    pub new_like: Option<File>,
}

/// What the words of a call wish of channels. Where a value is none, or the recorded trace cannot be opened, the user is told.
fn wished_in(rt: &HostRuntime, asked: Asked) -> Result<Wished, Status> {
    let units = units_for(rt, asked.call)?;
    let search = asked.search;
    Ok(Wished {
        values: wished_values(
            rt,
            units.as_slice(),
            "values",
            search.alphabet.values.as_slice(),
        )?,
        firsts: wished_values(
            rt,
            units.as_slice(),
            "first",
            search.alphabet.firsts.as_slice(),
        )?,
        old_like: recorded(rt, search)?,
        new_like: recorded(rt, search)?,
    })
}

/// What the words of a call wish.
pub fn wishes_of(
    alloc: Global,
    words: &SearchWords,
    wished: Wished,
) -> Result<PairWishes, AllocError> {
    let Wished {
        values,
        firsts,
        old_like,
        new_like,
    } = wished;
    Ok(PairWishes {
        old_like,
        new_like,
        values,
        firsts,
        gaps: times_of(alloc, &words.alphabet.gaps)?,
        down: owned(alloc, words.alphabet.down.as_slice())?,
        bounds: bounds_of(words),
        budget: words.limits.budget,
    })
}

/// What is wished of a search of two programs.
fn all_wishes(rt: &HostRuntime, asked: Asked) -> Result<PairWishes, Status> {
    let wished = wished_in(rt, asked)?;
    Ok(wishes_of(rt.alloc(), asked.search, wished)?)
}

/// Says what a search answers.
fn told_answer(rt: &HostRuntime, words: &SearchWords, answer: &PairAnswer) -> Result<u8, Status> {
    let written = write(rt, answer.text.as_slice());
    write_trace(rt, &words.wanted.out, &answer.trace)?;
    written?;
    Ok(answer.verdict.code())
}

/// Says what is wrong with a wish.
fn told_wrong(rt: &HostRuntime, words: &SearchWords, fault: &PairFault) -> u8 {
    match fault {
        PairFault::Wish(fault) => told_fault(rt, words, fault),
        _ => {
            let _ = eprintln!(rt; "snl: {fault}");
            Status::Usage.code()
        }
    }
}

/// Two programs that are ready for the search.
#[derive(Drop)]
struct Pair {
    old: Box<Prepared>,
    new: Box<Prepared>,
}

/// Makes the programs of both sources ready for the search; None where one has an error.
fn pair_in(rt: &HostRuntime, asked: Asked, texts: Texts) -> Result<Option<Pair>, AllocError> {
    let budget = asked.search.limits.budget;
    let old = prepared_in(rt.alloc(), &asked.call.job, texts.old, budget)?;
    let new = prepared_in(rt.alloc(), &asked.words.new, texts.new, budget)?;
    match (old.made, new.made) {
        (Some(old), Some(new)) => Ok(Some(Pair { old, new })),
        _ => Ok(None),
    }
}

/// Searches two programs. Answers the status.
fn searched<W: Watches>(
    rt: &HostRuntime,
    asked: Asked,
    wishes: &PairWishes,
    pair: Pair,
    sides: &mut Sides,
    limits: &mut Limits<W>,
) -> Result<u8, Status> {
    let question = Question {
        filter: Filter {
            puts_only: asked.words.puts_only,
            but: asked.words.but.as_slice(),
        },
        wishes,
        budget: asked.call.job.budget,
    };
    let Pair { old, new } = pair;
    let old = Box::into_inner(old);
    let new = Box::into_inner(new);
    match search_pair(rt.alloc(), old, new, &question, sides, limits) {
        Ok(answer) => told_answer(rt, asked.search, &answer),
        Err(fault) => Ok(told_wrong(rt, asked.search, &fault)),
    }
}

/// Searches the programs of both sources, which have no error. Answers the status.
fn searched_in(
    rt: &HostRuntime,
    asked: Asked,
    texts: Texts,
    sides: &mut Sides,
) -> Result<u8, Status> {
    let wishes = all_wishes(rt, asked)?;
    let clock = Clock::new(rt, asked.begun, asked.search.limits.seconds);
    let mut limits = Limits::new(rt.alloc(), clock, wishes.bounds.memory);
    match pair_in(rt, asked, texts)? {
        Some(pair) => searched(rt, asked, &wishes, pair, sides, &mut limits),
        None => Ok(Status::SourceErrors.code()),
    }
}

/// Searches both programs, where neither has an error. The messages come behind what was found.
fn answered_by(rt: &HostRuntime, asked: Asked, texts: Texts, both: &mut Both) -> u8 {
    let (Some(old), Some(new)) = (&mut both.old.made, &mut both.new.made) else {
        tell_messages(rt, both);
        return Status::SourceErrors.code();
    };
    let mut sides = Sides {
        old: old.as_mut(),
        new: new.as_mut(),
    };
    let code = code_of(searched_in(rt, asked, texts, &mut sides));
    if code != Status::Memory.code() {
        tell_messages(rt, both);
    }
    code
}

/// `snl same --search`, of a call that began at a time. Answers the status.
pub fn answered_contrast(
    rt: &HostRuntime,
    call: &Call,
    words: &SameWords,
    search: &SearchWords,
    begun: Option<Instant>,
) -> Result<u8, Status> {
    let asked = Asked {
        call,
        words,
        search,
        begun,
    };
    let old = source_in(rt, "snl", call.job.file.as_str())?;
    let new = source_in(rt, "snl", words.new.file.as_str())?;
    let texts = Texts {
        old: old.as_slice(),
        new: new.as_slice(),
    };
    let mut both = both_of(rt, call, words, texts.old, texts.new)?;
    Ok(answered_by(rt, asked, texts, &mut both))
}
