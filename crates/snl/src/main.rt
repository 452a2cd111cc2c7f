//! `snl WORD ..`: the companion of `snc` and `snlrun`, for what goes round a dry run.
//!
//! The answer goes to standard output, all else to standard error.
#![tactic(auto)]

use snc::Status;
use snc_cli::{source_in, tell, words_of, write};
use snl_args::{Call, CallFault, SameWords, SearchWords, Word, read_call};
use snl_cli::{
    Asked, ProgramText, VERSION, answered_at, answered_checks, answered_cover, answered_graph,
    answered_run, answered_same, answered_text, answered_waits, check_counts, check_lints,
    check_macros, check_outputs, code_of, notes_of,
};
use snl_pair_cli::{answered_contrast, answered_guard};
use snl_search_cli::{answered_join, answered_search};
use snl_test_cli::{answered_test, check_tests};
use snl_trace_cli::{answered_trace, check_times, units_for};
use std::process::ExitCode;
use std::time::Instant;

fn main(rt: HostRuntime) -> ExitCode {
    ExitCode::from(code_of(done(&rt)))
}

/// Does what the words of this call ask for. Answers the exit status.
fn done(rt: &HostRuntime) -> Result<u8, Status> {
    let begun = Instant::now(rt).ok();
    let call = call_of(rt)?;
    answered(rt, &call, begun)
}

/// What the words of this call ask for. Where they ask for nothing that can be done, the user is told why, and the answer is
/// the status.
fn call_of(rt: &HostRuntime) -> Result<Call, Status> {
    let words = words_of(rt)?;
    match read_call(rt.alloc(), words.as_slice(), VERSION) {
        Ok(call) => {
            check_words(rt, &call)?;
            Ok(call)
        }
        Err(fault) => Err(told(rt, &fault)),
    }
}

/// Sees that what the words of a call name is such a thing. Where it is not, the user is told.
fn check_words(rt: &HostRuntime, call: &Call) -> Result<(), Status> {
    check_macros(rt, call)?;
    match &*call.word {
        Word::Search(words) => check_outputs(rt, call, words),
        Word::Check(words) => check_lints(rt, words),
        Word::Trace(words) => check_times(rt, words),
        Word::Test(words) => check_tests(rt, words),
        Word::Cover(words) => check_counts(rt, &words.counts),
        Word::Waits | Word::Run(_) | Word::At(_) | Word::Graph(_) => Ok(()),
        Word::Same(words) => check_same(rt, call, words),
        Word::Tree | Word::Sets(_) | Word::Join(_) => Ok(()),
    }
}

/// Sees that a comparison over every trace may write its file, where it has one. Where it may not, the user is told.
fn check_same(rt: &HostRuntime, call: &Call, words: &SameWords) -> Result<(), Status> {
    match &words.search {
        Some(search) => check_outputs(rt, call, search),
        None => Ok(()),
    }
}

/// Compares two programs over a trace, or over every trace. Answers the exit status.
fn answered_pair(
    rt: &HostRuntime,
    call: &Call,
    words: &SameWords,
    begun: Option<Instant>,
) -> Result<u8, Status> {
    match &words.search {
        Some(search) => answered_contrast(rt, call, words, search, begun),
        None => Ok(answered_same(rt, call, words)?.code()),
    }
}

/// Tells the user what is wrong with the words, or what was asked for.
fn told(rt: &HostRuntime, fault: &CallFault) -> Status {
    match fault {
        CallFault::BadOption(_, _) => {
            let _ = eprintln!(rt; "{fault}");
            Status::Usage
        }
        CallFault::Usage(text) => {
            tell(rt, text.as_bytes());
            Status::Usage
        }
        CallFault::Told(text) => match write(rt, text.as_bytes()) {
            Ok(()) => Status::Well,
            Err(status) => status,
        },
        CallFault::Memory => Status::Memory,
    }
}

/// Does what a call asks for that began at a time. Answers the exit status.
fn answered(rt: &HostRuntime, call: &Call, begun: Option<Instant>) -> Result<u8, Status> {
    match &*call.word {
        Word::Check(words) => Ok(answered_checks(rt, call, words).code()),
        Word::Trace(words) => Ok(answered_trace(rt, call, words)?.code()),
        Word::Same(words) => answered_pair(rt, call, words, begun),
        Word::Join(words) => answered_join(rt, words),
        Word::Test(words) => Ok(answered_test(rt, call, words)?.code()),
        _ => answered_program(rt, call, begun),
    }
}

/// Does what a call asks for of a program, and answers the exit status.
fn answered_program(rt: &HostRuntime, call: &Call, begun: Option<Instant>) -> Result<u8, Status> {
    let units = units_for(rt, call)?;
    let source = source_in(rt, "snl", call.job.file.as_str())?;
    let notes = notes_of(rt, source.as_slice(), call)?;
    let asked = Asked {
        source: source.as_slice(),
        call,
        notes: notes.as_slice(),
        units: units.as_slice(),
    };
    answered_word(rt, asked, begun)
}

/// Searches a program, or one that a requirement watches. Answers the exit status.
fn answered_sought(
    rt: &HostRuntime,
    asked: Asked,
    words: &SearchWords,
    begun: Option<Instant>,
) -> Result<u8, Status> {
    match &words.watch {
        Some(job) => answered_guard(rt, asked, words, job, begun),
        None => answered_search(rt, asked, words, begun),
    }
}

/// Does what a word asks for of a program, and answers the exit status.
fn answered_word(rt: &HostRuntime, asked: Asked, begun: Option<Instant>) -> Result<u8, Status> {
    let status = match &*asked.call.word {
        Word::Waits => answered_waits(rt, asked),
        Word::Run(words) => answered_run(rt, asked, words),
        Word::At(words) => answered_at(rt, asked, words),
        Word::Cover(words) => answered_cover(rt, asked, words),
        Word::Graph(words) => answered_graph(rt, asked, words),
        Word::Tree => answered_text(rt, asked, ProgramText::Tree),
        Word::Sets(true) => answered_text(rt, asked, ProgramText::Declarations),
        Word::Sets(false) => answered_text(rt, asked, ProgramText::States),
        Word::Search(words) => return answered_sought(rt, asked, words, begun),
        Word::Check(words) => Ok(answered_checks(rt, asked.call, words)),
        Word::Trace(words) => answered_trace(rt, asked.call, words),
        Word::Test(words) => answered_test(rt, asked.call, words),
        Word::Join(words) => return answered_join(rt, words),
        Word::Same(words) => return answered_pair(rt, asked.call, words, begun),
    };
    Ok(status?.code())
}
