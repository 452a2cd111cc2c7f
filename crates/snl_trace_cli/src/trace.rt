//! `snl trace`: logs in files, written as a trace.

use crate::units::units_for;
use snc::Status;
use snc_cli::{Lines, Outlet, tell, told_unread};
use snl_args::{Call, NamedNumber, NamedText, TraceWords};
use snl_cli::{LogFeed, Traced, VERSION, feeds_of, held_logs, traced_program};
use snl_import::{
    AnyProgram, ChannelNumber, ChannelText, ImportError, Imported, LoadedProgram, Program, Wishes,
    import,
};
use snl_logs::moment_of;
use snl_units::ChannelUnits;
use std::alloc::{AllocError, Global};

/// Nanoseconds of a second.
const SECOND: u64 = 1_000_000_000;

/// Whether a word of the call is a time, if it is there.
fn is_time(rt: &HostRuntime, option: &str, word: &Option<String>) -> bool {
    match word {
        Some(word) if moment_of(word.as_bytes()).is_none() => {
            let _ = eprintln!(rt;
                "error: '--{option} {word}' is no time, as 2026-03-02T09:15:00, 1772442900.5 or +12.5\n\n\
                 For more information, try '--help'."
            );
            false
        }
        _ => true,
    }
}

/// Sees that the times of a call are some. Where one is not, standard error tells so.
pub fn check_times(rt: &HostRuntime, words: &TraceWords) -> Result<(), Status> {
    if is_time(rt, "from", &words.span.from) && is_time(rt, "to", &words.span.to) {
        Ok(())
    } else {
        Err(Status::Usage)
    }
}

/// The time that a word of the call is, if it is there.
fn moment_in(word: &Option<String>) -> Option<u64> {
    match word {
        Some(word) => moment_of(word.as_bytes()),
        None => None,
    }
}

/// Numbers of channels, of the library's own.
fn numbers(alloc: Global, given: &[NamedNumber]) -> Result<Vec<ChannelNumber>, AllocError> {
    let mut all = Vec::new(alloc);
    for one in given {
        all.push(ChannelNumber {
            name: Vec::from_slice(alloc, one.name.as_bytes())?,
            number: one.number,
        })?;
    }
    Ok(all)
}

/// A text of a channel, of the library's own.
fn text_of(alloc: Global, given: &NamedText) -> Result<ChannelText, AllocError> {
    Ok(ChannelText {
        name: Vec::from_slice(alloc, given.name.as_bytes())?,
        text: Vec::from_slice(alloc, given.text.as_bytes())?,
        number: given.number,
    })
}

/// Texts of channels, of the library's own.
fn texts(alloc: Global, given: &[NamedText]) -> Result<Vec<ChannelText>, AllocError> {
    let mut all = Vec::new(alloc);
    for one in given {
        all.push(text_of(alloc, one)?)?;
    }
    Ok(all)
}

/// What the first comment of a trace names: this program, with its version.
fn maker(alloc: Global) -> Result<Vec<u8>, AllocError> {
    let mut name = Vec::from_slice(alloc, b"snl trace ")?;
    name.extend_from_slice(VERSION.as_bytes())?;
    Ok(name)
}

/// What the words of a call ask of the trace.
fn wishes_of(
    alloc: Global,
    words: &TraceWords,
    units: Vec<ChannelUnits>,
) -> Result<Wishes, AllocError> {
    Ok(Wishes {
        maker: maker(alloc)?,
        program: None,
        units,
        scales: numbers(alloc, words.meanings.scales.as_slice())?,
        texts: texts(alloc, words.meanings.texts.as_slice())?,
        values: numbers(alloc, words.meanings.values.as_slice())?,
        tells_alarms: words.tells_alarms,
        lead: u64::from(words.lead).saturating_mul(SECOND),
        from: moment_in(&words.span.from),
        to: moment_in(&words.span.to),
    })
}

/// Says that a log could not be read on.
fn told_broken(rt: &HostRuntime, words: &TraceWords, file: &[u8]) -> Status {
    for log in &words.span.logs {
        if log.as_bytes() == file {
            return told_unread(rt, "snl", log.as_str());
        }
    }
    Status::InputOutput
}

/// Says why a trace broke off.
fn told_fault(
    rt: &HostRuntime,
    words: &TraceWords,
    feeds: &[LogFeed<'_>],
    fault: ImportError,
) -> Status {
    match fault {
        ImportError::Memory | ImportError::TooMany => Status::Memory,
        ImportError::Unwritable => Status::InputOutput,
        ImportError::Unreadable(place) => match feeds.get(place) {
            Some(feed) => told_broken(rt, words, feed.file()),
            None => Status::InputOutput,
        },
    }
}

/// Says what came of the logs.
fn told_import(rt: &HostRuntime, imported: &Imported) -> Status {
    tell(rt, imported.notes.as_slice());
    if imported.is_whole {
        Status::Well
    } else {
        Status::SourceErrors
    }
}

/// Writes logs as a trace of a program to standard output.
fn written<P: Program + Drop>(
    rt: &HostRuntime,
    words: &TraceWords,
    wishes: &Wishes,
    program: P,
    feeds: &mut [LogFeed<'_>],
) -> Result<Imported, Status> {
    let mut lines = Lines::new(rt.alloc(), Outlet::new(rt.stdout()))?;
    let imported = import(rt.alloc(), wishes, program, feeds, &mut lines);
    let finished = lines.finish();
    match imported {
        Ok(_) if finished.is_err() => Err(Status::InputOutput),
        Ok(imported) => Ok(imported),
        Err(fault) => Err(told_fault(rt, words, feeds, fault)),
    }
}

/// Writes logs as a trace of a program that is loaded. The messages about it stand in front of what there is to tell of the logs.
fn written_for(
    rt: &HostRuntime,
    words: &TraceWords,
    wishes: Wishes,
    traced: Traced,
) -> Result<Status, Status> {
    let Traced {
        machine,
        program,
        messages,
    } = traced;
    let mut wishes = wishes;
    wishes.program = Some(program);
    let logs = held_logs(rt, words)?;
    let mut feeds = feeds_of(rt, words, logs.as_slice())?;
    let program = LoadedProgram::new(machine.as_ref());
    let imported = written(rt, words, &wishes, program, feeds.as_mut_slice());
    tell(rt, messages.as_slice());
    Ok(told_import(rt, &imported?))
}

/// `snl trace`.
pub fn answered_trace(rt: &HostRuntime, call: &Call, words: &TraceWords) -> Result<Status, Status> {
    let units = units_for(rt, call)?;
    let wishes = wishes_of(rt.alloc(), words, units)?;
    if words.has_program {
        let traced = traced_program(rt, call)?;
        return written_for(rt, words, wishes, traced);
    }
    let logs = held_logs(rt, words)?;
    let mut feeds = feeds_of(rt, words, logs.as_slice())?;
    let imported = written(rt, words, &wishes, AnyProgram, feeds.as_mut_slice())?;
    Ok(told_import(rt, &imported))
}
