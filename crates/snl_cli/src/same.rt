//! `snl same`.

ghost use Rattle.std.specs.Prelude.{◌≡◌, []};

use crate::input::Input;
use crate::trace_report::tell_bad_line;
use snc::{Answered, Status};
use snc_cli::{source_in, tell, write};
use snl_args::{Call, SameWords};
use snl_same::{Compared, Filter, Side, compare, ready_of};
use snl_trace::End;
use snl_views::{Overheard, macro_notes};
use std::alloc::AllocError;

/// A line for each macro of the call that neither program uses.
pub fn notes_of(
    rt: &HostRuntime,
    call: &Call,
    old: &[u8],
    new: &[u8],
) -> Result<Vec<u8>, AllocError> {
    let Some(macros) = &call.job.macros else {
        return Ok(Vec::new(rt.alloc()));
    };
    let mut both = Vec::from_slice(rt.alloc(), old)?;
    both.push(b'\n')?;
    both.extend_from_slice(new)?;
    macro_notes(rt.alloc(), both.as_slice(), macros.as_str())
}

/// Compares both programs over the trace.
fn compared(
    rt: &HostRuntime,
    words: &SameWords,
    old: &mut Side,
    new: &mut Side,
    trace: &mut Input<'_>,
) -> Result<Compared, AllocError>
    requires failures { trace.old.stream.failures ≡ 0 }
    requires fresh { trace.old.stream.input.past.bytes ≡ [] }
{
    let filter = Filter {
        puts_only: words.puts_only,
        but: words.but.as_slice(),
    };
    compare(rt.alloc(), old, new, filter, words.is_whole, trace)
}

/// Writes what was found, unless the trace could not be read. Answers the status, or that memory ran out.
fn told(rt: &HostRuntime, compared: &Compared, heard: &Overheard) -> Result<Status, Status> {
    let end = compared.end();
    if end == End::SourceFailed {
        return Ok(Status::InputOutput);
    }
    let clock = heard.clock_text(rt.alloc(), end, b"")?;
    if write(rt, compared.text.as_slice()).is_err() || write(rt, clock.as_slice()).is_err() {
        return Ok(Status::InputOutput);
    }
    Ok(compared.status())
}

/// What came of both sources.
#[derive(Drop)]
pub struct Both {
    /// What came of the old one.
    pub old: Answered<Box<Side>>,
    /// What came of the new one.
    pub new: Answered<Box<Side>>,
    notes: Vec<u8>,
}

/// Tells the notes and the messages about both sources.
pub fn tell_messages(rt: &HostRuntime, both: &Both) {
    tell(rt, both.notes.as_slice());
    tell(rt, both.old.messages.as_slice());
    tell(rt, both.new.messages.as_slice());
}

/// Reads and checks both sources.
pub fn both_of(
    rt: &HostRuntime,
    call: &Call,
    words: &SameWords,
    old: &[u8],
    new: &[u8],
) -> Result<Both, AllocError> {
    let notes = notes_of(rt, call, old, new)?;
    let old = ready_of(rt.alloc(), old, &call.job)?;
    let new = ready_of(rt.alloc(), new, &words.new)?;
    Ok(Both { old, new, notes })
}

/// Compares both programs over standard input, where neither has an error. The messages come behind what was found, and what is told
/// of a bad line of the trace comes last.
fn answered_by(
    rt: &HostRuntime,
    call: &Call,
    words: &SameWords,
    both: &mut Both,
) -> Result<Status, Status> {
    let (Some(old), Some(new)) = (&mut both.old.made, &mut both.new.made) else {
        tell_messages(rt, both);
        return Ok(Status::SourceErrors);
    };
    let mut trace = Input::new(rt, call.progress, None)?;
    let compared = compared(rt, words, old.as_mut(), new.as_mut(), &mut trace)?;
    let status = told(rt, &compared, trace.heard())?;
    tell_messages(rt, both);
    tell_bad_line(rt, trace.heard(), compared.end());
    Ok(status)
}

/// `snl same`.
pub fn answered_same(rt: &HostRuntime, call: &Call, words: &SameWords) -> Result<Status, Status> {
    let old = source_in(rt, "snl", call.job.file.as_str())?;
    let new = source_in(rt, "snl", words.new.file.as_str())?;
    let mut both = both_of(rt, call, words, old.as_slice(), new.as_slice())?;
    answered_by(rt, call, words, &mut both)
}
