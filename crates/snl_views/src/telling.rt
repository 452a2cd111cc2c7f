//! The answer of `waits`, as a text.

use crate::awaited::Awaited;
use crate::escaped::push_escaped;
use crate::hints::{Hint, hint_of};
use crate::starting::StartOutcome;
use snl_legends::variable_of;
use snl_links::Link;
use snl_machine::Machine;
use snl_output::{push_all, push_counted, push_told};
use snl_trace::End;
use snl_watch::{HeardTrace, NameCount};
use std::alloc::{AllocError, Global};

/// How many pairs of names are compared by their distance at most; where there are more, none is.
const PAIRS_COMPARED: usize = 200_000;

/// What is known of a program and of its run, beside what it waits for.
#[derive(Clone, Copy)]
pub(crate) struct ProgramView<'s> {
    /// The text of the program.
    pub source: &'s [u8],
    pub links: &'s [Link],
    pub machine: &'s Machine,
    /// Whether the program waits for its channels before it starts.
    pub waits: bool,
}

/// Adds when the program began.
fn push_began(out: &mut Vec<u8>, scene: ProgramView, heard: &HeardTrace) -> Result<(), AllocError> {
    out.extend_from_slice(b"began at ")?;
    push_time(out, heard, scene.machine.time())?;
    let why: &[u8] = if scene.waits {
        b")\n"
    } else {
        b"); it waits for nothing (option -c)\n"
    };
    push_told(out, b" (line ", heard.lines(), why)
}

/// Adds a time in milliseconds and, where the trace tells the date of 0 ms, the time of day.
fn push_time(out: &mut Vec<u8>, heard: &HeardTrace, ms: u64) -> Result<(), AllocError> {
    let beside = heard.zero().beside(ms);
    push_told(out, b"", ms, beside.as_slice())
}

/// Adds how many events came, the last at a time.
fn push_events(out: &mut Vec<u8>, heard: &HeardTrace, time: u64) -> Result<(), AllocError> {
    let events = heard.events();
    if events.count == 0 {
        return out.extend_from_slice(b"never began: no event\n");
    }
    push_counted(out, b"never began: ", events.count, b"event")?;
    let at: &[u8] = if events.count == 1 {
        b" at "
    } else {
        b", the last at "
    };
    out.extend_from_slice(at)?;
    push_time(out, heard, time)?;
    push_told(out, b" (line ", events.last, b")\n")
}

/// Adds the variable of a link, in brackets, and ends the line.
fn push_variable(out: &mut Vec<u8>, scene: ProgramView, link: &Link) -> Result<(), AllocError> {
    let variable = variable_of(scene.source, scene.links, link);
    push_all(out, &[b" (", variable.name])?;
    if let Some(element) = variable.element {
        push_told(out, b"[", element as u64, b"]")?;
    }
    push_told(out, b", line ", variable.line as u64, b")\n")
}

/// Adds that a channel has to be up.
fn push_down(out: &mut Vec<u8>, heard: &HeardTrace, since: Option<u64>) -> Result<(), AllocError> {
    match since {
        Some(ms) => {
            out.extend_from_slice(b", which is down again since ")?;
            push_time(out, heard, ms)
        }
        None => out.extend_from_slice(b" to be up"),
    }
}

/// Adds what the program waits for at a link.
fn push_awaited(
    out: &mut Vec<u8>,
    scene: ProgramView,
    heard: &HeardTrace,
    awaited: Awaited,
) -> Result<(), AllocError> {
    let (number, is_value) = match awaited {
        Awaited::ToBeUp(number) => (number, false),
        Awaited::ToBeValued(number) => (number, true),
    };
    let Some(link) = scene.links.get(number) else {
        return Ok(());
    };
    push_all(out, &[b"waits for ", link.name.as_slice()])?;
    if is_value {
        out.extend_from_slice(b" to have a value")?;
    } else {
        push_down(out, heard, since_of(scene, heard, number))?;
    }
    push_variable(out, scene, link)
}

/// Since when the channel of a link is down again, in milliseconds.
fn since_of(scene: ProgramView, heard: &HeardTrace, number: usize) -> Option<u64> {
    let channel = scene.machine.link(number)?.channel?;
    heard.down_since(channel)
}

/// Adds in which lines a name stands.
fn push_named(out: &mut Vec<u8>, named: NameCount) -> Result<(), AllocError> {
    if named.lines == 1 {
        out.extend_from_slice(b" (line ")?;
    } else {
        push_told(out, b" (", named.lines, b" lines, the first is ")?;
    }
    push_told(out, b"", named.first, b")")
}

/// Adds a name that is no channel of the program, and what may have been meant.
fn push_other(
    out: &mut Vec<u8>,
    name: &[u8],
    named: NameCount,
    hint: Option<Hint>,
) -> Result<(), AllocError> {
    push_escaped(out, name)?;
    out.extend_from_slice(b" is no channel of the program")?;
    push_named(out, named)?;
    match hint {
        Some(Hint::NoQuotes) => out.extend_from_slice(b"; take the quotes away")?,
        Some(Hint::Name(meant)) => push_all(out, &[b"; did you mean ", meant, b"?"])?,
        None => {}
    }
    out.extend_from_slice(b"\n")
}

/// Adds all names of the trace that are no channels of the program.
fn push_others(
    alloc: Global,
    out: &mut Vec<u8>,
    links: &[Link],
    heard: &HeardTrace,
) -> Result<(), AllocError> {
    let pairs = links.len().saturating_mul(heard.others().len());
    let compares = pairs <= PAIRS_COMPARED;
    for (name, named) in heard.others() {
        let hint = hint_of(alloc, links, name.as_slice(), compares)?;
        push_other(out, name.as_slice(), *named, hint)?;
    }
    if heard.unkept() > 0 {
        push_counted(out, b"and ", heard.unkept(), b"line")?;
        out.extend_from_slice(b" more with names that are no channels of the program\n")?;
    }
    Ok(())
}

/// The answer as text: when the program began; or how much of the trace came, what the program waits for, and which names of
/// the trace it does not have. Fails only where memory ran out.
pub(crate) fn start_text(
    alloc: Global,
    scene: ProgramView,
    start: &StartOutcome,
) -> Result<Vec<u8>, AllocError> {
    let mut out = Vec::new(alloc);
    if start.end == End::SinkFailed {
        push_began(&mut out, scene, &start.heard)?;
        return Ok(out);
    }
    push_events(&mut out, &start.heard, scene.machine.time())?;
    for awaited in &start.awaited {
        push_awaited(&mut out, scene, &start.heard, *awaited)?;
    }
    push_others(alloc, &mut out, scene.links, &start.heard)?;
    Ok(out)
}
