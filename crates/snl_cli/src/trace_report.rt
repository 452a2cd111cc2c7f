//! What is told of a trace that was overheard: its units, and how its bad line can be mended.

use snc::Status;
use snc_cli::tell;
use snl_trace::End;
use snl_units::{ChannelUnits, Comparison};
use snl_views::Overheard;

/// Who compares the units of a trace of which nothing came yet with others, where there are some. Fails only where memory ran out.
pub fn compared<'u>(
    rt: &HostRuntime,
    units: Option<&'u [ChannelUnits]>,
) -> Result<Option<Comparison<'u>>, Status> {
    match units {
        Some(units) => Ok(Some(Comparison::new(rt.alloc(), units)?)),
        None => Ok(None),
    }
}

/// Where the units of a trace differ from those that it was compared with, as lines with something in front.
pub fn units_text(
    rt: &HostRuntime,
    units: Option<&Comparison<'_>>,
    front: &[u8],
) -> Result<Vec<u8>, Status> {
    let mut text = Vec::new(rt.alloc());
    if let Some(units) = units {
        if units.ran_out() || units.push_text(&mut text, front).is_err() {
            return Err(Status::Memory);
        }
    }
    Ok(text)
}

/// The status of an answer: 1 in the place of 0 where the trace has other units than those that it was compared with.
pub fn status_with(units: Option<&Comparison<'_>>, status: Status) -> Status {
    match units {
        Some(units) if status == Status::Well && units.differs() => Status::SourceErrors,
        _ => status,
    }
}

/// How the bad line of a trace can be mended whose run ended so, as a line for the user; nothing where that is not known.
pub fn bad_line_text(rt: &HostRuntime, heard: &Overheard, end: End) -> Vec<u8> {
    match heard.bad_line_text(rt.alloc(), end) {
        Ok(text) => text,
        Err(_) => Vec::new(rt.alloc()),
    }
}

/// Tells of a bad line of the trace on standard input, and how it can be mended.
pub fn tell_bad_line(rt: &HostRuntime, heard: &Overheard, end: End) {
    if let End::TraceFault(number, fault) = end {
        let _ = eprintln!(rt; "trace:{number}: {fault}");
        tell(rt, bad_line_text(rt, heard, end).as_slice());
    }
}
