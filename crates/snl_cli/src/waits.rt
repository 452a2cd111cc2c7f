//! `snl waits`.

use crate::asked::Asked;
use crate::input::Input;
use crate::trace_report::{status_with, tell_bad_line, units_text};
use snc::Status;
use snc_cli::write;
use snl_trace::End;
use snl_views::{Answer, WaitsOutcome, waits};

/// Writes what came of a trace, unless that could not be read. Answers whether it was written, or that memory ran out.
fn written(rt: &HostRuntime, outcome: &WaitsOutcome, trace: &Input<'_>) -> Result<bool, Status> {
    if outcome.end == End::SourceFailed {
        return Ok(true);
    }
    let clock = trace.heard().clock_text(rt.alloc(), outcome.end, b"")?;
    let units = units_text(rt, trace.units(), b"")?;
    let is_written = write(rt, outcome.text.as_slice()).is_ok()
        && write(rt, clock.as_slice()).is_ok()
        && write(rt, units.as_slice()).is_ok();
    Ok(is_written)
}

/// Writes what `waits` answers. The messages come behind the answer, and what is told of a bad line of the trace comes last.
fn told_waits(
    rt: &HostRuntime,
    asked: Asked,
    answer: &Answer<Input<'_>>,
) -> Result<Status, Status> {
    let trace = &answer.trace;
    let Some(outcome) = &answer.outcome else {
        asked.tell(rt, answer.messages.as_slice());
        return Ok(answer.status());
    };
    let is_written = written(rt, outcome, trace)?;
    asked.tell(rt, answer.messages.as_slice());
    tell_bad_line(rt, trace.heard(), outcome.end);
    if is_written {
        Ok(status_with(trace.units(), answer.status()))
    } else {
        Ok(Status::InputOutput)
    }
}

/// `snl waits`.
pub fn answered_waits(rt: &HostRuntime, asked: Asked) -> Result<Status, Status> {
    let Asked { source, call, .. } = asked;
    let trace = Input::new(rt, call.progress, asked.compared())?;
    let answer = waits(rt.alloc(), source, &call.job, trace)?;
    told_waits(rt, asked, &answer)
}
