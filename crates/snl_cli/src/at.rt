//! `snl at`.

ghost use Rattle.snl_moments.specs.Loaded.{IsUntold};

use crate::asked::Asked;
use crate::input::Input;
use crate::trace_report::tell_bad_line;
use snc::{Answered, Status};
use snc_cli::write;
use snl_args::AtWords;
use snl_moments::{Asked as Moments, Close};
use snl_scenes::{Answer, Scene, ready_of, tell_moments};
use snl_trace::End;
use strsim::levenshtein;

/// How many moments are asked for.
fn count_of(words: &AtWords) -> usize {
    match words {
        AtWords::Times(times) => times.len(),
        AtWords::Trip | AtWords::Into(_) => 1,
    }
}

/// The name of the state that may have been meant: one of which less than half the letters have to be changed, and the fewest.
fn meant(rt: &HostRuntime, scene: &Scene, name: &str) -> Result<Option<Vec<u8>>, Status> {
    let places = scene.places(rt.alloc())?;
    let mut best: Option<Vec<u8>> = None;
    let mut least = name.len().div_ceil(2);
    for place in places {
        let Ok(text) = str::from_utf8(place.as_slice()) else {
            continue;
        };
        let distance = levenshtein(rt.alloc(), name, text)?;
        if distance < least {
            least = distance;
            best = Some(place);
        }
    }
    Ok(best)
}

/// Tells the user that there is no such state.
fn told_unknown(rt: &HostRuntime, scene: &Scene, name: &str) -> Result<Status, Status> {
    match &meant(rt, scene, name)? {
        Some(place) => {
            let hint = str::from_utf8(place.as_slice()).unwrap_or("");
            let _ = eprintln!(rt; "error: '--into {name}' names no state; did you mean '{hint}'?");
        }
        None => {
            let _ = eprintln!(rt;
                "error: '--into {name}' names no state: it is SS.STATE, a state set and one of its states"
            );
        }
    }
    Ok(Status::Usage)
}

/// What is asked for, with states by their numbers. Where there is no such state, the user is told.
fn asked_for<'w>(
    rt: &HostRuntime,
    scene: &Scene,
    words: &'w AtWords,
) -> Result<Moments<'w>, Status> {
    match words {
        AtWords::Times(times) => Ok(Moments::Times(times.as_slice())),
        AtWords::Trip => Ok(Moments::Trip),
        AtWords::Into(name) => match scene.place(name.as_bytes()) {
            Some((set, state)) => Ok(Moments::Into(set, state)),
            None => Err(told_unknown(rt, scene, name.as_str())?),
        },
    }
}

/// The status of an answer: where times were asked for, 5 where the program faulted before the last of them; where a fault or a state was,
/// 1 where there is none.
fn status_of(words: &AtWords, answer: &Answer) -> Status {
    match (answer.close, words) {
        (None, _) => Status::InputOutput,
        (Some(Close::Ended(End::TraceFault(_, _))), _) => Status::TraceFault,
        (Some(Close::Ended(End::Fault(_, _))), AtWords::Times(_)) => Status::ProgramFault,
        (_, AtWords::Times(_)) => Status::Well,
        _ if answer.is_told => Status::Well,
        _ => Status::SourceErrors,
    }
}

/// How the run ended, as the end of one that was read to its end.
fn end_of(close: Option<Close>) -> End {
    match close {
        Some(Close::Told) => End::ProgramEnded,
        Some(Close::Over) => End::TraceEnded,
        Some(Close::Ended(end)) => end,
        None => End::SourceFailed,
    }
}

/// Writes what is told, unless the trace could not be read. The messages come behind it, and what is told of a bad line of the trace comes
/// last.
fn told(
    rt: &HostRuntime,
    asked: Asked,
    words: &AtWords,
    messages: &[u8],
    answer: &Answer,
    trace: &Input<'_>,
) -> Result<Status, Status> {
    let end = end_of(answer.close);
    let clock = trace.heard().clock_text(rt.alloc(), end, b"")?;
    let is_written = end == End::SourceFailed
        || (write(rt, answer.text.as_slice()).is_ok() && write(rt, clock.as_slice()).is_ok());
    asked.tell(rt, messages);
    tell_bad_line(rt, trace.heard(), end);
    if is_written {
        Ok(status_of(words, answer))
    } else {
        Ok(Status::InputOutput)
    }
}

/// Looks at a program over standard input.
fn looked_at<'c>(
    rt: &'c HostRuntime,
    asked: Asked<'c>,
    words: &AtWords,
    messages: &[u8],
    scene: &mut Scene,
) -> Result<Status, Status>
    requires untold { IsUntold scene.old.subject.value }
{
    let moments = asked_for(rt, scene, words)?;
    let mut trace = Input::new(rt, asked.call.progress, asked.compared())?;
    let answer = tell_moments(rt.alloc(), scene, moments, &mut trace)?;
    told(rt, asked, words, messages, &answer, &trace)
}

/// `snl at`.
pub fn answered_at<'c>(
    rt: &'c HostRuntime,
    asked: Asked<'c>,
    words: &AtWords,
) -> Result<Status, Status> {
    let Asked { source, call, .. } = asked;
    let Answered { messages, made } = ready_of(rt.alloc(), source, &call.job, count_of(words))?;
    let Some(mut scene) = made else {
        asked.tell(rt, messages.as_slice());
        return Ok(Status::SourceErrors);
    };
    looked_at(rt, asked, words, messages.as_slice(), scene.as_mut())
}
