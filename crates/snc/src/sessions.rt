//! `session`: a source, and the run of its program over a trace.

ghost use Rattle.std.specs.Prelude.{◌≡◌, ◌-◌, ◌^◌, ◌<◌, ℕ, List, [], Option, IfOk, OnErr, string_bytes};
ghost use Rattle.std.specs.Option.{option_map, unwrap_or};
ghost use Rattle.snl_check.specs.Waits.{waits};
ghost use Rattle.snl_machine.specs.Loading.{IsLoaded};
ghost use Rattle.snc.specs.Answered.{macros_in};
ghost use Rattle.snc.specs.Outcomes as spec;
ghost use Rattle.snc.specs.Outcomes.{IsSession};

use crate::answering::{Answered, Maker, answer};
use crate::jobs::Status;
use snc_args::Job;
use snl_check::Checked;
use snl_links::Macros;
use snl_machine::{Loads, Machine, Sink};
use snl_trace::{End, Source, run};
use std::alloc::{AllocError, Global};

/// Makes the machine of a program, which has not started, with the macros and the budget of the job.
pub struct Loading;

impl Maker<Box<Machine>> for Loading {
    ghost right = { λ maker job whole options machine.
        IsLoaded whole (macros_in job) (waits options) job.budget machine.value };

    fn make<'a>(
        checked: &Checked<'a>,
        alloc: Global,
        _source: &[u8],
        job: &Job,
        _maker: &Self,
    ) -> Result<Box<Machine>, AllocError> {
        let macros = macros_of(job);
        let machine = checked.machine(alloc, &macros, job.budget)?;
        boxed(alloc, machine)
    }
}

/// A value in a box: what is in one is cheap to prove things about where it is dropped. The only error is that memory ends.
pub fn boxed<T: Drop>(alloc: Global, value: T) -> Result<Box<T>, AllocError>
    ensures { IfOk result (λ found. found.value ≡ value) }
{
    Ok(Box::new(alloc, value)?)
}

/// Reads and checks a program and, if it has no error, runs it over a trace: the messages, how the run
/// ended, and the status.
///
/// With an error in the program neither the trace nor the sink is touched, and there is no end. The
/// same holds where memory ran out, which is the only failure: a run takes no memory.
pub fn session<R: Source, S: Sink>(
    alloc: Global,
    source: &[u8],
    job: &Job,
    trace: &mut R,
    sink: &mut S,
) -> Result<(Vec<u8>, Option<End>, Status), AllocError>
    requires trace { R.failures trace.old < 2 ^ 64 - 1 }
    requires sink { S.failures sink.old < 2 ^ 64 - 1 }
    ensures answer { IfOk result (λ r. IsSession R.gave R.ended R.failures S.told S.failures
        job.now.options (string_bytes job.now.file)
        (unwrap_or (option_map string_bytes job.now.macros) []) source.now job.now.budget
        trace.old trace.new sink.old sink.new r.0.items r.1 r.2) }
    ensures unread { OnErr result (trace.new ≡ trace.old) }
    ensures unwritten { OnErr result (sink.new ≡ sink.old) }
{
    let Answered { messages, made } = answer(alloc, job, source, &Loading)?;
    let Some(mut machine) = made else {
        return Ok((messages, None, Status::SourceErrors));
    };
    let end = run(machine.as_mut(), trace, sink);
    Ok((messages, Some(end), status_of(end)))
}

/// The macros of a call; none where they were left out.
pub fn macros_of(job: &Job) -> Macros<'_>
    ensures { result.text.now ≡ unwrap_or (option_map string_bytes job.now.macros) [] }
{
    match &job.macros {
        Some(text) => Macros {
            text: text.as_bytes(),
        },
        None => Macros {
            text: b"".as_slice(),
        },
    }
}

/// The status of a run that ended so, where all of its lines were written.
pub fn status_of(end: End) -> Status
    ensures { result ≡ spec.status_of end }
{
    match end {
        End::TraceEnded | End::ProgramEnded => Status::Well,
        End::Fault(_, _) => Status::ProgramFault,
        End::TraceFault(_, _) => Status::TraceFault,
        End::SourceFailed | End::SinkFailed => Status::InputOutput,
    }
}
