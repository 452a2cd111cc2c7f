//! `snlrun [±X..] [--budget N] FILE [MACROS]`: runs the program in FILE over the trace on standard input.
//!
//! The lines of the run go to standard output, messages to standard error.
#![tactic(auto)]

mod calling;

use calling::session_on;
use snc::{Job, Status, Tool};
use snc_cli::{Lines, Outlet, Stream, job_of, source_of, tell};
use snl_trace::End;
use std::process::ExitCode;

fn main(rt: HostRuntime) -> ExitCode {
    let status = match job_of(&rt, Tool::Snlrun) {
        Ok(job) => run_file(&rt, &job),
        Err(status) => status,
    };
    ExitCode::from(status.code())
}

/// Runs the program in the file of a job.
fn run_file(rt: &HostRuntime, job: &Job) -> Status {
    match source_of(rt, "snlrun", job.file.as_str()) {
        Ok(source) => run_over_input(rt, source.as_slice(), job),
        Err(status) => status,
    }
}

/// Runs a program over standard input, and says what is to be said of it. The messages come behind the run, and the line
/// that tells of a bad line of the trace comes last.
fn run_over_input(rt: &HostRuntime, source: &[u8], job: &Job) -> Status {
    let Ok(mut lines) = Lines::new(rt.alloc(), Outlet::new(rt.stdout())) else {
        return Status::Memory;
    };
    let mut trace = Stream::new(rt.stdin());
    let Ok(called) = session_on(rt.alloc(), source, job, &mut trace, &mut lines) else {
        return Status::Memory;
    };
    tell(rt, called.messages.as_slice());
    if !called.is_out {
        return Status::InputOutput;
    }
    if let Some(End::TraceFault(number, fault)) = called.end {
        let _ = eprintln!(rt; "trace:{number}: {fault}");
    }
    called.status
}
