//! The report of a call, on its stream.

ghost use Rattle.std.specs.Prelude.{◌≡◌, [], IfOk, string_bytes};
ghost use Rattle.snc.specs.Outcomes.{IsReport};

use snc::{Job, Status, report};
use snc_cli::{Outlet, tell};
use std::alloc::AllocError;

/// Reads and checks a program, writes the messages to standard error and, where the job asks for them, the tables to standard
/// output. Answers the messages, and the status, which is `InputOutput` where the tables could not be written. What standard
/// output took is what the rules give.
///
/// Nothing was written to standard output yet. Fails only where memory ran out.
pub fn report_on(
    rt: &HostRuntime,
    source: &[u8],
    job: &Job,
    outlet: &mut Outlet,
) -> Result<(Vec<u8>, Status), AllocError>
    requires { outlet.old.past.bytes ≡ [] }
    ensures { IfOk result (λ r. (r.1 ≡ Status.InputOutput → ⊥) → IsReport job.now.options
        job.now.tables (string_bytes job.now.file) source.now r.0.items
        outlet.new.past.bytes r.1) }
{
    let report = report(rt.alloc(), source, job)?;
    tell(rt, report.messages.as_slice());
    match outlet.write_out(report.tables.as_slice()) {
        Ok(()) => Ok((report.messages, report.status)),
        Err(_) => Ok((report.messages, Status::InputOutput)),
    }
}
