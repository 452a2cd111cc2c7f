//! `snc [±X..] [--tables] FILE`: checks the program in FILE.
//!
//! Messages go to standard error; with `--tables` and no error the tables of the program go to standard output.
#![tactic(auto)]

mod reporting;

use reporting::report_on;
use snc::{Job, Status, Tool};
use snc_cli::{Outlet, job_of, source_of};
use std::process::ExitCode;

fn main(rt: HostRuntime) -> ExitCode {
    let status = match job_of(&rt, Tool::Snc) {
        Ok(job) => checked_file(&rt, &job),
        Err(status) => status,
    };
    ExitCode::from(status.code())
}

/// Checks the file of a job.
fn checked_file(rt: &HostRuntime, job: &Job) -> Status {
    match source_of(rt, "snc", job.file.as_str()) {
        Ok(source) => checked_source(rt, source.as_slice(), job),
        Err(status) => status,
    }
}

/// Says what is to be said of a program, and writes its tables where the job asks for them.
fn checked_source(rt: &HostRuntime, source: &[u8], job: &Job) -> Status {
    let mut outlet = Outlet::new(rt.stdout());
    match report_on(rt, source, job, &mut outlet) {
        Ok((_messages, status)) => status,
        Err(_) => Status::Memory,
    }
}
