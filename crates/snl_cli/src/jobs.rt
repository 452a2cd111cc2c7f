//! Jobs that are like the one of a call.

use snc_args::Job;
use std::alloc::{AllocError, Global};

/// The same job of another file. The only error is that memory ends.
pub fn job_of_file(alloc: Global, job: &Job, file: &str) -> Result<Job, AllocError> {
    let macros = match &job.macros {
        Some(text) => Some(String::from_str(alloc, text.as_str())?),
        None => None,
    };
    Ok(Job {
        file: String::from_str(alloc, file)?,
        options: job.options,
        tables: job.tables,
        budget: job.budget,
        macros,
    })
}
