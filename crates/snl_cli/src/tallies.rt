//! What `snl test` tells of its tests, and what it counts.

use crate::suites::Folder;
use crate::verdicts::Verdict;
use crate::wholes::check_written;
use snc::Status;
use snc_cli::write;
use snl_suite::Report;
use std::alloc::AllocError;
use std::fs;
use std::time::Instant;

/// What was told so far.
#[derive(Drop)]
pub struct Tally {
    right: u64,
    wrong: u64,
    written: u64,
    /// Whether a file could not be read or written.
    is_stuck: bool,
    report: Report,
}

/// How many microseconds have passed since a time; 0 where there is no clock.
fn micros_since(rt: &HostRuntime, begun: Option<Instant>) -> u64 {
    match (begun, Instant::now(rt)) {
        (Some(begun), Ok(now)) => now
            .duration_since(begun)
            .as_micros()
            .min(u64::MAX as u128) as u64,
        _ => 0,
    }
}

/// What stands in the report of a failure.
fn reason_of(text: &[u8]) -> &[u8] {
    match text.strip_prefix(b": ") {
        Some(reason) => reason,
        None => text.trim_ascii_start(),
    }
}

/// The line of a test, and what stands behind it.
fn text_of(
    rt: &HostRuntime,
    folder: &Folder,
    stem: &str,
    verdict: &Verdict,
) -> Result<Vec<u8>, AllocError> {
    let front = folder.front.as_str();
    let (line, more) = match verdict {
        Verdict::Right => (
            format!(in rt.alloc(); "ok {front}{stem}\n")?,
            b"".as_slice(),
        ),
        Verdict::Wrong(text) | Verdict::Stuck(text) => {
            (
                format!(in rt.alloc(); "FAILED {front}{stem}")?,
                text.as_slice(),
            )
        }
        Verdict::Written(text) => {
            (
                format!(in rt.alloc(); "wrote {front}{stem}.out")?,
                text.as_slice(),
            )
        }
    };
    let mut text = Vec::from_slice(rt.alloc(), line.as_bytes())?;
    text.extend_from_slice(more)?;
    Ok(text)
}

impl Tally {
    /// Nothing was told yet.
    pub fn new(rt: &HostRuntime) -> Tally {
        Tally {
            right: 0,
            wrong: 0,
            written: 0,
            is_stuck: false,
            report: Report::new(rt.alloc()),
        }
    }

    /// Counts a test.
    fn count(&mut self, verdict: &Verdict) {
        match verdict {
            Verdict::Right => self.right = self.right.saturating_add(1),
            Verdict::Wrong(_) => self.wrong = self.wrong.saturating_add(1),
            Verdict::Stuck(_) => {
                self.wrong = self.wrong.saturating_add(1);
                self.is_stuck = true;
            }
            Verdict::Written(_) => self.written = self.written.saturating_add(1),
        }
    }

    /// Tells and counts what came of a test that began at a time.
    pub fn note(
        &mut self,
        rt: &HostRuntime,
        folder: &Folder,
        stem: &str,
        verdict: &Verdict,
        begun: Option<Instant>,
    ) -> Result<(), Status> {
        let text = text_of(rt, folder, stem, verdict)?;
        write(rt, text.as_slice())?;
        self.count(verdict);
        let failure = match verdict {
            Verdict::Wrong(text) | Verdict::Stuck(text) => Some(reason_of(text.as_slice())),
            Verdict::Right | Verdict::Written(_) => None,
        };
        let front = folder.front.as_str();
        let micros = micros_since(rt, begun);
        Ok(self.report.add(rt.alloc(), front, stem, micros, failure)?)
    }

    /// Tells how many tests are right, how many were written, if any, and how many failed.
    pub fn tell_sum(&self, rt: &HostRuntime) -> Result<(), Status> {
        let (right, wrong, written) = (self.right, self.wrong, self.written);
        let text = if written == 0 {
            format!(in rt.alloc(); "{right} passed, {wrong} failed\n")?
        } else {
            format!(in rt.alloc(); "{right} passed, {written} written, {wrong} failed\n")?
        };
        write(rt, text.as_bytes())
    }

    /// Writes the report into a file. Where that fails, the user is told.
    pub fn write_report(&self, rt: &HostRuntime, path: &str) -> Result<(), Status> {
        let text = self.report.text(rt.alloc())?;
        check_written(rt, path, fs::write(rt, path, text.as_slice()))
    }

    /// The status of all.
    pub fn status(&self) -> Status {
        if self.is_stuck {
            Status::InputOutput
        } else if self.wrong > 0 {
            Status::SourceErrors
        } else {
            Status::Well
        }
    }
}
