//! A report of tests in the XML of JUnit.

use crate::escaped::push_escaped;
use crate::visible::push_visible;
use itoa::Buffer;
use std::alloc::{AllocError, Global};

/// The tests of a call, as they are reported.
#[derive(Drop)]
pub struct Report {
    /// The elements of the tests.
    cases: Vec<u8>,
    tests: u64,
    failures: u64,
    /// How long all took, in microseconds.
    micros: u64,
}

/// Adds a number. The only error is that memory ends.
fn push_number(out: &mut Vec<u8>, number: u64) -> Result<(), AllocError> {
    let mut digits = Buffer::new();
    out.extend_from_slice(digits.format(number).as_bytes())
}

/// Adds a text as an XML has it. The only error is that memory ends.
fn push_text(alloc: Global, out: &mut Vec<u8>, text: &[u8]) -> Result<(), AllocError> {
    let mut visible = Vec::new(alloc);
    push_visible(&mut visible, text)?;
    push_escaped(out, visible.as_slice())
}

/// Adds an attribute. The only error is that memory ends.
fn push_attribute(
    alloc: Global,
    out: &mut Vec<u8>,
    name: &[u8],
    value: &[u8],
) -> Result<(), AllocError> {
    out.extend_from_slice(b" ")?;
    out.extend_from_slice(name)?;
    out.extend_from_slice(b"=\"")?;
    push_text(alloc, out, value)?;
    out.extend_from_slice(b"\"")
}

/// Adds a time in seconds, with three digits behind the point. The only error is that memory ends.
fn push_time(out: &mut Vec<u8>, micros: u64) -> Result<(), AllocError> {
    let ms = micros / 1_000;
    out.extend_from_slice(b" time=\"")?;
    push_number(out, ms / 1_000)?;
    out.extend_from_slice(b".")?;
    let digits = [
        b'0' + (ms / 100 % 10) as u8,
        b'0' + (ms / 10 % 10) as u8,
        b'0' + (ms % 10) as u8,
    ];
    out.extend_from_slice(&digits)?;
    out.extend_from_slice(b"\"")
}

/// Adds the lines of a text. The only error is that memory ends.
fn push_lines(alloc: Global, out: &mut Vec<u8>, text: &[u8]) -> Result<(), AllocError> {
    for line in text.split(|byte| *byte == b'\n') {
        push_text(alloc, out, line)?;
        out.extend_from_slice(b"\n")?;
    }
    Ok(())
}

/// The first line of a text, without the blanks in front.
fn first_line(text: &[u8]) -> &[u8] {
    let line = match text.iter().position(|byte| *byte == b'\n') {
        Some(end) => text.get(..end).unwrap_or(text),
        None => text,
    };
    line.trim_ascii_start()
}

/// Adds the front of a test: its folder, its name and its time. The only error is that memory ends.
fn push_case(
    alloc: Global,
    out: &mut Vec<u8>,
    folder: &str,
    name: &str,
    micros: u64,
) -> Result<(), AllocError> {
    out.extend_from_slice(b"<testcase")?;
    push_attribute(alloc, out, b"classname", folder.as_bytes())?;
    push_attribute(alloc, out, b"name", name.as_bytes())?;
    push_time(out, micros)
}

/// Adds the text of a failure, and the end of its test. The only error is that memory ends.
fn push_failure(alloc: Global, out: &mut Vec<u8>, text: &[u8]) -> Result<(), AllocError> {
    out.extend_from_slice(b"><failure")?;
    push_attribute(alloc, out, b"message", first_line(text))?;
    out.extend_from_slice(b">")?;
    push_lines(alloc, out, text)?;
    out.extend_from_slice(b"</failure></testcase>\n")
}

impl Report {
    /// No test was reported yet.
    pub fn new(alloc: Global) -> Report {
        Report {
            cases: Vec::new(alloc),
            tests: 0,
            failures: 0,
            micros: 0,
        }
    }

    /// Adds a test of a folder that took so many microseconds, with the text of its failure where it has one. The only error is that
    /// memory ends; then the report is spoilt.
    pub fn add(
        &mut self,
        alloc: Global,
        folder: &str,
        name: &str,
        micros: u64,
        failure: Option<&[u8]>,
    ) -> Result<(), AllocError> {
        self.tests = self.tests.saturating_add(1);
        self.micros = self.micros.saturating_add(micros);
        push_case(alloc, &mut self.cases, folder, name, micros)?;
        match failure {
            None => self.cases.extend_from_slice(b"/>\n"),
            Some(text) => {
                self.failures = self.failures.saturating_add(1);
                push_failure(alloc, &mut self.cases, text)
            }
        }
    }

    /// Adds how many tests there are, and how long they took. The only error is that memory ends.
    fn push_counts(&self, out: &mut Vec<u8>) -> Result<(), AllocError> {
        out.extend_from_slice(b" tests=\"")?;
        push_number(out, self.tests)?;
        out.extend_from_slice(b"\" failures=\"")?;
        push_number(out, self.failures)?;
        out.extend_from_slice(b"\" errors=\"0\"")?;
        push_time(out, self.micros)
    }

    /// The report as the text of a file. The only error is that memory ends.
    pub fn text(&self, alloc: Global) -> Result<Vec<u8>, AllocError> {
        let mut out = Vec::new(alloc);
        out.extend_from_slice(b"<?xml version=\"1.0\" encoding=\"UTF-8\"?>\n<testsuites")?;
        self.push_counts(&mut out)?;
        out.extend_from_slice(b">\n<testsuite name=\"snl test\"")?;
        self.push_counts(&mut out)?;
        out.extend_from_slice(b">\n")?;
        out.extend_from_slice(self.cases.as_slice())?;
        out.extend_from_slice(b"</testsuite>\n</testsuites>\n")?;
        Ok(out)
    }
}
