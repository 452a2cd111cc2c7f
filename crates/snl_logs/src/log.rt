//! A log that is read line by line. Its form is told by its first lines.

use crate::archive::archive_line;
use crate::camonitor::camonitor_line;
use crate::export::{channel_in, export_line};
use crate::fields::{first_field, unquoted};
use crate::json::{json_line, json_loss, name_in};
use crate::polled::polled_sample;
use crate::samples::{LogLine, Sample};
use crate::stamps::time_of;
use crate::table::{columns_of, table_line};
use crate::texts::{trimmed_end, trimmed_start, without_end};
use std::alloc::{AllocError, Global};

/// How a log is written.
#[derive(Clone, Copy, Debug, PartialEq, Eq)]
pub enum LogForm {
    /// Its first lines do not tell yet.
    Untold,
    /// By `camonitor`, `epics.camonitor` or `caget`, also of a value with no name.
    Camonitor,
    /// As the CSV of an archiver.
    Archive,
    /// As the JSON of an archiver.
    Json,
    /// As the export of one channel after another by Phoebus or CS-Studio.
    Export,
    /// As a table, with commas or tabs: a column for the time and one for each channel.
    Table(u8),
}

/// A log that is read line by line.
#[derive(Drop)]
pub struct Log {
    form: LogForm,
    /// Whether the line that was noted last told the form.
    is_heading: bool,
    /// The channel that samples are of which name none: as the file is named, or as a heading said.
    channel: Vec<u8>,
    /// The channels of a table's columns.
    columns: Vec<Vec<u8>>,
}

/// The form that a line tells which has a time in its first column; None where it has none.
fn form_of_times(line: &[u8]) -> Option<LogForm> {
    if let Some((time, _)) = first_field(line, b',') {
        time_of(unquoted(time))?;
        return Some(LogForm::Archive);
    }
    let (time, _) = first_field(line, b'\t')?;
    time_of(unquoted(time))?;
    Some(LogForm::Export)
}

/// Whether a heading stands over times.
fn is_time(heading: &[u8]) -> bool {
    heading.eq_ignore_ascii_case(b"time")
        || heading.eq_ignore_ascii_case(b"timestamp")
        || heading.eq_ignore_ascii_case(b"date")
        || heading.eq_ignore_ascii_case(b"date/time")
        || heading.eq_ignore_ascii_case(b"date & time")
        || heading.eq_ignore_ascii_case(b"sample time")
}

/// The form that the heading of a table tells: its columns behind the first are channels, or what is told of one channel.
fn form_of_heading(line: &[u8]) -> Option<LogForm> {
    if let Some((time, behind)) = first_field(line, b'\t') {
        return if !is_time(unquoted(time)) {
            None
        } else if behind.starts_with(b"Value") {
            Some(LogForm::Export)
        } else {
            Some(LogForm::Table(b'\t'))
        };
    }
    let (time, _) = first_field(line, b',')?;
    if is_time(unquoted(time)) {
        Some(LogForm::Table(b','))
    } else {
        None
    }
}

/// The form that a line tells.
fn form_of(line: &[u8]) -> LogForm {
    let bare = trimmed_end(trimmed_start(line));
    match bare {
        [] => LogForm::Untold,
        [b'[' | b'{', ..] => LogForm::Json,
        [b'#', behind @ ..] => form_of_heading(behind).unwrap_or(LogForm::Untold),
        _ => form_of_times(bare)
            .or_else(|| form_of_heading(bare))
            .unwrap_or(LogForm::Camonitor),
    }
}

impl Log {
    /// A log of which nothing was read. Where its lines name no channel, they are of the one that the file is named after.
    pub fn new(alloc: Global, channel: &[u8]) -> Result<Log, AllocError> {
        Ok(Log {
            form: LogForm::Untold,
            is_heading: false,
            channel: Vec::from_slice(alloc, channel)?,
            columns: Vec::new(alloc),
        })
    }

    /// How the log is written, as far as its lines told.
    pub fn form(&self) -> LogForm {
        self.form
    }

    /// Whether its lines told how it is written.
    pub fn is_told(&self) -> bool {
        self.form != LogForm::Untold
    }

    /// Whether it may have one channel behind the other, as far as its lines told: then its times go back where another one begins.
    pub fn is_parted(&self) -> bool {
        self.form == LogForm::Json || self.form == LogForm::Export
    }

    /// Whether the line that was noted last names the channel of those behind it.
    pub fn is_named_by(&self, line: &[u8]) -> bool {
        let line = without_end(line);
        match self.form {
            LogForm::Untold | LogForm::Export => channel_in(line).is_some(),
            LogForm::Json => name_in(line).is_some(),
            LogForm::Camonitor | LogForm::Archive | LogForm::Table(_) => false,
        }
    }

    /// Notes what the next line says of those behind it: the form of the log, or a channel. The line may have what ends it.
    pub fn note(&mut self, alloc: Global, line: &[u8]) -> Result<(), AllocError> {
        let line = without_end(line);
        self.is_heading = self.form == LogForm::Untold;
        match self.form {
            LogForm::Untold => self.note_form(alloc, line),
            LogForm::Json => self.note_name(name_in(line)),
            LogForm::Export => self.note_name(channel_in(line)),
            _ => Ok(()),
        }
    }

    /// Notes the form that a line tells, and what it says as a heading.
    fn note_form(&mut self, alloc: Global, line: &[u8]) -> Result<(), AllocError> {
        self.form = form_of(line);
        match self.form {
            LogForm::Table(mark) => {
                self.columns = columns_of(alloc, line, mark)?;
                Ok(())
            }
            LogForm::Json => self.note_name(name_in(line)),
            _ => self.note_name(channel_in(line)),
        }
    }

    /// Notes the channel that a heading names, if it names one.
    fn note_name(&mut self, name: Option<&[u8]>) -> Result<(), AllocError> {
        if let Some(name) = name {
            self.channel.clear();
            self.channel.extend_from_slice(name)?;
        }
        Ok(())
    }

    /// That a channel was lost before what the line says that was noted last, where the line tells so.
    pub fn lost<'l>(&'l self, line: &'l [u8]) -> Option<Sample<'l>> {
        match self.form {
            LogForm::Json => json_loss(self.channel.as_slice(), line),
            _ => None,
        }
    }

    /// What the line says that was noted last.
    pub fn said<'l>(&'l self, line: &'l [u8]) -> LogLine<'l> {
        let line = without_end(line);
        match self.form {
            LogForm::Untold => LogLine::Silent,
            LogForm::Camonitor => match polled_sample(self.channel.as_slice(), line) {
                Some(sample) => LogLine::Sample(sample),
                None => camonitor_line(line),
            },
            LogForm::Archive => archive_line(self.channel.as_slice(), line),
            LogForm::Json => json_line(self.channel.as_slice(), line),
            LogForm::Export => export_line(self.channel.as_slice(), line),
            LogForm::Table(_) if self.is_heading => LogLine::Silent,
            LogForm::Table(mark) => table_line(self.columns.as_slice(), line, mark),
        }
    }
}
