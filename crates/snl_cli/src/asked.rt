//! What a call asks for, with what is known before it is done.

use snc::Status;
use snc_cli::tell;
use snl_args::Call;
use snl_units::ChannelUnits;

/// The exit status of what was done, or of why it could not be done.
pub fn code_of(done: Result<u8, Status>) -> u8 {
    match done {
        Ok(code) => code,
        Err(status) => status.code(),
    }
}

/// A call and its source.
#[derive(Clone, Copy)]
pub struct Asked<'c> {
    /// The text of FILE.
    pub source: &'c [u8],
    /// The words of the call, as they were read.
    pub call: &'c Call,
    /// What is noted of its macros, as lines.
    pub notes: &'c [u8],
    /// What the file of units says that the call names; nothing where it names none.
    pub units: &'c [ChannelUnits],
}

impl<'c> Asked<'c> {
    /// The units that a trace is compared with; None where the call names no file of units.
    pub fn compared(self) -> Option<&'c [ChannelUnits]> {
        match &self.call.units {
            Some(_) => Some(self.units),
            None => None,
        }
    }

    /// Tells the notes and the messages about the source on standard error.
    pub fn tell(self, rt: &HostRuntime, messages: &[u8]) {
        tell(rt, self.notes);
        tell(rt, messages);
    }
}
