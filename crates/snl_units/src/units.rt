//! What a file of units says of channels.

/// A text, and the number that it stands for.
#[derive(Drop)]
pub struct TextNumber {
    /// The text.
    pub text: Vec<u8>,
    /// The number.
    pub number: i64,
}

/// What is said of a channel.
#[derive(Drop)]
pub enum Unit {
    /// The trace has the control system's number times the first one by the second one, rounded.
    Scale(u64, u64),
    /// Its texts stand for numbers.
    Enum(Vec<TextNumber>),
    /// It is the severity of a record.
    Severity,
    /// It is 1 where the channel's text has this form, else 0: these pieces, with anything between them.
    Text(Vec<Vec<u8>>),
    /// It is a time, in whole seconds: of the stamps of a record, or of the clock.
    Time,
}

/// What is said of the channel of a name.
#[derive(Drop)]
pub struct ChannelUnits {
    /// The channel's name, as a trace has it.
    pub name: Vec<u8>,
    /// What is said of it.
    pub unit: Unit,
}

impl Unit {
    /// The word that says this.
    pub(crate) fn word(&self) -> &'static [u8] {
        match self {
            Unit::Scale(_, _) => b"scale",
            Unit::Enum(_) => b"enum",
            Unit::Severity => b"severity",
            Unit::Text(_) => b"text",
            Unit::Time => b"time",
        }
    }

    /// The number of the word that says this.
    pub(crate) fn kind(&self) -> u8 {
        match self {
            Unit::Scale(_, _) => 0,
            Unit::Enum(_) => 1,
            Unit::Severity => 2,
            Unit::Text(_) => 3,
            Unit::Time => 4,
        }
    }
}
