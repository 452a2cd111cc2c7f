//! The program that a trace is made for, and what channels are to it.

/// What a channel is to the program that a trace is made for.
#[derive(Clone, Copy, Debug, PartialEq, Eq)]
pub enum Role {
    /// There is no program.
    Any,
    /// The program monitors it, and begins with a value of it.
    Monitored,
    /// The program uses it, and begins as soon as it is connected.
    Put,
    /// The program does not have it.
    Foreign,
}

/// A channel of the program that a trace is made for.
#[derive(Drop)]
pub struct ProgramChannel {
    /// Its name, after macros.
    pub name: Vec<u8>,
    /// Whether the program monitors it.
    pub is_monitored: bool,
}

/// The program that a trace is made for.
#[derive(Drop)]
pub struct WishedProgram {
    /// The words that name it: its file, and its macros.
    pub words: Vec<u8>,
    /// Its channels, in their order.
    pub channels: Vec<ProgramChannel>,
}

impl ProgramChannel {
    /// What it is to the program.
    pub fn role(&self) -> Role {
        if self.is_monitored {
            Role::Monitored
        } else {
            Role::Put
        }
    }
}
