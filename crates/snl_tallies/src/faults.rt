//! Why a file of counts is refused.

use thiserror::Error;

/// Why a file of counts is refused. `Display` gives the text for the user.
#[derive(Clone, Copy, Debug, PartialEq, Eq, Drop, Error)]
pub enum ReadFault {
    /// Memory ends.
    #[error("out of memory")]
    Memory,
    /// Its first line is not that of a file of counts.
    #[error("no file that 'snl cover --counts' wrote")]
    Foreign,
    /// Its first line has the version of another program that writes such files.
    #[error("its counts are those of another version of snl")]
    Version,
    /// Its first line has the digest of another source, other macros or other words.
    #[error("its counts are those of another program: the source, MACROS, options or --budget differ")]
    Program,
    /// It ends in or behind this line, and is not whole.
    #[error("it is cut off in line {0}")]
    Cut(u64),
    /// This line is not the one that is written there.
    #[error("line {0} is not what 'snl cover --counts' writes there")]
    Line(u64),
}
