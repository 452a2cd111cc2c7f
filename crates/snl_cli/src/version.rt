//! The version of the programs.

/// The version of the programs, that of the file VERSION.
pub const VERSION: &str = "0.9.0";
